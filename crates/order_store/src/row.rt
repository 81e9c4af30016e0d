ghost use Rattle.std.specs.Prelude.{◌≡◌, ◌+◌, ◌≤◌, ◌<◌, ◌↔◌, [], true, false, length, nat_lt, IfOk, OnOk};
ghost use Rattle.std.specs.List.{All};
ghost use Rattle.std.specs.List.Sorted.{IsPartitionPoint};
ghost use Rattle.order_store.specs.inside.Rows.{is_at, key_in, with_key};

use fx_amounts::Memory;
use std::alloc::Global;
use std::marker::Model;

/// How many entries a row has capacity for from the first one on.
const FIRST: usize = 16;

/// The number of an order in its bank's stream, and the key that it was kept under.
#[derive(Clone, Copy, Debug, PartialEq, Eq)]
pub(crate) struct Numbered {
    number: u32,
    key: u32,
}

/// The keys of one bank's orders, by rising number. An entry may be stale: its order has gone. A removal leaves the row as it
/// is, so that it takes no search in it.
#[derive(Drop)]
pub(crate) struct NumberRow {
    entries: Vec<Numbered>,
}

impl Model for NumberRow {
    ghost use Rattle.std.specs.Prelude.{◌-◌, vec_capacity, vec_len};
    ghost use Rattle.order_store.specs.inside.Rows.{AreRising, Row};

    ghost Value = { Row };

    ghost view = { λ r. record { entries = r.entries.items; room = vec_capacity r.entries - vec_len r.entries } };

    ghost invariant = { λ r. AreRising r.entries.items };
}

impl NumberRow {
    /// No entries, and no room for any. It takes no memory.
    pub(crate) fn new(alloc: Global) -> Self
        ensures empty { result.entries ≡ [] }
    {
        NumberRow {
            entries: Vec::new(alloc),
        }
    }

    /// The key that stands with a number; `None` where there is no such entry. The order may have gone since. A number above all others
    /// takes no search.
    pub(crate) fn key_of(&self, number: u32) -> Option<u32>
        ensures key { result ≡ key_in self.now.entries number }
    {
        if self.is_below(number) {
            return None;
        }
        let entry = self.entries.get(self.place_of(number))?;
        if entry.number == number {
            Some(entry.key)
        } else {
            None
        }
    }

    /// Puts a key with a number, in the place of the one that stands with it, if any. It takes one of the places that there is
    /// room for at most.
    #[inline(always)]
    pub(crate) fn add(&mut self, number: u32, key: u32)
        requires room { 1 ≤ self.old.room }
        ensures entries { self.new.entries ≡ with_key number key self.old.entries }
        ensures room { self.old.room ≤ self.new.room + 1 }
    {
        let entry = Numbered { number, key };
        if self.is_below(number) {
            self.entries.push_reserved(entry);
        } else {
            self.put(entry);
        }
    }

    /// Makes room for one entry more, and keeps stale ones. A full row grows to twice its length. At `Memory` there may be none.
    #[inline(always)]
    pub(crate) fn widen(&mut self) -> Result<(), Memory>
        ensures room { OnOk result (1 ≤ self.new.room) }
        ensures kept_room { self.old.room ≤ self.new.room }
        ensures entries { self.new.entries ≡ self.old.entries }
    {
        if self.entries.len() == self.entries.capacity() {
            self.entries.reserve_exact(self.entries.len().max(FIRST))?;
        }
        Ok(())
    }

    /// Whether all entries have lower numbers.
    fn is_below(&self, number: u32) -> bool
        ensures below { (result ≡ true) ↔ All (λ entry. entry.number < number) self.now.entries }
    {
        match self.entries.last() {
            Some(last) => last.number < number,
            None => true,
        }
    }

    /// How many entries have lower numbers. It searches by halves.
    fn place_of(&self, number: u32) -> usize
        ensures within { result ≤ length self.now.entries }
        ensures parted { IsPartitionPoint (λ entry. nat_lt entry.number number ≡ true) (λ entry. nat_lt entry.number number ≡ false) self.now.entries result }
    {
        self.entries.partition_point(|entry| entry.number < number)
    }

    /// Puts an entry at its place by number, where there is room.
    fn put(&mut self, entry: Numbered)
        requires room { 1 ≤ self.old.room }
        ensures entries { self.new.entries ≡ with_key entry.number entry.key self.old.entries }
        ensures room { self.old.room ≤ self.new.room + 1 }
    {
        let at = self.place_of(entry.number);
        if self.is_at(at, entry.number) {
            self.entries[at] = entry;
        } else {
            self.entries.insert(at, entry).unwrap();
        }
    }

    /// Whether an entry with this number stands at an index.
    fn is_at(&self, at: usize, number: u32) -> bool
        ensures { result ≡ is_at number self.now.entries at }
    {
        match self.entries.get(at) {
            Some(entry) => entry.number == number,
            None => false,
        }
    }
}

/// So many rows with no entries.
pub(crate) fn bare_rows(alloc: Global, count: usize) -> Result<Vec<NumberRow>, Memory>
    ensures count { IfOk result (λ rows. length rows.items ≡ count) }
{
    let mut rows = Vec::new(alloc);
    for _bank in 0..count {
        rows.push(NumberRow::new(alloc))?;
    }
    Ok(rows)
}
