ghost use Rattle.std.specs.Prelude.{◌≡◌, ◌+◌, ◌-◌, ◌<◌, ◌≤◌, ◌++◌, ◌∷◌, [], true, OnOk, OnErr};
ghost use mathlib.Core.List.{IsPrefix};
ghost use Rattle.fx_chronicle.specs.Touching.{Untouched, touched, pends, without, but_last};
ghost use Rattle.fx_chronicle.specs.Faces.{witness};
ghost use Rattle.fx_chronicle.specs.Rule.{Settled};

use crate::names::Naming;
use crate::rule::{History, View};
use crate::steps;
use crate::tokens::Front;
use atomic_table::Badge;
use fx_amounts::Memory;
use fx_rules::Keyed;
use std::alloc::Global;
use std::marker::{Model, PhantomData};
use std::mem;
use std::sync::Arc;

/// The history. Contracts see its entries, for how many more it has room, how many keys were dealt, and the keys that
/// have still to sign the last entry.
#[derive(Drop)]
pub struct Writer<N: Naming, E: Keyed + Drop> {
    pub(crate) entries: Vec<E>,
    pub(crate) keys: u32,
    pub(crate) table: Arc<History<E>, Global>,
    pub(crate) badge: Badge<View<E>>,
    pub(crate) of: PhantomData<N>,
}

impl<N: Naming, E: Keyed + Drop> Model for Writer<N, E> {
    ghost use Rattle.std.specs.Prelude.{◌≡◌, ◌-◌, [], ◌∷◌, vec_len, vec_capacity};
    ghost use Rattle.std.specs.Arc.{arc_value};
    ghost use Rattle.fx_chronicle.specs.Faces.{Chronicle};
    ghost use Rattle.fx_chronicle.specs.inside.Faces.{AtNamed};
    ghost use Rattle.fx_chronicle.specs.Views.{writer};
    ghost use Rattle.fx_chronicle.specs.inside.Views.{pending_of};

    ghost Value = { Chronicle E };

    ghost view = { λ w. record {
      entries = w.entries.items;
      room = vec_capacity w.entries - vec_len w.entries;
      keys = w.keys;
      pending = pending_of w.badge.views;
    } };

    ghost invariant = { λ w. record {
      table : AtNamed N.table (arc_value w.table).shared.table_id w.badge.table_id;
      views : w.badge.views ≡ writer w.entries.items (pending_of w.badge.views) w.keys ∷ [];
    } };
}

impl<N: Naming, E: Keyed + Drop> Writer<N, E> {
    /// All entries, in order.
    pub fn entries(&self) -> &[E]
        ensures entries { result.now ≡ self.now.entries }
    {
        self.entries.as_slice()
    }

    /// Makes room for one entry. At `Memory` the writer is as before.
    pub fn reserve(&mut self) -> Result<(), Memory>
        ensures value { self.new ≡ record self.old { room = self.new.room } }
        ensures room { OnOk result (0 < self.new.room) }
        ensures grows { self.old.room ≤ self.new.room }
        ensures memory { OnErr result (self.new ≡ self.old) }
    {
        self.entries.reserve(1)?;
        Ok(())
    }

    /// Adds the entry. The keys that it touches have to sign before the next one.
    pub fn commit(&mut self, entry: E)
        requires room { 0 < self.old.room }
        requires signed { self.old.pending ≡ [] }
        ensures value { self.new ≡ record {
          entries = self.old.entries ++ entry ∷ [];
          room = self.old.room - 1;
          keys = self.old.keys;
          pending = touched E.touches entry self.old.keys;
        } }
    {
        let mut seat = mem::replace(&mut self.badge, Badge::blank()).into_seat();
        steps::commit(
            &self.table.shared,
            &mut seat,
            self.entries.len() as u64,
            &entry,
        );
        self.badge = seat.into_badge();
        self.entries.push_reserved(entry);
    }

    /// The front has then seen all entries. None behind those that it had met touches its key.
    pub fn catch_up(&mut self, front: &mut Front<N, E>)
        requires signed { self.old.pending ≡ [] }
        ensures front { front.new ≡ witness front.old.key self.old.entries }
        ensures seen { IsPrefix front.old.seen self.old.entries }
        ensures missed { Untouched E.touches front.old.key front.old.met self.old.entries }
        ensures same { self.new ≡ self.old }
    {
        self.meet(front);
    }

    /// The front signs the last entry, which touches its key, and has then seen all entries. Of those before the last, none
    /// behind those that it had met touches its key.
    pub fn sign(&mut self, front: &mut Front<N, E>)
        requires pends { pends self.old.pending front.old.key ≡ true }
        ensures front { front.new ≡ witness front.old.key self.old.entries }
        ensures seen { IsPrefix front.old.seen self.old.entries }
        ensures missed { Untouched E.touches front.old.key front.old.met (but_last self.old.entries) }
        ensures value { self.new ≡ record self.old { pending = without front.old.key self.old.pending } }
    {
        self.meet(front);
    }

    /// The front meets all entries, and has no more to sign.
    fn meet(&mut self, front: &mut Front<N, E>)
        ensures front { front.new ≡ witness front.old.key self.old.entries }
        ensures seen { IsPrefix front.old.seen self.old.entries }
        ensures settled { Settled E.touches front.old.key self.old.pending front.old.met self.old.entries }
        ensures value { self.new ≡ record self.old { pending = without front.old.key self.old.pending } }
    {
        let mut seat = mem::replace(&mut self.badge, Badge::blank()).into_seat();
        front.meet(&mut seat, self.entries.len() as u64);
        self.badge = seat.into_badge();
    }
}

/// The entries, once every key has signed. It takes no memory.
pub fn close<N: Naming, E: Keyed + Drop>(writer: Writer<N, E>) -> Vec<E>
    requires signed { writer.pending ≡ [] }
    ensures entries { result.items ≡ writer.entries }
{
    writer.entries
}
