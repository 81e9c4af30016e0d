ghost use Rattle.std.specs.Prelude.{ℕ, ◌≡◌, ◌≢◌, ◌+◌, ◌-◌, ◌≤◌, ◌<◌, ◌^◌, None, true, nat_eq, slice_index_or, IfOk, IfSome, OnOk};
ghost use Rattle.std.specs.Map.{lookup};
ghost use Rattle.std.specs.Option.{option_copied};
ghost use Rattle.price_levels.specs.Ticks.{last_of_level, no_level, with_order, without_order};
ghost use Rattle.access_index.specs.Heads.{IsHead};
ghost use Rattle.access_index.specs.Ranked.{AreHeadWords, IsHeadOf, bank_holds, bank_level, with_bank_level};
ghost use Rattle.access_index.specs.inside.Ranked.{AreNumbered};
ghost use Rattle.price_levels.specs.Rungs.{IsNextRank, level_at};

use crate::words::{Head, HeadWords};
use fx_amounts::{BankId, Lots, Memory};
use indexmap::IndexMap;
use price_levels::{Ladder, Level};
use std::alloc::Global;
use std::marker::Model;

/// For each bank the levels of its orders of one side in one pair, by rank, and its best order in a word. Ranks are 10^9 at most.
#[derive(Drop)]
pub struct RankedOwners {
    /// The ladders of the owners, in the order in which these came. None is taken out.
    ladders: IndexMap<BankId, Ladder>,
    /// For each sender where its ladder stands among these, so that no look-up takes a hash.
    numbers: [Option<u8>; BankId::SENDERS],
    heads: HeadWords,
}

impl Model for RankedOwners {
    ghost use Rattle.std.specs.Prelude.{ℕ, List};
    ghost use Rattle.price_levels.specs.Rungs.{Rungs};
    ghost use Rattle.access_index.specs.inside.Ranked.{AreKept};

    ghost Value = { List (ℕ × Rungs) };

    ghost view = { λ r. r.ladders.entries };

    ghost invariant = { λ r. AreKept r.numbers r.ladders.entries r.heads };
}

impl RankedOwners {
    /// No orders, and capacity for all banks. `Memory` when out of memory.
    pub fn new(alloc: Global) -> Result<RankedOwners, Memory>
        ensures { IfOk result (λ owners. (bank rank : ℕ) → bank_level owners bank rank ≡ no_level) }
    {
        Ok(RankedOwners {
            ladders: IndexMap::with_capacity(alloc, BankId::COUNT)?,
            numbers: [None; BankId::SENDERS],
            heads: HeadWords::new(),
        })
    }

    /// The levels of a bank, by rank; `None` where it never had an order.
    pub fn ladder(&self, bank: BankId) -> Option<&Ladder>
        ensures { option_copied result ≡ lookup (nat_eq bank) self.now }
    {
        let number = self.numbers[bank.index()]?;
        Some(&self.ladders[usize::from(number)])
    }

    /// The level of a bank at a rank; one without orders where the bank has none there.
    pub fn level(&self, bank: BankId, rank: u32) -> Level
        ensures { result ≡ bank_level self.now bank rank }
    {
        match self.ladder(bank) {
            Some(ladder) => ladder.level(rank),
            None => Level::NONE,
        }
    }

    /// Sees to it that an order of a bank can come to rest at a rank without taking memory, until this is asked for another rank of the
    /// bank. At `Memory` each level is as it was.
    #[inline(always)]
    pub fn reserve(&mut self, bank: BankId, rank: u32) -> Result<(), Memory>
        requires rank { rank ≤ 10 ^ 9 }
        ensures holds { OnOk result (bank_holds self.new bank rank ≡ true) }
        ensures others { (other at : ℕ) → other ≢ bank → bank_holds self.new other at ≡ bank_holds self.old other at }
        ensures levels { (other at : ℕ) → bank_level self.new other at ≡ bank_level self.old other at }
    {
        let Some(number) = self.numbers[bank.index()] else {
            return add_owner(&mut self.ladders, &mut self.numbers, bank, rank);
        };
        let ladder = &mut self.ladders[usize::from(number)];
        ladder.reserve(rank)
    }

    /// An order of so many lots of a bank comes to rest at a rank that was made ready for it, behind all others there. Its place in the
    /// list of orders is below 2^28. It answers the place of the last order there before it, where there is one.
    #[inline(always)]
    pub fn insert(&mut self, bank: BankId, rank: u32, place: u32, lots: Lots) -> Option<u32>
        requires bank { bank < 64 }
        requires rank { rank ≤ 10 ^ 9 }
        requires place { place < 2 ^ 28 }
        requires holds { bank_holds self.old bank rank ≡ true }
        requires fits { (bank_level self.old bank rank).lots + lots < 2 ^ 64 }
        ensures before { result ≡ last_of_level (bank_level self.old bank rank) }
        ensures levels { (other at : ℕ) → bank_level self.new other at ≡ with_bank_level (bank_level self.old) bank rank (with_order (bank_level self.old bank rank) place lots) other at }
        ensures holds { (other at : ℕ) → bank_holds self.new other at ≡ bank_holds self.old other at }
    {
        prove!(lots.count() > 0);
        let number = self.numbers[bank.index()].unwrap();
        let ladder = &mut self.ladders[usize::from(number)];
        let before = ladder.insert(rank, place, lots);
        self.heads.add(bank, Head { rank, place });
        before
    }

    /// One of the orders of a bank at a rank has so many lots less, and some left.
    pub fn lower(&mut self, bank: BankId, rank: u32, lots: Lots)
        requires bank { bank < 64 }
        requires above { lots < (bank_level self.old bank rank).lots }
        ensures levels { (other at : ℕ) → bank_level self.new other at ≡ with_bank_level (bank_level self.old) bank rank (record (bank_level self.old bank rank) { lots = (bank_level self.old bank rank).lots - lots }) other at }
        ensures holds { (other at : ℕ) → bank_holds self.new other at ≡ bank_holds self.old other at }
    {
        let number = self.numbers[bank.index()].unwrap();
        let ladder = &mut self.ladders[usize::from(number)];
        ladder.lower(rank, lots);
    }

    /// An order of a bank at a rank goes, which had so many lots left and stood between two others there, where there are such. Their
    /// places are below 2^28.
    pub fn remove(
        &mut self,
        bank: BankId,
        rank: u32,
        lots: Lots,
        before: Option<u32>,
        behind: Option<u32>,
    )
        requires bank { bank < 64 }
        requires has { lots ≤ (bank_level self.old bank rank).lots }
        requires behind { IfSome behind (λ place. place < 2 ^ 28) }
        ensures levels { (other at : ℕ) → bank_level self.new other at ≡ with_bank_level (bank_level self.old) bank rank (without_order (bank_level self.old bank rank) lots before behind) other at }
        ensures holds { (other at : ℕ) → bank_holds self.new other at ≡ bank_holds self.old other at }
    {
        prove!(lots.count() > 0);
        let from = match self.heads.of(bank) {
            Some(head) => head.rank,
            None => rank,
        };
        let number = self.numbers[bank.index()].unwrap();
        let ladder = &mut self.ladders[usize::from(number)];
        ladder.remove(rank, lots, before, behind);
        let head = head_from(ladder, from);
        self.heads.set(bank, head);
    }

    /// The first rank with orders of a bank from a rank on; `None` where there is none.
    pub fn next(&self, bank: BankId, from: u32) -> Option<u32>
        ensures found { IfSome result (IsNextRank (bank_level self.now bank) from) }
        ensures none { result ≡ None → (rank : ℕ) → from ≤ rank → (bank_level self.now bank rank).lots ≡ 0 }
    {
        self.ladder(bank)?.next(from)
    }

    /// The level of a bank at a rank, and the first rank behind it with orders of the bank; `None` where there is none.
    pub fn level_and_next(&self, bank: BankId, rank: u32) -> (Level, Option<u32>)
        requires rank { rank ≤ 10 ^ 9 }
        ensures level { result.0 ≡ bank_level self.now bank rank }
        ensures found { IfSome result.1 (IsNextRank (bank_level self.now bank) (rank + 1)) }
        ensures none { result.1 ≡ None → (other : ℕ) → rank < other → (bank_level self.now bank other).lots ≡ 0 }
    {
        match self.ladder(bank) {
            Some(ladder) => ladder.level_and_next(rank),
            None => (Level::NONE, None),
        }
    }

    /// For each bank the word of its best order: its rank, its place and the bank in one number. All bits are set where it has none.
    pub fn words(&self) -> &[u64; BankId::COUNT]
        ensures { AreHeadWords (bank_level self.now) result.now }
    {
        self.heads.words()
    }

    /// The best order of each bank.
    pub fn heads(&self) -> &HeadWords
        ensures { (bank : ℕ) → bank < 64 → IsHeadOf (bank_level self.now bank) (slice_index_or result.now bank None) × IfSome (slice_index_or result.now bank None) IsHead }
    {
        &self.heads
    }

    /// The best order of a bank; `None` where it has none.
    pub fn head(&self, bank: BankId) -> Option<Head>
        requires bank { bank < 64 }
        ensures { IsHeadOf (bank_level self.now bank) result }
    {
        self.heads.of(bank)
    }
}

/// A bank without a ladder gets the next number, and a ladder on which an order can come to rest at a rank. At `Memory` each level is as
/// it was.
fn add_owner(
    ladders: &mut IndexMap<BankId, Ladder>,
    numbers: &mut [Option<u8>; BankId::SENDERS],
    bank: BankId,
    rank: u32,
) -> Result<(), Memory>
    requires bank { bank < 65 }
    requires rank { rank ≤ 10 ^ 9 }
    requires numbered { AreNumbered numbers.old ladders.old.entries }
    requires absent { slice_index_or numbers.old bank None ≡ None }
    ensures numbered { AreNumbered numbers.new ladders.new.entries }
    ensures holds { OnOk result (bank_holds ladders.new.entries bank rank ≡ true) }
    ensures others { (other at : ℕ) → other ≢ bank → bank_holds ladders.new.entries other at ≡ bank_holds ladders.old.entries other at }
    ensures levels { (other at : ℕ) → bank_level ladders.new.entries other at ≡ bank_level ladders.old.entries other at }
{
    let mut ladder = Ladder::new(*ladders.allocator());
    ladder.reserve(rank)?;
    let number = ladders.len();
    ladders.insert(bank, ladder)?;
    numbers[bank.index()] = Some(number as u8);
    Ok(())
}

/// The best order of a ladder that has none before a rank.
fn head_from(ladder: &Ladder, from: u32) -> Option<Head>
    requires none { (rank : ℕ) → rank < from → (level_at ladder.now rank).lots ≡ 0 }
    ensures { IsHeadOf (level_at ladder.now) result }
{
    let rank = ladder.next(from)?;
    Some(Head {
        rank,
        place: ladder.level(rank).first,
    })
}
