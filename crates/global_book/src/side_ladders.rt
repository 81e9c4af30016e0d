ghost use Rattle.std.specs.Prelude.{ℕ, ◌≡◌, ◌≢◌, ◌+◌, ◌-◌, ◌≤◌, ◌<◌, ◌^◌, ◌↔◌, None, false, nat_eq, slice_index_or, true, IfOk, IfSome, IsSome, OnOk};
ghost use Rattle.std.specs.Map.{lookup};
ghost use Rattle.std.specs.Option.{option_copied};
ghost use Rattle.fx_amounts.specs.Price.{IsPrice};
ghost use Rattle.fx_amounts.specs.Side.{opposite};
ghost use Rattle.fx_amounts.specs.declared.side.Side.{Side as OneSide};
ghost use Rattle.price_levels.specs.Rungs.{IsNextRank};
ghost use Rattle.price_levels.specs.Ticks.{last_of_level, no_level, with_order, without_order};
ghost use Rattle.access_index.specs.Heads.{IsHead};
ghost use Rattle.access_index.specs.Ranked.{AreHeadWords, IsHeadOf, bank_holds, bank_level, with_bank_level};
ghost use Rattle.global_book.specs.Room.{ladders_of, rank_of};

use access_index::{HeadWords, RankedOwners};
use fx_amounts::{BankId, Lots, Memory, Price, Side};
use price_levels::{Ladder, Level};
use std::alloc::Global;
use std::marker::Model;

/// For each side of a pair the levels of each bank's orders, by rank.
#[derive(Drop)]
pub(crate) struct SideLadders {
    bids: RankedOwners,
    asks: RankedOwners,
}

impl Model for SideLadders {
    ghost use Rattle.global_book.specs.Room.{Ladders};

    ghost Value = { Ladders };

    ghost view = { λ s. record { bids = s.bids; asks = s.asks } };
}

impl SideLadders {
    /// No orders. `Memory` when out of memory.
    pub(crate) fn new(alloc: Global) -> Result<SideLadders, Memory>
        ensures { IfOk result (λ ladders. (side : OneSide) (bank rank : ℕ) → bank_level (ladders_of ladders side) bank rank ≡ no_level) }
    {
        Ok(SideLadders {
            bids: RankedOwners::new(alloc)?,
            asks: RankedOwners::new(alloc)?,
        })
    }

    /// The levels of a side.
    fn of(&self, side: Side) -> &RankedOwners
        ensures { result.now ≡ ladders_of self.now side }
    {
        match side {
            Side::Buy => &self.bids,
            Side::Sell => &self.asks,
        }
    }

    /// The level of a bank at a rank of a side.
    pub(crate) fn level(&self, side: Side, bank: BankId, rank: u32) -> Level
        ensures { result ≡ bank_level (ladders_of self.now side) bank rank }
    {
        self.of(side).level(bank, rank)
    }

    /// The first rank of a side from a rank on at which a bank has orders; `None` where there is none.
    pub(crate) fn next(&self, side: Side, bank: BankId, from: u32) -> Option<u32>
        ensures found { IfSome result (IsNextRank (bank_level (ladders_of self.now side) bank) from) }
        ensures none { result ≡ None → (rank : ℕ) → from ≤ rank → (bank_level (ladders_of self.now side) bank rank).lots ≡ 0 }
    {
        self.of(side).next(bank, from)
    }

    /// The level of a bank at a rank of a side, and the first rank behind it at which the bank has orders; `None` where there is none.
    pub(crate) fn level_and_next(&self, side: Side, bank: BankId, rank: u32) -> (Level, Option<u32>)
        requires rank { rank ≤ 10 ^ 9 }
        ensures level { result.0 ≡ bank_level (ladders_of self.now side) bank rank }
        ensures found { IfSome result.1 (IsNextRank (bank_level (ladders_of self.now side) bank) (rank + 1)) }
        ensures none { result.1 ≡ None → (other : ℕ) → rank < other → (bank_level (ladders_of self.now side) bank other).lots ≡ 0 }
    {
        self.of(side).level_and_next(bank, rank)
    }

    /// The levels of a bank of a side, by rank; `None` where it never had an order there.
    pub(crate) fn ladder(&self, side: Side, bank: BankId) -> Option<&Ladder>
        ensures { option_copied result ≡ lookup (nat_eq bank) (ladders_of self.now side) }
    {
        self.of(side).ladder(bank)
    }

    /// For each bank the word of its best order of a side.
    pub(crate) fn words(&self, side: Side) -> &[u64; BankId::COUNT]
        ensures { AreHeadWords (bank_level (ladders_of self.now side)) result.now }
    {
        self.of(side).words()
    }

    /// Where the best order of each bank of a side stands.
    pub(crate) fn heads(&self, side: Side) -> &HeadWords
        ensures { (bank : ℕ) → bank < 64 → IsHeadOf (bank_level (ladders_of self.now side) bank) (slice_index_or result.now bank None) × IfSome (slice_index_or result.now bank None) IsHead }
    {
        self.of(side).heads()
    }

    /// Whether a bank has orders, of either side.
    pub(crate) fn owns(&self, bank: BankId) -> bool
        requires bank { bank < 64 }
        ensures yes { result ≡ true → (side : OneSide) × (rank : ℕ) × ((bank_level (ladders_of self.now side) bank rank).lots ≢ 0) }
        ensures no { result ≡ false → (side : OneSide) (rank : ℕ) → (bank_level (ladders_of self.now side) bank rank).lots ≡ 0 }
    {
        self.bids.head(bank).is_some() || self.asks.head(bank).is_some()
    }

    /// Sees to it that an order of a bank can come to rest at a rank of a side without taking memory, until this is asked for another
    /// rank of the bank and the side. At `Memory` each level is as it was.
    #[inline(always)]
    pub(crate) fn reserve(&mut self, side: Side, bank: BankId, rank: u32) -> Result<(), Memory>
        requires rank { rank ≤ 10 ^ 9 }
        ensures holds { OnOk result (bank_holds (ladders_of self.new side) bank rank ≡ true) }
        ensures others { (other at : ℕ) → other ≢ bank → bank_holds (ladders_of self.new side) other at ≡ bank_holds (ladders_of self.old side) other at }
        ensures levels { (other at : ℕ) → bank_level (ladders_of self.new side) other at ≡ bank_level (ladders_of self.old side) other at }
        ensures other_side { ladders_of self.new (opposite side) ≡ ladders_of self.old (opposite side) }
    {
        match side {
            Side::Buy => self.bids.reserve(bank, rank),
            Side::Sell => self.asks.reserve(bank, rank),
        }
    }

    /// An order of so many lots of a bank comes to rest at a rank of a side, behind all others there, at a place of the list of orders. It
    /// answers the place of the last order there before it, where there is one.
    #[inline(always)]
    pub(crate) fn insert(
        &mut self,
        side: Side,
        bank: BankId,
        rank: u32,
        place: u32,
        lots: Lots,
    ) -> Option<u32>
        requires bank { bank < 64 }
        requires rank { rank ≤ 10 ^ 9 }
        requires place { place < 2 ^ 28 }
        requires holds { bank_holds (ladders_of self.old side) bank rank ≡ true }
        requires fits { (bank_level (ladders_of self.old side) bank rank).lots + lots < 2 ^ 64 }
        ensures before { result ≡ last_of_level (bank_level (ladders_of self.old side) bank rank) }
        ensures levels { (other at : ℕ) → bank_level (ladders_of self.new side) other at ≡ with_bank_level (bank_level (ladders_of self.old side)) bank rank (with_order (bank_level (ladders_of self.old side) bank rank) place lots) other at }
        ensures holds { (other at : ℕ) → bank_holds (ladders_of self.new side) other at ≡ bank_holds (ladders_of self.old side) other at }
        ensures other_side { ladders_of self.new (opposite side) ≡ ladders_of self.old (opposite side) }
    {
        match side {
            Side::Buy => self.bids.insert(bank, rank, place, lots),
            Side::Sell => self.asks.insert(bank, rank, place, lots),
        }
    }

    /// One of the orders of a bank at a rank of a side has so many lots less, and some left.
    pub(crate) fn lower(&mut self, side: Side, bank: BankId, rank: u32, lots: Lots)
        requires bank { bank < 64 }
        requires above { lots < (bank_level (ladders_of self.old side) bank rank).lots }
        ensures levels { (other at : ℕ) → bank_level (ladders_of self.new side) other at ≡ with_bank_level (bank_level (ladders_of self.old side)) bank rank (record (bank_level (ladders_of self.old side) bank rank) { lots = (bank_level (ladders_of self.old side) bank rank).lots - lots }) other at }
        ensures holds { (other at : ℕ) → bank_holds (ladders_of self.new side) other at ≡ bank_holds (ladders_of self.old side) other at }
        ensures other_side { ladders_of self.new (opposite side) ≡ ladders_of self.old (opposite side) }
    {
        match side {
            Side::Buy => self.bids.lower(bank, rank, lots),
            Side::Sell => self.asks.lower(bank, rank, lots),
        }
    }

    /// An order of a bank at a rank of a side goes, which had so many lots left and stood between two others there, where there are such.
    pub(crate) fn remove(
        &mut self,
        side: Side,
        bank: BankId,
        rank: u32,
        lots: Lots,
        before: Option<u32>,
        behind: Option<u32>,
    )
        requires bank { bank < 64 }
        requires has { lots ≤ (bank_level (ladders_of self.old side) bank rank).lots }
        requires behind { IfSome behind (λ place. place < 2 ^ 28) }
        ensures levels { (other at : ℕ) → bank_level (ladders_of self.new side) other at ≡ with_bank_level (bank_level (ladders_of self.old side)) bank rank (without_order (bank_level (ladders_of self.old side) bank rank) lots before behind) other at }
        ensures holds { (other at : ℕ) → bank_holds (ladders_of self.new side) other at ≡ bank_holds (ladders_of self.old side) other at }
        ensures other_side { ladders_of self.new (opposite side) ≡ ladders_of self.old (opposite side) }
    {
        match side {
            Side::Buy => self.bids.remove(bank, rank, lots, before, behind),
            Side::Sell => self.asks.remove(bank, rank, lots, before, behind),
        }
    }
}

/// The rank of a price among those of a side: the lower, the better for a taker. At most 10^9.
pub(crate) fn rank_of(side: Side, price: Price) -> u32
    ensures rank { result ≡ rank_of side price }
    ensures least { 1 ≤ price }
    ensures price { price ≤ 10 ^ 9 }
    ensures most { result ≤ 10 ^ 9 }
{
    match side {
        Side::Buy => Price::MOST - price.ticks(),
        Side::Sell => price.ticks(),
    }
}

/// The price at a rank of a side; `None` where no price has it.
pub fn price_at(side: Side, rank: u32) -> Option<Price>
    ensures valid { IsSome result ↔ IsPrice (rank_of side rank) }
    ensures value { IfSome result (λ price. price ≡ rank_of side rank) }
{
    match side {
        Side::Buy => Price::new(Price::MOST.saturating_sub(rank)),
        Side::Sell => Price::new(rank),
    }
}
