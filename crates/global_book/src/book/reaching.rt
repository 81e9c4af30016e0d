ghost use Rattle.std.specs.Prelude.{◌≡◌, ◌+◌, ◌≤◌, ◌↔◌, ◌++◌, ◌⊎◌, List, [], None, Some, false, length, nat_eq, option_map, IfSome, IsSomeAnd, IsPermutation, OnErr, OnOk};
ghost use Rattle.std.specs.Map.{lookup};
ghost use Rattle.std.specs.Option.{option_copied};
ghost use Rattle.fx_amounts.specs.Price.{IsPrice};
ghost use Rattle.fx_amounts.specs.Side.{opposite};
ghost use Rattle.fx_rules.specs.Sweep.{IsBest, is_preferred};
ghost use Rattle.fx_rules.specs.declared.orders.Resting.{Resting};
ghost use Rattle.global_book.specs.Behind.{owned_behind};
ghost use Rattle.global_book.specs.Book.{AreInTime, IsBook, IsPriceOf, crossing, level_lots};
ghost use Rattle.global_book.specs.Ladders.{TellsLots};
ghost use Rattle.global_book.specs.Room.{ladders_of, rank_of as price_of_rank};
ghost use Rattle.global_book.specs.Sought.{allows, sought};
ghost use Rattle.global_book.specs.Words.{AreBestWords};

use crate::ahead::is_behind;
use crate::book::PairBook;
use crate::side_ladders::rank_of;
use fx_amounts::{BankId, Memory, Price, Side};
use fx_rules::Resting;
use price_levels::{Ladder, Steps};
use std::sync::ledger::Ledger;

impl PairBook {
    /// For each bank, from the lowest number on, its best order of a side as a word: the rank of its price in the bits from the 34th on, and
    /// below it what tells apart banks and the times at which their orders arrived. The lower the word, the better the order; all bits are
    /// set where the bank has none. The words lie side by side, and it reads no order: one step for them all.
    pub fn best_words<L: Ledger>(&self, side: Side, steps: &mut Steps<L>) -> &[u64; BankId::COUNT]
        ensures words { AreBestWords side self.now.orders result.now }
        ensures step { steps.new ≡ steps.old + 1 }
        ensures valid { IsBook self.now }
    {
        steps.tick();
        self.linked.words(side)
    }

    /// The lots that a bank's orders of a side have left at a price. It reads their level, and no order.
    #[inline(always)]
    pub fn lots_at(&self, bank: BankId, side: Side, price: Price) -> u64
        ensures lots { result ≡ level_lots (opposite side) bank price self.now.orders }
        ensures valid { IsBook self.now }
    {
        self.linked.level(bank, side, rank_of(side, price)).lots
    }

    /// The lots that a bank's orders of a side have left at the price of a rank, and the first rank behind it at which the bank has such
    /// orders; `None` where there is none. One step.
    pub fn level_and_next<L: Ledger>(
        &self,
        bank: BankId,
        side: Side,
        rank: u32,
        steps: &mut Steps<L>,
    ) -> (u64, Option<u32>)
        requires price { IsPrice (price_of_rank side rank) }
        ensures lots { result.0 ≡ level_lots (opposite side) bank (price_of_rank side rank) self.now.orders }
        ensures next { IsPriceOf (opposite side) bank (Some (price_of_rank side rank)) self.now.orders (option_map (price_of_rank side) result.1) }
        ensures valid_next { IfSome result.1 (λ behind. IsPrice (price_of_rank side behind)) }
        ensures step { steps.new ≡ steps.old + 1 }
        ensures valid { IsBook self.now }
    {
        steps.tick();
        let (level, next) = self.linked.level_and_next(bank, side, rank);
        (level.lots, next)
    }

    /// The levels of a bank's orders of a side, by the rank of their price; `None` where the bank never had such an order. To read the lots at a
    /// rank is no step, as with `lots_at`.
    #[inline(always)]
    pub fn ladder(&self, bank: BankId, side: Side) -> Option<&Ladder>
        ensures ladder { option_copied result ≡ lookup (nat_eq bank) (ladders_of self.now.room.ladders side) }
        ensures tells { TellsLots self.now side }
        ensures valid { IsBook self.now }
    {
        self.linked.ladder(bank, side)
    }

    /// Puts a bank's orders of a side that cross `top`, a price of the other side, behind those that `orders` has. It looks at no other order:
    /// one step, and one for each order that it puts there. At `Memory` `orders` has what it had.
    pub fn gather_crossing<L: Ledger>(
        &self,
        bank: BankId,
        side: Side,
        top: Price,
        orders: &mut Vec<Resting>,
        steps: &mut Steps<L>,
    ) -> Result<(), Memory>
        ensures gathered { OnOk result ((gathered : List Resting) × (orders.new.items ≡ orders.old.items ++ gathered) × IsPermutation (crossing bank side top self.now.orders) gathered) }
        ensures steps { OnOk result (steps.new + length orders.old.items ≡ steps.old + 1 + length orders.new.items) }
        ensures memory { OnErr result (orders.new.items ≡ orders.old.items) }
        ensures valid { IsBook self.now }
    {
        let had = orders.len();
        let gathered = self.linked.gather_crossing(bank, side, top, orders, steps);
        if gathered.is_err() {
            orders.truncate(had);
        }
        gathered
    }

    /// The best order of a side, among those whose owner can be reached for a lot at least, that the limit allows, that arrived before
    /// `before` and that stand behind the order `past`; without a limit any price is allowed, and without `past` all are looked at.
    /// `None` where there is no such order. `reach` has the lots for each bank. Where all orders of the side arrived in time, it takes
    /// one step for each bank at most: behind an order of another bank a search passes the orders of that one price that arrived before it,
    /// which are not counted. Only trials call it.
    pub fn best<L: Ledger>(
        &self,
        side: Side,
        reach: &[u64],
        limit: Option<Price>,
        before: u64,
        past: Option<&Resting>,
        steps: &mut Steps<L>,
    ) -> Option<Resting>
        requires one_each { length reach.now ≡ self.now.banks }
        ensures none { (result ≡ None) ↔ (sought side reach.now limit before (option_copied past.entry) self.now.orders ≡ []) }
        ensures best { IfSome result (IsBest (opposite side) (sought side reach.now limit before (option_copied past.entry) self.now.orders)) }
        ensures steps { AreInTime side before self.now.orders → steps.new ≤ steps.old + self.now.banks }
        ensures valid { IsBook self.now }
    {
        let mut best = None;
        for bank in self.owners() {
            if reach[bank.index()] > 0 {
                let found = self.best_ahead(*bank, side, before, past, steps);
                best = better_of(side, best, found);
            }
        }
        let order = best?;
        if is_allowed(limit, order.price, side.opposite()) {
            return Some(order);
        }
        None
    }

    /// The best order of a bank and a side, among those that arrived before `before` and stand behind `past`, whoever gave that one; without
    /// `past` all of them are looked at. `None` where there is no such order. One step for it, and one for each order that arrived too late.
    fn best_ahead<L: Ledger>(
        &self,
        bank: BankId,
        side: Side,
        before: u64,
        past: Option<&Resting>,
        steps: &mut Steps<L>,
    ) -> Option<Resting>
        ensures none { (result ≡ None) ↔ (owned_behind side bank before (option_copied past.entry) self.now.orders ≡ []) }
        ensures best { IfSome result (IsBest (opposite side) (owned_behind side bank before (option_copied past.entry) self.now.orders)) }
        ensures steps { AreInTime side before self.now.orders → steps.new ≤ steps.old + 1 }
        ensures valid { IsBook self.now }
    {
        let place = self.linked.best_ahead(bank, side, before, past, steps)?;
        Some(self.linked.order(place))
    }
}

/// The one of two orders that a taker of the other side prefers, or the one that there is.
fn better_of(side: Side, best: Option<Resting>, found: Option<Resting>) -> Option<Resting>
    ensures either { (result ≡ best) ⊎ (result ≡ found) }
    ensures first { IfSome best (λ one. IsSomeAnd result (λ order. is_preferred (opposite side) one order ≡ false)) }
    ensures second { IfSome found (λ one. IsSomeAnd result (λ order. is_preferred (opposite side) one order ≡ false)) }
{
    let Some(one) = best else {
        return found;
    };
    let Some(other) = found else {
        return Some(one);
    };
    if is_behind(side.opposite(), Some(&one), &other) {
        return Some(one);
    }
    Some(other)
}

/// Whether a limit, where there is one, allows a taker of a side this price.
fn is_allowed(limit: Option<Price>, price: Price, taker: Side) -> bool
    ensures { result ≡ allows taker limit price }
{
    match limit {
        Some(limit) => limit.crosses(price, taker),
        None => true,
    }
}
