mod reaching;
mod walking;

ghost use Rattle.std.specs.Prelude.{◌≡◌, ◌+◌, ◌≤◌, ◌<◌, ◌^◌, ◌↔◌, ◌++◌, ◌∷◌, [], None, false, filter, length, map, not, IfOk, IfSome, OnOk};
ghost use Rattle.std.specs.Option.{option_copied};
ghost use Rattle.fx_amounts.specs.Side.{opposite};
ghost use Rattle.fx_rules.specs.Lists.{Each};
ghost use Rattle.fx_rules.specs.Sweep.{IsBest, is_order};
ghost use Rattle.global_book.specs.Behind.{IsCursor, owned_behind};
ghost use Rattle.global_book.specs.Book.{AreInTime, AreOwners, IsBook, Rests, RestsAbove, first, is_of, is_of_from, relotted};
ghost use Rattle.global_book.specs.Lowered.{lowered_in};
ghost use Rattle.global_book.specs.Room.{HasRoom, KeepsOtherRoom, KeepsRoom, TakesRoom};
ghost use Rattle.global_book.specs.inside.Linked.{AreKept, orders_in};
ghost use Rattle.global_book.specs.inside.Owning.{is_own};

use crate::linked::LinkedOrders;
use fx_amounts::{BankId, Lots, Memory, PairId, Price, Side, room_for};
use fx_rules::Resting;
use price_levels::Steps;
use std::alloc::Global;
use std::marker::Model;
use std::sync::ledger::Ledger;

/// The orders that rest in one pair, in a list by arrival, with a ladder of levels for each bank and side. Contracts see them as a list in
/// arrival order.
#[derive(Drop)]
pub struct PairBook {
    pair: PairId,
    banks: usize,
    linked: LinkedOrders,
}

impl Model for PairBook {
    ghost use Rattle.global_book.specs.Book.{Book};
    ghost use Rattle.global_book.specs.inside.Linked.{AreKept, orders_in, room_in};

    ghost Value = { Book };

    ghost view = { λ b. record {
      pair = b.pair;
      banks = b.banks;
      orders = orders_in b.linked;
      room = room_in b.linked;
    } };

    ghost invariant = { λ b. AreKept b.banks b.linked };
}

impl PairBook {
    /// The book of a pair for so many banks, 64 at most, with no orders and no room for any. `Memory` when out of memory.
    pub fn new(alloc: Global, pair: PairId, banks: usize) -> Result<PairBook, Memory>
        ensures pair { IfOk result (λ book. book.pair ≡ pair) }
        ensures banks { IfOk result (λ book. book.banks ≡ banks) }
        ensures empty { IfOk result (λ book. book.orders ≡ []) }
    {
        Ok(PairBook {
            pair,
            banks,
            linked: LinkedOrders::new(alloc, banks.min(BankId::COUNT))?,
        })
    }

    /// The pair that the book is of.
    pub fn pair(&self) -> PairId
        ensures value { result ≡ self.now.pair }
        ensures valid { IsBook self.now }
    {
        self.pair
    }

    /// How many banks the book was made for.
    pub fn banks(&self) -> usize
        ensures value { result ≡ self.now.banks }
        ensures valid { IsBook self.now }
    {
        self.banks
    }

    /// How many orders rest in the book.
    pub fn len(&self) -> usize
        ensures count { result ≡ length self.now.orders }
        ensures valid { IsBook self.now }
    {
        self.linked.len()
    }

    /// The banks that have an order in the book, each once, from the lowest number on.
    pub fn owners(&self) -> &[BankId]
        ensures owners { AreOwners self.now result.now }
        ensures valid { IsBook self.now }
    {
        self.linked.owners()
    }

    /// Takes the places of orders that are gone out of the list, once these are more than half of it. All room may go. At `Memory` the book
    /// is as it was.
    #[inline(always)]
    pub fn pack(&mut self) -> Result<(), Memory>
        ensures pair { self.new.pair ≡ self.old.pair }
        ensures banks { self.new.banks ≡ self.old.banks }
        ensures orders { self.new.orders ≡ self.old.orders }
        ensures valid { IsBook self.new }
    {
        if self.linked.is_sparse() {
            self.linked.pack()?;
        }
        Ok(())
    }

    /// Makes room for one order more of a bank and a side at a price. Other prices of the bank and the side may have no room then. At `Memory`
    /// there may be none; there is never any for the operator, who has no orders.
    #[inline(always)]
    pub fn reserve(&mut self, bank: BankId, side: Side, price: Price) -> Result<(), Memory>
        requires bank { bank < self.old.banks }
        ensures has_room { OnOk result (HasRoom self.new.room bank side price) }
        ensures room { KeepsOtherRoom self.old.room self.new.room bank side }
        ensures pair { self.new.pair ≡ self.old.pair }
        ensures banks { self.new.banks ≡ self.old.banks }
        ensures orders { self.new.orders ≡ self.old.orders }
        ensures valid { IsBook self.new }
    {
        if bank.index() >= self.banks.min(BankId::COUNT) {
            return room_for(usize::MAX, 1).map(|_| ());
        }
        self.linked.reserve(bank, side, price)
    }

    /// An order comes to rest, behind all others, where room was made for it. It takes no memory, and of the places for each bank one at most.
    #[inline(always)]
    pub fn rest(&mut self, order: Resting)
        requires room { HasRoom self.old.room order.bank order.side order.price }
        requires last { Each (λ other. other.arrival < order.arrival) self.old.orders }
        requires number { 1 ≤ order.number }
        requires absent { Each (λ other. is_order order.bank order.number other ≡ false) self.old.orders }
        ensures pair { self.new.pair ≡ self.old.pair }
        ensures banks { self.new.banks ≡ self.old.banks }
        ensures orders { self.new.orders ≡ self.old.orders ++ order ∷ [] }
        ensures room { TakesRoom self.old.room self.new.room }
        ensures valid { IsBook self.new }
    {
        self.linked.rest(order);
    }

    /// The order of this bank and number; `None` where none rests. One step.
    pub fn find<L: Ledger>(
        &self,
        bank: BankId,
        number: u32,
        steps: &mut Steps<L>,
    ) -> Option<Resting>
        ensures order { result ≡ first (filter (is_order bank number) self.now.orders) }
        ensures step { steps.new ≡ steps.old + 1 }
        ensures valid { IsBook self.now }
    {
        steps.tick();
        let place = self.linked.find(bank, number)?;
        Some(self.linked.order(place))
    }

    /// The order of this bank and number has so many lots left from now on, fewer than it had. It keeps its place.
    pub fn lower(&mut self, bank: BankId, number: u32, left: Lots)
        requires above { RestsAbove self.old.orders bank number left }
        ensures pair { self.new.pair ≡ self.old.pair }
        ensures banks { self.new.banks ≡ self.old.banks }
        ensures orders { self.new.orders ≡ map (relotted bank number left) self.old.orders }
        ensures room { KeepsRoom self.old.room self.new.room }
        ensures valid { IsBook self.new }
    {
        let place = self.linked.find(bank, number).unwrap();
        self.linked.lower(place, left);
    }

    /// Takes the order of this bank and number out.
    pub fn remove(&mut self, bank: BankId, number: u32)
        requires rests { Rests self.old.orders bank number }
        ensures pair { self.new.pair ≡ self.old.pair }
        ensures banks { self.new.banks ≡ self.old.banks }
        ensures orders { self.new.orders ≡ filter (λ order. not (is_order bank number order)) self.old.orders }
        ensures room { KeepsRoom self.old.room self.new.room }
        ensures valid { IsBook self.new }
    {
        let place = self.linked.find(bank, number).unwrap();
        self.linked.remove(place);
    }

    /// Takes so many lots from the order of this bank and number, where it rests; with nothing left it is taken out. Where it has
    /// fewer lots, all of them go. It is searched for once, and not at all where it is its bank's best order of a side.
    pub fn take_lots(&mut self, bank: BankId, number: u32, lots: Lots)
        ensures pair { self.new.pair ≡ self.old.pair }
        ensures banks { self.new.banks ≡ self.old.banks }
        ensures orders { self.new.orders ≡ lowered_in bank number lots self.old.orders }
        ensures room { KeepsRoom self.old.room self.new.room }
        ensures valid { IsBook self.new }
    {
        let Some(place) = self.linked.find_first(bank, number) else {
            return;
        };
        let order = self.linked.order(place);
        match Lots::new(order.left.count().saturating_sub(lots.count())) {
            Some(left) => self.linked.lower(place, left),
            None => self.linked.remove(place),
        }
    }

    /// Takes all orders of a bank out, and answers how many they were.
    pub fn pull(&mut self, bank: BankId) -> u32
        ensures count { result ≡ length (filter (is_of bank) self.old.orders) }
        ensures pair { self.new.pair ≡ self.old.pair }
        ensures banks { self.new.banks ≡ self.old.banks }
        ensures orders { self.new.orders ≡ filter (λ order. not (is_of bank order)) self.old.orders }
        ensures room { KeepsRoom self.old.room self.new.room }
        ensures valid { IsBook self.new }
    {
        let buys = self.pull_side(bank, Side::Buy);
        let sells = self.pull_side(bank, Side::Sell);
        buys + sells
    }

    /// Takes a bank's orders of a side out, from the best one on, and answers how many they were.
    fn pull_side(&mut self, bank: BankId, side: Side) -> u32
        ensures count { result ≡ length (filter (is_own bank side) self.old.orders) }
        ensures pair { self.new.pair ≡ self.old.pair }
        ensures banks { self.new.banks ≡ self.old.banks }
        ensures orders { self.new.orders ≡ filter (λ order. not (is_own bank side order)) self.old.orders }
        ensures room { KeepsRoom self.old.room self.new.room }
        ensures was_valid { IsBook self.old }
        ensures valid { IsBook self.new }
    {
        let mut count = 0;
        let mut next = self.best_own(bank, side);
        while let Some(order) = next {
            self.remove(order.bank, order.number);
            count += 1;
            next = self.best_own(bank, side);
        }
        count
    }

    /// The best order of a bank and a side; `None` where there is none.
    fn best_own(&self, bank: BankId, side: Side) -> Option<Resting>
        ensures none { (result ≡ None) ↔ (owned_behind side bank (2 ^ 64) None self.now.orders ≡ []) }
        ensures best { IfSome result (IsBest (opposite side) (owned_behind side bank (2 ^ 64) None self.now.orders)) }
        ensures valid { IsBook self.now }
    {
        let place = self.linked.best_behind(bank, side, None)?;
        Some(self.linked.order(place))
    }

    /// The first order of a bank that arrived at or after this; `None` where there is none. It looks at all orders of the book: one
    /// step for each. Only trials call it.
    pub fn next_of<L: Ledger>(
        &self,
        bank: BankId,
        after: u64,
        steps: &mut Steps<L>,
    ) -> Option<Resting>
        ensures order { result ≡ first (filter (is_of_from bank after) self.now.orders) }
        ensures steps { steps.new ≡ steps.old + length self.now.orders }
        ensures valid { IsBook self.now }
    {
        count_looks(self.len(), steps);
        let place = self.linked.next_of(bank, after)?;
        Some(self.linked.order(place))
    }

    /// The best order of a bank and a side behind the order `past`, whenever it arrived; without `past` all of them are looked at. `None`
    /// where there is no such order. One step.
    pub fn next_best<L: Ledger>(
        &self,
        bank: BankId,
        side: Side,
        past: Option<&Resting>,
        steps: &mut Steps<L>,
    ) -> Option<Resting>
        requires past { IfSome (option_copied past) (IsCursor self.now.orders bank side) }
        ensures none { (result ≡ None) ↔ (owned_behind side bank (2 ^ 64) (option_copied past.entry) self.now.orders ≡ []) }
        ensures best { IfSome result (λ found. IsBest (opposite side) (owned_behind side bank (2 ^ 64) (option_copied past.entry) self.now.orders) found) }
        ensures step { steps.new ≡ steps.old + 1 }
        ensures valid { IsBook self.now }
    {
        steps.tick();
        let place = self.linked.best_behind(bank, side, past)?;
        Some(self.linked.order(place))
    }

    /// The best order of a bank and a side, among those that arrived before `before` and stand behind the order `past`; without `past` all
    /// of them are looked at. `None` where there is no such order. One step for it, and one for each order that arrived too late.
    pub fn best_of<L: Ledger>(
        &self,
        bank: BankId,
        side: Side,
        before: u64,
        past: Option<&Resting>,
        steps: &mut Steps<L>,
    ) -> Option<Resting>
        requires past { IfSome (option_copied past) (IsCursor self.now.orders bank side) }
        ensures none { (result ≡ None) ↔ (owned_behind side bank before (option_copied past.entry) self.now.orders ≡ []) }
        ensures best { IfSome result (IsBest (opposite side) (owned_behind side bank before (option_copied past.entry) self.now.orders)) }
        ensures steps { AreInTime side before self.now.orders → steps.new ≤ steps.old + 1 }
        ensures valid { IsBook self.now }
    {
        let mut next = self.next_best(bank, side, past, steps);
        while let Some(order) = next {
            if order.arrival < before {
                return Some(order);
            }
            next = self.next_best(bank, side, Some(&order), steps);
        }
        None
    }
}

/// Counts so many looks.
fn count_looks<L: Ledger>(looks: usize, steps: &mut Steps<L>)
    ensures steps { steps.new ≡ steps.old + looks }
{
    for _look in 0..looks {
        steps.tick();
    }
}
