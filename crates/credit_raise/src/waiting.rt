//! Orders that had their turns, with what they have left.
ghost use Rattle.std.specs.Prelude.{ℕ, ◌≡◌, ◌<◌, ◌+◌, ◌≤◌, ◌++◌, ◌∷◌, [], None, true, false, length, slice_index_or, IfOk, IfNone, IfSome, OnOk};
ghost use Rattle.fx_amounts.specs.Side.{opposite};
ghost use Rattle.fx_rules.specs.declared.orders.Resting.{Resting};
ghost use Rattle.fx_rules.specs.Lists.{Each};
ghost use Rattle.fx_rules.specs.Sweep.{is_order, is_preferred};
ghost use Rattle.global_book.specs.Behind.{is_owned_behind, owned_behind};
ghost use Rattle.global_book.specs.Book.{AreInTime};
ghost use Rattle.credit_raise.specs.inside.Playing.{IsBestOf, lessened};
ghost use Rattle.credit_raise.specs.inside.Waiting.{StandsAt, better_of};

use fx_amounts::{BankId, Lots, Memory, PairId, Side, room_for};
use fx_rules::Resting;
use global_book::PairBook;
use price_levels::Steps;
use std::alloc::Global;
use std::marker::Model;
use std::sync::ledger::Ledger;

/// Orders of one pair that had their turns, with what they have left.
#[derive(Drop)]
pub(crate) struct Waiting {
    held: Held,
}

/// Where the orders stand.
#[derive(Drop)]
enum Held {
    /// In a list, along which each search goes. It can be changed so often.
    Listed {
        banks: usize,
        orders: Vec<Resting>,
        changes: u32,
    },
    /// In a book.
    Booked(Box<PairBook>),
}

impl Model for Waiting {
    ghost use Rattle.credit_raise.specs.inside.Waiting.{Waiters, waiters_of};

    ghost Value = { Waiters };

    ghost view = { λ w. waiters_of w.held };
}

impl Waiting {
    /// None yet, of a pair and of the first so many banks. They will stand in a book. `Memory` when out of memory.
    #[inline(never)]
    pub(crate) fn in_book(alloc: Global, pair: PairId, banks: usize) -> Result<Waiting, Memory>
        ensures banks { IfOk result (λ waiting. waiting.banks ≡ banks) }
        ensures empty { IfOk result (λ waiting. waiting.orders ≡ []) }
    {
        let book = PairBook::new(alloc, pair, banks)?;
        Ok(Waiting {
            held: Held::Booked(Box::new(alloc, book)?),
        })
    }

    /// These orders of the first so many banks, in a list that can be changed so often.
    pub(crate) fn in_list(banks: usize, orders: Vec<Resting>, changes: u32) -> Waiting
        ensures banks { result.banks ≡ banks }
        ensures orders { result.orders ≡ orders.items }
        ensures listed { result.listed ≡ true }
    {
        Waiting {
            held: Held::Listed {
                banks,
                orders,
                changes,
            },
        }
    }

    /// The best of a bank's orders of a side that arrived before `before`; `None` where there is none. Where all of the side did, one step
    /// at most, and none along a list.
    pub(crate) fn best_of<L: Ledger>(
        &self,
        bank: BankId,
        side: Side,
        before: u64,
        steps: &mut Steps<L>,
    ) -> Option<Resting>
        ensures best { IsBestOf (opposite side) (owned_behind side bank before None self.now.orders) result }
        ensures steps { AreInTime side before self.now.orders → steps.new ≤ steps.old + 1 }
        ensures unlooked { self.now.listed ≡ true → steps.new ≡ steps.old }
    {
        match &self.held {
            Held::Listed { orders, .. } => best_in(orders, bank, side, before),
            Held::Booked(book) => book.best_of(bank, side, before, None, steps),
        }
    }

    /// Takes so many lots from the order of this bank and number. With nothing left it waits no more. `Memory` where a list was changed as
    /// often as it can be.
    #[tactic(auto, using(crate::proofs::Listed::lowered_lessened))]
    pub(crate) fn lessen(&mut self, bank: BankId, number: u32, lots: Lots) -> Result<(), Memory>
        ensures banks { self.new.banks ≡ self.old.banks }
        ensures listed { self.new.listed ≡ self.old.listed }
        ensures orders { OnOk result (self.new.orders ≡ lessened bank number lots self.old.orders) }
    {
        match &mut self.held {
            Held::Listed {
                orders,
                changes,
                ..
            } => {
                count_down(changes)?;
                lessen_in(orders, bank, number, lots);
            }
            Held::Booked(book) => book.take_lots(bank, number, lots),
        }
        Ok(())
    }

    /// An order waits behind the others from now on. `Memory` when out of memory, or where a list was changed as often as it can be.
    pub(crate) fn push(&mut self, order: Resting) -> Result<(), Memory>
        requires bank { order.bank < self.old.banks }
        requires last { Each (λ other. other.arrival < order.arrival) self.old.orders }
        requires number { 1 ≤ order.number }
        requires absent { Each (λ other. is_order order.bank order.number other ≡ false) self.old.orders }
        ensures banks { self.new.banks ≡ self.old.banks }
        ensures listed { self.new.listed ≡ self.old.listed }
        ensures orders { OnOk result (self.new.orders ≡ self.old.orders ++ order ∷ []) }
    {
        match &mut self.held {
            Held::Listed {
                orders,
                changes,
                ..
            } => {
                count_down(changes)?;
                orders.push(order)?;
            }
            Held::Booked(book) => {
                book.reserve(order.bank, order.side, order.price)?;
                book.rest(order);
            }
        }
        Ok(())
    }
}

/// Counts one less. `Memory` at 0.
fn count_down(count: &mut u32) -> Result<(), Memory>
    ensures { OnOk result (count.new + 1 ≡ count.old) }
{
    if *count == 0 {
        return room_for(usize::MAX, 1).map(|_| ());
    }
    *count -= 1;
    Ok(())
}

/// The best of a bank's orders of a side in a list, of those that arrived before `before`; `None` where there is none.
fn best_in(orders: &[Resting], bank: BankId, side: Side, before: u64) -> Option<Resting>
    ensures best { IsBestOf (opposite side) (owned_behind side bank before None orders.now) result }
{
    let mut best = None;
    for order in orders {
        if is_owned(bank, side, before, order) {
            best = Some(better_of(side.opposite(), best, order));
        }
    }
    best
}

/// Whether an order is a bank's, of a side, and arrived before `before`.
fn is_owned(bank: BankId, side: Side, before: u64, order: &Resting) -> bool
    ensures { result ≡ is_owned_behind (opposite side) bank before None order.now }
{
    order.side == side && order.bank == bank && order.arrival < before
}

/// An order, or the best so far, where there is one and a taker of this side does not prefer the order to it.
fn better_of(taker: Side, best: Option<Resting>, order: &Resting) -> Resting
    ensures value { result ≡ better_of taker best order.now }
{
    match best {
        Some(other) if !is_preferred(taker, order, &other) => other,
        _ => *order,
    }
}

/// Whether a taker of this side prefers an order to another.
fn is_preferred(taker: Side, order: &Resting, other: &Resting) -> bool
    ensures { result ≡ is_preferred taker order.now other.now }
{
    if order.price == other.price {
        return order.arrival < other.arrival;
    }
    other.price.crosses(order.price, taker)
}

/// Takes so many lots from the first order of this bank and number in a list. With nothing left it is taken out.
fn lessen_in(orders: &mut Vec<Resting>, bank: BankId, number: u32, lots: Lots)
    ensures { orders.new.items ≡ lessened bank number lots orders.old.items }
{
    let Some(at) = place_in(orders, bank, number) else {
        return;
    };
    let order = orders[at];
    match Lots::new(order.left.count().saturating_sub(lots.count())) {
        Some(left) => orders[at] = Resting { left, ..order },
        None => {
            orders.remove(at);
        }
    }
}

/// The place of the first order of this bank and number in a list; `None` where there is none.
fn place_in(orders: &[Resting], bank: BankId, number: u32) -> Option<usize>
    ensures found { IfSome result (λ at. (order : Resting) → StandsAt bank number orders.now at order) }
    ensures within { IfSome result (λ at. at < length orders.now) }
    ensures none { IfNone result ((at : ℕ) (order : Resting) → at < length orders.now → is_order bank number (slice_index_or orders.now at order) ≡ false) }
{
    for (at, order) in orders.iter().enumerate() {
        if order.bank == bank && order.number == number {
            return Some(at);
        }
    }
    None
}
