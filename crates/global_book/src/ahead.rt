ghost use Rattle.std.specs.Prelude.{◌≡◌, ◌+◌, ◌≤◌};
ghost use Rattle.std.specs.Option.{option_copied};
ghost use Rattle.fx_amounts.specs.Side.{opposite};
ghost use Rattle.fx_rules.specs.Plan.{is_behind};
ghost use Rattle.global_book.specs.Behind.{is_owned_behind};
ghost use Rattle.global_book.specs.Book.{AreInTime};
ghost use Rattle.global_book.specs.inside.Ahead.{first_rank};
ghost use Rattle.global_book.specs.inside.Bests.{IsBestOf};
ghost use Rattle.global_book.specs.inside.Linked.{orders_in};

use crate::linked::LinkedOrders;
use crate::side_ladders::rank_of;
use fx_amounts::{BankId, Side};
use fx_rules::Resting;
use price_levels::Steps;
use std::sync::ledger::Ledger;

impl LinkedOrders {
    /// The place of the best order of a bank and a side, among those that arrived before `before` and stand behind `past`, an order of any
    /// bank; without `past` all of them are looked at. `None` where there is no such order. One step for it, and one for each order that
    /// arrived too late; those at the price of `past` that arrived before it are passed without one.
    pub(crate) fn best_ahead<L: Ledger>(
        &self,
        bank: BankId,
        side: Side,
        before: u64,
        past: Option<&Resting>,
        steps: &mut Steps<L>,
    ) -> Option<u32>
        ensures best { IsBestOf self.now.orders.slots (is_owned_behind (opposite side) bank before (option_copied past.entry)) side result }
        ensures steps { AreInTime side before (orders_in self.now) → steps.new ≤ steps.old + 1 }
    {
        steps.tick();
        let mut next = self.first_from(bank, side, first_rank(side, past));
        while let Some(place) = next {
            let order = self.order(place);
            if is_behind(side.opposite(), past, &order) {
                if order.arrival < before {
                    return Some(place);
                }
                steps.tick();
            }
            next = self.behind(place);
        }
        None
    }
}

/// The rank of an order's price, from which on those behind it stand; 0 without an order.
fn first_rank(side: Side, past: Option<&Resting>) -> u32
    ensures { result ≡ first_rank side (option_copied past.entry) }
{
    match past {
        Some(last) => rank_of(side, last.price),
        None => 0,
    }
}

/// Whether an order stands behind the order `past` for a taker, where there is one.
pub(crate) fn is_behind(taker: Side, past: Option<&Resting>, order: &Resting) -> bool
    ensures { result ≡ is_behind taker (option_copied past.entry) order.now }
{
    let Some(last) = past else {
        return true;
    };
    if last.price == order.price {
        return last.arrival < order.arrival;
    }
    last.price.crosses(order.price, taker.opposite())
}
