ghost use Rattle.std.specs.List.Sorted.{IsPermutation};
ghost use Rattle.std.specs.Prelude.{◌≡◌, ◌≢◌, ◌+◌, ◌≤◌, true, false, filter, length, IfOk, OnOk};
ghost use Rattle.fx_amounts.specs.Side.{opposite};
ghost use Rattle.fx_rules.specs.declared.orders.Resting.{Resting};
ghost use Rattle.global_book.specs.Book.{IsBook};
ghost use Rattle.credit_raise.specs.inside.Prices.{AreTops, Gathers, IsOf, crosses_top, crosses_tops, is_live_of, is_live_on, live_turns, top_of};

use crate::prices::{Tops, is_crossed};
use fx_amounts::{BankId, Memory, Side};
use fx_rules::Resting;
use global_book::PairBook;
use price_levels::Steps;
use std::alloc::Global;
use std::sync::ledger::Ledger;

/// For how many orders a raise has capacity at first, so that its list seldom grows.
const FEW_LIVE: usize = 32;

/// Of the orders of two banks, whose best prices these are, those that cross the other bank's best price. It reads no other order: a step
/// for each, and four beside them at most. `Memory` when out of memory.
#[inline(never)]
pub(crate) fn live_orders<L: Ledger>(
    alloc: Global,
    book: &PairBook,
    i: BankId,
    j: BankId,
    tops_i: &Tops,
    tops_j: &Tops,
    steps: &mut Steps<L>,
) -> Result<Vec<Resting>, Memory>
    requires differ { i ≢ j }
    requires valid { IsBook book.now }
    requires tops_i { AreTops i book.now.orders tops_i.now }
    requires tops_j { AreTops j book.now.orders tops_j.now }
    ensures steps { IfOk result (λ orders. steps.new ≤ steps.old + 4 + length orders.items) }
    ensures orders { IfOk result (λ orders. IsPermutation (live_turns i j tops_i.now tops_j.now book.now.orders) orders.items) }
{
    let mut orders = Vec::with_capacity(alloc, FEW_LIVE)?;
    gather_live(book, i, tops_i, tops_j, &mut orders, steps)?;
    gather_live(book, j, tops_j, tops_i, &mut orders, steps)?;
    Ok(orders)
}

/// Of the orders of all banks those that cross these best prices, in arrival order. `Memory` when out of memory.
pub(crate) fn crossing_orders<L: Ledger>(
    alloc: Global,
    book: &PairBook,
    tops: &Tops,
    steps: &mut Steps<L>,
) -> Result<Vec<Resting>, Memory>
    ensures orders { IfOk result (λ orders. orders.items ≡ filter (crosses_tops tops.now) book.now.orders) }
{
    let owners = book.owners();
    let mut orders = Vec::new(alloc);
    for bank in owners {
        gather(book, *bank, tops, &mut orders, steps)?;
    }
    orders.sort_unstable_by_key(|order| order.arrival);
    Ok(orders)
}

/// Gathers the orders of a bank, whose best prices are `own`, that cross another bank's best price, behind those that are there. It has no
/// look at a side whose best price does not cross.
fn gather_live<L: Ledger>(
    book: &PairBook,
    bank: BankId,
    own: &Tops,
    tops: &Tops,
    turns: &mut Vec<Resting>,
    steps: &mut Steps<L>,
) -> Result<(), Memory>
    requires own { AreTops bank book.now.orders own.now }
    ensures gathered { OnOk result (Gathers (is_live_of bank tops.now) book.now.orders turns.old.items turns.new.items) }
    ensures steps { OnOk result (steps.new + length turns.old.items ≤ steps.old + 2 + length turns.new.items) }
{
    let buys = is_crossed(own.buy, tops.sell);
    let sells = is_crossed(tops.buy, own.sell);
    gather_any(book, bank, Side::Buy, buys, tops, turns, steps)?;
    gather_any(book, bank, Side::Sell, sells, tops, turns, steps)
}

/// Those of a side, where there are any.
fn gather_any<L: Ledger>(
    book: &PairBook,
    bank: BankId,
    side: Side,
    any: bool,
    tops: &Tops,
    turns: &mut Vec<Resting>,
    steps: &mut Steps<L>,
) -> Result<(), Memory>
    requires none { any ≡ false → (order : Resting) → IsOf bank side book.now.orders order → crosses_top side order.price (top_of tops.now (opposite side)) ≡ true → ⊥ }
    ensures gathered { OnOk result (Gathers (is_live_on bank side (top_of tops.now (opposite side))) book.now.orders turns.old.items turns.new.items) }
    ensures steps { OnOk result (steps.new + length turns.old.items ≤ steps.old + 1 + length turns.new.items) }
{
    if !any {
        return Ok(());
    }
    gather_side(book, bank, side, tops, turns, steps)
}

/// Gathers the orders of a bank that cross another bank's best price, behind those that are there.
fn gather<L: Ledger>(
    book: &PairBook,
    bank: BankId,
    tops: &Tops,
    turns: &mut Vec<Resting>,
    steps: &mut Steps<L>,
) -> Result<(), Memory>
    ensures gathered { OnOk result (Gathers (is_live_of bank tops.now) book.now.orders turns.old.items turns.new.items) }
    ensures steps { OnOk result (steps.new + length turns.old.items ≤ steps.old + 2 + length turns.new.items) }
{
    gather_side(book, bank, Side::Buy, tops, turns, steps)?;
    gather_side(book, bank, Side::Sell, tops, turns, steps)
}

/// Those of a side. There are none where the other bank has no order of the other side.
fn gather_side<L: Ledger>(
    book: &PairBook,
    bank: BankId,
    side: Side,
    tops: &Tops,
    turns: &mut Vec<Resting>,
    steps: &mut Steps<L>,
) -> Result<(), Memory>
    ensures gathered { OnOk result (Gathers (is_live_on bank side (top_of tops.now (opposite side))) book.now.orders turns.old.items turns.new.items) }
    ensures steps { OnOk result (steps.new + length turns.old.items ≤ steps.old + 1 + length turns.new.items) }
{
    match tops.of(side.opposite()) {
        Some(top) => book.gather_crossing(bank, side, top, turns, steps),
        None => Ok(()),
    }
}
