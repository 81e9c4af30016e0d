ghost use Rattle.std.specs.Prelude.{◌≡◌, ◌≤◌, ◌<◌, length, IfOk};
ghost use Rattle.fx_rules.specs.State.{orders_in};
ghost use Rattle.flat_host.specs.FlatState.{AreWeights};
ghost use Rattle.flat_host.specs.Parts.{both_lowered, credit_after};
ghost use Rattle.fx_rules.specs.inside.Orders.{in_pair};
ghost use Rattle.flat_host.specs.Turns.{TurnedIn, RaisedIn};
ghost use Rattle.flat_host.specs.inside.Turns.{TurnOf};

use crate::changes::order_of;
use crate::credit::{Credit, make_fills, weight_of};
use crate::sweep::paid_sweep;
use fx_amounts::{Memory, PairId};
use fx_rules::{ActiveOrder, Fill, FillList, Resting, SweptOrder};
use std::alloc::Global;

/// The fills that a credit change makes, over the orders as they stand before it and the credit with the change made, to which their
/// cost is added: pair by pair in order, each order that rests when its turn comes is swept against those that came before it. In
/// each pair it looks at most twice, and once more for each fill, at each order for each order.
pub fn raised_fills(
    alloc: Global,
    orders: &[ActiveOrder],
    credit: &mut Credit,
    weights: &[u32],
) -> Result<FillList, Memory>
    requires pairs { length weights.now ≤ 32 }
    requires weights { AreWeights weights.now }
    ensures raised { IfOk result (λ fills. RaisedIn weights.now orders.now (length weights.now) 0 credit.old fills) }
{
    let mut fills = Vec::new(alloc);
    for place in 0..weights.len() {
        let own = pair_turns(alloc, orders, credit, weights, PairId::at(place))?;
        fills.extend_from_slice(&own)?;
    }
    Ok(FillList::from_vec(fills))
}

/// The fills of the turns in one pair, whose cost it adds to the credit used.
fn pair_turns(
    alloc: Global,
    orders: &[ActiveOrder],
    credit: &mut Credit,
    weights: &[u32],
    pair: PairId,
) -> Result<Vec<Fill>, Memory>
    requires pair { pair < length weights.now }
    requires weights { AreWeights weights.now }
    ensures turned { IfOk result (λ fills. TurnedIn weights.now pair (in_pair pair orders.now) credit.old (orders_in pair orders.now) fills.items) }
    ensures credit { IfOk result (λ fills. credit.new ≡ credit_after weights.now credit.old fills.items) }
{
    let mut book = book_of(alloc, orders, pair)?;
    let mut fills = Vec::new(alloc);
    for active in orders {
        if active.pair == pair {
            let own = turn(alloc, &mut book, credit, weights, pair, &active.order)?;
            fills.extend_from_slice(own.as_slice())?;
        }
    }
    Ok(fills)
}

/// The orders of a pair.
fn book_of(alloc: Global, orders: &[ActiveOrder], pair: PairId) -> Result<Vec<ActiveOrder>, Memory>
    ensures orders { IfOk result (λ book. book.items ≡ in_pair pair orders.now) }
{
    let mut book = Vec::new(alloc);
    for active in orders {
        if active.pair == pair {
            book.push(*active)?;
        }
    }
    Ok(book)
}

/// The turn of an order in the pair's book: where it still rests there it is swept as it stands now. The fills are made in
/// the book, and their cost is added to the credit used.
fn turn(
    alloc: Global,
    book: &mut Vec<ActiveOrder>,
    credit: &mut Credit,
    weights: &[u32],
    pair: PairId,
    order: &Resting,
) -> Result<FillList, Memory>
    requires pair { pair < length weights.now }
    requires weights { AreWeights weights.now }
    ensures turn { IfOk result (TurnOf weights.now pair book.old.items credit.old order.now) }
    ensures book { IfOk result (λ own. book.new.items ≡ both_lowered book.old.items own) }
    ensures credit { IfOk result (λ own. credit.new ≡ credit_after weights.now credit.old own) }
{
    let Some(now) = order_of(book, pair, order.bank, order.number) else {
        return Ok(FillList::from_vec(Vec::new(alloc)));
    };
    let taker = SweptOrder::of_resting(pair, &now);
    let weight = weight_of(weights, pair);
    let sweep = paid_sweep(alloc, book, &taker, credit, weight)?;
    make_fills(book, credit, weights, sweep.fills.as_slice());
    Ok(sweep.fills)
}
