//! Searches that go on from where the last one ended.
ghost use Rattle.std.specs.Prelude.{◌≡◌, ◌<◌, ◌≤◌, length};

use crate::drawn::{Pair, drawn_pair, reach_of};
use crate::plain::is_better;
use fx_amounts::{BankId, Memory, Price, Side};
use fx_rules::Resting;
use global_book::PairBook;
use price_levels::Steps;
use std::alloc::Global;
use std::marker::Brand;
use std::sync::ledger::{Blank, Ledger};
use std::test::Fail;
use trial_days::{bank, lots, price};

/// What a taker is looking for: a side, the lots of each bank that it reaches, a limit, and before which arrival.
#[derive(Clone, Copy)]
struct Search<'a> {
    side: Side,
    reach: &'a [u64],
    limit: Option<Price>,
    before: u64,
}

/// Whether an order of a side stands behind another one, by price and then by arrival.
fn is_behind(side: Side, past: &Resting, order: &Resting) -> bool {
    is_better(side.opposite(), past.price, order.price)
        || (order.price == past.price && past.arrival < order.arrival)
}

/// Whether an order is one of those that are looked for, and stands behind another one, where there is one.
fn is_sought(search: &Search, past: &Option<Resting>, order: &Resting) -> bool {
    let lots = match search.reach.get(order.bank.index()) {
        Some(lots) => *lots,
        None => 0,
    };
    let is_allowed = match search.limit {
        Some(limit) => !is_better(search.side.opposite(), limit, order.price),
        None => true,
    };
    let is_behind = match past {
        Some(past) => is_behind(search.side, past, order),
        None => true,
    };
    let is_in_time = order.arrival < search.before;
    order.side == search.side && is_in_time && lots > 0 && is_allowed && is_behind
}

/// How many of the flat list's orders are looked for.
fn count_sought(orders: &[Resting], search: &Search, past: &Option<Resting>) -> usize {
    let mut count = 0usize;
    for order in orders {
        if is_sought(search, past, order) {
            count = count.saturating_add(1);
        }
    }
    count
}

/// How many orders a book finds one behind the other, each of them looked for; `None` where one of them is not.
fn count_found<L: Ledger>(
    book: &PairBook,
    search: &Search,
    past: &Option<Resting>,
    steps: &mut Steps<L>,
) -> Option<usize>
    requires one_each { length search.now.reach.now ≡ book.now.banks }
{
    let mut last = *past;
    for count in 0..10_000 {
        let next = book.best(
            search.side,
            search.reach,
            search.limit,
            search.before,
            last.as_ref(),
            steps,
        );
        let Some(order) = next else {
            return Some(count);
        };
        if !is_sought(search, &last, &order) {
            return None;
        }
        last = Some(order);
    }
    None
}

/// Whether a book finds as many orders one behind the other as the flat list has.
fn is_found_alike<L: Ledger>(
    pair: &Pair,
    search: &Search,
    past: &Option<Resting>,
    steps: &mut Steps<L>,
) -> bool
    requires one_each { length search.now.reach.now ≡ pair.now.book.banks }
{
    let found = count_found(&pair.book, search, past, steps);
    found == Some(count_sought(&pair.orders, search, past))
}

/// An order that rests in no book, behind all others at its price.
fn gap(side: Side) -> Resting {
    Resting {
        bank: bank(0),
        number: 1,
        side,
        price: price(108_475),
        left: lots(1),
        arrival: u64::MAX,
    }
}

/// Whether a book finds what its list has, in four searches of a side: from the best order on, within a limit, among the first thousand
/// that arrived, and behind an order that does not rest.
fn are_found_alike<L: Ledger>(
    alloc: Global,
    pair: &Pair,
    taker: BankId,
    side: Side,
    steps: &mut Steps<L>,
) -> Result<bool, Memory>
    requires taker { taker < pair.now.book.banks }
{
    let lots = reach_of(alloc, &pair.lines, taker, pair.book.banks())?;
    let reach = lots.as_slice();
    let all = Search {
        side,
        reach,
        limit: None,
        before: u64::MAX,
    };
    let near = Search {
        limit: Some(price(108_520)),
        ..all
    };
    let early = Search {
        before: 1_000,
        ..all
    };
    Ok(
        is_found_alike(pair, &all, &None, steps)
            && is_found_alike(pair, &near, &None, steps)
            && is_found_alike(pair, &early, &None, steps)
            && is_found_alike(pair, &all, &Some(gap(side)), steps),
    )
}

/// Whether a book finds what its list has on both sides.
fn both_found_alike<L: Ledger>(
    alloc: Global,
    pair: &Pair,
    taker: BankId,
    steps: &mut Steps<L>,
) -> Result<bool, Memory>
    requires taker { taker < pair.now.book.banks }
{
    Ok(
        are_found_alike(alloc, pair, taker, Side::Buy, steps)?
            && are_found_alike(alloc, pair, taker, Side::Sell, steps)?,
    )
}

/// Whether each order of the flat list is found in the book, but none of this bank's.
fn all_but<L: Ledger>(pair: &Pair, gone: BankId, steps: &mut Steps<L>) -> bool {
    for order in &pair.orders {
        let wanted = (order.bank != gone).then_some(*order);
        if pair.book.find(order.bank, order.number, steps) != wanted {
            return false;
        }
    }
    true
}

/// Whether a bank's orders are found in the order in which they arrived, each from the arrival behind the last one.
fn is_in_order<L: Ledger>(pair: &Pair, bank: BankId, steps: &mut Steps<L>) -> bool {
    let mut after = 0;
    for order in pair.orders.iter().filter(|order| order.bank == bank) {
        if pair.book.next_of(bank, after, steps) != Some(*order) {
            return false;
        }
        after = order.arrival.saturating_add(1);
    }
    pair.book.next_of(bank, after, steps).is_none()
}

/// Whether a book of so many banks finds what the flat list has, and again once a bank has pulled its orders.
fn find_alike<L: Ledger>(alloc: Global, pair: &mut Pair, blank: Blank) -> Result<bool, Memory>
    requires two { 2 < pair.old.book.banks }
    requires name { blank.name ≡ L.name }
    requires parts { blank.parts ≡ L.parts }
    requires some { 0 < blank.parts }
{
    let mut steps = Steps::<L>::new(blank);
    let (viewer, gone) = (BankId::new(0).unwrap(), BankId::new(1).unwrap());
    if !both_found_alike(alloc, pair, viewer, &mut steps)? || !is_in_order(pair, gone, &mut steps) {
        return Ok(false);
    }
    let pulled = pair
        .orders
        .iter()
        .filter(|order| order.bank == gone)
        .count();
    let is_pulled = pair.book.pull(gone) as usize == pulled && all_but(pair, gone, &mut steps);
    pair.orders.retain(|order| order.bank != gone);
    let is_counted = pair.book.len() == pair.orders.len();
    Ok(is_pulled && is_counted && both_found_alike(alloc, pair, viewer, &mut steps)?)
}

#[test]
fn searches_come_to_every_order_that_is_sought(rt: HostRuntime) -> Result<(), Fail> {
    for banks in [8, 64] {
        let mut pair = drawn_pair(rt.alloc(), u64::from(banks), banks, 2_000)?;
        assert!(rt; find_alike::<Brand>(rt.alloc(), &mut pair, Blank::new(1))?);
    }
    Ok(())
}
