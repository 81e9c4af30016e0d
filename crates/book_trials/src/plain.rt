//! What a taker comes to by a plain walk: of all orders of a flat list, in the order in which they arrived, the best that it
//! can reach, again and again.
ghost use Rattle.std.specs.Prelude.{◌<◌, IfSome, length};

use fx_amounts::{BankId, Lots, Memory, Price, Side};
use fx_rules::{Level, Resting};
use std::alloc::Global;

/// What a taker took: whose order, its number and price, and the lots.
#[derive(Clone, Copy, Debug, PartialEq, Eq)]
pub(crate) struct Taken {
    pub(crate) maker: BankId,
    pub(crate) number: u32,
    pub(crate) price: Price,
    pub(crate) lots: u64,
}

/// Whether a taker of this side would rather take the first price than the other.
pub(crate) fn is_better(side: Side, price: Price, other: Price) -> bool {
    match side {
        Side::Buy => price < other,
        Side::Sell => price > other,
    }
}

/// Whether a taker of this side may take the order: it is on the other side, within the limit, and its bank is reached.
fn is_open(order: &Resting, side: Side, limit: Price, reach: &[u64]) -> bool {
    let lots = match reach.get(order.bank.index()) {
        Some(lots) => *lots,
        None => 0,
    };
    order.side != side && !is_better(side, limit, order.price) && lots > 0
}

/// Whether a price is better for a taker of this side than the best so far.
fn is_first(side: Side, price: Price, best: &Option<(usize, Price)>) -> bool {
    match best {
        None => true,
        Some((_, other)) => is_better(side, price, *other),
    }
}

/// The place of the best order for a taker of this side, by price and then by time, among those that it may take.
pub(crate) fn best_place(
    orders: &[Resting],
    side: Side,
    limit: Price,
    reach: &[u64],
) -> Option<usize>
    ensures within { IfSome result (λ at. at < length orders.now) }
{
    let mut best = None;
    for (at, order) in orders.iter().enumerate() {
        if is_open(order, side, limit, reach) && is_first(side, order.price, &best) {
            best = Some((at, order.price));
        }
    }
    match best {
        Some((at, _)) => Some(at),
        None => None,
    }
}

/// Takes what a taker of this side gets of its best order: as much as it wants, the order has and its reach allows. `None`
/// where it gets nothing.
pub(crate) fn take_best(
    orders: &mut Vec<Resting>,
    side: Side,
    limit: Price,
    reach: &mut [u64],
    wanted: u64,
) -> Option<Taken> {
    if wanted == 0 {
        return None;
    }
    let at = best_place(orders, side, limit, reach)?;
    let order = orders[at];
    let room = reach.get_mut(order.bank.index())?;
    let there = order.left.count();
    let lots = wanted.min(*room).min(u64::from(there));
    *room -= lots;
    match Lots::new(there - lots as u32) {
        Some(left) => orders[at] = Resting { left, ..order },
        None => {
            orders.remove(at);
        }
    }
    Some(Taken {
        maker: order.bank,
        number: order.number,
        price: order.price,
        lots,
    })
}

/// What a taker takes of the orders, one after another.
pub(crate) fn sweep(
    alloc: Global,
    orders: &mut Vec<Resting>,
    side: Side,
    limit: Price,
    reach: &mut [u64],
    lots: Lots,
) -> Result<Vec<Taken>, Memory> {
    let mut taken = Vec::new(alloc);
    let mut wanted = u64::from(lots.count());
    for _ in 0..lots.count() {
        let Some(next) = take_best(orders, side, limit, reach, wanted) else {
            return Ok(taken);
        };
        wanted = wanted.saturating_sub(next.lots);
        taken.push(next)?;
    }
    Ok(taken)
}

/// The first ten levels of what a taker of this side would take at any price, were it to want all there is.
pub(crate) fn levels(
    alloc: Global,
    mut orders: Vec<Resting>,
    side: Side,
    mut reach: Vec<u64>,
) -> Result<Vec<Level>, Memory> {
    let limit = match side {
        Side::Buy => Price::new(Price::MOST).unwrap(),
        Side::Sell => Price::new(Price::LEAST).unwrap(),
    };
    let mut levels: Vec<Level> = Vec::new(alloc);
    for _ in 0..orders.len() {
        let Some(next) = take_best(&mut orders, side, limit, &mut reach, u64::MAX) else {
            return Ok(levels);
        };
        let is_full = levels.len() == 10;
        match levels.last_mut() {
            Some(level) if level.price == next.price => {
                level.lots = level.lots.saturating_add(next.lots);
            }
            _ if is_full => return Ok(levels),
            _ => levels.push(Level {
                price: next.price,
                lots: next.lots,
            })?,
        }
    }
    Ok(levels)
}
