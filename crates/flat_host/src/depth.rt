ghost use Rattle.std.specs.Prelude.{◌&&◌, ◌==◌, ◌≡◌, ◌≤◌, ◌<◌, ◌^◌, IfOk, filter};
ghost use Rattle.fx_rules.specs.Lists.{total};
ghost use Rattle.fx_rules.specs.State.{orders_in};
ghost use Rattle.fx_rules.specs.Sweep.{is_opposite};
ghost use Rattle.flat_host.specs.Walks.{IsLevelled};
ghost use Rattle.flat_host.specs.inside.Walks.{against_in};

use crate::sweep::Walk;
use fx_amounts::{BankId, Memory, PairId, Side};
use fx_rules::{ActiveOrder, LevelList, SHOWN_LEVELS, SweptOrder, add_fill};
use std::alloc::Global;

/// Whether an order is one of the other side of the pair.
fn is_against(active: &ActiveOrder, pair: PairId, side: Side) -> bool
    ensures value { result ≡ (active.now.pair == pair && is_opposite side active.now.order.side) }
{
    active.pair == pair && active.order.side == side.opposite()
}

/// The lots that the orders of the other side of a pair have left.
pub fn lots_against(orders: &[ActiveOrder], pair: PairId, side: Side) -> u128
    ensures value { result ≡ total (λ order. order.left) (filter (λ order. is_opposite side order.side) (orders_in pair orders.now)) }
{
    let mut lots = 0u128;
    for active in orders {
        if is_against(active, pair, side) {
            lots += u128::from(active.order.left.count());
        }
    }
    lots
}

/// The orders of the other side of a pair.
fn orders_against(
    alloc: Global,
    orders: &[ActiveOrder],
    pair: PairId,
    side: Side,
) -> Result<Vec<ActiveOrder>, Memory>
    ensures against { IfOk result (λ against. against.items ≡ against_in pair side orders.now) }
{
    let mut against = Vec::new(alloc);
    for active in orders {
        if is_against(active, pair, side) {
            against.push(*active)?;
        }
    }
    Ok(against)
}

/// The first ten levels of the sweep of a taker, where `lines` are its lines with each bank, in credit units, and a lot costs
/// `weight` of them. It looks through all orders once, and then through those against the taker alone, fill by fill. At
/// `Memory` there was none for these or for the levels.
pub fn first_levels(
    alloc: Global,
    orders: &[ActiveOrder],
    taker: &SweptOrder,
    lines: [u64; BankId::SENDERS],
    weight: u32,
) -> Result<LevelList, Memory>
    requires weight { 1 ≤ weight }
    requires lots { total (λ line. line) lines < 2 ^ 64 }
    ensures levels { IfOk result (IsLevelled weight lines orders.now taker.now) }
{
    let against = orders_against(alloc, orders, taker.pair, taker.side)?;
    levels_among(alloc, &against, taker, lines, weight)
}

/// The first ten levels of the sweep of a taker through these orders, where `lines` are its lines with each bank, in credit units, and a lot costs
/// `weight` of them. It stops at the first fill of an eleventh price, since none behind that changes them. At `Memory` there
/// was none for the levels.
fn levels_among(
    alloc: Global,
    orders: &[ActiveOrder],
    taker: &SweptOrder,
    lines: [u64; BankId::SENDERS],
    weight: u32,
) -> Result<LevelList, Memory>
    requires weight { 1 ≤ weight }
    requires lots { total (λ line. line) lines < 2 ^ 64 }
    ensures levels { IfOk result (IsLevelled weight lines orders.now taker.now) }
{
    let mut walk = Walk::new(taker, lines);
    let mut levels = Vec::new(alloc);
    while levels.len() <= SHOWN_LEVELS {
        let Some(fill) = walk.next_fill(orders, weight) else {
            break;
        };
        add_fill(&mut levels, &fill)?;
    }
    levels.truncate(SHOWN_LEVELS);
    Ok(LevelList::from_vec(levels))
}
