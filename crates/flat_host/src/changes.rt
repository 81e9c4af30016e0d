ghost use Rattle.std.specs.Prelude.{◌≡◌, ◌^◌, ◌-◌, ◌&&◌, ◌==◌, min, find, length, filter};
ghost use Rattle.fx_rules.specs.State.{orders_in};
ghost use Rattle.fx_rules.specs.Sweep.{is_order};
ghost use Rattle.fx_rules.specs.Step.{cancel_answer, reduce_answer, without_order, reduced, without_orders};
ghost use Rattle.flat_host.specs.Parts.{rests_of, is_done};

use fx_amounts::{BankId, Lots, PairId};
use fx_rules::{ActiveOrder, Outcome, Resting};

/// Whether an order is the one of this bank and number.
fn is_order(order: &Resting, bank: BankId, number: u32) -> bool
    ensures value { result ≡ is_order bank number order.now }
{
    order.bank == bank && order.number == number
}

/// Whether an order is one of a bank's in the pair.
fn is_of(active: &ActiveOrder, pair: PairId, bank: BankId) -> bool
    ensures value { result ≡ (active.now.pair == pair && active.now.order.bank == bank) }
{
    active.pair == pair && active.order.bank == bank
}

/// The order of this bank and number, where it rests in the pair.
pub fn order_of(orders: &[ActiveOrder], pair: PairId, bank: BankId, number: u32) -> Option<Resting>
    ensures found { result ≡ find (λ order. is_order bank number order) (orders_in pair orders.now) }
{
    for active in orders {
        if active.pair == pair && is_order(&active.order, bank, number) {
            return Some(active.order);
        }
    }
    None
}

/// What a cancel of this order answers.
pub fn cancel_answer(order: Option<Resting>) -> Outcome
    ensures value { result ≡ cancel_answer order }
{
    match order {
        None => Outcome::Nothing,
        Some(order) => Outcome::Cancelled {
            left: order.left.count(),
        },
    }
}

/// What a reduction of this order to so many lots answers.
pub fn reduce_answer(lots: Lots, order: Option<Resting>) -> Outcome
    ensures value { result ≡ reduce_answer lots order }
{
    match order {
        None => Outcome::Nothing,
        Some(order) if lots < order.left => Outcome::Reduced { left: lots.count() },
        Some(order) => Outcome::NotLess {
            left: order.left.count(),
        },
    }
}

/// How many orders of a bank rest in the pair; the largest `u32` where they are more.
pub fn count_of(orders: &[ActiveOrder], pair: PairId, bank: BankId) -> u32
    ensures value { result ≡ min (length (filter (λ order. order.bank == bank) (orders_in pair orders.now))) (2 ^ 32 - 1) }
{
    let mut count = 0u32;
    for active in orders {
        if is_of(active, pair, bank) {
            count = count.saturating_add(1);
        }
    }
    count
}

/// Takes the order of this bank and number out.
pub fn take_out(orders: &mut Vec<ActiveOrder>, bank: BankId, number: u32)
    ensures orders { orders.new.items ≡ without_order bank number orders.old.items }
{
    orders.retain(|active| !is_order(&active.order, bank, number));
}

/// Leaves the order of this bank and number so many lots; it keeps its place.
pub fn leave_lots(orders: &mut [ActiveOrder], bank: BankId, number: u32, left: Lots)
    ensures orders { orders.new ≡ reduced bank number left orders.old }
{
    for active in orders.iter_mut() {
        let ActiveOrder { pair, order } = *active;
        if is_order(&order, bank, number) {
            let order = Resting { left, ..order };
            *active = ActiveOrder { pair, order };
        }
    }
}

/// Takes all orders of a bank in the pair out.
pub fn take_out_all(orders: &mut Vec<ActiveOrder>, pair: PairId, bank: BankId)
    ensures orders { orders.new.items ≡ without_orders pair bank orders.old.items }
{
    orders.retain(|active| !is_of(active, pair, bank));
}

/// The lots of an order that rest by its outcome.
pub fn rests_of(outcome: &Outcome) -> u32
    ensures rests { result ≡ rests_of outcome.now }
{
    match outcome {
        Outcome::Ordered { rests, .. } => *rests,
        _ => 0,
    }
}

/// Whether an outcome is that of a cancel or of a reduction that was done.
pub fn is_done(outcome: &Outcome) -> bool
    ensures is_done { result ≡ is_done outcome.now }
{
    match outcome {
        Outcome::Cancelled { .. } => true,
        Outcome::Reduced { .. } => true,
        _ => false,
    }
}
