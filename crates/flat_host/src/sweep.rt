ghost use Rattle.std.specs.Prelude.{◌≡◌, ◌<◌, ◌≤◌, ◌/◌, Some, None, slice_index, IfOk};
ghost use Rattle.fx_rules.specs.Lists.{total};
ghost use Rattle.fx_rules.specs.State.{orders_in};
ghost use Rattle.fx_rules.specs.Sweep.{is_open, is_preferred};
ghost use Rattle.fx_rules.specs.Plan.{Planned, is_behind};
ghost use Rattle.flat_host.specs.inside.Search.{is_candidate, candidates, preferred_of, IsBestOf};
ghost use Rattle.flat_host.specs.Parts.{PlannedBy};
ghost use Rattle.flat_host.specs.Walks.{StepsOn};

use crate::credit::{Credit, affordable, lines_of};
use fx_amounts::{BankId, Memory, Side};
use fx_rules::{ActiveOrder, Fill, FillList, Resting, SweptOrder};
use std::alloc::Global;

/// A sweep that was found and is not yet carried out.
#[derive(Drop)]
pub struct Sweep {
    /// What it fills, in order.
    pub fills: FillList,
    /// The lots that the taker has left.
    pub left: u128,
}

/// Whether a taker of `side` prefers the first order: its price is better, or the same and it arrived earlier.
fn is_preferred(side: Side, order: &Resting, other: &Resting) -> bool
    ensures value { result ≡ is_preferred side order.now other.now }
{
    let is_better = match side {
        Side::Buy => order.price < other.price,
        Side::Sell => order.price > other.price,
    };
    is_better || (order.price == other.price && order.arrival < other.arrival)
}

/// Whether a resting order of the taker's pair is open to it, where `reach` lots are in reach of the order's owner.
fn is_open(taker: &SweptOrder, reach: u64, order: &Resting) -> bool
    ensures value { result ≡ is_open taker.now reach order.now }
{
    order.side == taker.side.opposite()
        && order.bank != taker.bank
        && reach >= 1
        && taker.price.crosses(order.price, taker.side)
        && order.arrival < taker.arrival
}

/// Whether an order comes behind the last one taken, where there is one.
fn is_behind(side: Side, last: &Option<Resting>, order: &Resting) -> bool
    ensures value { result ≡ is_behind side last.now order.now }
{
    match last {
        None => true,
        Some(last) => is_preferred(side, last, order),
    }
}

/// Whether an order of the book is open to the taker, by the lines in credit units that it has left with each bank, and
/// comes behind the last one taken.
fn is_candidate(
    taker: &SweptOrder,
    lines: &[u64; BankId::SENDERS],
    weight: u32,
    last: &Option<Resting>,
    active: &ActiveOrder,
) -> bool
    requires { 1 ≤ weight }
    ensures value { result ≡ is_candidate weight lines.now taker.now last.now active.now }
{
    let order = &active.order;
    let reach = lines[order.bank.index()] / u64::from(weight);
    active.pair == taker.pair && is_open(taker, reach, order) && is_behind(taker.side, last, order)
}

/// The best of the orders of the taker's pair that are open to it and come behind the last one taken; `None` where
/// there is none. It looks at each order once.
fn best_behind(
    orders: &[ActiveOrder],
    taker: &SweptOrder,
    lines: &[u64; BankId::SENDERS],
    weight: u32,
    last: &Option<Resting>,
) -> Option<Resting>
    requires { 1 ≤ weight }
    ensures best { IsBestOf taker.now.side (candidates weight lines.now taker.now last.now orders.now) result }
{
    let mut best: Option<Resting> = None;
    for active in orders {
        if is_candidate(taker, lines, weight, last, active) {
            best = Some(preferred(taker.side, best, active.order));
        }
    }
    best
}

/// The order that a taker of `side` prefers, of the best so far and the next one.
fn preferred(side: Side, best: Option<Resting>, next: Resting) -> Resting
    ensures value { result ≡ preferred_of side best next }
{
    match best {
        Some(best) if !is_preferred(side, &next, &best) => best,
        _ => next,
    }
}

/// A sweep as it goes from best order to best order. It changes no order.
#[derive(Drop)]
pub struct Walk {
    /// The taker, with the lots that it still wants.
    pub taker: SweptOrder,
    /// What is left of its lines with each bank, in credit units.
    pub lines: [u64; BankId::SENDERS],
    /// The order that it took last, where there is one.
    pub last: Option<Resting>,
}

impl Walk {
    /// Before its first fill.
    pub fn new(taker: &SweptOrder, lines: [u64; BankId::SENDERS]) -> Walk
        ensures taker { result.taker ≡ taker.now }
        ensures lines { result.lines ≡ lines }
        ensures last { result.last ≡ None }
    {
        Walk {
            taker: *taker,
            lines,
            last: None,
        }
    }

    /// The next fill, where a lot costs `weight` credit units; `None` where the taker wants no more or nothing more is open
    /// to it.
    pub fn next_fill(&mut self, orders: &[ActiveOrder], weight: u32) -> Option<Fill>
        requires weight { 1 ≤ weight }
        ensures steps { StepsOn weight orders.now self.old self.new result }
    {
        if self.taker.left == 0 {
            return None;
        }
        let maker = best_behind(orders, &self.taker, &self.lines, weight, &self.last)?;
        let line = self.lines[maker.bank.index()];
        let lots = self.taker.amount(&maker, line / u64::from(weight));
        let fill = self.taker.fill_with(&maker, lots);
        self.lines[maker.bank.index()] = line - u64::from(lots.count()) * u64::from(weight);
        self.taker.left -= u128::from(lots.count());
        self.last = Some(maker);
        Some(fill)
    }
}

/// The sweep of a taker over the orders as they rest, where `lines` are its lines with each bank, in credit units, and
/// a lot costs `weight` of them. It finds the fills and changes nothing; only their list takes memory.
pub fn plan_sweep(
    alloc: Global,
    orders: &[ActiveOrder],
    taker: &SweptOrder,
    lines: [u64; BankId::SENDERS],
    weight: u32,
) -> Result<Sweep, Memory>
    requires weight { 1 ≤ weight }
    ensures planned { IfOk result (λ sweep.
        Planned weight (slice_index lines) (orders_in taker.now.pair orders.now) taker.now None sweep.fills sweep.left) }
    ensures lots { IfOk result (λ sweep. total (λ fill. fill.lots) sweep.fills ≤ total (λ line. line) lines) }
    ensures left { IfOk result (λ sweep. sweep.left ≤ taker.now.left) }
{
    let mut walk = Walk::new(taker, lines);
    let mut fills = Vec::new(alloc);
    while let Some(fill) = walk.next_fill(orders, weight) {
        fills.push(fill)?;
    }
    Ok(Sweep {
        fills: FillList::from_vec(fills),
        left: walk.taker.left,
    })
}

/// The sweep of a taker over the orders as they rest, on the credit of its bank, where a lot costs `weight` credit units. Where its bank
/// has a total, it takes no more lots than what the total leaves pays for.
pub fn paid_sweep(
    alloc: Global,
    orders: &[ActiveOrder],
    taker: &SweptOrder,
    credit: &Credit,
    weight: u32,
) -> Result<Sweep, Memory>
    requires weight { 1 ≤ weight }
    ensures planned { IfOk result (λ sweep.
        PlannedBy weight credit.now (orders_in taker.now.pair orders.now) taker.now sweep.fills sweep.left) }
    ensures left { IfOk result (λ sweep. sweep.left ≤ taker.now.left) }
{
    let lesser = affordable(credit.room(taker.bank), weight, taker);
    let lines = lines_of(credit, taker.bank);
    let sweep = plan_sweep(alloc, orders, &lesser, lines, weight)?;
    Ok(Sweep {
        fills: sweep.fills,
        left: taker.left - lesser.left + sweep.left,
    })
}
