ghost use Rattle.std.specs.Prelude.{◌≡◌, ◌<◌, ◌≤◌, ◌+◌, ◌-◌, ◌*◌, ◌/◌, ◌^◌, ℕ, length, max, min, slice_index, vec_len, vec_capacity, slice_index_or, false, Option, IfOk, IfSome, IfNone};
ghost use Rattle.fx_rules.specs.Lists.{total};
ghost use Rattle.fx_rules.specs.State.{at_most};
ghost use Rattle.fx_rules.specs.Sweep.{lowered, is_order};
ghost use Rattle.fx_rules.specs.declared.orders.ActiveOrder.{ActiveOrder};
ghost use Rattle.flat_host.specs.FlatState.{limit_place, use_place, limit_in, use_in, others_of, spent_in, room_in, line_in};
ghost use Rattle.flat_host.specs.Parts.{both_lowered, use_raised, credit_after, affordable};
ghost use Rattle.flat_host.specs.inside.FlatState.{IsCredit};
ghost use Rattle.flat_host.specs.inside.Parts.{StandsAt, limited_in, totalled_in, settled_in};
ghost use Rattle.flat_host.specs.inside.Opening.{OpensWith};

use crate::opening::{no_uses, opening_limits, opening_totals};
use fx_amounts::{BankId, Lots, Memory, PairId, Units};
use fx_rules::{ActiveOrder, Fill, Resting, Session, SweptOrder};
use std::alloc::Global;
use std::marker::Model;

/// What the banks can trade on, and have traded on. Contracts see its tables.
#[derive(Drop)]
pub(crate) struct Credit {
    banks: usize,
    /// By two banks, in rows of 65.
    limits: Vec<Units>,
    /// By two banks, the lesser number first, in rows of 65.
    uses: Vec<Units>,
    /// Of each bank, where it has one. What a bank has spent is not kept: it is added up where it has a total.
    totals: Vec<Option<u64>>,
}

impl Model for Credit {
    ghost use Rattle.flat_host.specs.FlatState.{FlatCredit};

    ghost Value = { FlatCredit };

    ghost use Rattle.flat_host.specs.inside.Credit.{flat_credit_of, IsTables};

    ghost view = { flat_credit_of };

    ghost invariant = { IsTables };
}

impl Credit {
    /// The credit as a session's day opens: nothing is used, and the limits and totals are the opening ones.
    pub(crate) fn open(alloc: Global, session: &Session) -> Result<Credit, Memory>
        ensures opens { IfOk result (OpensWith session.now) }
        ensures valid { IfOk result IsCredit }
    {
        Ok(Credit {
            banks: session.banks().len(),
            limits: opening_limits(alloc, session)?,
            uses: no_uses(alloc)?,
            totals: opening_totals(alloc, session)?,
        })
    }

    /// The same credit, in memory of its own.
    pub(crate) fn copy(&self, alloc: Global) -> Result<Credit, Memory>
        ensures equal { IfOk result (λ credit. credit ≡ self.now) }
    {
        Ok(Credit {
            banks: self.banks,
            limits: Vec::from_slice(alloc, &self.limits)?,
            uses: Vec::from_slice(alloc, &self.uses)?,
            totals: Vec::from_slice(alloc, &self.totals)?,
        })
    }

    /// Its tables are full, and no use is above a limit or a total. It does nothing: it tells a proof.
    pub(crate) fn told(&self)
        ensures valid { IsCredit self.now }
    {
        let _ = &self.banks;
    }

    /// The limit that bank `i` sets on bank `j`.
    pub(crate) fn limit(&self, i: BankId, j: BankId) -> Units
        ensures value { result ≡ limit_in self.now.limits i j }
    {
        self.limits[limit_place(i, j)]
    }

    /// What two banks have used.
    pub(crate) fn used(&self, i: BankId, j: BankId) -> Units
        ensures value { result ≡ use_in self.now.uses i j }
    {
        self.uses[use_place(i, j)]
    }

    /// What a bank has used with all others.
    pub(crate) fn spent(&self, bank: BankId) -> u64
        ensures value { result ≡ spent_in self.now bank }
        ensures most { result ≤ 64 * 10 ^ 15 }
    {
        spent_of(&self.uses, self.banks, bank)
    }

    /// What a bank's total leaves of it, where it has a total.
    pub(crate) fn room(&self, bank: BankId) -> Option<u64>
        ensures value { result ≡ room_in self.now bank }
    {
        match self.totals[bank.index()] {
            None => None,
            Some(most) => Some(most.saturating_sub(self.spent(bank))),
        }
    }

    /// The line between two banks, in credit units.
    pub(crate) fn line(&self, i: BankId, j: BankId) -> u64
        ensures value { result ≡ line_in self.now i j }
        ensures most { result + use_in self.now.uses i j ≤ 10 ^ 15 }
    {
        let there = self.limit(i, j).get();
        let back = self.limit(j, i).get();
        let left = there.min(back).saturating_sub(self.used(i, j).get());
        at_most(self.room(i), at_most(self.room(j), left))
    }

    /// Sets a bank's limit on another: to what it asks for, but never below what the two have used. The answer is the limit.
    pub(crate) fn set_limit(&mut self, bank: BankId, other: BankId, asked: Units) -> Units
        ensures value { result ≡ max asked (use_in self.old.uses bank other) }
        ensures set { self.new ≡ limited_in self.old bank other result }
        ensures valid { IsCredit self.old }
    {
        let limit = asked.max(self.used(bank, other));
        self.limits[limit_place(bank, other)] = limit;
        limit
    }

    /// Sets a bank's total: to what it asks for, but never below what it has used with all others. The answer is the total.
    pub(crate) fn set_total(&mut self, bank: BankId, asked: Units) -> u64
        ensures value { result ≡ max asked (spent_in self.old bank) }
        ensures set { self.new ≡ totalled_in self.old bank result }
        ensures valid { IsCredit self.old }
    {
        let total = asked.get().max(self.spent(bank));
        self.totals[bank.index()] = Some(total);
        total
    }

    /// Gives so much of what two banks have used back, but never more than they have. The answer is how much.
    pub(crate) fn give_back(&mut self, a: BankId, b: BankId, asked: Units) -> Units
        ensures value { result ≡ min asked (use_in self.old.uses a b) }
        ensures given { self.new ≡ settled_in self.old a b result }
        ensures valid { IsCredit self.old }
    {
        let used = self.used(a, b);
        let given = asked.min(used);
        self.uses[use_place(a, b)] = Units::new(used.get() - given.get()).unwrap();
        given
    }

    /// Adds to what two banks have used, where their line pays for it.
    fn raise_use(&mut self, i: BankId, j: BankId, units: u64)
        ensures raised { self.new ≡ use_raised self.old i j units }
    {
        if units <= self.line(i, j) {
            let used = self.used(i, j).get() + units;
            self.uses[use_place(i, j)] = Units::new(used).unwrap();
        }
    }
}

/// The place of the limit that bank `i` sets on bank `j`.
fn limit_place(i: BankId, j: BankId) -> usize
    ensures value { result ≡ limit_place i j }
    ensures most { result < 4225 }
    ensures banks { (i < 65) × (j < 65) }
{
    65 * i.index() + j.index()
}

/// The place of what two banks have used, in either order.
fn use_place(i: BankId, j: BankId) -> usize
    ensures value { result ≡ use_place i j }
    ensures most { result < 4225 }
    ensures banks { (i < 65) × (j < 65) }
{
    65 * i.index().min(j.index()) + i.index().max(j.index())
}

/// What a bank has used with all others, of so many banks.
fn spent_of(uses: &[Units], banks: usize, bank: BankId) -> u64
    requires uses { length uses.now ≡ 4225 }
    requires banks { banks ≤ 64 }
    ensures value { result ≡ total (use_in uses.now bank) (others_of banks bank) }
    ensures most { result ≤ 64 * 10 ^ 15 }
{
    let mut spent = 0u64;
    for place in 0..banks {
        let other = BankId::at(place);
        if other != bank {
            spent += uses[use_place(bank, other)].get();
        }
    }
    spent
}

/// A number, and no more than a bound where there is one.
fn at_most(bound: Option<u64>, number: u64) -> u64
    ensures value { result ≡ at_most bound number }
{
    match bound {
        None => number,
        Some(most) => most.min(number),
    }
}

/// The lines of a bank with each bank, in credit units.
pub(crate) fn lines_of(credit: &Credit, bank: BankId) -> [u64; BankId::SENDERS]
    ensures lines { (other : ℕ) → other < 65 → slice_index result other ≡ line_in credit.now bank other }
    ensures most { total (λ line. line) result ≤ 65 * 10 ^ 15 }
{
    let mut lines = [0; BankId::SENDERS];
    for place in 0..65u8 {
        if let Some(other) = BankId::new(place) {
            lines[place as usize] = credit.line(bank, other);
        }
    }
    lines
}

/// A taker that wants no more lots than what its bank's total leaves pays for, at `weight` credit units a lot.
pub(crate) fn affordable(room: Option<u64>, weight: u32, taker: &SweptOrder) -> SweptOrder
    requires weight { 1 ≤ weight }
    ensures value { result ≡ affordable room weight taker.now }
    ensures left { result.left ≤ taker.now.left }
{
    match room {
        None => *taker,
        Some(units) => {
            let lots = u128::from(units / u64::from(weight));
            SweptOrder {
                left: lots.min(taker.left),
                ..*taker
            }
        }
    }
}

/// The place of the order of this bank and number, where it rests.
fn place_of(orders: &[ActiveOrder], bank: BankId, number: u32) -> Option<usize>
    ensures found { IfSome result (λ at. (a : ActiveOrder) → StandsAt bank number orders.now at a) }
    ensures within { IfSome result (λ at. at < length orders.now) }
    ensures none { IfNone result ((k : ℕ) (a : ActiveOrder) → k < length orders.now → is_order bank number (slice_index_or orders.now k a).order ≡ false) }
{
    for (at, active) in orders.iter().enumerate() {
        if active.order.bank == bank && active.order.number == number {
            return Some(at);
        }
    }
    None
}

/// Takes the order of this bank and number `lots` lower; where nothing is left it no longer rests.
pub(crate) fn lower(orders: &mut Vec<ActiveOrder>, bank: BankId, number: u32, lots: Lots)
    ensures orders { orders.new.items ≡ lowered bank number lots orders.old.items }
    ensures len { vec_len orders.new ≤ vec_len orders.old }
    ensures room { vec_capacity orders.new ≡ vec_capacity orders.old }
{
    let Some(at) = place_of(orders, bank, number) else {
        return;
    };
    let ActiveOrder { pair, order } = orders[at];
    match Lots::new(order.left.count().saturating_sub(lots.count())) {
        Some(left) => {
            let order = Resting { left, ..order };
            orders[at] = ActiveOrder { pair, order };
        }
        None => {
            orders.remove(at);
        }
    }
}

/// Credit units a lot of a pair; 0 where the weights have none for it.
pub(crate) fn weight_of(weights: &[u32], pair: PairId) -> u32
    ensures value { result ≡ slice_index weights.now pair }
{
    match weights.get(pair.index()) {
        Some(weight) => *weight,
        None => 0,
    }
}

/// Makes these fills: each lowers both its orders, where they rest, and its cost is added to what its banks have used.
/// A pair's lot costs its weight in credit units.
pub(crate) fn make_fills(
    orders: &mut Vec<ActiveOrder>,
    credit: &mut Credit,
    weights: &[u32],
    fills: &[Fill],
)
    ensures orders { orders.new.items ≡ both_lowered orders.old.items fills.now }
    ensures len { vec_len orders.new ≤ vec_len orders.old }
    ensures room { vec_capacity orders.new ≡ vec_capacity orders.old }
    ensures credit { credit.new ≡ credit_after weights.now credit.old fills.now }
{
    for fill in fills {
        lower(orders, fill.maker, fill.maker_number, fill.lots);
        lower(orders, fill.taker, fill.taker_number, fill.lots);
        let weight = weight_of(weights, fill.pair);
        let cost = u64::from(fill.lots.count()) * u64::from(weight);
        credit.raise_use(fill.taker, fill.maker, cost);
    }
}
