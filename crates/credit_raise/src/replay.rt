ghost use Rattle.std.specs.Prelude.{ℕ, true, ◌≡◌, ◌≢◌, ◌≤◌, ◌<◌, ◌+◌, ◌*◌, ◌/◌, ◌-◌, ◌^◌, ◌++◌, ◌∷◌, [], List, false, length, IfOk, OnOk};
ghost use Rattle.fx_amounts.specs.Quantity.{IsWeight};
ghost use Rattle.fx_rules.specs.declared.orders.Fill.{Fill};
ghost use Rattle.fx_rules.specs.Lists.{Each};
ghost use Rattle.fx_rules.specs.Sweep.{fill_with, is_order, open_in};
ghost use Rattle.fx_rules.specs.Raise.{taker_of_resting};
ghost use Rattle.credit_raise.specs.inside.Playing.{IsBestOf, SweptAmong, joined, lessened, lessened_all, only, paid};

use crate::waiting::Waiting;
use fx_amounts::{BankId, Lots, Memory, PairId};
use fx_rules::{Fill, Resting, SweptOrder};
use price_levels::Steps;
use std::alloc::Global;
use std::sync::ledger::Ledger;

/// Two banks' orders as they meet one another, one after the other in arrival order.
#[derive(Drop)]
pub(crate) struct Replay {
    pair: PairId,
    /// The orders that had their turns, with what they have left.
    pub(crate) waiting: Waiting,
    /// Credit units a lot, 1 to 10^6.
    pub(crate) weight: u32,
    /// What the fills so far leave of the line between the two banks, in credit units.
    pub(crate) line: u64,
    /// The fills so far.
    pub(crate) fills: Vec<Fill>,
}

impl Replay {
    /// Before the first turn, where some orders wait, with a line of so many credit units.
    pub(crate) fn new(
        alloc: Global,
        pair: PairId,
        waiting: Waiting,
        weight: u32,
        line: u64,
    ) -> Replay
        ensures pair { result.pair ≡ pair }
        ensures waiting { result.waiting ≡ waiting }
        ensures weight { result.weight ≡ weight }
        ensures line { result.line ≡ line }
        ensures fills { result.fills.items ≡ [] }
    {
        Replay {
            pair,
            waiting,
            weight,
            line,
            fills: Vec::new(alloc),
        }
    }

    /// The turn of an order that arrived behind all others, against the orders of the other bank. Where it has lots left
    /// it waits behind them. One step at most, and one for each fill; none where they stand in a list.
    pub(crate) fn turn<L: Ledger>(
        &mut self,
        order: &Resting,
        other: BankId,
        steps: &mut Steps<L>,
    ) -> Result<(), Memory>
        requires weight { IsWeight self.old.weight }
        requires bank { order.now.bank < self.old.waiting.banks }
        requires differ { order.now.bank ≢ other }
        requires last { Each (λ waiting. waiting.arrival < order.now.arrival) self.old.waiting.orders }
        requires number { 1 ≤ order.now.number }
        requires absent { Each (λ waiting. is_order order.now.bank order.now.number waiting ≡ false) self.old.waiting.orders }
        ensures weight { self.new.weight ≡ self.old.weight }
        ensures banks { self.new.waiting.banks ≡ self.old.waiting.banks }
        ensures listed { self.new.waiting.listed ≡ self.old.waiting.listed }
        ensures pair { self.new.pair ≡ self.old.pair }
        ensures turn { OnOk result ((own : List Fill) × (left : ℕ)
            × SweptAmong self.old.weight other self.old.line self.old.waiting.orders (taker_of_resting self.old.pair order.now) own left
            × (self.new.fills.items ≡ self.old.fills.items ++ own)
            × (self.new.line ≡ paid self.old.weight self.old.line own)
            × (self.new.waiting.orders ≡ joined order.now left (lessened_all self.old.waiting.orders own))) }
        ensures steps { OnOk result (steps.new + length self.old.fills.items ≤ steps.old + 1 + length self.new.fills.items) }
        ensures unlooked { self.old.waiting.listed ≡ true → steps.new ≡ steps.old }
    {
        let left = self.sweep(order, other, steps)?;
        if let Some(left) = Lots::new(left) {
            self.waiting.push(Resting { left, ..*order })?;
        }
        Ok(())
    }

    /// The sweep of an order among those that wait. It answers what the order has left, 0 to 10^6 lots. One step
    /// at most, and one for each fill; none along a list.
    fn sweep<L: Ledger>(
        &mut self,
        order: &Resting,
        other: BankId,
        steps: &mut Steps<L>,
    ) -> Result<u32, Memory>
        requires weight { IsWeight self.old.weight }
        requires differ { order.now.bank ≢ other }
        requires last { Each (λ waiting. waiting.arrival < order.now.arrival) self.old.waiting.orders }
        ensures weight { self.new.weight ≡ self.old.weight }
        ensures banks { self.new.waiting.banks ≡ self.old.waiting.banks }
        ensures listed { self.new.waiting.listed ≡ self.old.waiting.listed }
        ensures pair { self.new.pair ≡ self.old.pair }
        ensures most { IfOk result (λ left. left ≤ 10 ^ 6) }
        ensures swept { IfOk result (λ left. (own : List Fill)
            × SweptAmong self.old.weight other self.old.line self.old.waiting.orders (taker_of_resting self.old.pair order.now) own left
            × (self.new.fills.items ≡ self.old.fills.items ++ own)
            × (self.new.line ≡ paid self.old.weight self.old.line own)
            × (self.new.waiting.orders ≡ lessened_all self.old.waiting.orders own)) }
        ensures steps { IfOk result (λ left. steps.new + length self.old.fills.items ≤ steps.old + 1 + length self.new.fills.items) }
        ensures unlooked { self.old.waiting.listed ≡ true → steps.new ≡ steps.old }
    {
        let mut left = order.left.count();
        while left > 0 {
            let Some(maker) = self.best_open(order, other, steps) else {
                break;
            };
            let taker = self.swept(order, left);
            let lots = taker.amount_by_line(&maker, self.line, self.weight);
            self.trade(&taker, &maker, lots)?;
            left -= lots.count();
        }
        Ok(left)
    }

    /// An order as it is swept in the pair, with so many lots left.
    fn swept(&self, order: &Resting, left: u32) -> SweptOrder
        ensures value { result ≡ taker_of_resting self.now.pair (record order.now { left = left }) }
    {
        SweptOrder {
            left: u128::from(left),
            ..SweptOrder::of_resting(self.pair, order)
        }
    }

    /// The best of the waiting orders that are open to an order; `None` where there is none. One step at most, and none along a list.
    fn best_open<L: Ledger>(
        &self,
        order: &Resting,
        other: BankId,
        steps: &mut Steps<L>,
    ) -> Option<Resting>
        requires weight { IsWeight self.now.weight }
        requires differ { order.now.bank ≢ other }
        requires last { Each (λ waiting. waiting.arrival < order.now.arrival) self.now.waiting.orders }
        ensures best { IsBestOf order.now.side (open_in (only other (self.now.line / self.now.weight)) (taker_of_resting self.now.pair order.now) self.now.waiting.orders) result }
        ensures steps { steps.new ≤ steps.old + 1 }
        ensures unlooked { self.now.waiting.listed ≡ true → steps.new ≡ steps.old }
    {
        if self.line < u64::from(self.weight) {
            return None;
        }
        let side = order.side.opposite();
        let maker = self.waiting.best_of(other, side, order.arrival, steps)?;
        if !order.price.crosses(maker.price, order.side) {
            return None;
        }
        Some(maker)
    }

    /// Trades lots of a waiting order, at its price, which the line pays for.
    fn trade(&mut self, taker: &SweptOrder, maker: &Resting, lots: Lots) -> Result<(), Memory>
        requires weight { IsWeight self.old.weight }
        requires line { lots * self.old.weight ≤ self.old.line }
        ensures weight { self.new.weight ≡ self.old.weight }
        ensures banks { self.new.waiting.banks ≡ self.old.waiting.banks }
        ensures listed { self.new.waiting.listed ≡ self.old.waiting.listed }
        ensures pair { self.new.pair ≡ self.old.pair }
        ensures fills { OnOk result (self.new.fills.items ≡ self.old.fills.items ++ fill_with taker.now maker.now lots ∷ []) }
        ensures line { OnOk result (self.new.line ≡ self.old.line - lots * self.old.weight) }
        ensures orders { OnOk result (self.new.waiting.orders ≡ lessened maker.now.bank maker.now.number lots self.old.waiting.orders) }
    {
        self.fills.push(taker.fill_with(maker, lots))?;
        self.line -= lots.cost(self.weight).get();
        self.waiting.lessen(maker.bank, maker.number, lots)
    }
}
