ghost use Rattle.std.specs.Prelude.{◌≡◌, ◌≢◌, ◌≤◌, ◌<◌, ◌+◌, ◌^◌, Option, IfSome, slice_index};
ghost use Rattle.fx_amounts.specs.Quantity.{IsWeight};
ghost use Rattle.fx_rules.specs.declared.orders.Resting.{Resting};
ghost use Rattle.credit_lines.specs.Credit.{line_in};
ghost use Rattle.match_sweep.specs.inside.Heads.{CameBefore};
ghost use Rattle.match_sweep.specs.inside.Walks.{ComesTo, GoesBehind, HasCome, IsAlong, IsFound, IsWalk, StepsOn, Takes, left_with, looks_for, looks_of};

use credit_lines::CreditLines;
use fx_amounts::BankId;
use fx_rules::{Fill, Resting, SweptOrder};
use global_book::SideHeads;
use price_levels::Steps;
use std::sync::ledger::Ledger;

/// A sweep as it goes from best order to best order, over at most `N` banks in `G` groups. It changes neither the book nor the lines. It
/// stays where it was made.
#[derive(Drop)]
pub(crate) struct Walk<'a, const N: usize, const G: usize> {
    /// The order, with the lots that it still wants.
    pub(crate) order: SweptOrder,
    /// Of each bank the order of the other side that it comes to next.
    pub(crate) heads: SideHeads<'a, N, G>,
    /// What its fills have used of the line with each bank, in credit units.
    pub(crate) used: [u64; N],
    /// What a lot costs, in credit units.
    pub(crate) weight: u32,
}

impl<'a, const N: usize, const G: usize> Walk<'a, N, G> {
    /// The next fill, by the lines of the order's bank; `None` where the order wants no more or nothing more is open to it.
    #[inline(always)]
    pub(crate) fn next_fill<L: Ledger>(
        &mut self,
        lines: &CreditLines,
        steps: &mut Steps<L>,
    ) -> Option<Fill>
        requires walk { IsWalk lines.now self.old }
        ensures walk { IsWalk lines.now self.new }
        ensures along { IsAlong self.old self.new }
        ensures steps { (last : Option Resting) → (1 ≤ self.old.order.left → HasCome lines.now self.old last) → StepsOn lines.now self.old self.new last result }
        ensures counted { CameBefore self.old.heads.orders self.old.order.arrival → steps.new ≤ steps.old + looks_of result }
    {
        if self.order.left == 0 {
            return None;
        }
        let (maker, line) = self.next_open(lines, steps)?;
        let fill = self.take(&maker, line);
        let still = line - fill.lots.cost(self.weight).get();
        if self.order.left > 0 {
            self.go_behind(maker.bank, still, steps);
        }
        Some(fill)
    }

    /// The best order that is open to the walk, and what is left of the line with its bank, in credit units. It passes the heads that arrived
    /// too late, and all orders of the banks with which no line pays for a lot.
    #[inline(always)]
    fn next_open<L: Ledger>(
        &mut self,
        lines: &CreditLines,
        steps: &mut Steps<L>,
    ) -> Option<(Resting, u64)>
        requires walk { IsWalk lines.now self.old }
        ensures same { self.new ≡ record self.old { heads = self.new.heads } }
        ensures along { IsAlong self.old self.new }
        ensures walk { IsWalk lines.now self.new }
        ensures found { IfSome result (IsFound lines.now self.new) }
        ensures comes { (last : Option Resting) → HasCome lines.now self.old last → ComesTo lines.now self.new last result }
        ensures counted { CameBefore self.old.heads.orders self.old.order.arrival → steps.new ≤ steps.old + looks_for result }
    {
        while let Some(bank) = self.heads.least() {
            let line = self.line_with(bank, lines);
            if line < u64::from(self.weight) {
                self.heads.shut(bank);
            } else {
                let maker = self.heads.head(bank, steps);
                if maker.arrival < self.order.arrival {
                    return Some((maker, line));
                }
                self.heads.pass(bank, steps);
            }
        }
        None
    }

    /// What is left of the line with a bank, in credit units; nothing with the order's own.
    #[inline(always)]
    fn line_with(&self, bank: BankId, lines: &CreditLines) -> u64
        requires own { self.now.order.bank < lines.now.banks }
        requires bank { bank < lines.now.banks }
        requires table { bank < N }
        requires used { slice_index self.now.used bank ≤ line_in lines.now self.now.order.bank bank }
        ensures value { bank ≢ self.now.order.bank → result ≡ left_with lines.now self.now bank }
        ensures own { bank ≡ self.now.order.bank → result ≡ 0 }
        ensures most { bank ≢ self.now.order.bank → line_in lines.now self.now.order.bank bank ≤ 10 ^ 15 }
    {
        if bank == self.order.bank {
            return 0;
        }
        lines.eff(self.order.bank, bank).get() - self.used[bank.index()]
    }

    /// Takes an order of another bank, with which so much is left of a line. That pays for a lot.
    #[inline(always)]
    fn take(&mut self, maker: &Resting, line: u64) -> Fill
        requires left { 1 ≤ self.old.order.left }
        requires weight { IsWeight self.old.weight }
        requires table { maker.now.bank < N }
        requires line { self.old.weight ≤ line }
        requires used { slice_index self.old.used maker.now.bank ≤ 10 ^ 15 }
        ensures taken { Takes line self.old self.new maker.now result }
    {
        let lots = self.order.amount_by_line(maker, line, self.weight);
        let fill = self.order.fill_with(maker, lots);
        self.used[maker.bank.index()] += lots.cost(self.weight).get();
        self.order.left -= u128::from(lots.count());
        fill
    }

    /// Goes behind the order of a bank that was taken, where so much is left of the line with it: to the bank's next order, and behind all of
    /// the bank's where that pays for no lot. One step at most.
    #[inline(always)]
    fn go_behind<L: Ledger>(&mut self, bank: BankId, line: u64, steps: &mut Steps<L>)
        requires bank { bank < N }
        ensures same { self.new ≡ record self.old { heads = self.new.heads } }
        ensures behind { GoesBehind self.old.weight line self.old.heads self.new.heads bank }
        ensures step { steps.new ≤ steps.old + 1 }
    {
        if line < u64::from(self.weight) {
            self.heads.shut(bank);
        } else {
            self.heads.pass(bank, steps);
        }
    }
}
