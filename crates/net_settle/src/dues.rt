ghost use Rattle.std.specs.Prelude.{[], ◌∷◌, ◌≡◌, ◌≤◌, ◌<◌, length, IfOk};
ghost use Rattle.fx_rules.specs.History.{IsLegal, state};
ghost use Rattle.day_report.specs.Table.{place};
ghost use Rattle.day_report.specs.inside.Trades.{CanAdd, Adds};
ghost use Rattle.net_settle.specs.inside.Dues.{HasPlaces, SumsFit, AreDues, CanAddAll, due_in, got_in, gave_in};

use day_report::{Currencies, Table, amounts_of, buyer, seller};
use fx_amounts::Memory;
use fx_rules::{Entry, Fill, Session};
use std::alloc::Global;

/// What each bank is due from each other one, of each currency, by the fills so far. Banks are named by their places in the
/// header.
#[derive(Debug, Drop)]
pub(crate) struct Dues {
    pub banks: usize,
    pub currencies: Currencies,
    /// A row for each two banks, by the one that gets and then by the one that gives, and a column for each currency.
    sums: Table,
}

/// What a bank gets of a currency by all fills, and what it gives, in units of it.
#[derive(Clone, Copy, Debug)]
pub(crate) struct Flow {
    pub got: u128,
    pub gave: u128,
}

impl Dues {
    /// What the banks are due by the fills of a legal history.
    pub(crate) fn of(alloc: Global, session: &Session, entries: &[Entry]) -> Result<Dues, Memory>
        requires legal { IsLegal session.now entries.now }
        ensures value { IfOk result (AreDues session.now (state session.now entries.now).fills) }
    {
        let mut dues = Dues::open(alloc, session)?;
        for entry in entries {
            dues.add_all(session, entry.outcome.fills());
        }
        Ok(dues)
    }

    /// What they are due before any fill.
    fn open(alloc: Global, session: &Session) -> Result<Dues, Memory>
        ensures value { IfOk result (AreDues session.now []) }
    {
        let currencies = Currencies::open(alloc, session)?;
        let banks = session.banks().len();
        let sums = Table::open(alloc, banks * banks, currencies.codes.len())?;
        Ok(Dues {
            banks,
            currencies,
            sums,
        })
    }

    /// Adds fills.
    fn add_all(&mut self, session: &Session, fills: &[Fill])
        requires { CanAddAll session.now self.old fills.now }
        ensures adds { Adds (λ before. AreDues session.now before self.old) (λ all. AreDues session.now all self.new) fills.now }
    {
        for fill in fills {
            self.add(session, fill);
        }
    }

    /// Adds a fill: the base amount is due to the buyer from the seller, the quote amount to the seller from the buyer.
    fn add(&mut self, session: &Session, fill: &Fill)
        requires { CanAdd session.now (λ fills. AreDues session.now fills self.old) fill.now }
        ensures adds { Adds (λ fills. AreDues session.now fills self.old) (λ fills. AreDues session.now fills self.new) (fill.now ∷ []) }
    {
        let amounts = amounts_of(session, fill);
        let columns = self.currencies.of_pair(fill.pair);
        let (buyer, seller) = (buyer(fill).index(), seller(fill).index());
        self.sums.add(
            row_of(self.banks, buyer, seller),
            columns.base,
            amounts.base,
        );
        self.sums.add(
            row_of(self.banks, seller, buyer),
            columns.quote,
            amounts.quote,
        );
    }

    /// What `a` is due from `b` of a column's currency.
    pub(crate) fn due(&self, a: usize, b: usize, column: usize) -> u128
        requires places { HasPlaces self.now }
        requires a { a < self.now.banks }
        requires b { b < self.now.banks }
        requires column { column < length self.now.currencies.codes.items }
        ensures value { result ≡ due_in self.now a b column }
    {
        self.sums.at(row_of(self.banks, a, b), column)
    }

    /// What a bank gets of a column's currency from all banks together, and what it gives them.
    pub(crate) fn flow(&self, bank: usize, column: usize) -> Flow
        requires places { HasPlaces self.now }
        requires bank { bank < self.now.banks }
        requires column { column < length self.now.currencies.codes.items }
        requires fit { SumsFit self.now column }
        ensures got { result.got ≡ got_in self.now bank column }
        ensures gave { result.gave ≡ gave_in self.now bank column }
    {
        let mut got = 0;
        let mut gave = 0;
        for other in 0..self.banks {
            got += self.due(bank, other, column);
            gave += self.due(other, bank, column);
        }
        Flow { got, gave }
    }
}

/// The row of two of so many banks.
fn row_of(banks: usize, a: usize, b: usize) -> usize
    requires most { banks ≤ 64 }
    requires a { a < banks }
    requires b { b < banks }
    ensures value { result ≡ place banks a b }
{
    a * banks + b
}
