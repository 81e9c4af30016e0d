ghost use Rattle.std.specs.Prelude.{◌≡◌, ◌≤◌, ◌<◌, [], ◌∷◌, ◌++◌, IfOk, OnOk};
ghost use Rattle.day_report.specs.Report.{base_of, quote_of};
ghost use Rattle.day_report.specs.inside.Trades.{CanAdd, Adds};
ghost use Rattle.day_report.specs.Sums.{AreFlows};
ghost use Rattle.day_report.specs.inside.Lists.{HaveNets, nets_at, nets_in};

use crate::amounts::{Amounts, buyer, seller};
use crate::currencies::Currencies;
use crate::rows::Net;
use crate::table::Table;
use fx_amounts::{BankId, Memory};
use fx_rules::{Fill, Session};
use std::alloc::Global;

/// What each bank got of each currency by the fills so far, and what it gave. A table has a column for each currency.
#[derive(Debug, Drop)]
pub(crate) struct Flows {
    currencies: Currencies,
    received: Table,
    paid: Table,
}

impl Flows {
    /// The flows of a session before any fill.
    pub(crate) fn open(alloc: Global, session: &Session) -> Result<Flows, Memory>
        ensures value { IfOk result (AreFlows session.now []) }
    {
        let currencies = Currencies::open(alloc, session)?;
        let banks = session.banks().len();
        let columns = currencies.codes.len();
        Ok(Flows {
            currencies,
            received: Table::open(alloc, banks, columns)?,
            paid: Table::open(alloc, banks, columns)?,
        })
    }

    /// Adds a fill, which moves these amounts: the buyer gets the base amount and gives the quote amount, the seller the reverse.
    pub(crate) fn add(&mut self, session: &Session, fill: &Fill, amounts: &Amounts)
        requires can { CanAdd session.now (λ fills. AreFlows session.now fills self.old) fill.now }
        requires base { amounts.now.base ≡ base_of session.now fill.now }
        requires quote { amounts.now.quote ≡ quote_of session.now fill.now }
        ensures adds { Adds (λ fills. AreFlows session.now fills self.old) (λ fills. AreFlows session.now fills self.new) (fill.now ∷ []) }
    {
        let columns = self.currencies.of_pair(fill.pair);
        let (buyer, seller) = (buyer(fill).index(), seller(fill).index());
        self.received.add(buyer, columns.base, amounts.base);
        self.received.add(seller, columns.quote, amounts.quote);
        self.paid.add(buyer, columns.quote, amounts.quote);
        self.paid.add(seller, columns.base, amounts.base);
    }

    /// What each bank got, less what it gave, of each currency.
    pub(crate) fn nets(&self, alloc: Global, banks: usize) -> Result<Vec<Net>, Memory>
        requires banks { banks ≤ 64 }
        requires fit { HaveNets banks self.now }
        ensures value { IfOk result (λ nets. nets.items ≡ nets_in self.now banks) }
    {
        let mut nets = Vec::new(alloc);
        for place in 0..banks {
            self.push_nets(banks, BankId::at(place), &mut nets)?;
        }
        Ok(nets)
    }

    /// Appends the nets of a bank, of so many.
    fn push_nets(&self, banks: usize, bank: BankId, nets: &mut Vec<Net>) -> Result<(), Memory>
        requires within { bank < banks }
        requires fit { HaveNets banks self.now }
        ensures value { OnOk result (nets.new.items ≡ nets.old.items ++ nets_at self.now bank) }
    {
        for (column, code) in self.currencies.codes.iter().enumerate() {
            let received = self.received.at(bank.index(), column) as i128;
            let paid = self.paid.at(bank.index(), column) as i128;
            nets.push(Net {
                bank,
                currency: *code,
                amount: received - paid,
            })?;
        }
        Ok(())
    }
}
