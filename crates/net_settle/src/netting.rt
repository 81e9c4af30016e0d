ghost use Rattle.std.specs.Prelude.{ℕ, List, ◌≡◌, ◌≤◌, ◌<◌, ◌-◌, length, IfOk, OnOk};
ghost use Rattle.fx_rules.specs.Lists.{Each, total};
ghost use Rattle.fx_rules.specs.Session.{bank_count};
ghost use Rattle.fx_rules.specs.History.{IsLegal, state};
ghost use Rattle.net_settle.specs.declared.payment.Payment.{Payment};
ghost use Rattle.net_settle.specs.Payments.{Settles, IsNetting, IsOfBanks, Walks, payments_in, sum_in, owed_of};
ghost use Rattle.net_settle.specs.inside.Dues.{HasPlaces, SumsFit, code_in, owes_in, owed_in, Appends};

use crate::balances::Balances;
use crate::dues::Dues;
use crate::payment::Payment;
use fx_amounts::{BankId, Memory};
use fx_rules::{Code, Entry, Session};
use std::alloc::Global;

/// What the banks pay by a legal history once all that a bank owes of a currency is set against all that it is owed: by
/// currencies, in the order in which the pairs of the header first name them, the first bank in header order that still owes
/// pays the first that is still owed, the lesser of the two amounts. No list of payments that settles the day pays less in
/// sum; it may name two banks that have not traded with each other, or that grant each other no credit. It takes as much memory
/// as `bilateral`. `Memory` when out of memory.
pub fn net(alloc: Global, session: &Session, entries: &[Entry]) -> Result<Vec<Payment>, Memory>
    requires legal { IsLegal session.now entries.now }
    ensures netting { IfOk result (λ payments. IsNetting session.now (state session.now entries.now) payments.items) }
    ensures day { IfOk result (λ payments. Settles session.now (state session.now entries.now) payments.items) }
    ensures few { IfOk result (λ payments. (currency : List ℕ) → length (payments_in currency payments.items) ≤ bank_count session.now - 1) }
    ensures banks { IfOk result (λ payments. Each (IsOfBanks session.now) payments.items) }
    ensures some { IfOk result (λ payments. Each (λ payment. 1 ≤ payment.amount) payments.items) }
    ensures sum { IfOk result (λ payments. (currency : List ℕ) → sum_in currency payments.items ≡ total (λ n. n) (owed_of session.now (state session.now entries.now) currency)) }
    ensures least { IfOk result (λ payments. (others : List Payment) (currency : List ℕ) → Settles session.now (state session.now entries.now) others → sum_in currency payments.items ≤ sum_in currency others) }
{
    let dues = Dues::of(alloc, session, entries)?;
    let mut payments = Vec::new(alloc);
    for column in 0..dues.currencies.codes.len() {
        net_column(alloc, &dues, column, &mut payments)?;
    }
    Ok(payments)
}

/// Appends the payments of a column's currency.
fn net_column(
    alloc: Global,
    dues: &Dues,
    column: usize,
    payments: &mut Vec<Payment>,
) -> Result<(), Memory>
    requires places { HasPlaces dues.now }
    requires column { column < length dues.now.currencies.codes.items }
    requires fit { SumsFit dues.now column }
    ensures walks { OnOk result (Appends (Walks (code_in dues.now column) (owes_in dues.now column) (owed_in dues.now column)) payments.old.items payments.new.items) }
{
    let currency = dues.currencies.codes[column];
    let mut balances = Balances::of(alloc, dues, column)?;
    walk(currency, &mut balances.owes, &mut balances.owed, payments)
}

/// Appends what the banks pay of a currency until none owes.
fn walk(
    currency: Code,
    owes: &mut [u128],
    owed: &mut [u128],
    payments: &mut Vec<Payment>,
) -> Result<(), Memory>
    requires most { length owes.old ≤ 64 }
    requires lengths { length owes.old ≡ length owed.old }
    requires sums { total (λ n. n) owes.old ≡ total (λ n. n) owed.old }
    ensures walks { OnOk result (Appends (Walks currency owes.old owed.old) payments.old.items payments.new.items) }
{
    let mut payer = 0;
    let mut payee = 0;
    while payer < owes.len() && payee < owed.len() {
        if owes[payer] == 0 {
            payer += 1;
        } else if owed[payee] == 0 {
            payee += 1;
        } else {
            let amount = owes[payer].min(owed[payee]);
            payments.push(Payment {
                payer: BankId::at(payer),
                payee: BankId::at(payee),
                currency,
                amount,
            })?;
            owes[payer] -= amount;
            owed[payee] -= amount;
        }
    }
    Ok(())
}
