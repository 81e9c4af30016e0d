ghost use Rattle.std.specs.Prelude.{ℕ, List, ◌≡◌, ◌≤◌, ◌<◌, ◌++◌, length, IfOk, OnOk};
ghost use Rattle.fx_rules.specs.Lists.{Each};
ghost use Rattle.fx_rules.specs.History.{IsLegal, state};
ghost use Rattle.net_settle.specs.declared.payment.Payment.{Payment};
ghost use Rattle.net_settle.specs.Payments.{bilateral_of, Settles, SettlesEachTwo, IsOfBanks, between, sum_in};
ghost use Rattle.net_settle.specs.inside.Dues.{HasPlaces, two_in, behind_in, column_in};

use crate::dues::Dues;
use crate::payment::Payment;
use fx_amounts::{BankId, Memory};
use fx_rules::{Entry, Session};
use std::alloc::Global;

/// What each two banks pay each other by a legal history: of each currency the one that is due less pays the other the
/// difference. By currencies, in the order in which the pairs of the header first name them, and then by the first bank and
/// by the second, in header order. No list of payments that settles each two banks pays less in sum. Beside the payments it
/// takes 16 bytes for each two banks and each currency, 4 MiB at most. `Memory` when out of memory.
pub fn bilateral(
    alloc: Global,
    session: &Session,
    entries: &[Entry],
) -> Result<Vec<Payment>, Memory>
    requires legal { IsLegal session.now entries.now }
    ensures exactly { IfOk result (λ payments. payments.items ≡ bilateral_of session.now (state session.now entries.now)) }
    ensures each_two { IfOk result (λ payments. SettlesEachTwo session.now (state session.now entries.now) payments.items) }
    ensures day { IfOk result (λ payments. Settles session.now (state session.now entries.now) payments.items) }
    ensures one { IfOk result (λ payments. (a b : ℕ) (currency : List ℕ) → length (between a b currency payments.items) ≤ 1) }
    ensures banks { IfOk result (λ payments. Each (IsOfBanks session.now) payments.items) }
    ensures some { IfOk result (λ payments. Each (λ payment. 1 ≤ payment.amount) payments.items) }
    ensures least { IfOk result (λ payments. (others : List Payment) (currency : List ℕ) → SettlesEachTwo session.now (state session.now entries.now) others → sum_in currency payments.items ≤ sum_in currency others) }
{
    let dues = Dues::of(alloc, session, entries)?;
    let mut payments = Vec::new(alloc);
    for column in 0..dues.currencies.codes.len() {
        push_column(&dues, column, &mut payments)?;
    }
    Ok(payments)
}

/// Appends what the banks pay each other of a column's currency.
fn push_column(dues: &Dues, column: usize, payments: &mut Vec<Payment>) -> Result<(), Memory>
    requires places { HasPlaces dues.now }
    requires column { column < length dues.now.currencies.codes.items }
    ensures value { OnOk result (payments.new.items ≡ payments.old.items ++ column_in dues.now column) }
{
    for a in 0..dues.banks {
        push_behind(dues, column, a, payments)?;
    }
    Ok(())
}

/// Appends what a bank and each one behind it pay each other.
fn push_behind(
    dues: &Dues,
    column: usize,
    a: usize,
    payments: &mut Vec<Payment>,
) -> Result<(), Memory>
    requires places { HasPlaces dues.now }
    requires column { column < length dues.now.currencies.codes.items }
    requires a { a < dues.now.banks }
    ensures value { OnOk result (payments.new.items ≡ payments.old.items ++ behind_in dues.now column a) }
{
    for b in a + 1..dues.banks {
        push_two(dues, column, a, b, payments)?;
    }
    Ok(())
}

/// Appends what two banks pay each other, where one is due more than the other.
fn push_two(
    dues: &Dues,
    column: usize,
    a: usize,
    b: usize,
    payments: &mut Vec<Payment>,
) -> Result<(), Memory>
    requires places { HasPlaces dues.now }
    requires column { column < length dues.now.currencies.codes.items }
    requires a { a < dues.now.banks }
    requires b { b < dues.now.banks }
    ensures value { OnOk result (payments.new.items ≡ payments.old.items ++ two_in dues.now column a b) }
{
    let gets = dues.due(a, b, column);
    let gives = dues.due(b, a, column);
    let currency = dues.currencies.codes[column];
    if gives < gets {
        payments.push(Payment {
            payer: BankId::at(b),
            payee: BankId::at(a),
            currency,
            amount: gets - gives,
        })?;
    } else if gets < gives {
        payments.push(Payment {
            payer: BankId::at(a),
            payee: BankId::at(b),
            currency,
            amount: gives - gets,
        })?;
    }
    Ok(())
}
