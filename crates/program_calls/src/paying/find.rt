ghost use Rattle.std.specs.Prelude.{IfOk};
ghost use Rattle.fx_rules.specs.Lists.{Each};
ghost use Rattle.fx_rules.specs.History.{IsLegal, state};
ghost use Rattle.net_settle.specs.Payments.{IsOfBanks};
ghost use Rattle.program_calls.specs.PaymentText.{AreInForm};

use fx_amounts::Memory;
use fx_rules::{Entry, Session};
use net_settle::{Form, Payment, bilateral, net};
use std::alloc::Global;

/// The payments of a legal history in the form that is asked for, as `net_settle` finds them. `Memory` when out of memory.
pub fn find_payments(
    alloc: Global,
    form: Form,
    session: &Session,
    entries: &[Entry],
) -> Result<Vec<Payment>, Memory>
    requires legal { IsLegal session.now entries.now }
    ensures form { IfOk result (λ payments. AreInForm form session.now (state session.now entries.now) payments.items) }
    ensures banks { IfOk result (λ payments. Each (IsOfBanks session.now) payments.items) }
{
    match form {
        Form::Bilateral => bilateral(alloc, session, entries),
        Form::Net => net(alloc, session, entries),
    }
}
