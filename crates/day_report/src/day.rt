ghost use Rattle.std.specs.Prelude.{ℕ, List, ◌≡◌, pos, IfOk};
ghost use Rattle.fx_rules.specs.History.{IsLegal, state};
ghost use Rattle.day_report.specs.Report.{volumes_of, uses_of, nets_of, balance, NetsBalance};

use crate::day_sums::DaySums;
use crate::rows::Report;
use fx_amounts::Memory;
use fx_rules::{Entry, Session};
use std::alloc::Global;

/// The report of a legal history, from one walk along its entries. `Memory` when out of memory; nothing is changed then.
pub fn report(alloc: Global, session: &Session, entries: &[Entry]) -> Result<Report, Memory>
    requires legal { IsLegal session.now entries.now }
    ensures volumes { IfOk result (λ report. report.volumes ≡ volumes_of session.now (state session.now entries.now)) }
    ensures uses { IfOk result (λ report. report.uses ≡ uses_of session.now (state session.now entries.now)) }
    ensures nets { IfOk result (λ report. report.nets ≡ nets_of session.now (state session.now entries.now)) }
    ensures balance { IfOk result (λ report. (currency : List ℕ) → balance currency report.nets ≡ pos 0) }
{
    let mut sums = DaySums::open(alloc, session)?;
    for entry in entries {
        sums.follow(session, entry);
    }
    sums.into_report(alloc, session)
}

/// In the report of every legal history the nets of all banks add up to 0 in each currency.
pub fn nets_balance()
    ensures balance { NetsBalance }
{}
