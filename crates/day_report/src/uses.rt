ghost use Rattle.std.specs.Prelude.{◌≡◌, ◌≤◌, ◌<◌, ◌++◌, IfOk, OnOk};
ghost use Rattle.day_report.specs.inside.Lists.{uses_behind, uses_in};

use crate::rows::Use;
use credit_lines::CreditLines;
use fx_amounts::{BankId, Memory};
use std::alloc::Global;

/// The credit between each two of so many banks.
pub(crate) fn uses(alloc: Global, lines: &CreditLines, banks: usize) -> Result<Vec<Use>, Memory>
    requires most { banks ≤ 64 }
    requires banks { lines.now.banks ≡ banks }
    ensures value { IfOk result (λ uses. uses.items ≡ uses_in lines.now) }
{
    let mut uses = Vec::new(alloc);
    for place in 0..banks {
        push_uses(lines, banks, BankId::at(place), &mut uses)?;
    }
    Ok(uses)
}

/// Appends the credit between a bank and each one behind it.
fn push_uses(
    lines: &CreditLines,
    banks: usize,
    a: BankId,
    uses: &mut Vec<Use>,
) -> Result<(), Memory>
    requires most { banks ≤ 64 }
    requires banks { lines.now.banks ≡ banks }
    requires within { a < banks }
    ensures value { OnOk result (uses.new.items ≡ uses.old.items ++ uses_behind lines.now a) }
{
    for place in a.index() + 1..banks {
        let b = BankId::at(place);
        uses.push(Use {
            a,
            b,
            limit_ab: lines.limit(a, b),
            limit_ba: lines.limit(b, a),
            used: lines.used(a, b),
            eff: lines.eff(a, b),
        })?;
    }
    Ok(())
}
