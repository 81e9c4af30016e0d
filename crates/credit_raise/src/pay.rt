//! What the fills of turns take of the lines.
ghost use Rattle.std.specs.Prelude.{◌≡◌};
ghost use Rattle.fx_amounts.specs.Quantity.{IsWeight};
ghost use Rattle.credit_lines.specs.Credit.{IsCredit};
ghost use Rattle.credit_raise.specs.inside.Paying.{paid_all, paid_by, pays};

use credit_lines::CreditLines;
use fx_rules::Fill;

/// Takes what each of these fills costs of the line between its two banks, in order, where a lot costs `weight` credit units. The
/// lines are those of so many banks. Nothing is taken for a fill that its line does not pay for; there is none among the fills of turns.
pub(crate) fn pay_all(lines: &mut CreditLines, banks: usize, weight: u32, fills: &[Fill])
    requires banks { banks ≡ lines.old.banks }
    requires weight { IsWeight weight }
    requires valid { IsCredit lines.old }
    ensures value { lines.new ≡ paid_all weight lines.old fills.now }
    ensures valid { IsCredit lines.new }
{
    for fill in fills {
        pay(lines, banks, weight, fill);
    }
}

/// Takes what one costs.
fn pay(lines: &mut CreditLines, banks: usize, weight: u32, fill: &Fill)
    requires banks { banks ≡ lines.old.banks }
    requires weight { IsWeight weight }
    requires valid { IsCredit lines.old }
    ensures value { lines.new ≡ paid_by weight lines.old fill.now }
    ensures valid { IsCredit lines.new }
{
    let cost = fill.lots.cost(weight);
    if pays(lines, banks, weight, fill) {
        lines.take(fill.taker, fill.maker, cost);
    }
}

/// Whether the line between a fill's two banks pays for it.
fn pays(lines: &CreditLines, banks: usize, weight: u32, fill: &Fill) -> bool
    requires banks { banks ≡ lines.now.banks }
    requires weight { IsWeight weight }
    ensures value { result ≡ pays weight lines.now fill.now }
{
    fill.taker.index() < banks
        && fill.maker.index() < banks
        && fill.taker != fill.maker
        && fill.lots.cost(weight) <= lines.eff(fill.taker, fill.maker)
}
