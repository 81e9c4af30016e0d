//! What an entry of a history does to the lines, in two steps.
ghost use Rattle.std.specs.Prelude.{◌≡◌};
ghost use Rattle.credit_lines.specs.Credit.{IsCredit};
ghost use Rattle.credit_lines.specs.Market.{ArePaid, taken_by_all, line_set};
ghost use Rattle.credit_lines.specs.inside.Market.{CanSet};

use crate::CreditLines;
use fx_amounts::BankId;
use fx_rules::{Command, Fill, Session};

/// Sets the limit or the total that a command asks for, or gives back the units, where it asks for any of them.
#[inline(always)]
pub(crate) fn set_asked(lines: &mut CreditLines, bank: BankId, command: &Command)
    requires valid { IsCredit lines.old }
    requires can { CanSet lines.old bank command.now }
    ensures value { lines.new ≡ line_set lines.old bank command.now }
    ensures valid { IsCredit lines.new }
{
    match *command {
        Command::Line { bank: other, limit } => {
            lines.set(bank, other, limit);
        }
        Command::Total { limit } => {
            lines.set_total(bank, limit);
        }
        Command::Settle { a, b, units } => {
            lines.give_back(a, b, units);
        }
        _ => {}
    }
}

/// Takes what each of these fills uses, in order.
pub(crate) fn take_all(lines: &mut CreditLines, session: &Session, fills: &[Fill])
    requires valid { IsCredit lines.old }
    requires paid { ArePaid session.now lines.old fills.now }
    ensures value { lines.new ≡ taken_by_all session.now lines.old fills.now }
    ensures valid { IsCredit lines.new }
{
    for fill in fills {
        let units = fill.lots.cost(session.weight(fill.pair));
        lines.take(fill.taker, fill.maker, units);
    }
}
