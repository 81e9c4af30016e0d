ghost use Rattle.std.specs.Prelude.{◌≡◌, ◌≤◌, ◌-◌, length, take, IfOk};
ghost use Rattle.session_script.specs.inside.Stage.{AddsLines};

use fx_amounts::Memory;
use fx_rules::{Sent, Session};
use order_lines::spelled_command;

/// Appends the commands with whose lines in their one spelling a text begins, and answers what stands behind these lines. After
/// `Err` some of them may be appended.
pub(crate) fn push_spelled<'p>(
    session: &Session,
    text: &'p [u8],
    sent: &mut Vec<Sent>,
) -> Result<&'p [u8], Memory>
    ensures adds { IfOk result (λ rest. AddsLines session.now sent.old.items sent.new.items text.now rest.now) }
    ensures before { take (length sent.old.items) sent.new.items ≡ sent.old.items }
{
    let mut rest = text;
    while let Some((next, behind)) = spelled_command(session, rest) {
        sent.push(next)?;
        rest = behind;
    }
    Ok(rest)
}

/// What a text has in front of a rest of it.
pub(crate) fn front_of<'p>(text: &'p [u8], rest: &[u8]) -> &'p [u8]
    requires { length rest.now ≤ length text.now }
    ensures front { result.now ≡ take (length text.now - length rest.now) text.now }
{
    let (front, _) = text.split_at(text.len() - rest.len());
    front
}
