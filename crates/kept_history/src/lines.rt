ghost use Rattle.std.specs.Prelude.{◌≡◌, if◌then◌else◌, Some, None, is_some, Ok, IfOk, OnOk};
ghost use Rattle.fx_rules.specs.Lists.{Each};
ghost use Rattle.fx_rules.specs.Sending.{IsSentOf};
ghost use Rattle.session_head.specs.Head.{Head, answer_to, session_of};
ghost use Rattle.kept_history.specs.Blocks.{header_in, commands_in, behind};

use fx_amounts::Memory;
use fx_rules::{Sent, Session};
use fx_text::first_line;
use order_lines::journal_in;
use session_head::{HeadReader, HeadStep, HeadStop};
use std::alloc::Global;

/// The session of a body that is a header up to START; `None` where it is none.
pub(crate) fn read_header(alloc: Global, body: &[u8]) -> Result<Option<Session>, Memory>
    ensures session { IfOk result (λ session. session ≡ header_in body.now) }
{
    let mut reader = HeadReader::new(alloc);
    let mut started = false;
    let mut rest = body;
    while let Some((line, after)) = first_line(rest) {
        if started {
            return Ok(None);
        }
        match reader.line_in(&line) {
            Ok(step) => started = is_start(step),
            Err(HeadStop::Fault { .. }) => return Ok(None),
            Err(HeadStop::Memory(memory)) => return Err(memory),
        }
        rest = after;
    }
    if rest.is_empty() {
        return Ok(reader.into_session());
    }
    Ok(None)
}

/// Whether the line that answered this was START.
fn is_start(step: HeadStep) -> bool
    ensures { (head : Head) → Ok step ≡ answer_to head → result ≡ is_some (session_of head) }
{
    match step {
        HeadStep::More => false,
        HeadStep::Start => true,
    }
}

/// Adds the commands of a body, a line for each, behind those before, and answers whether it is such lines. After `false`
/// and after `Memory` some of them may be added.
pub(crate) fn read_commands(
    session: &Session,
    body: &[u8],
    sent: &mut Vec<Sent>,
) -> Result<bool, Memory>
    ensures commands { IfOk result (λ whole.
        behind sent.old.items (commands_in session.now body.now) ≡ (if whole then Some sent.new.items else None)) }
    ensures valid { Each (IsSentOf session.now) sent.old.items → OnOk result (Each (IsSentOf session.now) sent.new.items) }
{
    let mut rest = body;
    while let Some((line, after)) = first_line(rest) {
        let Some((bank, command)) = journal_in(session, &line) else {
            return Ok(false);
        };
        sent.push(Sent { bank, command })?;
        rest = after;
    }
    Ok(rest.is_empty())
}
