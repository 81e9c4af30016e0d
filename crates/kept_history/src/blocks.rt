ghost use Rattle.std.specs.Prelude.{◌<◌, length, drop, IfOk};
ghost use Rattle.fx_rules.specs.Lists.{Each};
ghost use Rattle.fx_rules.specs.Sending.{IsSentOf};
ghost use Rattle.kept_history.specs.Blocks.{commands_from, kept_in};
ghost use Rattle.kept_history.specs.inside.Stops.{AnswersKept, AnswersSent};

use crate::lines::{read_commands, read_header};
use crate::stop::Stop;
use fx_rules::{Sent, Session};
use fx_text::Bytes;
use std::alloc::Global;

/// What whole blocks hold.
#[derive(Drop)]
pub(crate) struct Kept {
    pub(crate) session: Session,
    /// The commands in the order of their lines.
    pub(crate) sent: Vec<Sent>,
}

/// Reads the blocks: the first is a header, and the others are lines of commands.
pub(crate) fn read_blocks(alloc: Global, bodies: &[Bytes]) -> Result<Kept, Stop>
    requires some { 0 < length bodies.now }
    ensures kept { AnswersKept result (kept_in bodies.now) }
    ensures valid { IfOk result (λ kept. Each (IsSentOf kept.session) kept.sent.items) }
{
    let Some(session) = read_header(alloc, bodies[0].as_slice())? else {
        return Err(Stop::Damaged { block: 0 });
    };
    let sent = read_sent(alloc, &session, bodies)?;
    Ok(Kept { session, sent })
}

/// Reads the commands of the blocks behind the first.
fn read_sent(alloc: Global, session: &Session, bodies: &[Bytes]) -> Result<Vec<Sent>, Stop>
    requires some { 0 < length bodies.now }
    ensures sent { AnswersSent result (commands_from session.now 1 (drop 1 bodies.now)) }
    ensures valid { IfOk result (λ sent. Each (IsSentOf session.now) sent.items) }
{
    let mut sent = Vec::new(alloc);
    for block in 1..bodies.len() {
        if !read_commands(session, bodies[block].as_slice(), &mut sent)? {
            return Err(Stop::Damaged {
                block: block as u64,
            });
        }
    }
    Ok(sent)
}
