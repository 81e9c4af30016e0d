//! Sessions and days that a text says.
ghost use Rattle.std.specs.Prelude.{◌≤◌, IfOk, length};
ghost use Rattle.fx_rules.specs.Lists.{Each};
ghost use Rattle.fx_rules.specs.Sending.{IsSentOf};

use crate::fault::NoDay;
use fx_amounts::Memory;
use fx_rules::{Sent, Session};
use fx_text::{Line, LineCutter};
use order_lines::{Spoken, command_from};
use session_head::{HeadReader, HeadStep};
use std::alloc::Global;

/// The most commands of a trial's day.
pub const MOST_COMMANDS: usize = 100_000;

/// The session that a header says, up to its START.
pub fn session_of(alloc: Global, header: &[u8]) -> Result<Session, NoDay> {
    let lines = lines_of(alloc, header)?;
    let (session, _) = head_in(alloc, &lines)?;
    Ok(session)
}

/// The session of a text, and the commands that it says behind START, up to a hundred thousand.
pub fn day_of(alloc: Global, text: &[u8]) -> Result<(Session, Vec<Sent>), NoDay>
    ensures valid { IfOk result (λ day. Each (IsSentOf day.0) day.1.items) }
    ensures few { IfOk result (λ day. length day.1.items ≤ 100000) }
{
    let lines = lines_of(alloc, text)?;
    let (session, read) = head_in(alloc, &lines)?;
    let sent = commands_in(alloc, &session, lines.get(read..).unwrap_or_default())?;
    if sent.len() > MOST_COMMANDS {
        return Err(NoDay::Long);
    }
    Ok((session, sent))
}

/// The lines of a text.
fn lines_of(alloc: Global, text: &[u8]) -> Result<Vec<Line>, Memory> {
    let mut lines = Vec::new(alloc);
    LineCutter::new().feed(text, &mut lines)?;
    Ok(lines)
}

/// The session of a text's header, and how many lines that has.
fn head_in(alloc: Global, lines: &[Line]) -> Result<(Session, usize), NoDay> {
    let mut reader = HeadReader::new(alloc);
    let mut read = 0usize;
    for line in lines {
        read = read.saturating_add(1);
        if reader.line(line) != Ok(HeadStep::More) {
            break;
        }
    }
    let session = reader.into_session().ok_or(NoDay::Session)?;
    Ok((session, read))
}

/// The commands that the lines behind START say.
fn commands_in(alloc: Global, session: &Session, lines: &[Line]) -> Result<Vec<Sent>, Memory>
    ensures valid { IfOk result (λ sent. Each (IsSentOf session.now) sent.items) }
{
    let mut sent = Vec::new(alloc);
    for line in lines {
        if let Spoken::Of(bank, command) = command_from(session, line) {
            sent.push(Sent { bank, command })?;
        }
    }
    Ok(sent)
}
