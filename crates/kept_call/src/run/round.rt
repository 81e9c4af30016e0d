//! What is kept of a round, and what is told of it.
ghost use Rattle.std.specs.Prelude.{◌≡◌, [], ◌++◌, List, IfOk, OnOk};
ghost use Rattle.fx_rules.specs.declared.outcome.Entry.{Entry as HistoryEntry};
ghost use Rattle.fx_rules.specs.Lists.{Each};
ghost use Rattle.fx_rules.specs.Step.{IsCommand};
ghost use Rattle.fx_rules.specs.History.{IsLegal};
ghost use Rattle.session_head.specs.HeadText.{head_text_of};
ghost use Rattle.reply_lines.specs.Telling.{told_text, HasCounted};
ghost use Rattle.kept_call.specs.KeptRounds.{block_of};

use fx_amounts::Memory;
use fx_rules::{Entry, Session};
use fx_text::LineText;
use keep_disk::Round;
use order_lines::make_command;
use reply_lines::{NoticeSheet, Telling};
use session_head::head_text;
use std::alloc::Global;

/// The round of a new session's header, of which nothing is told.
pub(crate) fn header_round(alloc: Global, session: &Session) -> Result<Round, Memory>
    ensures body { IfOk result (λ round. round.body.items ≡ head_text_of session.now) }
    ensures text { IfOk result (λ round. round.text.items ≡ []) }
{
    let mut body = Vec::new(alloc);
    head_text(session, &mut body)?;
    Ok(Round {
        body,
        text: Vec::new(alloc),
    })
}

/// The round of the next entries of a legal history: its block has the lines of their commands, and its text their notices. After
/// `Memory` the telling must not be used any more.
pub(crate) fn round_of(
    alloc: Global,
    session: &Session,
    entries: &[Entry],
    telling: &mut Telling,
) -> Result<Round, Memory>
    requires next { (before : List HistoryEntry) × IsLegal session.now (before ++ entries.now) × HasCounted session.now before telling.old.counts.items }
    ensures body { IfOk result (λ round. round.body.items ≡ block_of session.now entries.now) }
    ensures text { IfOk result (λ round. (before : List HistoryEntry) → HasCounted session.now before telling.old.counts.items → round.text.items ≡ told_text session.now before entries.now) }
    ensures counted { OnOk result ((before : List HistoryEntry) → HasCounted session.now before telling.old.counts.items → HasCounted session.now (before ++ entries.now) telling.new.counts.items) }
{
    let mut body = Vec::new(alloc);
    let mut text = NoticeSheet::new(alloc);
    push_lines(session, entries, &mut body)?;
    telling.tell(session, entries, &mut text)?;
    Ok(Round {
        body,
        text: text.into_lines(),
    })
}

/// Appends the lines of the commands of entries. After `Memory` some of them may be appended.
fn push_lines(session: &Session, entries: &[Entry], body: &mut Vec<u8>) -> Result<(), Memory>
    requires commands { Each (λ entry. IsCommand session.now entry.bank entry.command) entries.now }
    ensures lines { OnOk result (body.new.items ≡ body.old.items ++ block_of session.now entries.now) }
{
    let mut line = LineText::new();
    for entry in entries {
        make_command(session, entry.bank, &entry.command, &mut line);
        body.extend_from_slice(line.as_slice())?;
    }
    Ok(())
}
