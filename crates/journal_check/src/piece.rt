//! A piece of a journal: some lines of it are read, and then their commands are served. What a line says does not depend on the
//! market, so that the market can read ahead what these commands will need.
ghost use Rattle.std.specs.Prelude.{◌≡◌, ◌≤◌, length, OnOk};
ghost use Rattle.market_run.specs.Running.{MayServe};
ghost use Rattle.pair_host.specs.Standing.{stands};
ghost use Rattle.reply_lines.specs.Day.{AreNoticesOf};
ghost use Rattle.journal_check.specs.inside.Pieces.{HasServedPiece, ReadsPiece, StandsBehind};

use crate::journal::read_sent;
use crate::kept::Kept;
use crate::lines::ReadLines;
use crate::stop::Stop;
use fx_amounts::Memory;
use fx_rules::{Sent, Session};
use market_run::Run;
use pair_host::PairHost;
use reply_lines::DayNotices;

/// Reads the commands of so many lines of a journal from an offset on, in place of those that it is given, adds their lines, and
/// answers where the next line begins.
pub(crate) fn read_piece(
    session: &Session,
    text: &[u8],
    from: usize,
    count: u64,
    lines: &mut ReadLines<'_>,
    sent: &mut Vec<Sent>,
) -> Result<usize, Stop>
    requires within { from ≤ length text.now }
    requires behind { StandsBehind text.now from lines.old }
    ensures reads { ReadsPiece session.now text.now from lines.old count sent.new.items lines.new result }
{
    sent.clear();
    let mut at = from;
    for _line in 0..count {
        let read = match read_sent(session, text, at) {
            Ok(read) => read,
            Err(stop) => return Err(stop),
        };
        lines.add(session, &read)?;
        sent.reserve(1).map_err(Memory::from)?;
        sent.push_reserved(read.sent);
        at += read.line.len();
    }
    Ok(at)
}

/// Serves commands one after another, for all of which the market has read ahead, and keeps their entries where they are to be.
pub(crate) fn serve_piece(
    session: &Session,
    sent: &[Sent],
    run: &mut Run<PairHost, DayNotices>,
    kept: &mut Kept,
) -> Result<(), Memory>
    requires may_serve { MayServe stands AreNoticesOf session.now run.old sent.now }
    ensures whole { kept.new.whole ≡ kept.old.whole }
    ensures served { OnOk result (HasServedPiece session.now kept.old.whole run.old kept.old sent.now run.new kept.new) }
{
    run.read_ahead(sent);
    for next in sent {
        let entry = run.serve_entry(session, *next)?;
        kept.keep(entry)?;
    }
    Ok(())
}
