ghost use Rattle.std.specs.Prelude.{◌≡◌, ℕ, List, ◌++◌};
ghost use Rattle.fx_edges.specs.Writing.{Wrote};
ghost use Rattle.fx_edges.specs.Gathered.{Gathered};
ghost use Rattle.fx_rules.specs.declared.outcome.Entry.{Entry};
ghost use Rattle.fx_rules.specs.History.{IsLegal, state};
ghost use Rattle.session_head.specs.HeadText.{head_text_of};
ghost use Rattle.reply_lines.specs.Books.{LocalBook};
ghost use Rattle.reply_lines.specs.inside.Books.{IsMarketOf, AreBooksOf};
ghost use Rattle.reply_lines.specs.inside.Day.{IsReportAt, closing_text};
ghost use Rattle.reply_lines.specs.Faults.{WroteOutput};
ghost use Rattle.reply_lines.specs.Output.{strays_line, ending_line, last_text, IsRestOfOutput};

use crate::books::write_books;
use crate::lines::{write_count, write_made};
use crate::report::write_report;
use day_report::{Report, report};
use fx_amounts::Memory;
use fx_edges::{Pieces, Sink, SinkFault};
use fx_rules::{Entry, Market, Session};
use session_head::head_text;
use std::alloc::Global;
use thiserror::Error;

/// How the reading of a session ended.
#[derive(Clone, Copy, Debug, PartialEq, Eq)]
pub enum Ending {
    /// At its END line.
    End,
    /// The input ended before.
    Cut,
    /// A read failed.
    Read,
    /// There was too much of it.
    Much,
}

impl Ending {
    #[tactic(auto, unfolding(crate::specs::Output::ending_line))]
    fn line(self) -> &'static [u8]
        ensures { result.now ≡ ending_line self }
    {
        match self {
            Ending::End => b"END\n",
            Ending::Cut => b"CUT\n",
            Ending::Read => b"READ\n",
            Ending::Much => b"MUCH\n",
        }
    }
}

/// Why an output was not written whole.
#[derive(Clone, Copy, Debug, PartialEq, Eq, Error)]
pub enum OutFault {
    /// The sink failed, and its count of faults rose.
    #[error("the output could not be written")]
    Write,
    /// A growth of memory was refused.
    #[error("out of memory")]
    Memory(Memory),
}

impl From<SinkFault> for OutFault {
    ghost use Rattle.reply_lines.specs.Faults.{fault_of};

    ghost from_gives = { λ sink fault. fault ≡ fault_of sink };

    fn from(fault: SinkFault) -> Self {
        match fault {
            SinkFault::Failed => OutFault::Write,
            SinkFault::Memory(memory) => OutFault::Memory(memory),
        }
    }
}

/// Writes local books and report.
pub(crate) fn write_books_and_report<M: Market, K: Sink>(
    session: &Session,
    market: &M,
    report: &Report,
    line: &mut Vec<u8>,
    pieces: &mut Pieces,
    out: &mut K,
) -> Result<(), SinkFault>
    requires market { IsMarketOf M.stands session.now market.now }
    requires report { (entries : List Entry) × IsReportAt session.now entries report.now }
    ensures wrote { (entries : List Entry) (books : ℕ → ℕ → LocalBook) →
        IsReportAt session.now entries report.now → AreBooksOf M.stands session.now market.now books →
        Gathered K.written K.faults pieces.old out.old pieces.new out.new (closing_text session.now entries books) result }
{
    write_books(session, market, line, pieces, out)?;
    write_report(session, report, pieces, out)
}

/// Writes what the output of a legal history has from its line `BOOKS` on: local books, report, and the last lines, which tell
/// of the strays and of how the reading ended. The market stands for the state after the history. After a fault a prefix of it
/// was appended; the fault is `Write` only where the sink's count of faults rose. The sink gets it in pieces of 64 KiB at
/// least, and the last one. The report is found before the first byte is written.
pub fn write_from_books<M: Market, K: Sink>(
    alloc: Global,
    session: &Session,
    entries: &[Entry],
    market: &M,
    strays: u64,
    ending: Ending,
    out: &mut K,
) -> Result<(), OutFault>
    requires legal { IsLegal session.now entries.now }
    requires market { M.stands market.now session.now (state session.now entries.now) }
    ensures wrote { WroteOutput K.written K.faults out.old out.new (IsRestOfOutput session.now entries.now strays ending) result }
{
    let report = match report(alloc, session, entries) {
        Ok(report) => report,
        Err(memory) => return Err(OutFault::Memory(memory)),
    };
    match write_rest(alloc, session, market, &report, strays, ending, out) {
        Ok(()) => Ok(()),
        Err(fault) => Err(OutFault::from(fault)),
    }
}

/// Writes local books, report and the last lines.
fn write_rest<M: Market, K: Sink>(
    alloc: Global,
    session: &Session,
    market: &M,
    report: &Report,
    strays: u64,
    ending: Ending,
    out: &mut K,
) -> Result<(), SinkFault>
    requires market { IsMarketOf M.stands session.now market.now }
    requires report { (entries : List Entry) × IsReportAt session.now entries report.now }
    ensures wrote { (entries : List Entry) (books : ℕ → ℕ → LocalBook) →
        IsReportAt session.now entries report.now → AreBooksOf M.stands session.now market.now books →
        Wrote K.written K.faults out.old out.new (closing_text session.now entries books ++ last_text strays ending) result }
{
    let mut line = Vec::new(alloc);
    let mut pieces = Pieces::new(alloc);
    write_books_and_report(session, market, report, &mut line, &mut pieces, out)?;
    write_end(strays, ending, &mut pieces, out)
}

/// Writes the last lines, and hands on the last piece.
pub(crate) fn write_end<K: Sink>(
    strays: u64,
    ending: Ending,
    pieces: &mut Pieces,
    out: &mut K,
) -> Result<(), SinkFault>
    ensures wrote { Wrote K.written K.faults out.old out.new (pieces.old ++ last_text strays ending) result }
{
    write_last(strays, ending, pieces, out)?;
    pieces.hand_on(out)
}

/// Writes the last lines.
#[tactic(auto, unfolding(crate::specs::Output::last_text))]
fn write_last<K: Sink>(
    strays: u64,
    ending: Ending,
    pieces: &mut Pieces,
    out: &mut K,
) -> Result<(), SinkFault>
    ensures wrote { Gathered K.written K.faults pieces.old out.old pieces.new out.new (last_text strays ending) result }
{
    write_strays(strays, pieces, out)?;
    pieces.put(ending.line(), out)
}

/// Writes the header.
pub(crate) fn write_head<K: Sink>(
    session: &Session,
    line: &mut Vec<u8>,
    pieces: &mut Pieces,
    out: &mut K,
) -> Result<(), SinkFault>
    ensures wrote { Gathered K.written K.faults pieces.old out.old pieces.new out.new (head_text_of session.now) result }
{
    line.clear();
    let made = head_text(session, line);
    write_made(made, line, pieces, out)
}

/// Writes the number of strays.
#[tactic(auto, unfolding(crate::specs::Output::strays_line))]
fn write_strays<K: Sink>(strays: u64, pieces: &mut Pieces, out: &mut K) -> Result<(), SinkFault>
    ensures wrote { Gathered K.written K.faults pieces.old out.old pieces.new out.new (strays_line strays) result }
{
    write_count(b"STRAYS", u128::from(strays), pieces, out)
}
