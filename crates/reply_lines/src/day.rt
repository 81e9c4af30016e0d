ghost use Rattle.std.specs.Prelude.{ℕ, List, [], ◌∷◌, ◌++◌, IfOk, OnOk};
ghost use Rattle.fx_edges.specs.Writing.{Wrote};
ghost use Rattle.fx_edges.specs.Gathered.{Gathered};
ghost use Rattle.fx_rules.specs.declared.outcome.Entry.{Entry};
ghost use Rattle.fx_rules.specs.History.{IsLegal, state};
ghost use Rattle.fx_rules.specs.Session.{Header};
ghost use Rattle.reply_lines.specs.Books.{LocalBook, AreBooks};
ghost use Rattle.reply_lines.specs.Faults.{WroteOutput};
ghost use Rattle.reply_lines.specs.inside.Journals.{count_line};
ghost use Rattle.reply_lines.specs.Output.{day_text, last_text, IsDayText, IsOutput};
ghost use Rattle.reply_lines.specs.Day.{AreLinesOf, AreNoticesOf, IsJournalOf, IsTextOf};
ghost use Rattle.reply_lines.specs.inside.Day.{IsDayOf};

use crate::day_notices::DayNotices;
use crate::desk::write_desks;
use crate::journal::{JournalLines, JournalText, write_journal_line};
use crate::output::{Ending, OutFault, write_books_and_report, write_end, write_head};
use fx_amounts::Memory;
use fx_edges::{Pieces, Sink, SinkFault};
use fx_rules::{Entry, Market, Session};
use std::alloc::Global;

/// What the output tells of a day so far: the journal's lines, each sender's desk, and the sums over the fills. It keeps no entry.
#[derive(Drop)]
pub struct DayText {
    journal: JournalText,
    notices: DayNotices,
}

impl DayText {
    /// The day of a session before its first command. `Memory` when out of memory.
    pub fn open(alloc: Global, session: &Session) -> Result<DayText, Memory>
        ensures opens { IfOk result (IsTextOf session.now []) }
    {
        let notices = DayNotices::open(alloc, session)?;
        Ok(DayText::of(JournalText::new(alloc), notices))
    }

    /// The day of a history whose journal and notices these are. It takes no memory.
    pub fn of(journal: JournalText, notices: DayNotices) -> DayText
        ensures told { (h : Header) (entries : List Entry) → IsJournalOf h entries journal → AreNoticesOf h entries notices → IsTextOf h entries result }
    {
        DayText { journal, notices }
    }

    /// The day of a legal history.
    pub fn of_history(
        alloc: Global,
        session: &Session,
        entries: &[Entry],
    ) -> Result<DayText, Memory>
        requires legal { IsLegal session.now entries.now }
        ensures told { IfOk result (IsTextOf session.now entries.now) }
    {
        let mut day = DayText::open(alloc, session)?;
        for entry in entries {
            day.add(session, entry)?;
        }
        Ok(day)
    }

    /// Adds the next entry of a legal history. After `Memory` the day must not be used any more: a part of the entry's lines may
    /// stand in it, and the rest not, so that it tells of no history.
    pub fn add(&mut self, session: &Session, entry: &Entry) -> Result<(), Memory>
        requires next { (entries : List Entry) × IsLegal session.now (entries ++ entry.now ∷ []) × IsTextOf session.now entries self.old }
        ensures added { OnOk result ((entries : List Entry) →
            IsLegal session.now (entries ++ entry.now ∷ []) → IsTextOf session.now entries self.old →
            IsTextOf session.now (entries ++ entry.now ∷ []) self.new) }
    {
        self.journal.add(session, entry.bank, &entry.command)?;
        self.notices.add(session, entry)
    }

    /// Writes the output of the history that the day tells of: header, journal, desks, local books, report and the last lines,
    /// which tell of the strays and of how the reading ended. The market stands for the state after the history. After a fault
    /// a prefix of it was appended; the fault is `Write` only where the sink's count of faults rose. The sink gets it in pieces
    /// of 64 KiB at least, and the last one. The report is found before the first byte is written.
    pub fn write<M: Market, K: Sink>(
        self,
        alloc: Global,
        session: &Session,
        market: &M,
        strays: u64,
        ending: Ending,
        out: &mut K,
    ) -> Result<(), OutFault>
        requires told { (entries : List Entry) × IsLegal session.now entries × IsTextOf session.now entries self × M.stands market.now session.now (state session.now entries) }
        ensures wrote { (entries : List Entry) →
            IsLegal session.now entries → IsTextOf session.now entries self → M.stands market.now session.now (state session.now entries) →
            WroteOutput K.written K.faults out.old out.new (IsOutput session.now entries strays ending) result }
    {
        let DayText { journal, notices } = self;
        let parts = DayParts {
            journal: journal.as_lines(),
            notices,
        };
        match parts.write_whole(alloc, session, market, strays, ending, out) {
            Ok(()) => Ok(()),
            Err(fault) => Err(OutFault::from(fault)),
        }
    }
}

/// The parts of a day, where the journal's lines may stand in any text.
#[derive(Drop)]
struct DayParts<'a> {
    journal: JournalLines<'a>,
    notices: DayNotices,
}

impl<'a> DayParts<'a> {
    /// Writes the output.
    fn write_whole<M: Market, K: Sink>(
        self,
        alloc: Global,
        session: &Session,
        market: &M,
        strays: u64,
        ending: Ending,
        out: &mut K,
    ) -> Result<(), SinkFault>
        requires told { (entries : List Entry) × IsDayOf M.stands session.now entries self market.now }
        ensures wrote { (entries : List Entry) (books : ℕ → ℕ → LocalBook) →
            IsDayOf M.stands session.now entries self.entry market.now → AreBooks session.now (state session.now entries) books →
            Wrote K.written K.faults out.old out.new (day_text session.now entries books ++ last_text strays ending) result }
    {
        let mut line = Vec::new(alloc);
        let mut pieces = Pieces::new(alloc);
        match self.write_text(alloc, session, market, &mut line, &mut pieces, out) {
            Ok(()) => write_end(strays, ending, &mut pieces, out),
            Err(fault) => Err(fault),
        }
    }

    /// Writes all but the last lines of the output.
    fn write_part<M: Market, K: Sink>(
        self,
        alloc: Global,
        session: &Session,
        market: &M,
        out: &mut K,
    ) -> Result<(), SinkFault>
        requires told { (entries : List Entry) × IsDayOf M.stands session.now entries self market.now }
        ensures wrote { (entries : List Entry) (books : ℕ → ℕ → LocalBook) →
            IsDayOf M.stands session.now entries self.entry market.now → AreBooks session.now (state session.now entries) books →
            Wrote K.written K.faults out.old out.new (day_text session.now entries books) result }
    {
        let mut line = Vec::new(alloc);
        let mut pieces = Pieces::new(alloc);
        match self.write_text(alloc, session, market, &mut line, &mut pieces, out) {
            Ok(()) => pieces.hand_on(out),
            Err(fault) => Err(fault),
        }
    }

    /// Writes all but the last lines, of which the last piece is not yet handed on.
    fn write_text<M: Market, K: Sink>(
        self,
        alloc: Global,
        session: &Session,
        market: &M,
        line: &mut Vec<u8>,
        pieces: &mut Pieces,
        out: &mut K,
    ) -> Result<(), SinkFault>
        requires told { (entries : List Entry) × IsDayOf M.stands session.now entries self market.now }
        ensures wrote { (entries : List Entry) (books : ℕ → ℕ → LocalBook) →
            IsDayOf M.stands session.now entries self.entry market.now → AreBooks session.now (state session.now entries) books →
            Gathered K.written K.faults pieces.old out.old pieces.new out.new (day_text session.now entries books) result }
    {
        let DayParts { journal, notices } = self;
        let found = notices.into_findings(alloc, session)?;
        write_head(session, line, pieces, out)?;
        write_journal_text(journal.count, journal.lines, pieces, out)?;
        write_desks(session, &found.desks, pieces, out)?;
        write_books_and_report(session, market, &found.report, line, pieces, out)
    }
}

/// Writes the output of the history that has this journal and these notices, without its last lines. Faults are as those of
/// `DayText::write`.
pub fn write_day<M: Market, K: Sink>(
    alloc: Global,
    session: &Session,
    journal: JournalLines<'_>,
    notices: DayNotices,
    market: &M,
    out: &mut K,
) -> Result<(), OutFault>
    requires told { (entries : List Entry) × IsLegal session.now entries × AreLinesOf session.now entries journal × AreNoticesOf session.now entries notices × M.stands market.now session.now (state session.now entries) }
    ensures wrote { (entries : List Entry) →
        IsLegal session.now entries → AreLinesOf session.now entries journal.entry → AreNoticesOf session.now entries notices → M.stands market.now session.now (state session.now entries) →
        WroteOutput K.written K.faults out.old out.new (IsDayText session.now entries) result }
{
    let parts = DayParts { journal, notices };
    match parts.write_part(alloc, session, market, out) {
        Ok(()) => Ok(()),
        Err(fault) => Err(OutFault::from(fault)),
    }
}

/// Writes a journal of so many lines.
fn write_journal_text<K: Sink>(
    count: usize,
    lines: &[u8],
    pieces: &mut Pieces,
    out: &mut K,
) -> Result<(), SinkFault>
    ensures wrote { Gathered K.written K.faults pieces.old out.old pieces.new out.new (count_line count ++ lines.now) result }
{
    write_journal_line(count, pieces, out)?;
    pieces.put(lines, out)
}

/// Writes the output of a legal history from a market in the state after it. It tells the history to a `DayText`, which holds the
/// text, and has that write it; faults are as those of `DayText::write`.
pub fn write_output_from<M: Market, K: Sink>(
    alloc: Global,
    session: &Session,
    entries: &[Entry],
    market: &M,
    strays: u64,
    ending: Ending,
    out: &mut K,
) -> Result<(), OutFault>
    requires legal { IsLegal session.now entries.now }
    requires market { M.stands market.now session.now (state session.now entries.now) }
    ensures wrote { WroteOutput K.written K.faults out.old out.new (IsOutput session.now entries.now strays ending) result }
{
    match DayText::of_history(alloc, session, entries) {
        Ok(day) => day.write(alloc, session, market, strays, ending, out),
        Err(memory) => Err(OutFault::Memory(memory)),
    }
}
