ghost use Rattle.std.specs.Prelude.{◌≡◌, ◌≤◌, ◌^◌, length, [], IfOk, IfSome};
ghost use Rattle.fx_rules.specs.Sending.{IsSentOf};
ghost use Rattle.fx_text.specs.Lines.{line_seen};
ghost use Rattle.journal_check.specs.Lines.{lines_from};
ghost use Rattle.journal_check.specs.Listed.{count_among, count_told, commands_among};
ghost use Rattle.journal_check.specs.inside.Stops.{Answers, IsKept, ReadsEntries, ReadsSent};

use crate::kept::Kept;
use crate::line::read_line;
use crate::lines::ReadLines;
use crate::piece::{read_piece, serve_piece};
use crate::stop::Stop;
use fx_rules::{Sent, Session};
use fx_text::{LineView, fields, number};
use market_run::Run;
use order_lines::{journal_in, spelled_command};
use pair_host::PairHost;
use reply_lines::DayNotices;
use std::alloc::Global;

/// The most entries of a history whose output can be checked.
const MOST_ENTRIES: u64 = 268_435_456;

/// How many lines of a journal are read before the first of their commands is served: as many as `Run::serve_ahead` reads ahead for.
const PIECE: u64 = 16;

/// The line that begins a journal.
#[derive(Drop)]
pub(crate) struct Counted {
    /// How many entries it tells.
    pub(crate) entries: u64,
    /// Where the first of them begins.
    pub(crate) next: usize,
}

/// Reads the line that begins a journal: `JOURNAL` and how many entries it has, at most 2^28.
pub(crate) fn read_count(text: &[u8], at: usize) -> Result<Counted, Stop>
    requires { at ≤ length text.now }
    ensures answers { Answers result (count_among (length text.now) (lines_from text.now at)) }
    ensures within { IfOk result (λ counted. counted.next ≤ length text.now) }
    ensures few { IfOk result (λ counted. counted.entries ≤ 2 ^ 28) }
{
    let read = match read_line(text, at) {
        Ok(read) => read,
        Err(stop) => return Err(stop),
    };
    let Some(entries) = count_told(&read.line) else {
        return Err(Stop::Wrong { offset: at as u64 });
    };
    Ok(Counted {
        entries,
        next: read.next,
    })
}

/// The number of entries that a line tells, where `JOURNAL` and that number are its two fields.
fn count_told(line: &LineView<'_>) -> Option<u64>
    ensures value { result ≡ count_told (line_seen line.now) }
    ensures most { IfSome result (λ entries. entries ≤ 2 ^ 28) }
{
    let LineView::Whole(text) = *line else {
        return None;
    };
    let fields = fields(text);
    if fields.count() != 2 || fields.field(0) != b"JOURNAL".as_slice() {
        return None;
    }
    number(fields.field(1), 0, MOST_ENTRIES)
}

/// A command of a journal's line with its sender, and the line.
#[derive(Clone, Copy)]
pub(crate) struct ReadSent<'a> {
    pub(crate) sent: Sent,
    /// The bytes of the line with its line feed.
    pub(crate) line: &'a [u8],
    /// Whether they were read as the one spelling of the command.
    pub(crate) spelled: bool,
}

/// Reads the command of the journal's line at an offset. Most lines are in their one spelling, and are read from the first byte to
/// the line feed; any other is looked for and read field by field.
pub(crate) fn read_sent<'a>(
    session: &Session,
    text: &'a [u8],
    at: usize,
) -> Result<ReadSent<'a>, Stop>
    requires { at ≤ length text.now }
    ensures reads { ReadsSent session.now text.now at result }
    ensures valid { IfOk result (λ read. IsSentOf session.now read.sent) }
{
    // The clauses on a spelling rest on a valid session, as each is.
    let _banks = session.banks();
    let (_, rest) = text.split_at(at);
    let Some((sent, behind)) = spelled_command(session, rest) else {
        return read_fields(session, text, at);
    };
    let (line, _) = rest.split_at(rest.len() - behind.len());
    Ok(ReadSent {
        sent,
        line,
        spelled: true,
    })
}

/// Reads the command of the journal's line at an offset field by field.
fn read_fields<'a>(session: &Session, text: &'a [u8], at: usize) -> Result<ReadSent<'a>, Stop>
    requires { at ≤ length text.now }
    ensures reads { ReadsSent session.now text.now at result }
    ensures valid { IfOk result (λ read. IsSentOf session.now read.sent) }
{
    let read = match read_line(text, at) {
        Ok(read) => read,
        Err(stop) => return Err(stop),
    };
    let Some((bank, command)) = journal_in(session, &read.line) else {
        return Err(Stop::Wrong { offset: at as u64 });
    };
    let (_, rest) = text.split_at(at);
    let (line, _) = rest.split_at(read.next - at);
    Ok(ReadSent {
        sent: Sent { bank, command },
        line,
        spelled: false,
    })
}

/// The commands of a journal, served, and the lines of their entries.
#[derive(Drop)]
pub(crate) struct ServedJournal<'a> {
    pub(crate) run: Run<PairHost, DayNotices>,
    pub(crate) count: usize,
    pub(crate) lines: ReadLines<'a>,
}

/// Reads the entries of a journal and carries out their commands in order, piece by piece: the run of the only legal history that has
/// them. Its entries are kept, where they are to be.
pub(crate) fn read_entries<'a>(
    alloc: Global,
    session: &Session,
    text: &'a [u8],
    counted: &Counted,
    kept: &mut Kept,
) -> Result<ServedJournal<'a>, Stop>
    requires within { counted.now.next ≤ length text.now }
    requires few { counted.now.entries ≤ 2 ^ 28 }
    requires none { IsKept kept.old.whole [] kept.old }
    ensures run { ReadsEntries session.now kept.old.whole kept.new result
        (commands_among session.now (length text.now) [] counted.now.entries (lines_from text.now counted.now.next)) }
{
    let host = PairHost::open(alloc, session)?;
    let mut run = Run::open(session, host, DayNotices::open(alloc, session)?);
    let mut lines = ReadLines::new(alloc, text, counted.next);
    let mut sent = Vec::new(alloc);
    let mut at = counted.next;
    let mut left = counted.entries;
    while left > 0 {
        let count = left.min(PIECE);
        at = read_piece(session, text, at, count, &mut lines, &mut sent)?;
        serve_piece(session, &sent, &mut run, kept)?;
        left -= count;
    }
    Ok(ServedJournal {
        run,
        count: counted.entries as usize,
        lines,
    })
}
