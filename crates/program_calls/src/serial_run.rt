ghost use Rattle.std.specs.Prelude.{[], IfOk};
ghost use Rattle.fx_rules.specs.Session.{Header as SessionHeader};
ghost use Rattle.market_run.specs.Running.{HasServed};
ghost use Rattle.pair_host.specs.Standing.{stands};
ghost use Rattle.reply_lines.specs.Day.{AreNoticesOf};
ghost use Rattle.session_script.specs.Stage.{sent_at};
ghost use Rattle.session_script.specs.Rounds.{HasJournal};
ghost use Rattle.program_calls.specs.Headline.{IsSerial};
ghost use Rattle.program_calls.specs.inside.Rounds.{IsServing, ServedText};
ghost use Rattle.program_calls.specs.Run.{Ran};
ghost use Rattle.program_calls.specs.TopCall.{IsOutputOf};

use crate::ending::written_status;
use crate::status::Status;
use fx_amounts::Memory;
use fx_edges::{Sink, Source};
use fx_rules::Session;
use kept_call::ending_of;
use market_run::Run;
use pair_host::PairHost;
use reply_lines::{DayNotices, DayText, JournalText};
use session_script::{Reading, Script, TextEnd};
use std::alloc::Global;

/// Runs the session of the source's bytes in the order of its lines, as they are read, and answers the status that the run
/// ends with.
pub fn serial<S: Source, K: Sink>(alloc: Global, source: &mut S, out: &mut K) -> Status
    ensures ran { Ran (IsOutputOf IsSerial) S.left S.faults K.written K.faults source.old source.new out.old out.new result }
{
    match Reading::begin_with_journal(alloc, source) {
        Ok(reading) => serve_text(alloc, reading, source, out),
        Err(stop) => Status::from(stop),
    }
}

/// Runs the session of a reading and writes its output.
fn serve_text<S: Source, K: Sink>(
    alloc: Global,
    mut reading: Reading,
    source: &mut S,
    out: &mut K,
) -> Status
    requires begun { (before : S) × (h : SessionHeader) × HasJournal S.left S.faults before source.old reading h (sent_at reading.intake.stage) }
    ensures ran { (before : S) (h : SessionHeader) → HasJournal S.left S.faults before source.old reading h (sent_at reading.intake.stage) → Ran (IsOutputOf IsSerial) S.left S.faults K.written K.faults before source.new out.old out.new result }
{
    let mut run = match open_run(alloc, &reading.script().session) {
        Ok(run) => run,
        Err(memory) => return Status::Memory(memory),
    };
    let mut count = 0;
    let end = match serve_rounds(&mut reading, source, &mut run, &mut count) {
        Ok(end) => end,
        Err(memory) => return Status::Memory(memory),
    };
    let Script {
        session,
        strays,
        journal,
        ..
    } = reading.into_script();
    let (host, notices) = run.into_parts();
    let day = DayText::of(JournalText::of(count, journal), notices);
    let written = day.write(alloc, &session, &host, strays, ending_of(end), out);
    written_status(end, written)
}

/// A market on one thread, whose entries are told to the banks' desks and to the sums. The reading keeps the journal's lines.
type NoticeRun = Run<PairHost, DayNotices>;

/// The run of a session's day as it opens, by one host over the pair books.
fn open_run(alloc: Global, session: &Session) -> Result<NoticeRun, Memory>
    ensures opens { IfOk result (HasServed stands AreNoticesOf session.now []) }
{
    let host = PairHost::open(alloc, session)?;
    let notices = DayNotices::open(alloc, session)?;
    Ok(Run::open(session, host, notices))
}

/// Serves the commands of a reading, round by round, counts them, and answers how the text ended.
fn serve_rounds<S: Source>(
    reading: &mut Reading,
    source: &mut S,
    run: &mut NoticeRun,
    count: &mut usize,
) -> Result<TextEnd, Memory>
    requires serving { (before : S) × (h : SessionHeader) × IsServing S.left S.faults before source.old reading.old h run.old count.old }
    ensures served { (before : S) (h : SessionHeader) → IsServing S.left S.faults before source.old reading.old h run.old count.old → ServedText S.left S.faults before source.new reading.new h run.new count.new result }
{
    loop {
        let script = reading.script();
        run.serve_ahead(&script.session, &script.sent)?;
        *count += script.sent.len();
        if let Some(end) = reading.end() {
            return Ok(end);
        }
        reading.read_round(source)?;
    }
}
