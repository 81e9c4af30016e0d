ghost use Rattle.std.specs.Prelude.{◌≡◌, ◌≤◌, ◌++◌, Some, List};
ghost use Rattle.fx_rules.specs.declared.command.Sent.{Sent as SentCommand};
ghost use Rattle.fx_rules.specs.Session.{Header as SessionHeader};
ghost use Rattle.session_script.specs.Stage.{session_at, sent_at};
ghost use Rattle.session_script.specs.Rounds.{HasRead};
ghost use Rattle.gateway_workers.specs.Recorded.{key_count};
ghost use Rattle.gateway_workers.specs.SenderLanes.{HaveServed};
ghost use Rattle.program_calls.specs.Headline.{IsHeadline};
ghost use Rattle.program_calls.specs.inside.Rounds.{AreServing, LanesServedText, ThreadsServedText};
ghost use Rattle.program_calls.specs.Run.{Ran};
ghost use Rattle.program_calls.specs.TopCall.{IsOutputOf};

use crate::ending::written_status;
use crate::serial_run::serial;
use crate::status::Status;
use fx_amounts::Memory;
use fx_chronicle::{Blank, Naming};
use fx_edges::{Sink, Source};
use fx_rules::{Entry, Gate};
use gateway_workers::{ThreadedRun, keys_of};
use kept_call::ending_of;
use pair_host::PairHost;
use reply_lines::write_output_from;
use session_script::{Reading, TextEnd};
use std::marker::Brand;
use std::sync::Wait;
use std::thread::Threads;

/// Runs the session of the source's bytes, each bank's commands in its order, in at most `workers` threads (1 or more), and
/// answers the status that the run ends with. One worker serves them in the order of their lines, with no lock, and calls no gate. It
/// may wait.
pub fn run<R: AllocGlobal + Threads + Wait + Sync, S: Source, K: Sink, G: Gate + Sync>(
    rt: &R,
    workers: u32,
    source: &mut S,
    out: &mut K,
    gate: &G,
) -> Status
    requires workers { 1 ≤ workers }
    ensures ran { Ran (IsOutputOf IsHeadline) S.left S.faults K.written K.faults source.old source.new out.old out.new result }
{
    if workers == 1 {
        return serial(rt.alloc(), source, out);
    }
    match Reading::begin(rt.alloc(), source) {
        Ok(mut reading) => serve_text(rt, workers, &mut reading, source, out, gate),
        Err(stop) => Status::from(stop),
    }
}

/// Runs the session of a reading and writes its output.
fn serve_text<R: AllocGlobal + Threads + Wait + Sync, S: Source, K: Sink, G: Gate + Sync>(
    rt: &R,
    workers: u32,
    reading: &mut Reading,
    source: &mut S,
    out: &mut K,
    gate: &G,
) -> Status
    requires workers { 1 ≤ workers }
    requires begun { (before : S) × (h : SessionHeader) × HasRead S.left S.faults before source.old reading.old h (sent_at reading.old.intake.stage) }
    ensures ran { (before : S) (h : SessionHeader) → HasRead S.left S.faults before source.old reading.old h (sent_at reading.old.intake.stage) → Ran (IsOutputOf IsHeadline) S.left S.faults K.written K.faults before source.new out.old out.new result }
{
    let blank = match Blank::new(rt.alloc(), keys_of(&reading.script().session)) {
        Ok(blank) => blank,
        Err(memory) => return Status::Memory(memory),
    };
    let served = serve_at::<Brand, R, S, G>(rt, blank, workers, reading, source, gate);
    let (end, history, market) = match served {
        Ok(served) => served,
        Err(memory) => return Status::Memory(memory),
    };
    let script = reading.script();
    let written = write_output_from(
        rt.alloc(),
        &script.session,
        &history,
        &market,
        script.strays,
        ending_of(end),
        out,
    );
    written_status(end, written)
}

/// Runs the session of a reading at a host of this blank, and answers how the text ended, the history, and the market in the state
/// after it.
fn serve_at<
    N: Naming + Send + Sync,
    R: AllocGlobal + Threads + Wait + Sync,
    S: Source,
    G: Gate + Sync,
>(
    rt: &R,
    blank: Blank<Entry>,
    workers: u32,
    reading: &mut Reading,
    source: &mut S,
    gate: &G,
) -> Result<(TextEnd, Vec<Entry>, PairHost), Memory>
    requires table { blank.table ≡ N.table }
    requires keys { blank.keys ≡ key_count N.session }
    requires workers { 1 ≤ workers }
    requires session { session_at reading.old.intake.stage ≡ Some N.session }
    requires begun { (before : S) × HasRead S.left S.faults before source.old reading.old N.session (sent_at reading.old.intake.stage) }
    ensures served { (before : S) → HasRead S.left S.faults before source.old reading.old N.session (sent_at reading.old.intake.stage) → ThreadsServedText S.left S.faults before source.new reading.new N.session result }
{
    let mut run = ThreadedRun::<N>::open(rt.alloc(), blank, &reading.script().session)?;
    let end = serve_rounds(rt, workers, &mut run, reading, source, gate)?;
    let (history, market) = run.close(rt.alloc(), &reading.script().session)?;
    Ok((end, history, market))
}

/// Serves the commands of a reading, round by round, and answers how the text ended.
fn serve_rounds<
    N: Naming + Send + Sync,
    R: AllocGlobal + Threads + Wait + Sync,
    S: Source,
    G: Gate + Sync,
>(
    rt: &R,
    workers: u32,
    run: &mut ThreadedRun<N>,
    reading: &mut Reading,
    source: &mut S,
    gate: &G,
) -> Result<TextEnd, Memory>
    requires workers { 1 ≤ workers }
    requires serving { AreServing S.left S.faults source.old reading.old N.session run.old.lanes.items }
    ensures served { (before : S) (all : List SentCommand) → HasRead S.left S.faults before source.old reading.old N.session (all ++ sent_at reading.old.intake.stage) → HaveServed N.session all run.old.lanes.items → LanesServedText S.left S.faults before source.new reading.new N.session run.new.lanes.items result }
{
    loop {
        run.serve_round(rt, &reading.script().sent, workers, gate)?;
        if let Some(end) = reading.end() {
            return Ok(end);
        }
        reading.read_round(source)?;
    }
}
