ghost use Rattle.fx_rules.specs.Session.{Header as SessionHeader};
ghost use Rattle.session_script.specs.Stage.{sent_at};
ghost use Rattle.session_script.specs.Rounds.{HasRead};
ghost use Rattle.program_calls.specs.Run.{Ran};
ghost use Rattle.program_calls.specs.Watch.{IsWatchedOf};

use crate::ending::written_status;
use crate::status::Status;
use crate::task::DEFAULT_WORKERS;
use fx_edges::{Sink, Source};
use fx_rules::Gate;
use kept_call::ending_of;
use session_script::Reading;
use std::sync::Wait;
use std::thread::Threads;
use watched_run::{watch_session, write_watched};

/// Runs the session of the source's bytes in at most 4 workers while a reader watches it, and answers the status that it ends with. It may
/// wait.
pub fn watch<R: AllocGlobal + Threads + Wait + Sync, S: Source, K: Sink, G: Gate + Sync>(
    rt: &R,
    source: &mut S,
    out: &mut K,
    gate: &G,
) -> Status
    ensures ran { Ran IsWatchedOf S.left S.faults K.written K.faults source.old source.new out.old out.new result }
{
    match Reading::begin(rt.alloc(), source) {
        Ok(mut reading) => watch_text(rt, &mut reading, source, out, gate),
        Err(stop) => Status::from(stop),
    }
}

/// Runs the session of a reading while it is watched, and writes its output and what was seen.
fn watch_text<R: AllocGlobal + Threads + Wait + Sync, S: Source, K: Sink, G: Gate + Sync>(
    rt: &R,
    reading: &mut Reading,
    source: &mut S,
    out: &mut K,
    gate: &G,
) -> Status
    requires begun { (before : S) × (h : SessionHeader) × HasRead S.left S.faults before source.old reading.old h (sent_at reading.old.intake.stage) }
    ensures ran { (before : S) (h : SessionHeader) → HasRead S.left S.faults before source.old reading.old h (sent_at reading.old.intake.stage) → Ran IsWatchedOf S.left S.faults K.written K.faults before source.new out.old out.new result }
{
    let watched = match watch_session(rt, DEFAULT_WORKERS, reading, source, gate) {
        Ok(watched) => watched,
        Err(memory) => return Status::Memory(memory),
    };
    let script = reading.script();
    let written = write_watched(
        rt.alloc(),
        &script.session,
        &watched,
        script.strays,
        ending_of(watched.end),
        out,
    );
    written_status(watched.end, written)
}
