ghost use Rattle.fx_rules.specs.Session.{Header as SessionHeader};
ghost use Rattle.session_script.specs.Stage.{heard_at, sent_at};
ghost use Rattle.session_script.specs.Rounds.{HasHeard};
ghost use Rattle.program_calls.specs.Run.{Ran};
ghost use Rattle.program_calls.specs.Clients.{IsClientsTextOf};

use crate::ending::written_status;
use crate::status::Status;
use client_day::{serve_clients, write_clients};
use fx_edges::{Sink, Source};
use kept_call::ending_of;
use session_script::Reading;
use std::alloc::Global;

/// Runs the session of the source's bytes, whose banks have clients, in the order of its lines, as they are read, and answers the
/// status that the run ends with.
pub fn clients<S: Source, K: Sink>(alloc: Global, source: &mut S, out: &mut K) -> Status
    ensures ran { Ran IsClientsTextOf S.left S.faults K.written K.faults source.old source.new out.old out.new result }
{
    match Reading::begin_keeping(alloc, source) {
        Ok(mut reading) => serve_text(alloc, &mut reading, source, out),
        Err(stop) => Status::from(stop),
    }
}

/// Runs the session of a reading, and writes its output and what its clients have and were told.
fn serve_text<S: Source, K: Sink>(
    alloc: Global,
    reading: &mut Reading,
    source: &mut S,
    out: &mut K,
) -> Status
    requires begun { (before : S) × (h : SessionHeader) × HasHeard S.left S.faults before source.old reading.old h (sent_at reading.old.intake.stage) (heard_at reading.old.intake.stage) }
    ensures ran { (before : S) (h : SessionHeader) → HasHeard S.left S.faults before source.old reading.old h (sent_at reading.old.intake.stage) (heard_at reading.old.intake.stage) → Ran IsClientsTextOf S.left S.faults K.written K.faults before source.new out.old out.new result }
{
    let (end, day) = match serve_clients(alloc, reading, source) {
        Ok(served) => served,
        Err(memory) => return Status::Memory(memory),
    };
    let script = reading.script();
    let written = write_clients(alloc, &script.session, day, ending_of(end), out);
    written_status(end, written)
}
