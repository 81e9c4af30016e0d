ghost use Rattle.std.specs.Prelude.{◌≡◌};
ghost use Rattle.program_calls.specs.declared.kept.KeptTask.{KeptTask as AskedTask};
ghost use Rattle.kept_call.specs.Call.{DidKeep, DidRestart};
ghost use Rattle.program_calls.specs.KeptCall.{DidKept};

use crate::ending::kept_status;
use crate::kept::KeptTask;
use crate::status::Status;
use fx_disk::Disk;
use fx_edges::{Sink, Source};
use fx_rules::Gate;
use kept_call::{keep, restart};
use std::sync::Wait;
use std::thread::Threads;

/// Keeps a new session, or goes on with a kept one, and answers the status that it ends with. It may wait.
pub fn follow_kept<
    R: AllocGlobal + Threads + Wait + Sync,
    S: Source,
    K: Sink,
    G: Gate + Sync,
    D: Disk,
>(rt: &R, task: KeptTask, source: &mut S, out: &mut K, gate: &G, disk: &mut D) -> Status
    ensures keep { task ≡ AskedTask.Keep → DidKept (DidKeep D.bytes D.may_leave D.moment D.left_since D.faults K.written K.faults S.left S.faults disk.old disk.new out.old out.new source.old source.new) result }
    ensures restart { task ≡ AskedTask.Restart → DidKept (DidRestart D.bytes D.may_leave D.moment D.left_since D.faults K.written K.faults S.left S.faults disk.old disk.new out.old out.new source.old source.new) result }
{
    match task {
        KeptTask::Keep => kept_status(keep(rt, source, out, gate, disk)),
        KeptTask::Restart => kept_status(restart(rt, source, out, gate, disk)),
    }
}
