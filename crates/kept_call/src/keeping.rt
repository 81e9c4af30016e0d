ghost use Rattle.std.specs.Prelude.{◌≡◌, [], Some};
ghost use Rattle.fx_rules.specs.Session.{Header as SessionHeader};
ghost use Rattle.keep_disk.specs.Keeping.{AtRest};
ghost use Rattle.kept_call.specs.Running.{new_session};
ghost use Rattle.session_script.specs.Stage.{session_at, sent_at};
ghost use Rattle.session_script.specs.Rounds.{HasRead};
ghost use Rattle.gateway_workers.specs.Recorded.{key_count};
ghost use Rattle.kept_call.specs.Call.{DidKeep};
ghost use Rattle.kept_call.specs.Fault.{HasCauses};
ghost use Rattle.kept_call.specs.inside.Served.{Served};

use crate::fault::KeptFault;
use crate::run::KeptRun;
use crate::text::serve_text;
use fx_chronicle::{Blank, Naming};
use fx_disk::Disk;
use fx_edges::{Sink, Source};
use fx_rules::{Entry, Gate};
use gateway_workers::keys_of;
use keep_disk::{Keeper, RunFault, open_keeper};
use session_script::{Reading, TextEnd};
use std::marker::Brand;
use std::sync::Wait;
use std::thread::Threads;

/// Runs a new session of the source's bytes, of which at most 2^26 are taken, in at most 4 threads, and keeps it in the journal file on
/// the disk: the header's block first, and then each round, which is served, kept and only then told. What is told is each
/// notice behind its sender's name, in the order of the history; then comes the output from its line `BOOKS` on. It answers how the text ended.
///
/// Faults come in the order of a disk that can't be opened; `Kept`, where the file has a whole block; `Header` and `Early`, before
/// START; and those of a session that has begun, which end the call at once. It may wait.
pub fn keep<R: AllocGlobal + Threads + Wait + Sync, S: Source, K: Sink, G: Gate + Sync, D: Disk>(
    rt: &R,
    source: &mut S,
    out: &mut K,
    gate: &G,
    disk: &mut D,
) -> Result<TextEnd, KeptFault>
    ensures did { DidKeep D.bytes D.may_leave D.moment D.left_since D.faults K.written K.faults S.left S.faults disk.old disk.new out.old out.new source.old source.new result }
{
    let keeper = match open_keeper(rt.alloc(), disk) {
        Ok(keeper) => keeper,
        Err(fault) => return Err(KeptFault::from(RunFault::Keep(fault))),
    };
    if !keeper.bodies().is_empty() {
        return Err(KeptFault::Kept);
    }
    let mut reading = Reading::begin(rt.alloc(), source)?;
    keep_text(rt, keeper, &mut reading, source, out, gate, disk)
}

/// Keeps the session of a reading in a file that is open and has no whole block.
fn keep_text<R: AllocGlobal + Threads + Wait + Sync, S: Source, K: Sink, G: Gate + Sync, D: Disk>(
    rt: &R,
    keeper: Keeper,
    reading: &mut Reading,
    source: &mut S,
    out: &mut K,
    gate: &G,
    disk: &mut D,
) -> Result<TextEnd, KeptFault>
    requires at_rest { AtRest D.bytes D.may_leave disk.old keeper.place }
    requires begun { (before : S) × (h : SessionHeader) × HasRead S.left S.faults before source.old reading.old h (sent_at reading.old.intake.stage) }
    ensures served { (before : S) (h : SessionHeader) → HasRead S.left S.faults before source.old reading.old h (sent_at reading.old.intake.stage) →
        Served D.bytes D.may_leave D.moment D.left_since K.written K.faults S.left S.faults [] before (new_session h disk.old out.old) disk.new out.new h source.new result }
    ensures causes { HasCauses D.faults K.faults disk.old disk.new out.old out.new result }
{
    let blank = Blank::new(rt.alloc(), keys_of(&reading.script().session))?;
    keep_at::<Brand, R, S, K, G, D>(rt, blank, keeper, reading, source, out, gate, disk)
}

/// Keeps it, at a host of this blank.
fn keep_at<
    N: Naming + Send + Sync,
    R: AllocGlobal + Threads + Wait + Sync,
    S: Source,
    K: Sink,
    G: Gate + Sync,
    D: Disk,
>(
    rt: &R,
    blank: Blank<Entry>,
    keeper: Keeper,
    reading: &mut Reading,
    source: &mut S,
    out: &mut K,
    gate: &G,
    disk: &mut D,
) -> Result<TextEnd, KeptFault>
    requires table { blank.table ≡ N.table }
    requires keys { blank.keys ≡ key_count N.session }
    requires session { session_at reading.old.intake.stage ≡ Some N.session }
    requires at_rest { AtRest D.bytes D.may_leave disk.old keeper.place }
    requires begun { (before : S) × HasRead S.left S.faults before source.old reading.old N.session (sent_at reading.old.intake.stage) }
    ensures served { (before : S) → HasRead S.left S.faults before source.old reading.old N.session (sent_at reading.old.intake.stage) →
        Served D.bytes D.may_leave D.moment D.left_since K.written K.faults S.left S.faults [] before (new_session N.session disk.old out.old) disk.new out.new N.session source.new result }
    ensures causes { HasCauses D.faults K.faults disk.old disk.new out.old out.new result }
{
    let session = &reading.script().session;
    let mut run = KeptRun::<N>::open(rt.alloc(), blank, session, keeper)?;
    run.begin(rt.alloc(), session, disk, out)?;
    serve_text(rt, run, reading, source, out, gate, disk)
}
