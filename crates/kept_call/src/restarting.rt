ghost use Rattle.std.specs.Prelude.{ℕ, ◌≡◌, ◌<◌, List, IfOk, IfErr};
ghost use Rattle.keep_disk.specs.Keeping.{AtRest};
ghost use Rattle.kept_history.specs.Found.{IsWhole};
ghost use Rattle.session_head.specs.HeadText.{head_text_of};
ghost use Rattle.gateway_workers.specs.Recorded.{key_count};
ghost use Rattle.kept_call.specs.Call.{DidRestart};
ghost use Rattle.kept_call.specs.Fault.{HasCauses};
ghost use Rattle.kept_call.specs.inside.Served.{Served, gone_on, IsRefusal};

use crate::fault::KeptFault;
use crate::run::KeptRun;
use crate::text::serve_text;
use fx_chronicle::{Blank, Naming};
use fx_disk::Disk;
use fx_edges::{Sink, Source};
use fx_rules::{Entry, EntryList, Gate, Session};
use gateway_workers::keys_of;
use keep_disk::{Keeper, RunFault, open_keeper};
use kept_history::{Found, history};
use session_script::{Reading, TextEnd};
use std::alloc::Global;
use std::marker::Brand;
use std::sync::Wait;
use std::thread::Threads;

/// Goes on with the session that the journal file on the disk holds: submits its commands again, and then runs, keeps and tells the
/// lines of the source's bytes, of which at most 2^26 are taken, as `keep` does. What is told has numbers that go on from the kept
/// history. It answers how the text ended.
///
/// Faults come in the order of a disk that can't be opened; `Empty`, where the file has no whole block; `Damaged`; `Full`; and those
/// of a session that has begun, which end the call at once. It may wait.
pub fn restart<R: AllocGlobal + Threads + Wait + Sync, S: Source, K: Sink, G: Gate + Sync, D: Disk>(
    rt: &R,
    source: &mut S,
    out: &mut K,
    gate: &G,
    disk: &mut D,
) -> Result<TextEnd, KeptFault>
    ensures did { DidRestart D.bytes D.may_leave D.moment D.left_since D.faults K.written K.faults S.left S.faults disk.old disk.new out.old out.new source.old source.new result }
{
    let mut keeper = match open_keeper(rt.alloc(), disk) {
        Ok(keeper) => keeper,
        Err(fault) => return Err(KeptFault::from(RunFault::Keep(fault))),
    };
    let (session, kept) = read_back(rt.alloc(), &mut keeper)?;
    let blank = Blank::new(rt.alloc(), keys_of(&session))?;
    go_on::<Brand, R, S, K, G, D>(rt, blank, keeper, session, &kept, source, out, gate, disk)
}

/// The session and the history of the blocks of a file that is open. The keeper has them no more.
fn read_back(alloc: Global, keeper: &mut Keeper) -> Result<(Session, EntryList), KeptFault>
    ensures whole { IfOk result (λ kept. IsWhole keeper.old.bodies.items kept.0 kept.1) }
    ensures refused { IfErr result (IsRefusal keeper.old.bodies.items) }
    ensures place { keeper.new.place ≡ keeper.old.place }
{
    let bodies = keeper.take_bodies();
    if bodies.is_empty() {
        return Err(KeptFault::Empty);
    }
    match history(alloc, &bodies)? {
        Found::Whole { session, entries } => Ok((session, entries)),
        Found::Damaged { block } => Err(KeptFault::Damaged { block }),
        Found::Full { .. } => Err(KeptFault::Full),
    }
}

/// Goes on with a session behind its history, at a host of this blank.
fn go_on<
    N: Naming + Send + Sync,
    R: AllocGlobal + Threads + Wait + Sync,
    S: Source,
    K: Sink,
    G: Gate + Sync,
    D: Disk,
>(
    rt: &R,
    blank: Blank<Entry>,
    keeper: Keeper,
    session: Session,
    kept: &EntryList,
    source: &mut S,
    out: &mut K,
    gate: &G,
    disk: &mut D,
) -> Result<TextEnd, KeptFault>
    requires table { blank.table ≡ N.table }
    requires keys { blank.keys ≡ key_count N.session }
    requires session { session ≡ N.session }
    requires whole { (bodies : List (List ℕ)) × IsWhole bodies N.session kept.now }
    requires at_rest { AtRest D.bytes D.may_leave disk.old keeper.place }
    ensures served { Served D.bytes D.may_leave D.moment D.left_since K.written K.faults S.left S.faults (head_text_of N.session) source.old (gone_on kept.now disk.old out.old) disk.new out.new N.session source.new result }
    ensures causes { HasCauses D.faults K.faults disk.old disk.new out.old out.new result }
{
    let mut reading = Reading::resume(rt.alloc(), session, source);
    let session = &reading.script().session;
    let mut run = KeptRun::<N>::open(rt.alloc(), blank, session, keeper)?;
    run.replay(rt, session, kept.as_slice())?;
    serve_text(rt, run, &mut reading, source, out, gate, disk)
}
