ghost use Rattle.std.specs.Prelude.{ℕ, List};
ghost use Rattle.kept_call.specs.Running.{Start};
ghost use Rattle.kept_call.specs.RunText.{IsKeeping};
ghost use Rattle.kept_call.specs.Fault.{HasCauses};
ghost use Rattle.kept_call.specs.inside.Served.{Served};

use crate::ending::ending_of;
use crate::fault::KeptFault;
use crate::run::KeptRun;
use fx_chronicle::Naming;
use fx_disk::Disk;
use fx_edges::{Sink, Source};
use fx_rules::Gate;
use session_script::{Reading, TextEnd};
use std::sync::Wait;
use std::thread::Threads;

/// How many threads serve a round at most.
const WORKERS: u32 = 4;

/// Serves, keeps and tells the text of a reading to its end, and writes the rest of its output.
pub(crate) fn serve_text<
    N: Naming + Send + Sync,
    R: AllocGlobal + Threads + Wait + Sync,
    S: Source,
    K: Sink,
    G: Gate + Sync,
    D: Disk,
>(
    rt: &R,
    mut run: KeptRun<N>,
    reading: &mut Reading,
    source: &mut S,
    out: &mut K,
    gate: &G,
    disk: &mut D,
) -> Result<TextEnd, KeptFault>
    requires keeping { (front : List ℕ) × (before : S) × (start : Start D K) × IsKeeping D.bytes D.may_leave D.moment D.left_since K.written K.faults S.left S.faults front before start disk.old out.old N.session source.old reading.old run.keeper.place run.run.gathered run.run.lanes.items run.telling.counts.items }
    ensures served { (front : List ℕ) (before : S) (start : Start D K) → IsKeeping D.bytes D.may_leave D.moment D.left_since K.written K.faults S.left S.faults front before start disk.old out.old N.session source.old reading.old run.keeper.place run.run.gathered run.run.lanes.items run.telling.counts.items →
        Served D.bytes D.may_leave D.moment D.left_since K.written K.faults S.left S.faults front before start disk.new out.new N.session source.new result }
    ensures causes { HasCauses D.faults K.faults disk.old disk.new out.old out.new result }
{
    let end = run.keep_text(rt, WORKERS, reading, source, gate, disk, out)?;
    let script = reading.script();
    run.finish(
        rt.alloc(),
        &script.session,
        script.strays,
        ending_of(end),
        out,
    )?;
    Ok(end)
}
