ghost use Rattle.std.specs.Prelude.{ℕ, ◌≤◌, List, Some};
ghost use Rattle.keep_disk.specs.Rounds.{RunCauses};
ghost use Rattle.kept_call.specs.Running.{Start};
ghost use Rattle.kept_call.specs.RunText.{IsKeeping, KeptText};

use crate::run::KeptRun;
use fx_chronicle::Naming;
use fx_disk::Disk;
use fx_edges::{Sink, Source};
use fx_rules::Gate;
use keep_disk::RunFault;
use session_script::{Reading, TextEnd};
use std::sync::Wait;
use std::thread::Threads;

impl<N: Naming + Send + Sync> KeptRun<N> {
    /// Serves, keeps and tells the commands of a reading, round by round, as `keep_round` does, and answers how the text ended. It begins
    /// with the commands that the reading has read last. After a fault nothing more is read. It may wait.
    pub fn keep_text<
        R: AllocGlobal + Threads + Wait + Sync,
        S: Source,
        G: Gate + Sync,
        D: Disk,
        K: Sink,
    >(
        &mut self,
        rt: &R,
        workers: u32,
        reading: &mut Reading,
        source: &mut S,
        gate: &G,
        disk: &mut D,
        out: &mut K,
    ) -> Result<TextEnd, RunFault>
        requires workers { 1 ≤ workers }
        requires keeping { (front : List ℕ) × (before : S) × (start : Start D K) × IsKeeping D.bytes D.may_leave D.moment D.left_since K.written K.faults S.left S.faults front before start disk.old out.old N.session source.old reading.old self.old.keeper.place self.old.run.gathered self.old.run.lanes.items self.old.telling.counts.items }
        ensures kept { (front : List ℕ) (before : S) (start : Start D K) → IsKeeping D.bytes D.may_leave D.moment D.left_since K.written K.faults S.left S.faults front before start disk.old out.old N.session source.old reading.old self.old.keeper.place self.old.run.gathered self.old.run.lanes.items self.old.telling.counts.items →
            KeptText D.bytes D.may_leave D.moment D.left_since K.written K.faults S.left S.faults front before start disk.new out.new N.session source.new reading.new self.new.keeper.place self.new.run.gathered self.new.run.lanes.items self.new.telling.counts.items result }
        ensures causes { RunCauses D.faults K.faults disk.old disk.new out.old out.new result }
    {
        loop {
            let script = reading.script();
            self.keep_round(rt, &script.session, &script.sent, workers, gate, disk, out)?;
            if let Some(end) = reading.end() {
                return Ok(end);
            }
            reading.read_round(source)?;
        }
    }
}
