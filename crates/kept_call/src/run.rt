ghost use Rattle.std.specs.Prelude.{◌≡◌, ◌≤◌, ◌<◌, ◌^◌, ◌++◌, [], IfOk, OnOk, OnErr, List, length, map};
ghost use Rattle.fx_rules.specs.declared.command.Sent.{Sent as SentCommand};
ghost use Rattle.fx_rules.specs.declared.outcome.Entry.{Entry as HistoryEntry};
ghost use Rattle.fx_rules.specs.Sending.{sent_by};
ghost use Rattle.fx_rules.specs.History.{IsLegal};
ghost use Rattle.gateway_workers.specs.Recorded.{key_count};
ghost use Rattle.gateway_workers.specs.SenderLanes.{CanServe};
ghost use Rattle.reply_lines.specs.Output.{IsRestOfOutput};
ghost use Rattle.reply_lines.specs.Faults.{WroteOutput};
ghost use Rattle.keep_disk.specs.Keeping.{AtRest};
ghost use Rattle.keep_disk.specs.Rounds.{KeptSoFar, RunCauses};
ghost use Rattle.kept_call.specs.Running.{Start, new_session, StandsBehind, KeepsOn, HasNotBegun, HasKeptSome};
ghost use Rattle.kept_call.specs.inside.Rounds.{IsRoundOf};

use crate::run::round::{header_round, round_of};
use fx_amounts::Memory;
use fx_chronicle::{Blank, Naming};
use fx_disk::Disk;
use fx_edges::Sink;
use fx_rules::{Entry, Gate, Sent, Session};
use gateway_workers::ThreadedRun;
use keep_disk::{Keeper, Round, RunFault, keep_round};
use reply_lines::{Ending, OutFault, Telling, write_from_books};
use std::alloc::Global;
use std::sync::Wait;
use std::thread::Threads;

mod round;
mod text;

/// A session that is run on threads and kept in a journal file, round by round.
#[derive(Drop)]
pub struct KeptRun<N: Naming> {
    keeper: Keeper,
    run: ThreadedRun<N>,
    telling: Telling,
}

impl<N: Naming + Send + Sync> KeptRun<N> {
    /// The run as it opens, at a host of this blank and behind the blocks of a journal file that is open. It has served nothing.
    pub fn open(
        alloc: Global,
        blank: Blank<Entry>,
        session: &Session,
        keeper: Keeper,
    ) -> Result<KeptRun<N>, Memory>
        requires table { blank.table ≡ N.table }
        requires keys { blank.keys ≡ key_count N.session }
        requires session { session.now ≡ N.session }
        ensures stands { IfOk result (λ run. StandsBehind N.session [] [] run.run.gathered run.run.lanes.items run.telling.counts.items) }
        ensures place { IfOk result (λ run. run.keeper.place ≡ keeper.place) }
    {
        let run = ThreadedRun::<N>::open(alloc, blank, session)?;
        let telling = Telling::open(alloc, session)?;
        Ok(KeptRun {
            keeper,
            run,
            telling,
        })
    }

    /// Begins a new session: appends the block of its header, of which nothing is told. After a fault the run is over, and the file is to
    /// be opened again.
    pub fn begin<D: Disk, K: Sink>(
        &mut self,
        alloc: Global,
        session: &Session,
        disk: &mut D,
        out: &mut K,
    ) -> Result<(), RunFault>
        requires session { session.now ≡ N.session }
        requires stands { StandsBehind N.session [] [] self.old.run.gathered self.old.run.lanes.items self.old.telling.counts.items }
        requires at_rest { AtRest D.bytes D.may_leave disk.old self.old.keeper.place }
        ensures begun { OnOk result ((from : D) (out_from : K) → KeptSoFar D.bytes D.may_leave D.moment D.left_since K.written K.faults from disk.old out_from out.old [] →
            KeepsOn D.bytes D.may_leave D.moment D.left_since K.written K.faults (new_session N.session from out_from) disk.new out.new N.session [] self.new.keeper.place self.new.run.gathered self.new.run.lanes.items self.new.telling.counts.items) }
        ensures stopped { OnErr result ((from : D) (out_from : K) → KeptSoFar D.bytes D.may_leave D.moment D.left_since K.written K.faults from disk.old out_from out.old [] →
            HasNotBegun D.bytes D.may_leave D.moment D.left_since K.written K.faults (new_session N.session from out_from) disk.new out.new N.session) }
        ensures causes { RunCauses D.faults K.faults disk.old disk.new out.old out.new result }
    {
        let header = header_round(alloc, session)?;
        keep_round(&mut self.keeper, disk, out, &header)
    }

    /// Goes on from a kept history, of at most 2^24 entries: submits its commands again in their order, counts its notices, and
    /// appends and tells nothing. After `Memory` the run must not be used any more. It may wait.
    pub fn replay<R: Wait>(
        &mut self,
        rt: &R,
        session: &Session,
        kept: &[Entry],
    ) -> Result<(), Memory>
        requires session { session.now ≡ N.session }
        requires stands { StandsBehind N.session [] [] self.old.run.gathered self.old.run.lanes.items self.old.telling.counts.items }
        requires legal { IsLegal N.session kept.now }
        requires few { length kept.now ≤ 2 ^ 24 }
        ensures stands { OnOk result (StandsBehind N.session (map sent_by kept.now) kept.now self.new.run.gathered self.new.run.lanes.items self.new.telling.counts.items) }
        ensures place { self.new.keeper.place ≡ self.old.keeper.place }
    {
        self.run.replay(rt, kept)?;
        self.telling.count(kept);
        Ok(())
    }

    /// Serves a round's commands, each sender's in its order, in at most `workers` threads (1 or more), and gathers their entries. Then it
    /// appends their block, and when that is on the disk it writes their notices to `out`, in the order of the history, the numbers going on
    /// from those before. A round without commands is not run, and has no block. After a fault the run is over: the file is
    /// to be opened again. It may wait.
    pub fn keep_round<R: AllocGlobal + Threads + Wait + Sync, G: Gate + Sync, D: Disk, K: Sink>(
        &mut self,
        rt: &R,
        session: &Session,
        sent: &[Sent],
        workers: u32,
        gate: &G,
        disk: &mut D,
        out: &mut K,
    ) -> Result<(), RunFault>
        requires session { session.now ≡ N.session }
        requires workers { 1 ≤ workers }
        requires stands { (so_far : List SentCommand) × (entries : List HistoryEntry) × StandsBehind N.session so_far entries self.old.run.gathered self.old.run.lanes.items self.old.telling.counts.items }
        requires can_serve { CanServe N.session self.old.run.lanes.items sent.now }
        requires at_rest { AtRest D.bytes D.may_leave disk.old self.old.keeper.place }
        ensures kept { OnOk result ((start : Start D K) (so_far : List SentCommand) →
            KeepsOn D.bytes D.may_leave D.moment D.left_since K.written K.faults start disk.old out.old N.session so_far self.old.keeper.place self.old.run.gathered self.old.run.lanes.items self.old.telling.counts.items →
            KeepsOn D.bytes D.may_leave D.moment D.left_since K.written K.faults start disk.new out.new N.session (so_far ++ sent.now) self.new.keeper.place self.new.run.gathered self.new.run.lanes.items self.new.telling.counts.items) }
        ensures stopped { OnErr result ((start : Start D K) (so_far : List SentCommand) →
            KeepsOn D.bytes D.may_leave D.moment D.left_since K.written K.faults start disk.old out.old N.session so_far self.old.keeper.place self.old.run.gathered self.old.run.lanes.items self.old.telling.counts.items →
            HasKeptSome D.bytes D.may_leave D.moment D.left_since K.written K.faults start disk.new out.new N.session (so_far ++ sent.now)) }
        ensures causes { RunCauses D.faults K.faults disk.old disk.new out.old out.new result }
    {
        if sent.is_empty() {
            return Ok(());
        }
        let round = self.make_round(rt, session, sent, workers, gate)?;
        keep_round(&mut self.keeper, disk, out, &round)
    }

    /// Serves a round's commands and gathers their entries, and makes the round's block and text of them.
    fn make_round<R: AllocGlobal + Threads + Wait + Sync, G: Gate + Sync>(
        &mut self,
        rt: &R,
        session: &Session,
        sent: &[Sent],
        workers: u32,
        gate: &G,
    ) -> Result<Round, Memory>
        requires session { session.now ≡ N.session }
        requires workers { 1 ≤ workers }
        requires stands { (so_far : List SentCommand) × (entries : List HistoryEntry) × StandsBehind N.session so_far entries self.old.run.gathered self.old.run.lanes.items self.old.telling.counts.items }
        requires can_serve { CanServe N.session self.old.run.lanes.items sent.now }
        ensures made { IfOk result (λ round. (more : List HistoryEntry) × ((so_far : List SentCommand) (entries : List HistoryEntry) →
            StandsBehind N.session so_far entries self.old.run.gathered self.old.run.lanes.items self.old.telling.counts.items →
            IsRoundOf N.session entries more round × StandsBehind N.session (so_far ++ sent.now) (entries ++ more) self.new.run.gathered self.new.run.lanes.items self.new.telling.counts.items)) }
        ensures keeper { self.new.keeper ≡ self.old.keeper }
    {
        self.run.serve_round(rt, sent, workers, gate)?;
        let entries = self.run.gather(rt)?;
        round_of(rt.alloc(), session, entries.as_slice(), &mut self.telling)
    }

    /// Ends the run: writes what its output has from the line `BOOKS` on, with so many strays and this ending. Faults are as those of
    /// `write_from_books`.
    pub fn finish<K: Sink>(
        self,
        alloc: Global,
        session: &Session,
        strays: u64,
        ending: Ending,
        out: &mut K,
    ) -> Result<(), OutFault>
        requires session { session.now ≡ N.session }
        ensures wrote { (sent : List SentCommand) (entries : List HistoryEntry) → StandsBehind N.session sent entries self.run.gathered self.run.lanes.items self.telling.counts.items →
            WroteOutput K.written K.faults out.old out.new (IsRestOfOutput session.now entries strays ending) result }
    {
        let (history, market) = match self.run.close(alloc, session) {
            Ok(closed) => closed,
            Err(memory) => return Err(OutFault::Memory(memory)),
        };
        write_from_books(alloc, session, &history, &market, strays, ending, out)
    }
}
