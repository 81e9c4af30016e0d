ghost use Rattle.std.specs.Prelude.{ℕ, ◌≡◌, ◌<◌, ◌≤◌, ◌^◌, ◌++◌, [], IfOk, OnOk, OnErr, List, length, map, vec_len};
ghost use Rattle.fx_rules.specs.declared.command.Sent.{Sent as SentCommand};
ghost use Rattle.fx_rules.specs.declared.outcome.Entry.{Entry as HistoryEntry};
ghost use Rattle.fx_rules.specs.Sending.{sent_by};
ghost use Rattle.fx_rules.specs.History.{IsLegal, state};
ghost use Rattle.credit_book.specs.Recorded.{key_count};
ghost use Rattle.fx_chronicle.specs.Streams.{HasStreams};
ghost use Rattle.pair_host.specs.Standing.{StandsFor};
ghost use Rattle.gateway_workers.specs.SenderLanes.{CanServe, HaveServed, HaveServedPart};
ghost use Rattle.gateway_workers.specs.Gathering.{HaveGathered, HaveGatheredAll};

use crate::gathering::gather_lanes;
use crate::lane::Lane;
use crate::lanes::{fill_lanes, lanes_of, passes_of};
use crate::market::market_of;
use crate::replaying::submit_again;
use crate::round::run_round;
use fx_amounts::Memory;
use fx_chronicle::{Blank, Naming, Pass};
use fx_host::{Closed, Host, close_host, open_host};
use fx_rules::{Entry, EntryList, Gate, Sent, Session};
use pair_host::PairHost;
use std::alloc::Global;
use std::sync::Wait;
use std::thread::Threads;

/// A session that is run on threads. Its lanes keep passes and counts from round to round, and its history may be gathered in between.
#[derive(Drop)]
pub struct ThreadedRun<N: Naming> {
    host: Host<N>,
    lanes: Vec<Lane<Pass<N>>>,
    /// How many entries were gathered.
    gathered: u64,

    ghost some: { 0 < vec_len lanes },
}

impl<N: Naming + Send + Sync> ThreadedRun<N> {
    /// The run as it opens, at a host of this blank. It has served nothing.
    pub fn open(
        alloc: Global,
        blank: Blank<Entry>,
        session: &Session,
    ) -> Result<ThreadedRun<N>, Memory>
        requires table { blank.table ≡ N.table }
        requires keys { blank.keys ≡ key_count N.session }
        requires session { session.now ≡ N.session }
        ensures opened { IfOk result (λ run. HaveServed N.session [] run.lanes.items) }
        ensures gathered { IfOk result (λ run. HaveGathered [] run.gathered run.lanes.items) }
    {
        // A legal history rests on a valid session, as each is.
        let _banks = session.banks();
        let (host, passes) = open_host::<N>(alloc, blank, session)?;
        let lanes = lanes_of(alloc, passes)?;
        Ok(ThreadedRun {
            host,
            lanes,
            gathered: 0,
        })
    }

    /// Serves a round's commands, each bank's in its order, in at most `workers` threads (1 or more). A round without
    /// commands is not run. After `Memory` the first so many of each bank's are served, and the run must not be used any more.
    /// It may wait.
    pub fn serve_round<R: AllocGlobal + Threads + Wait + Sync, G: Gate + Sync>(
        &mut self,
        rt: &R,
        sent: &[Sent],
        workers: u32,
        gate: &G,
    ) -> Result<(), Memory>
        requires can_serve { CanServe N.session self.old.lanes.items sent.now }
        requires workers { 1 ≤ workers }
        ensures served { OnOk result ((so_far : List SentCommand) → HaveServed N.session so_far self.old.lanes.items → HaveServed N.session (so_far ++ sent.now) self.new.lanes.items) }
        ensures memory { OnErr result ((so_far : List SentCommand) → HaveServed N.session so_far self.old.lanes.items → HaveServedPart N.session so_far sent.now self.new.lanes.items) }
        ensures gathered { (so_far : List HistoryEntry) → HaveGathered so_far self.old.gathered self.old.lanes.items → HaveGathered so_far self.new.gathered self.new.lanes.items }
    {
        if sent.is_empty() {
            return Ok(());
        }
        serve_lanes(rt, &self.host, &mut self.lanes, sent, workers, gate)
    }

    /// The entries of the history since the last gathering, or since the opening: behind those that were gathered before they are a
    /// legal history of all that was served, which each lane's pass has then seen. Each pass but the first gives it a note and is
    /// given one, and each takes the credit lock once. After `Memory` nothing is gathered, and the lanes have served the same. It may
    /// wait.
    pub fn gather<R: Wait>(&mut self, rt: &R) -> Result<EntryList, Memory>
        ensures gathered { IfOk result (λ more. (sent : List SentCommand) (so_far : List HistoryEntry) →
            HaveServed N.session sent self.old.lanes.items → HaveGathered so_far self.old.gathered self.old.lanes.items →
            HaveGatheredAll N.session sent (so_far ++ more) self.new.gathered self.new.lanes.items) }
        ensures memory { OnErr result ((sent : List SentCommand) → HaveServed N.session sent self.old.lanes.items → HaveServed N.session sent self.new.lanes.items) }
    {
        let (entries, count) = gather_lanes(rt, &self.host, &mut self.lanes, self.gathered)?;
        self.gathered = count;
        Ok(entries)
    }

    /// Submits the commands of a legal history again in its order, at a run that has served nothing. Each pass learns a note of the
    /// pass before, and no gate is called. The history is then gathered, and it is the one that was given. After `Memory` the run must
    /// not be used any more. It may wait.
    pub fn replay<R: Wait>(&mut self, rt: &R, entries: &[Entry]) -> Result<(), Memory>
        requires served { HaveServed N.session [] self.old.lanes.items }
        requires gathered { HaveGathered [] self.old.gathered self.old.lanes.items }
        requires legal { IsLegal N.session entries.now }
        requires few { length entries.now < 2 ^ 32 }
        ensures replayed { OnOk result (HaveGatheredAll N.session (map sent_by entries.now) entries.now self.new.gathered self.new.lanes.items) }
    {
        submit_again(rt, &self.host, &mut self.lanes, entries)?;
        let (_, count) = gather_lanes(rt, &self.host, &mut self.lanes, entries.len() as u64)?;
        self.gathered = count;
        Ok(())
    }

    /// The history of all that was served, and the market in the state after it, with the books that served it.
    pub fn close(self, alloc: Global, session: &Session) -> Result<(Vec<Entry>, PairHost), Memory>
        requires session { session.now ≡ N.session }
        ensures legal { IfOk result (λ closed. IsLegal N.session closed.0.items) }
        ensures streams { IfOk result (λ closed. (sent : List SentCommand) → HaveServed N.session sent self.lanes.items → HasStreams sent closed.0.items) }
        ensures market { IfOk result (λ closed. StandsFor N.session (state N.session closed.0.items) closed.1) }
        ensures gathered { IfOk result (λ closed. (sent : List SentCommand) (entries : List HistoryEntry) → HaveGatheredAll N.session sent entries self.gathered self.lanes.items → closed.0.items ≡ entries) }
    {
        let ThreadedRun {
            host,
            lanes,
            gathered: _,
        } = self;
        let passes = passes_of(alloc, lanes)?;
        let Closed {
            history,
            table,
            shards,
        } = close_host(host, passes);
        let market = market_of(alloc, session, &history, table, shards)?;
        Ok((history, market))
    }
}

/// Serves a round's commands in these lanes.
fn serve_lanes<N: Naming + Send + Sync, R: AllocGlobal + Threads + Wait + Sync, G: Gate + Sync>(
    rt: &R,
    host: &Host<N>,
    lanes: &mut [Lane<Pass<N>>],
    sent: &[Sent],
    workers: u32,
    gate: &G,
) -> Result<(), Memory>
    requires can_serve { CanServe N.session lanes.old sent.now }
    requires workers { 1 ≤ workers }
    ensures served { OnOk result ((so_far : List SentCommand) → HaveServed N.session so_far lanes.old → HaveServed N.session (so_far ++ sent.now) lanes.new) }
    ensures memory { OnErr result ((so_far : List SentCommand) → HaveServed N.session so_far lanes.old → HaveServedPart N.session so_far sent.now lanes.new) }
    ensures gathered { (so_far : List HistoryEntry) (count : ℕ) → HaveGathered so_far count lanes.old → HaveGathered so_far count lanes.new }
{
    fill_lanes(rt.alloc(), lanes, sent)?;
    run_round(rt, host, gate, workers, lanes)
}
