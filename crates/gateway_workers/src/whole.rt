ghost use Rattle.std.specs.Prelude.{◌≡◌, ◌<◌, ◌≤◌, ◌^◌, length, IfOk};
ghost use Rattle.fx_rules.specs.Lists.{Each};
ghost use Rattle.fx_rules.specs.Sending.{IsSentOf};
ghost use Rattle.fx_rules.specs.History.{IsLegal, state};
ghost use Rattle.credit_book.specs.Recorded.{key_count};
ghost use Rattle.fx_chronicle.specs.Streams.{HasStreams};
ghost use Rattle.pair_host.specs.Standing.{StandsFor};

use crate::run::ThreadedRun;
use fx_amounts::Memory;
use fx_chronicle::{Blank, Naming};
use fx_host::keys_of;
use fx_rules::{Entry, Gate, Sent, Session};
use pair_host::PairHost;
use std::marker::Brand;
use std::sync::Wait;
use std::thread::Threads;

/// Runs a session's commands in one round, each bank's in its order, in at most `workers` threads (1 or more), and answers
/// the history that they made, with the market in the state after it. There are fewer than 2^32 commands. It may wait.
pub fn run_on_threads<R: AllocGlobal + Threads + Wait + Sync, G: Gate + Sync>(
    rt: &R,
    session: &Session,
    sent: &[Sent],
    workers: u32,
    gate: &G,
) -> Result<(Vec<Entry>, PairHost), Memory>
    requires valid { Each (IsSentOf session.now) sent.now }
    requires few { length sent.now < 2 ^ 32 }
    requires workers { 1 ≤ workers }
    ensures legal { IfOk result (λ ran. IsLegal session.now ran.0.items) }
    ensures streams { IfOk result (λ ran. HasStreams sent.now ran.0.items) }
    ensures market { IfOk result (λ ran. StandsFor session.now (state session.now ran.0.items) ran.1) }
{
    let blank = Blank::new(rt.alloc(), keys_of(session))?;
    run_at::<Brand, R, G>(rt, blank, session, sent, workers, gate)
}

/// The same, at a host of this blank.
fn run_at<N: Naming + Send + Sync, R: AllocGlobal + Threads + Wait + Sync, G: Gate + Sync>(
    rt: &R,
    blank: Blank<Entry>,
    session: &Session,
    sent: &[Sent],
    workers: u32,
    gate: &G,
) -> Result<(Vec<Entry>, PairHost), Memory>
    requires table { blank.table ≡ N.table }
    requires keys { blank.keys ≡ key_count N.session }
    requires session { session.now ≡ N.session }
    requires valid { Each (IsSentOf session.now) sent.now }
    requires few { length sent.now < 2 ^ 32 }
    requires workers { 1 ≤ workers }
    ensures legal { IfOk result (λ ran. IsLegal session.now ran.0.items) }
    ensures streams { IfOk result (λ ran. HasStreams sent.now ran.0.items) }
    ensures market { IfOk result (λ ran. StandsFor session.now (state session.now ran.0.items) ran.1) }
{
    let mut run = ThreadedRun::<N>::open(rt.alloc(), blank, session)?;
    run.serve_round(rt, sent, workers, gate)?;
    run.close(rt.alloc(), session)
}
