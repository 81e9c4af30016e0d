ghost use Rattle.std.specs.Prelude.{◌≡◌, ◌≤◌, ◌^◌, IfOk, length};
ghost use Rattle.fx_rules.specs.Lists.{Each};
ghost use Rattle.fx_rules.specs.Sending.{IsSentOf};
ghost use Rattle.fx_rules.specs.History.{IsLegal, state};
ghost use Rattle.pair_host.specs.Standing.{StandsFor};
ghost use Rattle.journal_check.specs.Verdict.{yes};

use fx_amounts::Memory;
use fx_edges::SteadySink;
use fx_rules::{Entry, Gate, Sent, Session};
use gateway_workers::run_on_threads;
use journal_check::{Verdict, check_output};
use pair_host::PairHost;
use reply_lines::{Ending, OutFault, write_output_from};
use std::alloc::Global;
use std::sync::Wait;
use std::thread::Threads;

/// What a run on threads came to.
#[derive(Clone, Copy)]
pub(crate) struct ThreadedCheck {
    /// How many entries its history has.
    pub(crate) entries: u64,
    /// What the check said of its output.
    pub(crate) verdict: Verdict,
}

/// Runs commands, each bank's in its order, in at most `workers` threads, and checks the output of the history that they
/// made. It may wait.
pub(crate) fn threaded_check<R: AllocGlobal + Threads + Wait + Sync, G: Gate + Sync>(
    rt: &R,
    session: &Session,
    sent: &[Sent],
    workers: u32,
    gate: &G,
) -> Result<ThreadedCheck, Memory>
    requires valid { Each (IsSentOf session.now) sent.now }
    requires few { length sent.now ≤ 2 ^ 28 }
    requires workers { 1 ≤ workers }
    ensures entries { IfOk result (λ threaded. threaded.entries ≡ length sent.now) }
    ensures verdict { IfOk result (λ threaded. threaded.verdict ≡ yes) }
{
    let (history, market) = run_on_threads(rt, session, sent, workers, gate)?;
    let verdict = check_history(rt.alloc(), session, &history, &market)?;
    Ok(ThreadedCheck {
        entries: history.len() as u64,
        verdict,
    })
}

/// Checks the output of a legal history, with the market in the state after it. The output is made in memory.
fn check_history(
    alloc: Global,
    session: &Session,
    entries: &[Entry],
    market: &PairHost,
) -> Result<Verdict, Memory>
    requires legal { IsLegal session.now entries.now }
    requires few { length entries.now ≤ 2 ^ 28 }
    requires market { StandsFor session.now (state session.now entries.now) market.now }
    ensures verdict { IfOk result (λ verdict. verdict ≡ yes) }
{
    let mut output = SteadySink::new(alloc);
    match write_output_from(alloc, session, entries, market, 0, Ending::End, &mut output) {
        Ok(()) => check_output(alloc, output.written()),
        Err(OutFault::Memory(memory)) => Err(memory),
        // Such a sink never fails.
        Err(OutFault::Write) => unreachable!(),
    }
}
