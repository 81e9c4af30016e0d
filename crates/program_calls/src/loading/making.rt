ghost use Rattle.std.specs.Prelude.{◌≡◌, ◌≤◌, IfOk};
ghost use Rattle.journal_check.specs.Verdict.{yes};
ghost use Rattle.program_calls.specs.LoadLines.{text_of};
ghost use Rattle.program_calls.specs.LoadSummary.{IsSummary};

use crate::loading::serial::serial_totals;
use crate::loading::summary::Summary;
use crate::loading::threaded::threaded_check;
use fx_amounts::Memory;
use fx_rules::Gate;
use made_session::load_session;
use std::sync::Wait;
use std::thread::Threads;

/// Makes a session and its commands from a number, runs them in the order in which they were made on one host over the pair books, runs
/// each bank's in its order in at most `workers` threads (1 or more), and checks the output of the second run. What it tells
/// is determined by the first four numbers: 2 to 64 banks, 1 to 32 pairs, 1 to 20,000 commands. The verdict is the check's own,
/// which says yes. It may wait.
pub fn load_summary<R: AllocGlobal + Threads + Wait + Sync, G: Gate + Sync>(
    rt: &R,
    seed: u64,
    banks: u8,
    pairs: u8,
    commands: u32,
    workers: u32,
    gate: &G,
) -> Result<Summary, Memory>
    requires banks { (2 ≤ banks) × (banks ≤ 64) }
    requires pairs { (1 ≤ pairs) × (pairs ≤ 32) }
    requires commands { (1 ≤ commands) × (commands ≤ 20000) }
    requires workers { 1 ≤ workers }
    ensures summary { IfOk result (λ summary. IsSummary seed banks pairs commands (text_of summary)) }
    ensures checked { IfOk result (λ summary. summary.threaded.verdict ≡ yes) }
{
    let (session, sent) = load_session(rt.alloc(), seed, banks, pairs, commands)?;
    let serial = serial_totals(rt.alloc(), &session, &sent)?;
    let threaded = threaded_check(rt, &session, &sent, workers, gate)?;
    let made_from = [
        seed,
        u64::from(banks),
        u64::from(pairs),
        u64::from(commands),
    ];
    Ok(Summary {
        made_from,
        serial,
        threaded,
    })
}
