ghost use Rattle.std.specs.Prelude.{◌≤◌, IfOk};
ghost use Rattle.program_calls.specs.LoadSummary.{IsSummary};
ghost use Rattle.program_calls.specs.Load.{Loaded, WroteText};

use crate::status::Status;
use fx_amounts::Memory;
use fx_edges::{Sink, SinkFault, write_all};
use fx_rules::Gate;
use std::sync::Wait;
use std::thread::Threads;

mod laws;
mod lines;
mod making;
mod serial;
mod summary;
mod threaded;

pub use laws::summaries_agree;
pub use making::load_summary;
pub use summary::Summary;

/// Makes a session and its commands from a number, runs them in order and on at most `workers` threads (1 or more), has the
/// second output checked, and writes the summary. There are 2 to 64 banks, 1 to 32 pairs and 1 to 20,000 commands. It may
/// wait.
pub fn load<R: AllocGlobal + Threads + Wait + Sync, K: Sink, G: Gate + Sync>(
    rt: &R,
    seed: u64,
    banks: u8,
    pairs: u8,
    commands: u32,
    workers: u32,
    out: &mut K,
    gate: &G,
) -> Status
    requires banks { (2 ≤ banks) × (banks ≤ 64) }
    requires pairs { (1 ≤ pairs) × (pairs ≤ 32) }
    requires commands { (1 ≤ commands) × (commands ≤ 20000) }
    requires workers { 1 ≤ workers }
    ensures loaded { Loaded K.written K.faults out.old out.new seed banks pairs commands result }
{
    match summary_text(rt, seed, banks, pairs, commands, workers, gate) {
        Ok(text) => write_summary(&text, out),
        Err(memory) => Status::Memory(memory),
    }
}

/// The text of the summary.
fn summary_text<R: AllocGlobal + Threads + Wait + Sync, G: Gate + Sync>(
    rt: &R,
    seed: u64,
    banks: u8,
    pairs: u8,
    commands: u32,
    workers: u32,
    gate: &G,
) -> Result<Vec<u8>, Memory>
    requires banks { (2 ≤ banks) × (banks ≤ 64) }
    requires pairs { (1 ≤ pairs) × (pairs ≤ 32) }
    requires commands { (1 ≤ commands) × (commands ≤ 20000) }
    requires workers { 1 ≤ workers }
    ensures summary { IfOk result (λ text. IsSummary seed banks pairs commands text.items) }
{
    let summary = load_summary(rt, seed, banks, pairs, commands, workers, gate)?;
    summary.text(rt.alloc())
}

/// Writes the summary.
fn write_summary<K: Sink>(text: &[u8], out: &mut K) -> Status
    ensures wrote { WroteText K.written K.faults out.old out.new text.now result }
{
    match write_all(out, text) {
        Ok(()) => Status::Done,
        Err(SinkFault::Failed) => Status::WriteFault,
        Err(SinkFault::Memory(memory)) => Status::Memory(memory),
    }
}
