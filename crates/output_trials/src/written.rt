ghost use Rattle.fx_rules.specs.History.{IsLegal};
ghost use Rattle.reply_lines.specs.Faults.{WroteOutput};
ghost use Rattle.reply_lines.specs.Output.{IsOutput};

use fx_edges::Sink;
use fx_rules::{Entry, Session};
use pair_host::replay;
use reply_lines::{Ending, OutFault, write_output_from};
use std::alloc::Global;

/// Writes the output of a legal history, as `write_output_from` does, from a market that it makes by replaying the history
/// before the first byte is written. It keeps that market too.
pub fn write_output<K: Sink>(
    alloc: Global,
    session: &Session,
    entries: &[Entry],
    strays: u64,
    ending: Ending,
    out: &mut K,
) -> Result<(), OutFault>
    requires legal { IsLegal session.now entries.now }
    ensures wrote { WroteOutput K.written K.faults out.old out.new (IsOutput session.now entries.now strays ending) result }
{
    match replay(alloc, session, entries) {
        Ok(market) => write_output_from(alloc, session, entries, &market, strays, ending, out),
        Err(memory) => Err(OutFault::Memory(memory)),
    }
}
