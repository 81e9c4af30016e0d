//! The history as it is read.
ghost use Rattle.std.specs.Prelude.{◌≡◌, drop, IfOk};

use fx_amounts::Memory;
use fx_rules::Entry;
use std::alloc::Global;

/// The entries from position `start` on, in memory of their own.
pub(crate) fn copied_from(
    alloc: Global,
    entries: &[Entry],
    start: u64,
) -> Result<Vec<Entry>, Memory>
    ensures entries { IfOk result (λ copied. copied.items ≡ drop start entries.now) }
{
    let first = start.min(entries.len() as u64) as usize;
    copied(alloc, &entries[first..])
}

/// A copy of some entries, in memory of its own.
fn copied(alloc: Global, entries: &[Entry]) -> Result<Vec<Entry>, Memory>
    ensures entries { IfOk result (λ copied. copied.items ≡ entries.now) }
{
    let mut copied = Vec::new(alloc);
    for entry in entries {
        copied.push(Entry {
            bank: entry.bank,
            number: entry.number,
            command: entry.command,
            outcome: entry.outcome.copy()?,
        })?;
    }
    Ok(copied)
}
