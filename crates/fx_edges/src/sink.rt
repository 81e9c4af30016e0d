ghost use Rattle.std.specs.Prelude.{◌≡◌, ℕ, ◌<◌, ◌≤◌, List, length, take, Option, IfOk, OnErr, IfErr};
ghost use Rattle.fx_edges.specs.Faults.{Rose};
ghost use Rattle.fx_edges.specs.Writing.{Appended, CutShort, Wrote};

use fx_amounts::Memory;

/// Why a sink didn't take a piece.
#[derive(Clone, Copy, Debug, PartialEq, Eq)]
pub enum SinkFault {
    /// The sink failed, and its count of faults rose.
    Failed,
    /// The sink was out of memory.
    Memory(Memory),
}

impl From<Memory> for SinkFault {
    ghost use Rattle.fx_edges.specs.declared.sink.SinkFault.TheVariants.{Memory as OutOfMemory};

    ghost from_gives = { λ memory fault. fault ≡ OutOfMemory memory };

    fn from(memory: Memory) -> Self {
        SinkFault::Memory(memory)
    }
}

/// Where bytes go.
///
/// Contracts see a sink by `written`, the bytes that it holds where it tells them, and by `faults`,
/// a count that rises at `Failed`, never falls and stands still at `u64::MAX`.
pub trait Sink {
    ghost written: { Self → Option (List ℕ) };

    ghost faults: { Self → ℕ };

    /// Appends the first bytes of `piece`, and answers how many: at least 1 where there is one.
    /// After a fault nothing of `piece` was appended.
    fn write(&mut self, piece: &[u8]) -> Result<usize, SinkFault>
        ensures most { IfOk result (λ count. count ≤ length piece.now) }
        ensures least { IfOk result (λ count. 0 < length piece.now → 0 < count) }
        ensures ok { IfOk result (λ count.
            Appended written faults self.old self.new (take count piece.now)) }

        ensures fault { OnErr result (written self.new ≡ written self.old) }
        ensures cause { IfErr result (λ fault.
            fault ≡ SinkFault.Failed → Rose (faults self.old) (faults self.new)) }
        ensures count { faults self.old ≤ faults self.new };
}

/// Writes the whole `piece`, in as many writes as the sink asks for.
///
/// After a fault a prefix of `piece` was appended, and not all of it. In this call the sink's count of faults rose where
/// the fault is `Failed`.
pub fn write_all<K: Sink>(sink: &mut K, piece: &[u8]) -> Result<(), SinkFault>
    ensures wrote { Wrote K.written K.faults sink.old sink.new piece.now result }
    ensures cut { OnErr result (CutShort K.written K.faults sink.old sink.new piece.now) }
{
    let mut at = 0;
    while at < piece.len() {
        match sink.write(&piece[at..]) {
            Ok(count) => at += count,
            Err(fault) => return Err(fault),
        }
    }
    Ok(())
}
