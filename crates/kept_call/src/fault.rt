ghost use Rattle.std.specs.Prelude.{◌≡◌};

use fx_amounts::Memory;
use fx_disk::DiskStop;
use fx_edges::SinkFault;
use keep_disk::RunFault;
use reply_lines::OutFault;
use session_head::HeadReason;
use session_script::{EarlyEnd, Stop};

/// Why a call that keeps a session stopped before all of its output was written.
#[derive(Clone, Copy, Debug, PartialEq, Eq)]
pub enum KeptFault {
    /// The header has a fault: the number of its line, counted from 1 with all lines that are ignored, and the reason. Nothing was written or
    /// kept.
    Header {
        line: u64,
        reason: HeadReason,
    },
    /// The text ended before START. Nothing was written or kept.
    Early(EarlyEnd),
    /// The file has a whole block already, so that no new session is kept in it. Nothing was read, written or kept.
    Kept,
    /// The file has no whole block to go on from. Nothing was read, written or kept.
    Empty,
    /// A whole block is not what it has to be. Nothing was read, written or kept.
    Damaged {
        /// The first such block, counted from 0.
        block: u64,
    },
    /// There are more commands in the file than a session goes on from. Nothing was read, written or kept.
    Full,
    /// The disk failed, and its count of faults rose. What was written is a prefix of the text, and each round of which a byte was
    /// written is kept.
    Disk,
    /// The sink failed, and its count of faults rose. What was written is a prefix of the text, and each round of which a byte was
    /// written is kept.
    Write,
    /// Out of memory. What was written is a prefix of the text, and each round of which a byte was written is kept.
    Memory(Memory),
}

impl From<RunFault> for KeptFault {
    ghost use Rattle.kept_call.specs.Fault.{of_run};

    ghost from_gives = { λ run fault. fault ≡ of_run run };

    fn from(fault: RunFault) -> Self {
        match fault {
            RunFault::Keep(DiskStop::Failed) => KeptFault::Disk,
            RunFault::Keep(DiskStop::Memory(memory)) => KeptFault::Memory(memory),
            RunFault::Tell(SinkFault::Failed) => KeptFault::Write,
            RunFault::Tell(SinkFault::Memory(memory)) => KeptFault::Memory(memory),
        }
    }
}

impl From<OutFault> for KeptFault {
    ghost use Rattle.kept_call.specs.Fault.{of_out};

    ghost from_gives = { λ out fault. fault ≡ of_out out };

    fn from(fault: OutFault) -> Self {
        match fault {
            OutFault::Write => KeptFault::Write,
            OutFault::Memory(memory) => KeptFault::Memory(memory),
        }
    }
}

impl From<Stop> for KeptFault {
    ghost use Rattle.kept_call.specs.Fault.{of_stop};

    ghost from_gives = { λ stop fault. fault ≡ of_stop stop };

    fn from(stop: Stop) -> Self {
        match stop {
            Stop::Header { line, reason } => KeptFault::Header { line, reason },
            Stop::Early(end) => KeptFault::Early(end),
            Stop::Memory(memory) => KeptFault::Memory(memory),
        }
    }
}

impl From<Memory> for KeptFault {
    ghost use Rattle.kept_call.specs.declared.fault.KeptFault.TheVariants.{Memory as OutOfMemory};

    ghost from_gives = { λ memory fault. fault ≡ OutOfMemory memory };

    fn from(memory: Memory) -> Self {
        KeptFault::Memory(memory)
    }
}
