ghost use Rattle.std.specs.Prelude.{◌≡◌};
ghost use Rattle.session_script.specs.declared.ends.Stop.TheVariants.{Memory as OutOfMemory};

use fx_amounts::Memory;
use session_head::HeadReason;

/// Why the text of a session ended without its END line.
#[derive(Clone, Copy, Debug, PartialEq, Eq)]
pub enum EarlyEnd {
    /// The source ended before.
    Cut,
    /// The source failed before.
    ReadFault,
    /// There was more than is taken before.
    TooMuch,
}

/// How the text of a session ended.
#[derive(Clone, Copy, Debug, PartialEq, Eq)]
pub enum TextEnd {
    /// With its END line.
    EndLine,
    /// Before it.
    Early(EarlyEnd),
}

/// Why the reading of a session's text stopped.
#[derive(Clone, Copy, Debug, PartialEq, Eq)]
pub enum Stop {
    /// The header has a fault: the number of its line, counted from 1 with all lines that are ignored, and the reason.
    Header { line: u64, reason: HeadReason },
    /// The text ended before START.
    Early(EarlyEnd),
    /// A growth of memory was refused.
    Memory(Memory),
}

impl From<Memory> for Stop {
    ghost from_gives = { λ memory stop. stop ≡ OutOfMemory memory };

    fn from(memory: Memory) -> Self {
        Stop::Memory(memory)
    }
}
