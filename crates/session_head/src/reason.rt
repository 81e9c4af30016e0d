ghost use Rattle.std.specs.Prelude.{◌≡◌};
ghost use Rattle.session_head.specs.Reason.{reason_code};

use fx_amounts::Memory;

/// Why a line is no line of a header.
#[derive(Clone, Copy, Debug, PartialEq, Eq)]
pub enum HeadReason {
    /// The first line is not `FXBOOK` with a version that there is.
    Version,
    /// The first field is no word of a header.
    Word,
    /// The line has more or fewer fields than its word asks for.
    Count,
    /// A bank's name that has not the form of a name, is reserved, or is repeated.
    Name,
    /// A pair that has not the form of one, is of two equal codes, or stands already.
    Pair,
    /// Decimals that are not a number from 0 to 6.
    Decimals,
    /// A lot that is not a number from 1 to 10^9, or no multiple of 10^decimals.
    Lot,
    /// A weight that is not a number from 1 to 10^6.
    Weight,
    /// A limit or a total of banks that are not all declared above, or a limit of a bank on itself.
    Banks,
    /// A limit or a total that is not a number from 0 to 10^15.
    Limit,
    /// `START` with fewer than two banks, or no pair.
    Start,
    /// A 65th bank, or a 33rd pair.
    Many,
    /// A line of more than 256 bytes.
    Long,
}

impl HeadReason {
    /// The reason's number, 1 to 13.
    pub fn code(self) -> u8
        ensures value { result ≡ reason_code self }
    {
        match self {
            HeadReason::Version => 1,
            HeadReason::Word => 2,
            HeadReason::Count => 3,
            HeadReason::Name => 4,
            HeadReason::Pair => 5,
            HeadReason::Decimals => 6,
            HeadReason::Lot => 7,
            HeadReason::Weight => 8,
            HeadReason::Banks => 9,
            HeadReason::Limit => 10,
            HeadReason::Start => 11,
            HeadReason::Many => 12,
            HeadReason::Long => 13,
        }
    }
}

/// What a line of a header leads to.
#[derive(Clone, Copy, Debug, PartialEq, Eq)]
pub enum HeadStep {
    /// The header goes on.
    More,
    /// The line was `START`, and the session is whole.
    Start,
}

/// Why a reader stops at a line.
#[derive(Clone, Copy, Debug, PartialEq, Eq)]
pub enum HeadStop {
    /// A line is no line of a header. Lines are counted from 1, those that are ignored included.
    Fault {
        /// The line's number.
        line: u64,
        /// Its first fault.
        reason: HeadReason,
    },
    /// Out of memory.
    Memory(Memory),
}

impl From<Memory> for HeadStop {
    ghost use Rattle.std.specs.Prelude.{◌≡◌};
    ghost use Rattle.session_head.specs.declared.reason.HeadStop.TheVariants.{Memory as OutOfMemory};

    ghost from_gives = { λ memory stop. stop ≡ OutOfMemory memory };

    fn from(memory: Memory) -> Self {
        HeadStop::Memory(memory)
    }
}
