use fx_amounts::Memory;

/// Why the reading of a text stops.
#[derive(Clone, Copy, Debug, PartialEq, Eq)]
pub(crate) enum Stop {
    /// The text is wrong at this offset.
    Wrong { offset: u64 },
    /// Out of memory.
    Memory(Memory),
}

impl From<Memory> for Stop {
    ghost use Rattle.std.specs.Prelude.{◌≡◌};
    ghost use Rattle.journal_check.specs.declared.stop.Stop.TheVariants.{Memory as OutOfMemory};

    ghost from_gives = { λ memory stop. stop ≡ OutOfMemory memory };

    fn from(memory: Memory) -> Self {
        Stop::Memory(memory)
    }
}
