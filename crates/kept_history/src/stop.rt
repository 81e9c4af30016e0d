use fx_amounts::Memory;

/// Why the reading of blocks stops.
#[derive(Clone, Copy)]
pub(crate) enum Stop {
    /// This block, counted from 0, is the first that is not what it has to be.
    Damaged { block: u64 },
    /// Out of memory.
    Memory(Memory),
}

impl From<Memory> for Stop {
    ghost use Rattle.std.specs.Prelude.{◌≡◌};
    ghost use Rattle.kept_history.specs.declared.stop.Stop.TheVariants.{Memory as OutOfMemory};

    ghost from_gives = { λ memory stop. stop ≡ OutOfMemory memory };

    fn from(memory: Memory) -> Self {
        Stop::Memory(memory)
    }
}
