use fx_amounts::Memory;

/// Why there is no day.
#[derive(Clone, Copy, Debug, PartialEq, Eq)]
pub enum NoDay {
    /// There was no memory for it.
    Memory,
    /// The text has no header up to START, or no session has so many banks and pairs.
    Session,
    /// It has more than a hundred thousand commands.
    Long,
}

impl From<Memory> for NoDay {
    fn from(_memory: Memory) -> NoDay {
        NoDay::Memory
    }
}
