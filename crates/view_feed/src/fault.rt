use fx_amounts::Memory;
use thiserror::Error;

/// Why a reader got no local book. It has then seen what it had seen, and knows what it was told.
#[derive(Clone, Copy, Debug, Error, PartialEq, Eq)]
pub enum FeedFault {
    /// The feed was closed. It comes to no one while `Feed::close` asks for all readers.
    #[error("the feed is closed")]
    Closed,
    /// What is published lacks an entry that the reader was told of. It never comes, since a feed tells of an entry once that is
    /// published; the two copies of the market can't say so.
    #[error("the feed is behind its notes")]
    Behind,
    /// There wasn't enough memory for the levels of the local book.
    #[error("out of memory")]
    Memory(Memory),
}

impl From<Memory> for FeedFault {
    fn from(memory: Memory) -> Self {
        FeedFault::Memory(memory)
    }
}
