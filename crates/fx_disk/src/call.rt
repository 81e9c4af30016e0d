/// A call that changed a disk in memory.
#[derive(Drop)]
pub(crate) enum Call {
    /// A write that was done: its place and its bytes.
    Wrote { at: u64, piece: Vec<u8> },
    /// A write that failed: its place and how many bytes it had.
    Broke { at: u64, count: u64 },
    /// A sync that was done.
    Synced,
}
