ghost use Rattle.std.specs.Prelude.{◌≡◌, ◌↔◌, ◌+◌, ◌^◌, ◌≤◌, IsSome, IsErr, IfOk};
ghost use Rattle.std.specs.declared.io.ErrorKind.TheVariants.{OutOfMemory};

use std::alloc::{AllocError, AllocFailed};
use std::io::ErrorKind;

/// Out of memory: a growth was refused. It is made of the refusal alone, so no code can answer it on its own.
#[derive(Clone, Copy, Debug, PartialEq, Eq)]
pub struct Memory(());

impl Memory {
    /// What the kind of a fault says of memory, where another library met the refusal: `Some` exactly at `OutOfMemory`.
    pub fn told_by(kind: ErrorKind) -> Option<Memory>
        ensures told { IsSome result ↔ kind ≡ OutOfMemory }
    {
        match kind {
            ErrorKind::OutOfMemory => Some(Memory(())),
            _ => None,
        }
    }
}

/// The places for so many items and for so many more. `Memory` exactly where no `usize` tells their number, for which no
/// allocator has room.
pub fn room_for(count: usize, more: usize) -> Result<usize, Memory>
    ensures places { IfOk result (λ places. places ≡ count + more) }
    ensures memory { IsErr result ↔ 2 ^ 64 ≤ count + more }
{
    count.checked_add(more).ok_or(Memory(()))
}

impl From<AllocError> for Memory {
    fn from(_: AllocError) -> Self {
        Memory(())
    }
}

impl<T: Drop> From<AllocFailed<T>> for Memory {
    fn from(_: AllocFailed<T>) -> Self {
        Memory(())
    }
}
