ghost use Rattle.std.specs.Prelude.{◌≡◌, ℕ, ◌<◌, ◌≤◌, List, length, take, drop, Option, option_map, IfOk, OnOk};
ghost use Rattle.fx_disk.specs.Disk.{WhereTold, with_piece, TornBy, NoMore, Only, Called};

use fx_amounts::Memory;
use thiserror::Error;

/// Why a disk didn't do what it was asked.
#[derive(Clone, Copy, Debug, Error, PartialEq, Eq)]
pub enum DiskStop {
    /// The disk failed, and its count of faults rose. What it holds now is only known by what a crash may leave.
    #[error("the disk failed")]
    Failed,
    /// The disk was out of memory. Its bytes, what a crash may leave and its count of faults are as they were.
    #[error("out of memory")]
    Memory(Memory),
}

impl From<Memory> for DiskStop {
    ghost use Rattle.fx_disk.specs.declared.disk.DiskStop.TheVariants.{Memory as OutOfMemory};

    ghost from_gives = { λ memory stop. stop ≡ OutOfMemory memory };

    fn from(memory: Memory) -> Self {
        DiskStop::Memory(memory)
    }
}

/// A file on a disk that may fail, and that a crash may cut short.
///
/// Contracts see a disk by `bytes`, what a read gives where the disk tells it; by `may_leave`, the
/// images that a crash at this moment may leave; by `moment`, a clock that never falls; by
/// `left_since`, the images that a crash at some moment from that one on may have left, in a call or
/// between two; and by `faults`, a count that rises at `Failed` alone and stands still at `u64::MAX`.
pub trait Disk {
    ghost bytes: { Self → Option (List ℕ) };

    ghost may_leave: { Self → List ℕ → Type 0 };

    ghost moment: { Self → ℕ };

    ghost left_since: { Self → ℕ → List ℕ → Type 0 };

    ghost faults: { Self → ℕ };

    /// How many bytes the file has.
    fn size(&mut self) -> Result<u64, DiskStop>
        ensures called { Called bytes may_leave moment left_since faults self.old self.new result }
        ensures size { IfOk result (λ size. WhereTold (bytes self.old) (λ file. size ≡ length file)) }
        ensures bytes { OnOk result (bytes self.new ≡ bytes self.old) }
        ensures images { NoMore (may_leave self.old) (may_leave self.new) };

    /// Moves bytes of the file from the place `at` on into the front of `into`, and answers how many: at
    /// least 1 where the file has a byte there and `into` has room. Behind them, and after a stop
    /// throughout, `into` may hold anything.
    fn read_at(&mut self, at: u64, into: &mut [u8]) -> Result<usize, DiskStop>
        ensures called { Called bytes may_leave moment left_since faults self.old self.new result }
        ensures room { IfOk result (λ count. count ≤ length into.old) }
        ensures gives { IfOk result (λ count. WhereTold (bytes self.old) (λ file.
            take count into.new ≡ take count (drop at file))) }
        ensures within { IfOk result (λ count. WhereTold (bytes self.old) (λ file.
            count ≤ length (drop at file))) }
        ensures least { IfOk result (λ count. WhereTold (bytes self.old) (λ file.
            at < length file → 0 < length into.old → 0 < count)) }
        ensures bytes { OnOk result (bytes self.new ≡ bytes self.old) }
        ensures images { NoMore (may_leave self.old) (may_leave self.new) };

    /// Puts `piece` at the place `at`, over what stands there and past the file's end. Until a sync a
    /// crash may leave any bytes in its range, whatever the call answered.
    fn write_at(&mut self, at: u64, piece: &[u8]) -> Result<(), DiskStop>
        requires { WhereTold (bytes self.old) (λ file. at ≤ length file) }
        ensures called { Called bytes may_leave moment left_since faults self.old self.new result }
        ensures bytes { OnOk result (bytes self.new ≡ option_map (with_piece at piece.now) (bytes self.old)) }
        ensures images { TornBy at (length piece.now) (may_leave self.old) (may_leave self.new) };

    /// After `Ok` a crash leaves what a read gives, and nothing else.
    fn sync(&mut self) -> Result<(), DiskStop>
        ensures called { Called bytes may_leave moment left_since faults self.old self.new result }
        ensures bytes { OnOk result (bytes self.new ≡ bytes self.old) }
        ensures durable { OnOk result (WhereTold (bytes self.old) (λ file. Only file (may_leave self.new))) }
        ensures images { NoMore (may_leave self.old) (may_leave self.new) };

    /// The file as it reads is one of the images.
    ghost reads: { (disk : Self) → WhereTold (bytes disk) (λ file. may_leave disk file) };

    /// This moment is one of those since an earlier one.
    ghost counts_now: { (disk : Self) (t : ℕ) (image : List ℕ) →
        t ≤ moment disk → may_leave disk image → left_since disk t image };

    /// Since this moment there is no other.
    ghost only_now: { (disk : Self) (image : List ℕ) →
        left_since disk (moment disk) image → may_leave disk image };
}
