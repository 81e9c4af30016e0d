ghost use Rattle.std.specs.Prelude.{◌≡◌, ◌≤◌, length, option_map, OnOk};
ghost use Rattle.fx_disk.specs.Disk.{WhereTold, with_piece, TornBy, Only, LeavesOnly};
ghost use Rattle.keep_disk.specs.Keeping.{HasCause};
ghost use Rattle.keep_disk.specs.inside.Keeping.{TornFrom, Untouched};

use fx_disk::{Disk, DiskStop};

/// Has on the disk what was written before. After `Ok` a crash leaves what a read gives.
pub(crate) fn settle<D: Disk>(disk: &mut D) -> Result<(), DiskStop>
    ensures untouched { OnOk result (Untouched D.bytes D.may_leave D.moment D.left_since D.faults disk.old disk.new) }
    ensures durable { OnOk result (WhereTold (D.bytes disk.old) (λ file. Only file (D.may_leave disk.new))) }
    ensures every_moment { LeavesOnly D.moment D.left_since disk.old disk.new (D.may_leave disk.old) }
    ensures cause { HasCause D.faults disk.old disk.new result }
{
    disk.sync()
}

// Writes a piece. Until a sync a crash may leave any bytes in its range.
fn write<D: Disk>(disk: &mut D, at: u64, piece: &[u8]) -> Result<(), DiskStop>
    requires { WhereTold (D.bytes disk.old) (λ file. at ≤ length file) }
    ensures bytes { OnOk result (D.bytes disk.new ≡ option_map (with_piece at piece.now) (D.bytes disk.old)) }
    ensures images { TornBy at (length piece.now) (D.may_leave disk.old) (D.may_leave disk.new) }
    ensures every_moment { LeavesOnly D.moment D.left_since disk.old disk.new
        (TornFrom at (length piece.now) (D.may_leave disk.old)) }
    ensures cause { HasCause D.faults disk.old disk.new result }
{
    disk.write_at(at, piece)
}

/// Writes a piece and syncs. At every moment of it a crash leaves an image from before, with any
/// bytes in the piece's range; after `Ok` it leaves what a read gives.
pub(crate) fn write_synced<D: Disk>(disk: &mut D, at: u64, piece: &[u8]) -> Result<(), DiskStop>
    requires { WhereTold (D.bytes disk.old) (λ file. at ≤ length file) }
    ensures bytes { OnOk result (D.bytes disk.new ≡ option_map (with_piece at piece.now) (D.bytes disk.old)) }
    ensures durable { OnOk result (WhereTold (D.bytes disk.new) (λ file. Only file (D.may_leave disk.new))) }
    ensures every_moment { LeavesOnly D.moment D.left_since disk.old disk.new
        (TornFrom at (length piece.now) (D.may_leave disk.old)) }
    ensures cause { HasCause D.faults disk.old disk.new result }
{
    write(disk, at, piece)?;
    settle(disk)
}
