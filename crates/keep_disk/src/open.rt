ghost use Rattle.std.specs.Prelude.{◌≡◌, ℕ, ◌<◌, ◌≤◌, [], List, length, drop, is_some, IfOk, OnOk};
ghost use Rattle.fx_disk.specs.Disk.{WhereTold, Only, LeavesOnly};
ghost use Rattle.keep_disk.specs.Blocks.{blocks_from, whole_blocks, space};
ghost use Rattle.keep_disk.specs.Keeping.{AtRest, HasCause};

use crate::keeper::{CLOSED, Keeper, OPEN};
use crate::read::{read_blocks, read_file};
use crate::write::{settle, write_synced};
use fx_disk::{Disk, DiskStop};
use std::alloc::Global;

// Closes the file behind its whole blocks, where the last gate says 1 or is missing.
fn close<D: Disk>(disk: &mut D, bytes: &[u8], place: usize) -> Result<(), DiskStop>
    requires same { WhereTold (D.bytes disk.old) (λ file. file ≡ bytes.now) }
    requires durable { WhereTold (D.bytes disk.old) (λ file. Only file (D.may_leave disk.old)) }
    requires behind { place ≡ space (whole_blocks bytes.now) }
    requires within { place ≤ length bytes.now }
    requires end { blocks_from 0 (drop place bytes.now) ≡ [] }
    ensures every_moment { WhereTold (D.bytes disk.old) (λ file.
        LeavesOnly D.moment D.left_since disk.old disk.new (λ image. whole_blocks image ≡ whole_blocks file)) }
    ensures blocks { OnOk result (WhereTold (D.bytes disk.old) (λ file. (image : List ℕ) →
        D.may_leave disk.new image → whole_blocks image ≡ whole_blocks file)) }
    ensures at_rest { OnOk result (AtRest D.bytes D.may_leave disk.new place) }
    ensures tells { OnOk result (is_some (D.bytes disk.new) ≡ is_some (D.bytes disk.old)) }
    ensures cause { HasCause D.faults disk.old disk.new result }
{
    if place < bytes.len() && bytes[place] != OPEN {
        return Ok(());
    }
    write_synced(disk, place as u64, &[CLOSED])
}

/// Opens a journal file: syncs it, reads its whole blocks, and closes it behind them where the last
/// gate says 1 or is missing.
///
/// Where the disk had one image, every image at every moment since then has its whole blocks, also
/// after a fault. After `Ok` the file has just the whole blocks that the disk had as it read at first.
pub fn open_keeper<D: Disk>(alloc: Global, disk: &mut D) -> Result<Keeper, DiskStop>
    ensures every_moment { WhereTold (D.bytes disk.old) (λ file. Only file (D.may_leave disk.old) →
        LeavesOnly D.moment D.left_since disk.old disk.new (λ image. whole_blocks image ≡ whole_blocks file)) }
    ensures blocks { OnOk result (WhereTold (D.bytes disk.old) (λ file. (image : List ℕ) →
        D.may_leave disk.new image → whole_blocks image ≡ whole_blocks file)) }
    ensures bodies { IfOk result (λ keeper. WhereTold (D.bytes disk.old) (λ file.
        keeper.bodies.items ≡ whole_blocks file)) }
    ensures at_rest { IfOk result (λ keeper. AtRest D.bytes D.may_leave disk.new keeper.place) }
    ensures tells { OnOk result (is_some (D.bytes disk.new) ≡ is_some (D.bytes disk.old)) }
    ensures cause { HasCause D.faults disk.old disk.new result }
{
    settle(disk)?;
    let bytes = read_file(alloc, disk)?;
    let found = read_blocks(alloc, &bytes)?;
    close(disk, &bytes, found.place)?;
    Ok(Keeper {
        bodies: found.bodies,
        place: found.place as u64,
    })
}
