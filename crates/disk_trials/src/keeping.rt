ghost use Rattle.std.specs.Prelude.{◌≡◌, ◌↔◌, length, IsTrue, IfOk, OnOk};
ghost use Rattle.fx_disk.specs.Disk.{WhereTold, Only, LeavesOnly};
ghost use Rattle.keep_disk.specs.Blocks.{whole_blocks};
ghost use Rattle.keep_disk.specs.Keeping.{HasCause};
ghost use Rattle.keep_disk.specs.Rounds.{RunCauses};
ghost use Rattle.disk_trials.specs.Numbered.{bodies, room, KeptNumbers, AllNumbers};

use crate::numbers::{Numbers, body_of};
use fx_amounts::Memory;
use fx_disk::{Disk, DiskStop};
use fx_edges::Sink;
use keep_disk::{Body, RunFault, keep_rounds, open_keeper};
use std::alloc::Global;

/// Appends the blocks of the next `count` numbers, and writes each number once its block is on the disk. After a fault the disk
/// has the blocks from before and those of the first so many numbers behind them, and each that was written is among these. The
/// fault is of the disk or of the sink only where that count of faults rose, and each count rises at nothing else.
pub fn append<D: Disk, K: Sink>(
    alloc: Global,
    disk: &mut D,
    out: &mut K,
    count: u64,
    dots: usize,
) -> Result<(), RunFault>
    ensures kept { WhereTold (D.bytes disk.old) (λ file. Only file (D.may_leave disk.old) →
        KeptNumbers D.may_leave D.moment D.left_since K.written K.faults dots count file disk.old disk.new out.old out.new) }
    ensures all { OnOk result (WhereTold (D.bytes disk.old) (λ file.
        AllNumbers D.may_leave K.written K.faults dots (room file count) file disk.new out.old out.new)) }
    ensures causes { RunCauses D.faults K.faults disk.old disk.new out.old out.new result }
{
    let mut keeper = open_keeper(alloc, disk)?;
    let next = keeper.bodies().len() as u64 + 1;
    let mut numbers = Numbers::new(alloc, next, next.saturating_add(count), dots);
    keep_rounds(&mut keeper, disk, out, &mut numbers)
}

// Whether the bodies are those of 1, 2, 3 and so on.
fn are_in_order(alloc: Global, found: &[Body], dots: usize) -> Result<bool, Memory>
    ensures { IfOk result (λ yes. IsTrue yes ↔ (found.now ≡ bodies dots 1 (length found.now))) }
{
    let mut number = 0;
    for body in found {
        number += 1;
        let wanted = body_of(alloc, number, dots)?;
        if body.as_slice() != wanted.as_slice() {
            return Ok(false);
        }
    }
    Ok(true)
}

/// How many blocks the file has, and whether they are those of 1, 2, 3 and so on. The disk keeps its blocks, whatever the answer,
/// and the fault is `Disk` only where its count of faults rose, which rises at nothing else.
pub fn count<D: Disk>(alloc: Global, disk: &mut D, dots: usize) -> Result<(usize, bool), DiskStop>
    ensures blocks { IfOk result (λ found. WhereTold (D.bytes disk.old) (λ file. found.0 ≡ length (whole_blocks file))) }
    ensures in_order { IfOk result (λ found. WhereTold (D.bytes disk.old) (λ file.
        IsTrue found.1 ↔ (whole_blocks file ≡ bodies dots 1 (length (whole_blocks file))))) }
    ensures every_moment { WhereTold (D.bytes disk.old) (λ file. Only file (D.may_leave disk.old) →
        LeavesOnly D.moment D.left_since disk.old disk.new (λ image. whole_blocks image ≡ whole_blocks file)) }
    ensures cause { HasCause D.faults disk.old disk.new result }
{
    let keeper = open_keeper(alloc, disk)?;
    let found = keeper.bodies();
    let in_order = are_in_order(alloc, found, dots)?;
    Ok((found.len(), in_order))
}
