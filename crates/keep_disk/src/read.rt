ghost use Rattle.std.specs.Prelude.{◌≡◌, ◌+◌, ◌<◌, ◌≤◌, [], ◌∷◌, length, drop, Option, IfSome, IfNone, IfOk, OnOk};
ghost use Rattle.fx_disk.specs.Disk.{WhereTold, LeavesOnly};
ghost use Rattle.keep_disk.specs.Blocks.{blocks_from, whole_blocks, space};
ghost use Rattle.keep_disk.specs.Keeping.{HasCause};
ghost use Rattle.keep_disk.specs.inside.Keeping.{Untouched};

use crate::keeper::OPEN;
use fx_amounts::Memory;
use fx_disk::{Disk, DiskStop};
use fx_text::Bytes;
use std::alloc::Global;

/// What a file's bytes have: the bodies of its whole blocks, and the place behind them.
#[derive(Drop)]
pub(crate) struct Found {
    pub bodies: Vec<Bytes>,
    pub place: usize,
}

// The body of the block that the first byte, a gate, opens, where it opens a whole one.
fn next_body(file: &[u8]) -> Option<&[u8]>
    ensures none { IfNone result (blocks_from 0 file.now ≡ []) }
    ensures some { IfSome result (λ body. blocks_from 0 file.now
        ≡ body.now ∷ blocks_from 0 (drop (9 + length body.now) file.now)) }
    ensures within { IfSome result (λ body. 9 + length body.now < length file.now) }
{
    let [gate, rest @ ..] = file else {
        return None;
    };
    if *gate != OPEN {
        return None;
    }
    let Some((head, behind)) = rest.split_first_chunk::<8>() else {
        return None;
    };
    let size = u64::from_be_bytes(*head);
    if size >= behind.len() as u64 {
        return None;
    }
    Some(&behind[..size as usize])
}

/// The whole blocks of a file of these bytes.
pub(crate) fn read_blocks(alloc: Global, file: &[u8]) -> Result<Found, Memory>
    ensures bodies { IfOk result (λ found. found.bodies.items ≡ whole_blocks file.now) }
    ensures place { IfOk result (λ found. found.place ≡ space (whole_blocks file.now)) }
    ensures within { IfOk result (λ found. found.place ≤ length file.now) }
    ensures end { IfOk result (λ found. blocks_from 0 (drop found.place file.now) ≡ []) }
{
    let mut bodies = Vec::new(alloc);
    let mut place = 0;
    'blocks: while let Some(body) = next_body(&file[place..]) {
        bodies.push(Bytes::from_vec(body.to_vec(alloc)?))?;
        place += 9 + body.len();
    }
    Ok(Found { bodies, place })
}

// Reads from the file's start on until `into` is full or the file ends, and answers how many bytes.
fn fill<D: Disk>(disk: &mut D, into: &mut [u8]) -> Result<usize, DiskStop>
    ensures count { IfOk result (λ count. count ≤ length into.old) }
    ensures bytes { IfOk result (λ count. WhereTold (D.bytes disk.old) (λ file.
        length into.old ≡ length file → (count ≡ length file) × (into.new ≡ file))) }
    ensures untouched { OnOk result (Untouched D.bytes D.may_leave D.moment D.left_since D.faults disk.old disk.new) }
    ensures every_moment { LeavesOnly D.moment D.left_since disk.old disk.new (D.may_leave disk.old) }
    ensures cause { HasCause D.faults disk.old disk.new result }
{
    let mut at = 0;
    while at < into.len() {
        match disk.read_at(at as u64, &mut into[at..]) {
            Ok(0) => return Ok(at),
            Ok(count) => at += count,
            Err(stop) => return Err(stop),
        }
    }
    Ok(at)
}

/// All bytes of the disk's file.
pub(crate) fn read_file<D: Disk>(alloc: Global, disk: &mut D) -> Result<Vec<u8>, DiskStop>
    ensures bytes { IfOk result (λ read. WhereTold (D.bytes disk.old) (λ file. read.items ≡ file)) }
    ensures untouched { OnOk result (Untouched D.bytes D.may_leave D.moment D.left_since D.faults disk.old disk.new) }
    ensures every_moment { LeavesOnly D.moment D.left_since disk.old disk.new (D.may_leave disk.old) }
    ensures cause { HasCause D.faults disk.old disk.new result }
{
    let size = disk.size()?;
    let mut bytes = Vec::from_elem(alloc, 0, size as usize).map_err(Memory::from)?;
    let count = fill(disk, &mut bytes)?;
    bytes.truncate(count);
    Ok(bytes)
}
