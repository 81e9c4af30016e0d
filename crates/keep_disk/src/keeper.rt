ghost use Rattle.std.specs.Prelude.{◌≡◌, ℕ, ◌+◌, ◌<◌, ◌^◌, ◌++◌, [], ◌∷◌, List, length, is_some, IfOk, OnOk, OnErr};
ghost use Rattle.std.specs.Int.{to_be_bytes};
ghost use Rattle.std.proofs.Common.{w64};
ghost use Rattle.fx_disk.specs.Disk.{WhereTold, LeavesOnly};
ghost use Rattle.keep_disk.specs.Blocks.{whole_blocks, HasOrLacks};
ghost use Rattle.keep_disk.specs.Keeping.{AtRest, HasCause};

use crate::write::write_synced;
use fx_amounts::{Memory, room_for};
use fx_disk::{Disk, DiskStop};
use fx_text::Bytes;
use std::alloc::Global;
use std::mem;

/// A gate that opens the block behind it.
pub(crate) const OPEN: u8 = 1;

/// A gate that closes the file.
pub(crate) const CLOSED: u8 = 0;

/// The bytes of a block beside its body: its length, and the gate behind it.
const FRAME: usize = 9;

/// What opened a journal file: its whole blocks then, until they are taken out, and the place of its last gate now.
#[derive(Drop)]
pub struct Keeper {
    pub(crate) bodies: Vec<Bytes>,
    pub(crate) place: u64,
}

// The place of the gate behind a block of a body of this length. `Memory` where it doesn't fit 64 bits: no file is so long.
fn place_behind(place: u64, body: &[u8]) -> Result<u64, Memory>
    ensures next { IfOk result (λ next. next ≡ place + 9 + length body.now) }
    ensures fits { length body.now < 2 ^ 64 }
{
    let framed = room_for(place as usize, FRAME)?;
    Ok(room_for(framed, body.len())? as u64)
}

// The length, the body and a closed gate.
fn block_of(alloc: Global, body: &[u8]) -> Result<Vec<u8>, Memory>
    ensures { IfOk result (λ block. block.items ≡ to_be_bytes w64 (length body.now) ++ body.now ++ 0 ∷ []) }
{
    let length = body.len() as u64;
    let mut block = length.to_be_bytes().to_vec(alloc)?;
    block.extend_from_slice(body)?;
    block.push(CLOSED)?;
    Ok(block)
}

impl Keeper {
    /// The whole blocks that the file had when it was opened, or none once they were taken out.
    pub fn bodies(&self) -> &[Bytes]
        ensures { result.now ≡ self.now.bodies.items }
    {
        self.bodies.as_slice()
    }

    /// The whole blocks that the file had when it was opened. The keeper has none of them any more. It takes no memory.
    pub fn take_bodies(&mut self) -> Vec<Bytes>
        ensures bodies { result.items ≡ self.old.bodies.items }
        ensures none { self.new.bodies.items ≡ [] }
        ensures place { self.new.place ≡ self.old.place }
    {
        let none = Vec::new(*self.bodies.allocator());
        mem::replace(&mut self.bodies, none)
    }

    /// Appends a block of this body: its bytes and a closed gate behind the last gate, and then, once
    /// those are synced, that gate's 1. It takes its memory before the first write.
    ///
    /// At every moment of the call a crash leaves the blocks from before it, with the new one or
    /// without, and after `Ok` with it. After a fault the keeper is as it was, and the file is to be
    /// opened again.
    pub fn append<D: Disk>(&mut self, disk: &mut D, body: &[u8]) -> Result<(), DiskStop>
        requires { AtRest D.bytes D.may_leave disk.old self.old.place }
        ensures every_moment { WhereTold (D.bytes disk.old) (λ file.
            LeavesOnly D.moment D.left_since disk.old disk.new (HasOrLacks (whole_blocks file) body.now)) }
        ensures appended { OnOk result (WhereTold (D.bytes disk.old) (λ file. (image : List ℕ) →
            D.may_leave disk.new image → whole_blocks image ≡ whole_blocks file ++ body.now ∷ [])) }
        ensures at_rest { OnOk result (AtRest D.bytes D.may_leave disk.new self.new.place) }
        ensures tells { OnOk result (is_some (D.bytes disk.new) ≡ is_some (D.bytes disk.old)) }
        ensures bodies { self.new.bodies ≡ self.old.bodies }
        ensures memory { OnErr result (self.new ≡ self.old) }
        ensures cause { HasCause D.faults disk.old disk.new result }
    {
        let next = place_behind(self.place, body)?;
        let block = block_of(*self.bodies.allocator(), body)?;
        write_synced(disk, self.place + 1, &block)?;
        write_synced(disk, self.place, &[OPEN])?;
        self.place = next;
        Ok(())
    }
}
