ghost use Rattle.std.specs.Prelude.{◌≡◌, length, Some, []};
ghost use Rattle.fx_disk.specs.Model.{Tape, state_now, MayLeaveIn, LeftSince};
ghost use Rattle.fx_disk.specs.ModelLaws.{reads_told, left_now, left_only_now};

use crate::disk::{Disk, DiskStop};
use crate::tape::CallTape;
use std::marker::Model;

/// A disk in memory that never fails, though it may be out of memory. Contracts see it as the bytes that it
/// was made of and the calls since.
#[derive(Drop)]
pub struct SteadyDisk {
    tape: CallTape,
}

impl Model for SteadyDisk {
    ghost use Rattle.fx_disk.specs.Model.{Tape};

    ghost Value = { Tape };

    ghost view = { λ s. s.tape };
}

impl SteadyDisk {
    /// A disk of these bytes, all of them synced.
    pub fn new(bytes: Vec<u8>) -> SteadyDisk
        ensures { result ≡ record { first = bytes.items; calls = [] } }
    {
        SteadyDisk {
            tape: CallTape::new(bytes),
        }
    }

    /// The bytes that a read gives.
    pub fn bytes(&self) -> &[u8]
        ensures { result.now ≡ (state_now self.now).reads }
    {
        self.tape.bytes()
    }
}

impl Disk for SteadyDisk {
    ghost bytes = { λ s. Some (state_now s).reads };

    ghost may_leave = { λ s image. MayLeaveIn (state_now s) image };

    ghost moment = { λ s. length s.calls };

    ghost left_since = { λ s t image. LeftSince s t image };

    // It stands at 0, so no call can answer `Failed`.
    ghost faults = { λ _. 0 };

    ghost reads = { λ s file told. reads_told s file told };

    ghost counts_now = { λ s t image le now. left_now s t image le now };

    ghost only_now = { λ s image left. left_only_now s image left };

    fn size(&mut self) -> Result<u64, DiskStop> {
        Ok(self.tape.bytes().len() as u64)
    }

    fn read_at(&mut self, at: u64, into: &mut [u8]) -> Result<usize, DiskStop> {
        Ok(self.tape.read(at, into))
    }

    fn write_at(&mut self, at: u64, piece: &[u8]) -> Result<(), DiskStop> {
        self.tape.write(at, piece)?;
        Ok(())
    }

    fn sync(&mut self) -> Result<(), DiskStop> {
        self.tape.note_sync()?;
        Ok(())
    }
}
