ghost use Rattle.std.specs.Prelude.{◌≡◌, ◌↔◌, ℕ, ◌+◌, ◌<◌, ◌≤◌, ◌++◌, [], List, length, take, drop, min, Some, Ok, IfOk, OnOk, OnErr, IsErrOf, IsTrue, Contains};
ghost use Rattle.fx_amounts.specs.OutOfMemory.{refused};
ghost use Rattle.fx_edges.specs.Faults.{one_more};
ghost use Rattle.fx_disk.specs.Disk.{with_piece, Torn, TornBy, NoMore};
ghost use Rattle.fx_disk.specs.Model.{LeftSince};
ghost use Rattle.fx_disk.specs.ModelLaws.{reads_told, left_now, left_only_now};
ghost use Rattle.fx_disk.specs.InMemory.{FailingDisk, reads_of, may_leave_of, CalledFailing, CountedFailing};

use crate::disk::{Disk, DiskStop};
use crate::tape::CallTape;
use std::marker::Model;

/// A disk in memory that fails at the calls whose numbers are in `fails`, counted from 1. A write that is
/// to fail and finds no memory for its note answers `Memory` in place of it, and counts no fault.
#[derive(Drop)]
pub struct MemoryDisk {
    tape: CallTape,
    made: u64,
    fails: Vec<u64>,
    faults: u64,
}

impl Model for MemoryDisk {
    ghost use Rattle.fx_disk.specs.InMemory.{FailingDisk};

    ghost Value = { FailingDisk };

    ghost view = { λ s. record { tape = s.tape; made = s.made; fails = s.fails.items; faults = s.faults } };
}

impl MemoryDisk {
    /// A disk of these bytes, all of them synced.
    pub fn new(bytes: Vec<u8>, fails: Vec<u64>) -> MemoryDisk
        ensures { result ≡ record {
          tape = record { first = bytes.items; calls = [] };
          made = 0;
          fails = fails.items;
          faults = 0;
        } }
    {
        MemoryDisk {
            tape: CallTape::new(bytes),
            made: 0,
            fails,
            faults: 0,
        }
    }

    /// The bytes that a read gives.
    pub fn bytes(&self) -> &[u8]
        ensures { result.now ≡ reads_of self.now }
    {
        self.tape.bytes()
    }

    // One call more, and whether it is told to fail.
    fn begin(&mut self) -> bool
        ensures fails { IsTrue result ↔ Contains self.old.fails (one_more self.old.made) }
        ensures made { self.new ≡ record self.old { made = one_more self.old.made } }
    {
        self.made = self.made.saturating_add(1);
        self.fails.contains(&self.made)
    }

    // One call more, which fails where it is told to.
    fn count(&mut self) -> Result<(), DiskStop>
        ensures fails { IsErrOf result DiskStop.Failed ↔ Contains self.old.fails (one_more self.old.made) }
        ensures memory { IsErrOf result (DiskStop.Memory refused) → ⊥ }
        ensures done { OnOk result (self.new ≡ record self.old { made = one_more self.old.made }) }
        ensures failed { OnErr result (self.new ≡ record self.old {
          made = one_more self.old.made;
          faults = one_more self.old.faults;
        }) }
        ensures count { self.old.faults ≤ self.new.faults }
    {
        if self.begin() {
            self.faults = self.faults.saturating_add(1);
            return Err(DiskStop::Failed);
        }
        Ok(())
    }
}

impl Disk for MemoryDisk {
    ghost bytes = { λ s. Some (reads_of s) };

    ghost may_leave = { may_leave_of };

    ghost moment = { λ s. length s.tape.calls };

    ghost left_since = { λ s t image. LeftSince s.tape t image };

    ghost faults = { λ s. s.faults };

    ghost reads = { λ s file told. reads_told s.tape file told };

    ghost counts_now = { λ s t image le now. left_now s.tape t image le now };

    ghost only_now = { λ s image left. left_only_now s.tape image left };

    /// Fails exactly at the calls numbered in `fails`.
    fn size(&mut self) -> Result<u64, DiskStop>
        ensures fails { IsErrOf result DiskStop.Failed ↔ Contains self.old.fails (one_more self.old.made) }
        ensures size { IfOk result (λ size. size ≡ length (reads_of self.old)) }
        ensures tape { self.new.tape ≡ self.old.tape }
        ensures called { CalledFailing self.old self.new result }
        ensures counted { CountedFailing self.old self.new result }
    {
        self.count()?;
        Ok(self.tape.bytes().len() as u64)
    }

    /// Fails exactly at the calls numbered in `fails`. The others give as many bytes as there are and `into`
    /// has room for.
    fn read_at(&mut self, at: u64, into: &mut [u8]) -> Result<usize, DiskStop>
        ensures fails { IsErrOf result DiskStop.Failed ↔ Contains self.old.fails (one_more self.old.made) }
        ensures count { IfOk result (λ count. count ≡ min (length into.old) (length (drop at (reads_of self.old)))) }
        ensures into { IfOk result (λ count. into.new ≡ take count (drop at (reads_of self.old)) ++ drop count into.old) }
        ensures untouched { OnErr result (into.new ≡ into.old) }
        ensures tape { self.new.tape ≡ self.old.tape }
        ensures called { CalledFailing self.old self.new result }
        ensures counted { CountedFailing self.old self.new result }
    {
        self.count()?;
        Ok(self.tape.read(at, into))
    }

    /// Fails exactly at the calls numbered in `fails`, unless it is out of memory. After `Ok` and after
    /// `Failed` a crash may leave each image from before, with any bytes in the piece's range, and no other.
    fn write_at(&mut self, at: u64, piece: &[u8]) -> Result<(), DiskStop>
        requires { at ≤ length (reads_of self.old) }
        ensures fails { IsErrOf result DiskStop.Failed → Contains self.old.fails (one_more self.old.made) }
        ensures does { OnOk result (¬ Contains self.old.fails (one_more self.old.made)) }
        ensures bytes { OnOk result (reads_of self.new ≡ with_piece at piece.now (reads_of self.old)) }
        ensures failed { IsErrOf result DiskStop.Failed → reads_of self.new ≡ reads_of self.old }
        ensures memory { IsErrOf result (DiskStop.Memory refused) → self.new.tape ≡ self.old.tape }
        ensures torn { (old image : List ℕ) → (IsErrOf result (DiskStop.Memory refused) → ⊥) →
            may_leave_of self.old old → Torn at (length piece.now) old image → may_leave_of self.new image }
        ensures images { TornBy at (length piece.now) (may_leave_of self.old) (may_leave_of self.new) }
        ensures called { CalledFailing self.old self.new result }
        ensures counted { CountedFailing self.old self.new result }
    {
        if self.begin() {
            self.tape.note_broken(at, piece.len() as u64)?;
            self.faults = self.faults.saturating_add(1);
            return Err(DiskStop::Failed);
        }
        self.tape.write(at, piece)?;
        Ok(())
    }

    /// Fails exactly at the calls numbered in `fails`, unless it is out of memory. After `Ok` a crash leaves the
    /// bytes that a read gives, and no other image.
    fn sync(&mut self) -> Result<(), DiskStop>
        ensures fails { IsErrOf result DiskStop.Failed ↔ Contains self.old.fails (one_more self.old.made) }
        ensures bytes { reads_of self.new ≡ reads_of self.old }
        ensures durable { OnOk result ((image : List ℕ) → may_leave_of self.new image ↔ (image ≡ reads_of self.old)) }
        ensures images { NoMore (may_leave_of self.old) (may_leave_of self.new) }
        ensures failed { IsErrOf result DiskStop.Failed → self.new.tape ≡ self.old.tape }
        ensures memory { IsErrOf result (DiskStop.Memory refused) → self.new.tape ≡ self.old.tape }
        ensures called { CalledFailing self.old self.new result }
        ensures counted { CountedFailing self.old self.new result }
    {
        self.count()?;
        self.tape.note_sync()?;
        Ok(())
    }
}
