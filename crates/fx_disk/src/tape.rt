ghost use Rattle.std.specs.Prelude.{◌≡◌, ◌+◌, ◌<◌, ◌≤◌, ◌++◌, [], length, take, drop, IfOk, OnOk, OnErr, MatchOption, min};
ghost use Rattle.fx_disk.specs.Disk.{with_piece};
ghost use Rattle.fx_disk.specs.Model.{state_now};
ghost use Rattle.fx_disk.specs.inside.Model.{Added, AddedWrite};

use crate::call::Call;
use fx_amounts::Memory;
use std::alloc::Global;
use std::marker::Model;

/// The bytes that a disk in memory was made of, those that it has now, and the calls between.
#[derive(Drop)]
pub(crate) struct CallTape {
    first: Vec<u8>,
    // those that it has now, once a write has changed them
    changed: Option<Vec<u8>>,
    calls: Vec<Call>,
}

impl Model for CallTape {
    ghost use Rattle.std.specs.Prelude.{◌≡◌, MatchOption};
    ghost use Rattle.fx_disk.specs.Model.{Tape, start_of, after_calls};

    ghost Value = { Tape };

    ghost view = { λ s. record { first = s.first.items; calls = s.calls.items } };

    ghost invariant = { λ s.
        let reads = (after_calls (start_of s.first.items) s.calls.items).reads in
        MatchOption s.changed (s.first.items ≡ reads) (λ v. v.items ≡ reads) };
}

// The file with this piece at this place.
fn spliced(alloc: Global, file: &[u8], at: usize, piece: &[u8]) -> Result<Vec<u8>, Memory>
    requires { at ≤ length file.now }
    ensures { IfOk result (λ v. v.items ≡ with_piece at piece.now file.now) }
{
    let (front, rest) = file.split_at(at);
    let mut whole = front.to_vec(alloc)?;
    whole.extend_from_slice(piece)?;
    if piece.len() < rest.len() {
        whole.extend_from_slice(&rest[piece.len()..])?;
    }
    Ok(whole)
}

impl CallTape {
    /// A tape of these bytes, all of them synced.
    pub(crate) fn new(bytes: Vec<u8>) -> CallTape
        ensures { result ≡ record { first = bytes.items; calls = [] } }
    {
        let calls = Vec::new(*bytes.allocator());
        CallTape {
            first: bytes,
            changed: None,
            calls,
        }
    }

    /// The bytes that a read gives.
    pub(crate) fn bytes(&self) -> &[u8]
        ensures { result.now ≡ (state_now self.now).reads }
    {
        match &self.changed {
            Some(bytes) => bytes.as_slice(),
            None => self.first.as_slice(),
        }
    }

    /// Moves bytes from the place `at` on into the front of `into`, as many as there are and fit.
    pub(crate) fn read(&self, at: u64, into: &mut [u8]) -> usize
        ensures count { result ≡ min (length into.old) (length (drop at (state_now self.now).reads)) }
        ensures into { into.new ≡ take result (drop at (state_now self.now).reads) ++ drop result into.old }
    {
        let bytes = self.bytes();
        let at = at.min(bytes.len() as u64) as usize;
        let rest = &bytes[at..];
        let count = into.len().min(rest.len());
        into[..count].copy_from_slice(&rest[..count]);
        count
    }

    /// Puts `piece` at the place `at`, which is at most the file's length. Without memory nothing changes.
    pub(crate) fn write(&mut self, at: u64, piece: &[u8]) -> Result<(), Memory>
        requires { at ≤ length (state_now self.old).reads }
        ensures wrote { OnOk result (AddedWrite self.old at piece.now self.new) }
        ensures unchanged { OnErr result (self.new ≡ self.old) }
    {
        let alloc = *self.first.allocator();
        let kept = piece.to_vec(alloc)?;
        let whole = spliced(alloc, self.bytes(), at as usize, piece)?;
        self.calls.push(Call::Wrote { at, piece: kept })?;
        self.changed = Some(whole);
        Ok(())
    }

    /// Notes a write that failed.
    pub(crate) fn note_broken(&mut self, at: u64, count: u64) -> Result<(), Memory>
        ensures noted { OnOk result (Added self.old (Call.Broke at count) self.new) }
        ensures unchanged { OnErr result (self.new ≡ self.old) }
    {
        self.calls.push(Call::Broke { at, count })?;
        Ok(())
    }

    /// Notes a sync.
    pub(crate) fn note_sync(&mut self) -> Result<(), Memory>
        ensures noted { OnOk result (Added self.old Call.Synced self.new) }
        ensures unchanged { OnErr result (self.new ≡ self.old) }
    {
        self.calls.push(Call::Synced)?;
        Ok(())
    }
}
