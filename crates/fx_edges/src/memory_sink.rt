ghost use Rattle.std.specs.Prelude.{◌≡◌, ◌↔◌, ◌<◌, ◌≤◌, [], ◌++◌, length, take, min, Some, Contains, IfOk, IsErrOf};
ghost use Rattle.fx_amounts.specs.OutOfMemory.{refused};
ghost use Rattle.fx_edges.specs.Faults.{one_more};
ghost use Rattle.fx_edges.specs.InMemory.{Tape};

use crate::sink::{Sink, SinkFault};
use fx_amounts::Memory;
use std::marker::Model;

/// A sink that keeps its bytes in memory, takes at most `most` bytes at each call, and fails at the
/// calls whose numbers are in `fails`, counted from 1.
///
/// Contracts see it as a `Tape`: the bytes written, `most`, the calls so far, `fails` and the faults
/// so far.
#[derive(Drop)]
pub struct MemorySink {
    bytes: Vec<u8>,
    most: usize,
    calls: u64,
    fails: Vec<u64>,
    faults: u64,
}

impl Model for MemorySink {
    ghost Value = { Tape };

    ghost view = { λ s. record {
      written = s.bytes.items;
      most = s.most;
      calls = s.calls;
      fails = s.fails.items;
      faults = s.faults;
    } };

    ghost invariant = { λ s. 1 ≤ s.most };
}

impl MemorySink {
    /// An empty sink, which takes its memory where `fails` did. `most` is at least 1.
    pub fn new(most: usize, fails: Vec<u64>) -> MemorySink
        requires { 1 ≤ most }
        ensures sink { result ≡ record {
          written = [];
          most = most;
          calls = 0;
          fails = fails.items;
          faults = 0;
        } }
    {
        let bytes = Vec::new(*fails.allocator());
        MemorySink {
            bytes,
            most,
            calls: 0,
            fails,
            faults: 0,
        }
    }

    /// The bytes written so far.
    pub fn written(&self) -> &[u8]
        ensures { result.now ≡ self.now.written }
    {
        self.bytes.as_slice()
    }
}

impl Sink for MemorySink {
    ghost written = { λ s. Some s.written };

    ghost faults = { λ s. s.faults };

    /// Fails exactly at the calls numbered in `fails`. The others take the lesser of `most` and the
    /// piece's length, unless there is no memory for it: then the sink is as it was, and the call isn't
    /// counted.
    fn write(&mut self, piece: &[u8]) -> Result<usize, SinkFault>
        ensures fails { IsErrOf result SinkFault.Failed ↔ Contains self.old.fails (one_more self.old.calls) }
        ensures takes { IfOk result (λ count. count ≡ min self.old.most (length piece.now)) }
        ensures after { IfOk result (λ count. self.new ≡ record self.old {
          written = self.old.written ++ take count piece.now;
          calls = one_more self.old.calls;
        }) }
        ensures failed { IsErrOf result SinkFault.Failed → self.new ≡ record self.old {
          calls = one_more self.old.calls;
          faults = one_more self.old.faults;
        } }
        ensures memory { IsErrOf result (SinkFault.Memory refused) → self.new ≡ self.old }

        // What every sink says, and the clauses above don't: a call takes at least a byte where there
        // is one, and the count never falls.
        ensures least { IfOk result (λ count. 0 < length piece.now → 0 < count) }
        ensures count { self.old.faults ≤ self.new.faults }
    {
        let call = self.calls.saturating_add(1);
        if self.fails.contains(&call) {
            self.calls = call;
            self.faults = self.faults.saturating_add(1);
            return Err(SinkFault::Failed);
        }
        let count = self.most.min(piece.len());
        let taken = self.bytes.extend_from_slice(&piece[..count]);
        taken.map_err(Memory::from)?;
        self.calls = call;
        Ok(count)
    }
}
