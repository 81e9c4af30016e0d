ghost use Rattle.std.specs.Prelude.{◌≡◌, ◌↔◌, ◌<◌, ◌≤◌, ◌++◌, length, take, drop, min, Some, Contains, IfOk, OnErr, IsErr};
ghost use Rattle.std.specs.Io.KnownBytes.{IsAtEnd};
ghost use Rattle.fx_edges.specs.Faults.{one_more};
ghost use Rattle.fx_edges.specs.InMemory.{Feed};

use crate::source::{ReadFailed, Source};
use std::marker::Model;

/// A source over bytes in memory, which gives at most `most` bytes at each call, and fails at the
/// calls whose numbers are in `fails`, counted from 1.
///
/// Contracts see it as a `Feed`: the bytes left, `most`, the calls so far, `fails` and the faults so
/// far.
#[derive(Drop)]
pub struct MemorySource {
    bytes: Vec<u8>,
    at: usize,
    most: usize,
    calls: u64,
    fails: Vec<u64>,
    faults: u64,
}

impl Model for MemorySource {
    ghost Value = { Feed };

    ghost view = { λ s. record {
      left = drop s.at s.bytes.items;
      most = s.most;
      calls = s.calls;
      fails = s.fails.items;
      faults = s.faults;
    } };

    ghost invariant = { λ s. record { within : s.at ≤ length s.bytes.items; gives : 1 ≤ s.most } };
}

impl MemorySource {
    /// A source of these bytes that no call has read from yet. `most` is at least 1.
    pub fn new(bytes: Vec<u8>, most: usize, fails: Vec<u64>) -> MemorySource
        requires { 1 ≤ most }
        ensures source { result ≡ record {
          left = bytes.items;
          most = most;
          calls = 0;
          fails = fails.items;
          faults = 0;
        } }
    {
        MemorySource {
            bytes,
            at: 0,
            most,
            calls: 0,
            fails,
            faults: 0,
        }
    }
}

impl Source for MemorySource {
    ghost left = { λ s. Some s.left };

    ghost faults = { λ s. s.faults };

    /// Fails exactly at the calls numbered in `fails`. The others give the least of `most`, the room
    /// in `into` and what is left.
    fn read(&mut self, into: &mut [u8]) -> Result<usize, ReadFailed>
        ensures fails { IsErr result ↔ Contains self.old.fails (one_more self.old.calls) }
        ensures gives { IfOk result (λ count.
            count ≡ min (min self.old.most (length into.old)) (length self.old.left)) }
        ensures into { IfOk result (λ count. into.new ≡ take count self.old.left ++ drop count into.old) }
        ensures after { IfOk result (λ count. self.new ≡ record self.old {
          left = drop count self.old.left;
          calls = one_more self.old.calls;
        }) }
        ensures failed { OnErr result (self.new ≡ record self.old {
          calls = one_more self.old.calls;
          faults = one_more self.old.faults;
        }) }
        ensures untouched { OnErr result (into.new ≡ into.old) }

        // What every source says, and the clauses above don't: a call gives at least a byte where it
        // can, and the count never falls.
        ensures end { IfOk result (λ count.
            count ≡ 0 → 0 < length into.old → IsAtEnd (Some self.old.left)) }
        ensures count { self.old.faults ≤ self.new.faults }
    {
        let call = self.calls.saturating_add(1);
        self.calls = call;
        if self.fails.contains(&call) {
            self.faults = self.faults.saturating_add(1);
            return Err(ReadFailed);
        }
        let (_, rest) = self.bytes.split_at(self.at);
        let count = self.most.min(into.len()).min(rest.len());
        into[..count].copy_from_slice(&rest[..count]);
        self.at += count;
        Ok(count)
    }
}
