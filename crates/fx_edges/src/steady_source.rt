ghost use Rattle.std.specs.Prelude.{◌≡◌, ℕ, ◌≤◌, List, ◌++◌, length, take, drop, min, Some, Ok};

use crate::source::{ReadFailed, Source};
use std::marker::Model;

/// A source over bytes in memory that never fails. Contracts see it as the bytes that it has left.
#[derive(Drop)]
pub struct SteadySource {
    bytes: Vec<u8>,
    at: usize,
}

impl Model for SteadySource {
    ghost Value = { List ℕ };

    ghost view = { λ s. drop s.at s.bytes.items };

    ghost invariant = { λ s. s.at ≤ length s.bytes.items };
}

impl SteadySource {
    /// A source of these bytes.
    pub fn new(bytes: Vec<u8>) -> SteadySource
        ensures { result ≡ bytes.items }
    {
        SteadySource { bytes, at: 0 }
    }
}

impl Source for SteadySource {
    ghost left = { λ s. Some s };

    // It stands at 0, so no call through the trait can answer `ReadFailed` either.
    ghost faults = { λ _. 0 };

    /// Gives as many bytes as there are and `into` has room for.
    fn read(&mut self, into: &mut [u8]) -> Result<usize, ReadFailed>
        ensures gives { result ≡ Ok (min (length into.old) (length self.old)) }
        ensures into { into.new ≡ take (length into.old) self.old ++ drop (length self.old) into.old }
        ensures after { self.new ≡ drop (length into.old) self.old }
    {
        let (_, rest) = self.bytes.split_at(self.at);
        let count = into.len().min(rest.len());
        into[..count].copy_from_slice(&rest[..count]);
        self.at += count;
        Ok(count)
    }
}
