ghost use Rattle.std.specs.Prelude.{◌≡◌, ℕ, List, [], ◌++◌, length, Some, IfOk, IfErr, OnErr, OnOk};
ghost use Rattle.fx_amounts.specs.OutOfMemory.{refused};

use crate::sink::{Sink, SinkFault};
use fx_amounts::Memory;
use std::alloc::Global;
use std::marker::Model;

/// A sink that keeps its bytes in memory and never fails, though it may be out of memory. Contracts see
/// it as the bytes that it holds.
#[derive(Drop)]
pub struct SteadySink {
    bytes: Vec<u8>,
}

impl Model for SteadySink {
    ghost Value = { List ℕ };

    ghost view = { λ s. s.bytes.items };
}

impl SteadySink {
    /// An empty sink.
    pub fn new(alloc: Global) -> SteadySink
        ensures { result ≡ [] }
    {
        SteadySink {
            bytes: Vec::new(alloc),
        }
    }

    /// The bytes written so far.
    pub fn written(&self) -> &[u8]
        ensures { result.now ≡ self.now }
    {
        self.bytes.as_slice()
    }
}

impl Sink for SteadySink {
    ghost written = { λ s. Some s };

    // It stands at 0, so no call through the trait can answer `Failed` either.
    ghost faults = { λ _. 0 };

    /// Takes the whole piece, unless there is no memory for it.
    fn write(&mut self, piece: &[u8]) -> Result<usize, SinkFault>
        ensures takes { IfOk result (λ count. count ≡ length piece.now) }
        ensures after { OnOk result (self.new ≡ self.old ++ piece.now) }
        ensures memory { IfErr result (λ fault. fault ≡ SinkFault.Memory refused) }
        ensures unchanged { OnErr result (self.new ≡ self.old) }
    {
        self.bytes.extend_from_slice(piece).map_err(Memory::from)?;
        Ok(piece.len())
    }
}
