ghost use Rattle.std.specs.Prelude.{◌≡◌, ◌<◌, ◌≤◌, length, None, IfOk, IfErr, is_ok, if◌then◌else◌};
ghost use Rattle.std.specs.Io.{WritesAtMost};
ghost use Rattle.std.specs.Io.KnownBytes.{WriteAppends};
ghost use Rattle.fx_edges.specs.Faults.{one_more};

use crate::sink::{Sink, SinkFault};
use std::io::{self, ErrorKind, Write};
use std::marker::Model;

/// A sink over a writer of std, which counts the writer's faults. It tells no bytes of its own; what
/// each call passes on is said of the writer. Contracts see it as the writer and the count.
#[derive(Drop)]
pub struct StdSink<W> {
    inner: W,
    faults: u64,
}

impl<W> Model for StdSink<W> {
    ghost use Rattle.fx_edges.specs.Counted.{Counted};

    ghost Value = { Counted W };

    ghost view = { λ s. record { inner = s.inner; faults = s.faults } };
}

impl<W> StdSink<W> {
    /// A sink over this writer, with no fault so far.
    pub fn new(inner: W) -> StdSink<W>
        ensures sink { result ≡ record { inner = inner; faults = 0 } }
    {
        StdSink { inner, faults: 0 }
    }
}

// One write, made again where a signal interrupted it.
fn write_uninterrupted<W: Write>(writer: &mut W, piece: &[u8]) -> io::Result<usize>
    ensures most { WritesAtMost result piece.now }
    ensures bytes { WriteAppends (W.contents writer.old) (W.contents writer.new) result piece.now }
{
    for _ in 0..u64::MAX {
        match writer.write(piece) {
            Ok(count) => return Ok(count),
            Err(error) if error.kind() == ErrorKind::Interrupted => {}
            Err(error) => return Err(error),
        }
    }
    Err(ErrorKind::TimedOut.into())
}

impl<W: Write> Sink for StdSink<W> {
    ghost written = { λ _. None };

    ghost faults = { λ s. s.faults };

    /// Appends to the writer just the bytes that it tells, the first of `piece`, and nothing at a fault.
    /// A write that a signal interrupted is made again. Each other error of the writer is one more fault,
    /// and so is each write that takes nothing of a piece with bytes.
    fn write(&mut self, piece: &[u8]) -> Result<usize, SinkFault>
        ensures most { IfOk result (λ count. count ≤ length piece.now) }
        ensures least { IfOk result (λ count. 0 < length piece.now → 0 < count) }
        ensures failed { IfErr result (λ fault. fault ≡ SinkFault.Failed) }
        ensures bytes { WriteAppends (W.contents self.old.inner) (W.contents self.new.inner) result piece.now }
        ensures counted { self.new.faults
            ≡ (if is_ok result then self.old.faults else one_more self.old.faults) }
        ensures count { self.old.faults ≤ self.new.faults }
    {
        match write_uninterrupted(&mut self.inner, piece) {
            Ok(count) if count > 0 || piece.is_empty() => Ok(count),
            _ => {
                self.faults = self.faults.saturating_add(1);
                Err(SinkFault::Failed)
            }
        }
    }
}
