ghost use Rattle.std.specs.Prelude.{◌≡◌, ◌≤◌, None, is_ok, if◌then◌else◌};
ghost use Rattle.std.specs.Io.{ReadsAtMost};
ghost use Rattle.std.specs.Io.KnownBytes.{ReadConsumes};
ghost use Rattle.fx_edges.specs.Faults.{one_more};

use crate::source::{ReadFailed, Source};
use std::io::{self, ErrorKind, Read};
use std::marker::Model;

/// A source over a reader of std, which counts the reader's errors. It tells no bytes of its own; what
/// each call takes is said of the reader. Contracts see it as the reader and the count.
#[derive(Drop)]
pub struct StdSource<R> {
    inner: R,
    faults: u64,
}

impl<R> Model for StdSource<R> {
    ghost use Rattle.fx_edges.specs.Counted.{Counted};

    ghost Value = { Counted R };

    ghost view = { λ s. record { inner = s.inner; faults = s.faults } };
}

impl<R> StdSource<R> {
    /// A source over this reader, with no fault so far.
    pub fn new(inner: R) -> StdSource<R>
        ensures source { result ≡ record { inner = inner; faults = 0 } }
    {
        StdSource { inner, faults: 0 }
    }
}

// One read, made again where a signal interrupted it.
fn read_uninterrupted<R: Read>(reader: &mut R, into: &mut [u8]) -> io::Result<usize>
    ensures room { ReadsAtMost result into.new }
    ensures bytes { ReadConsumes (R.remaining reader.old) (R.remaining reader.new) result into.new }
{
    for _ in 0..u64::MAX {
        match reader.read(into) {
            Ok(count) => return Ok(count),
            Err(error) if error.kind() == ErrorKind::Interrupted => {}
            Err(error) => return Err(error),
        }
    }
    Err(ErrorKind::TimedOut.into())
}

impl<R: Read> Source for StdSource<R> {
    ghost left = { λ _. None };

    ghost faults = { λ s. s.faults };

    /// Takes from the reader just the bytes that it puts into `into`, and none of an `into` with room only
    /// where the reader is at its end. A read that a signal interrupted is made again. Each other error of
    /// the reader is one more fault, and takes nothing.
    fn read(&mut self, into: &mut [u8]) -> Result<usize, ReadFailed>
        ensures room { ReadsAtMost result into.new }
        ensures bytes { ReadConsumes (R.remaining self.old.inner) (R.remaining self.new.inner) result into.new }
        ensures counted { self.new.faults
            ≡ (if is_ok result then self.old.faults else one_more self.old.faults) }
        ensures count { self.old.faults ≤ self.new.faults }
    {
        match read_uninterrupted(&mut self.inner, into) {
            Ok(count) => Ok(count),
            Err(_) => {
                self.faults = self.faults.saturating_add(1);
                Err(ReadFailed)
            }
        }
    }
}
