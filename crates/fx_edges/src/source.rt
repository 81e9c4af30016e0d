ghost use Rattle.std.specs.Prelude.{◌≡◌, ℕ, ◌<◌, ◌≤◌, List, length, take, Option, IfOk, OnErr};
ghost use Rattle.std.specs.Io.{ReadsAtMost};
ghost use Rattle.std.specs.Io.KnownBytes.{IsAtEnd};
ghost use Rattle.fx_edges.specs.Faults.{Rose};
ghost use Rattle.fx_edges.specs.Reading.{Took};

/// A read failed. It took nothing, and the source's count of faults rose.
#[derive(Clone, Copy, Debug, PartialEq, Eq)]
pub struct ReadFailed;

/// Where bytes come from.
///
/// Contracts see a source by `left`, the bytes still to come where the source tells them, and by
/// `faults`, a count that never falls and stands still at `u64::MAX`.
pub trait Source {
    ghost left: { Self → Option (List ℕ) };

    ghost faults: { Self → ℕ };

    /// Moves the next bytes into the front of `into`, and answers how many: 0 for an `into` with room
    /// only at the end. Behind them `into` may hold anything. After `ReadFailed` it may hold anything
    /// throughout, and the source has what it had.
    fn read(&mut self, into: &mut [u8]) -> Result<usize, ReadFailed>
        ensures room { ReadsAtMost result into.new }
        ensures ok { IfOk result (λ count.
            Took left faults self.old self.new (take count into.new)) }
        ensures end { IfOk result (λ count.
            count ≡ 0 → 0 < length into.old → IsAtEnd (left self.old)) }

        ensures failed { OnErr result (left self.new ≡ left self.old) }
        ensures cause { OnErr result (Rose (faults self.old) (faults self.new)) }
        ensures count { faults self.old ≤ faults self.new };
}
