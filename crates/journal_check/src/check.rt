ghost use Rattle.std.specs.Prelude.{◌≡◌, IfOk};
ghost use Rattle.journal_check.specs.Verdict.{yes, IsVerdict, IsSomeOutput};

use crate::judging::judge;
use crate::last::Passed;
use crate::stop::Stop;
use fx_amounts::Memory;
use std::alloc::Global;

/// Whether a text is the output of a legal history.
#[derive(Clone, Copy, Debug, PartialEq, Eq)]
pub enum Verdict {
    /// It is the output of a legal history of at most 2^28 entries. Only the check makes a `Passed`.
    Yes(Passed),
    /// It is not.
    No {
        /// The first byte or line, counted in bytes from the text's beginning, at which it is not.
        offset: u64,
    },
}

/// Checks a text: `Yes` exactly where it is the output of a legal history of at most 2^28 entries, with strays below 2^64 and
/// an ending. No entry is kept.
pub fn check_output(alloc: Global, bytes: &[u8]) -> Result<Verdict, Memory>
    ensures verdict { IfOk result (IsVerdict bytes.now) }

    // `Yes` is said of outputs alone, and of each.
    ensures sound { IfOk result (λ verdict. verdict ≡ yes → IsSomeOutput bytes.now) }
    ensures complete { IfOk result (λ verdict. IsSomeOutput bytes.now → verdict ≡ yes) }
{
    match judge(alloc, bytes, false) {
        Ok(judged) => Ok(judged.verdict),
        Err(Stop::Wrong { offset }) => Ok(Verdict::No { offset }),
        Err(Stop::Memory(memory)) => Err(memory),
    }
}
