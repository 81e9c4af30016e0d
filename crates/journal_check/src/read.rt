ghost use Rattle.std.specs.Prelude.{true, ℕ, List, IfOk};
ghost use Rattle.journal_check.specs.Reading.{IsRead};
ghost use Rattle.journal_check.specs.inside.Stops.{IsJudgedAs};

use crate::check::Verdict;
use crate::judging::{Judged, judge};
use crate::stop::Stop;
use fx_amounts::Memory;
use fx_rules::{EntryList, Session};
use std::alloc::Global;

/// What is read of a text.
#[derive(Drop)]
pub enum Read {
    /// It is an output, of this session and this legal history.
    Yes {
        session: Session,
        entries: EntryList,
    },
    /// It is none.
    No {
        /// The first byte or line, counted in bytes from the text's beginning, at which it is none.
        offset: u64,
    },
}

/// Reads an output: the session and the legal history that it tells, where `check_output` says `Yes` of the text. It reads the
/// text as that does, in the same one pass, and keeps the entries besides.
pub fn check_read(alloc: Global, bytes: &[u8]) -> Result<Read, Memory>
    ensures read { IfOk result (IsRead bytes.now) }
{
    match judge(alloc, bytes, true) {
        Ok(judged) => Ok(read_of(judged)),
        Err(Stop::Wrong { offset }) => Ok(Read::No { offset }),
        Err(Stop::Memory(memory)) => Err(memory),
    }
}

/// What was read of a text that was judged, with its entries kept.
fn read_of(judged: Judged) -> Read
    ensures read { (text : List ℕ) → IsJudgedAs text true judged → IsRead text result }
{
    match judged.verdict {
        Verdict::Yes(_) => Read::Yes {
            session: judged.session,
            entries: EntryList::from_vec(judged.entries),
        },
        Verdict::No { offset } => Read::No { offset },
    }
}
