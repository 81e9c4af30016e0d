ghost use Rattle.journal_check.specs.inside.Stops.{Judges};

use crate::check::Verdict;
use crate::compare::compare_day;
use crate::header::read_header;
use crate::journal::{read_count, read_entries};
use crate::kept::Kept;
use crate::last::last_lines;
use crate::stop::Stop;
use fx_rules::{Entry, Session};
use std::alloc::Global;

/// What was found of a text whose header and journal could be read.
#[derive(Drop)]
pub(crate) struct Judged {
    pub(crate) verdict: Verdict,
    pub(crate) session: Session,
    /// All entries of its history, or none where they were not to be kept.
    pub(crate) entries: Vec<Entry>,
}

/// Judges a text in one pass over its header and its journal, and keeps the entries where the whole of them is asked for.
pub(crate) fn judge(alloc: Global, text: &[u8], whole: bool) -> Result<Judged, Stop>
    ensures { Judges text.now whole result }
{
    let headed = read_header(alloc, text)?;
    let counted = read_count(text, headed.next)?;
    let mut kept = Kept::new(alloc, whole);
    let served = read_entries(alloc, &headed.session, text, &counted, &mut kept)?;
    let end = compare_day(alloc, text, &headed.session, served)?;
    Ok(Judged {
        verdict: last_lines(text, end),
        session: headed.session,
        entries: kept.entries,
    })
}
