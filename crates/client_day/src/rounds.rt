ghost use Rattle.std.specs.Prelude.{Some};
ghost use Rattle.fx_rules.specs.Session.{Header as SessionHeader};
ghost use Rattle.session_script.specs.Rounds.{HasHeard};
ghost use Rattle.session_script.specs.Stage.{heard_at, sent_at};
ghost use Rattle.client_day.specs.Rounds.{ServedText};
ghost use Rattle.client_day.specs.inside.Rounds.{IsServing, ServedRounds};

use crate::day::ClientDay;
use fx_amounts::Memory;
use fx_edges::Source;
use session_script::{Reading, TextEnd};
use std::alloc::Global;

/// Serves the session of a reading that keeps strays, round by round in the order of its lines, and answers how the text ended,
/// and the day behind it.
pub fn serve_clients<S: Source>(
    alloc: Global,
    reading: &mut Reading,
    source: &mut S,
) -> Result<(TextEnd, ClientDay), Memory>
    requires begun { (before : S) × (h : SessionHeader) × HasHeard S.left S.faults before source.old reading.old h (sent_at reading.old.intake.stage) (heard_at reading.old.intake.stage) }
    ensures served { (before : S) (h : SessionHeader) → HasHeard S.left S.faults before source.old reading.old h (sent_at reading.old.intake.stage) (heard_at reading.old.intake.stage) → ServedText S.left S.faults before source.new reading.new h result }
{
    let mut day = ClientDay::open(alloc, &reading.script().session)?;
    let end = serve_rounds(reading, source, &mut day)?;
    Ok((end, day))
}

/// Serves what is heard in each round, and answers how the text ended.
fn serve_rounds<S: Source>(
    reading: &mut Reading,
    source: &mut S,
    day: &mut ClientDay,
) -> Result<TextEnd, Memory>
    requires serving { (before : S) × (h : SessionHeader) × IsServing S.left S.faults before source.old reading.old h day.old }
    ensures served { (before : S) (h : SessionHeader) → IsServing S.left S.faults before source.old reading.old h day.old → ServedRounds S.left S.faults before source.new reading.new h day.new result }
{
    loop {
        let script = reading.script();
        day.take_all(&script.session, &script.heard)?;
        if let Some(end) = reading.end() {
            return Ok(end);
        }
        reading.read_round(source)?;
    }
}
