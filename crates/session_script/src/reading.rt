ghost use Rattle.std.specs.Prelude.{ℕ, [], ◌≡◌, ◌<◌, ◌≤◌, ◌+◌, ◌++◌, Option, Some, None, IsSome, OnOk, OnErr, List};
ghost use Rattle.fx_rules.specs.declared.command.Sent.{Sent as SentCommand};
ghost use Rattle.fx_rules.specs.Session.{Header as SessionHeader};
ghost use Rattle.session_script.specs.Stage.{session_at};
ghost use Rattle.session_script.specs.Heard.{Heard as HeardLine};
ghost use Rattle.session_script.specs.declared.script.Keeps.TheVariants.{Journal, Strays};

use crate::ends::{Stop, TextEnd};
use crate::intake::{Intake, Stage};
use crate::script::{Keeps, Script};
use fx_amounts::Memory;
use fx_edges::Source;
use fx_rules::Session;
use std::alloc::Global;

/// The text of a session whose START was read, as it is taken from its source in rounds.
///
/// A round takes bytes up to the END line, the source's end or a read that fails, and 65,536 at most; a line that its end
/// cuts is of the round in which it ends. Of all rounds 2^26 bytes are taken. Each read asks for 4,096 bytes, or for what the
/// round or the limit leaves where that is less. The text of former rounds is not kept, nor are their commands and strays.
#[derive(Drop)]
pub struct Reading {
    intake: Intake,
    end: Option<TextEnd>,

    ghost started: { IsSome (session_at intake.stage) },
}

impl Reading {
    ghost use Rattle.session_script.specs.Stage.{heard_at, journal_at, sent_at, strays_at};
    ghost use Rattle.session_head.specs.HeadText.{head_text_of};
    ghost use Rattle.session_script.specs.Rounds.{HasBegun, HasBegunHearing, HasBegunJournal, HasHeardBehind, HasJournalBehind, HasReadBehind, TookOnBehind};

    /// Reads the rounds up to the one with START. The reading stops at the first fault of the header too. Neither the journal nor
    /// strays are kept.
    pub fn begin<S: Source>(alloc: Global, source: &mut S) -> Result<Reading, Stop>
        ensures begun { HasBegun S.left S.faults source.old source.new result }
    {
        Reading::begin_as(alloc, source, Keeps::Nothing)
    }

    /// Reads the rounds up to the one with START, as `begin` does, where each round's strays are kept among its commands, in the
    /// order of the lines.
    pub fn begin_keeping<S: Source>(alloc: Global, source: &mut S) -> Result<Reading, Stop>
        ensures begun { HasBegun S.left S.faults source.old source.new result }
        ensures heard { HasBegunHearing S.left S.faults source.old source.new result }
    {
        Reading::begin_as(alloc, source, Keeps::Strays)
    }

    /// Reads the rounds up to the one with START, as `begin` does, where the journal's lines of the commands of all rounds are kept.
    pub fn begin_with_journal<S: Source>(alloc: Global, source: &mut S) -> Result<Reading, Stop>
        ensures begun { HasBegun S.left S.faults source.old source.new result }
        ensures journal { HasBegunJournal S.left S.faults source.old source.new result }
    {
        Reading::begin_as(alloc, source, Keeps::Journal)
    }

    /// Reads the rounds up to the one with START, where it is told what is kept.
    fn begin_as<S: Source>(alloc: Global, source: &mut S, keeps: Keeps) -> Result<Reading, Stop>
        ensures begun { HasBegun S.left S.faults source.old source.new result }
        ensures journal { keeps ≡ Journal → HasBegunJournal S.left S.faults source.old source.new result }
        ensures heard { keeps ≡ Strays → HasBegunHearing S.left S.faults source.old source.new result }
    {
        let mut intake = Intake::new(alloc, keeps);
        loop {
            let end = match intake.read_round(source) {
                Ok(end) => end,
                Err(stop) => return Err(stop),
            };
            if intake.stage.has_started() {
                return Ok(Reading { intake, end });
            }
            match end {
                None => {}
                Some(TextEnd::Early(early)) => return Err(Stop::Early(early)),
                // An END line stands behind START.
                Some(TextEnd::EndLine) => unreachable!(),
            }
        }
    }

    /// A reading that goes on behind the START of a session that is known. It has taken nothing of the source; the text that it
    /// reads is the session's header and then what the source gives, of which at most 2^26 bytes are taken. It takes no memory.
    pub fn resume<S: Source>(alloc: Global, session: Session, source: &S) -> Reading
        ensures resumed { HasReadBehind (head_text_of session) S.left S.faults source.now source.now result session [] }
        ensures none { result.intake.taken ≡ 0 }
    {
        Reading {
            intake: Intake::resume(alloc, session),
            end: None,
        }
    }

    /// Reads the next round of a text that has not ended. After `Memory` it has the same session and has not ended, but some
    /// commands may be missing, so that it must not be used any more.
    pub fn read_round<S: Source>(&mut self, source: &mut S) -> Result<(), Memory>
        requires goes_on { self.old.end ≡ None }
        ensures read { OnOk result ((front : List ℕ) (before : S) (h : SessionHeader) (all : List SentCommand) → HasReadBehind front S.left S.faults before source.old self.old h all → HasReadBehind front S.left S.faults before source.new self.new h (all ++ sent_at self.new.intake.stage)) }
        ensures journal { OnOk result ((front : List ℕ) (before : S) (h : SessionHeader) (all : List SentCommand) → HasJournalBehind front S.left S.faults before source.old self.old h all → HasJournalBehind front S.left S.faults before source.new self.new h (all ++ sent_at self.new.intake.stage)) }
        ensures heard { OnOk result ((front : List ℕ) (before : S) (h : SessionHeader) (all : List SentCommand) (heard : List HeardLine) → HasHeardBehind front S.left S.faults before source.old self.old h all heard → HasHeardBehind front S.left S.faults before source.new self.new h (all ++ sent_at self.new.intake.stage) (heard ++ heard_at self.new.intake.stage)) }
        ensures further { OnOk result (self.new.end ≡ None → self.old.intake.taken < self.new.intake.taken) }
        ensures few { OnOk result (self.new.intake.taken ≤ self.old.intake.taken + 65536) }
        ensures whole { OnOk result (self.new.end ≡ None → self.new.intake.taken ≡ self.old.intake.taken + 65536) }
        ensures session { session_at self.new.intake.stage ≡ session_at self.old.intake.stage }
        ensures goes_on { OnErr result (self.new.end ≡ None) }
        ensures memory { OnErr result ((front : List ℕ) (before : S) (h : SessionHeader) (all : List SentCommand) (has : HasReadBehind front S.left S.faults before source.old self.old h all) → TookOnBehind front S.left S.faults before source.new has.input) }
    {
        match self.intake.read_round(source) {
            Ok(end) => {
                self.end = end;
                Ok(())
            }
            Err(Stop::Memory(memory)) => Err(memory),
            // Behind START no fault is a header's.
            Err(_) => unreachable!(),
        }
    }

    /// What the text says so far: its session, the commands of the last round, and the strays of all; the journal of all rounds where
    /// it is kept, and the commands and the strays of the last round where strays are.
    pub fn script(&self) -> &Script
        ensures session { session_at self.now.intake.stage ≡ Some result.now.session }
        ensures sent { sent_at self.now.intake.stage ≡ result.now.sent.items }
        ensures strays { strays_at self.now.intake.stage ≡ result.now.strays }
        ensures journal { journal_at self.now.intake.stage ≡ result.now.journal.items }
        ensures heard { heard_at self.now.intake.stage ≡ result.now.heard }
    {
        match &self.intake.stage {
            Stage::Commanding { script, .. } => script,
            _ => unreachable!(),
        }
    }

    /// What the text says, where no further round is read.
    pub fn into_script(self) -> Script
        ensures session { session_at self.intake.stage ≡ Some result.session }
        ensures sent { sent_at self.intake.stage ≡ result.sent.items }
        ensures strays { strays_at self.intake.stage ≡ result.strays }
        ensures journal { journal_at self.intake.stage ≡ result.journal.items }
        ensures heard { heard_at self.intake.stage ≡ result.heard }
    {
        match self.intake.into_stage() {
            Stage::Commanding { script, .. } => script,
            _ => unreachable!(),
        }
    }

    /// How the text ended; none where it goes on.
    pub fn end(&self) -> Option<TextEnd>
        ensures end { result ≡ self.now.end }
    {
        self.end
    }
}
