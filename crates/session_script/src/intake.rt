mod stage;

ghost use Rattle.std.specs.Prelude.{ℕ, ◌≡◌, ◌≢◌, ◌<◌, ◌≤◌, ◌+◌, ◌^◌, ◌++◌, [], List, Ok, Some, None, IfOk, IfErr, IsOk, OnOk, IsTrue, length};
ghost use Rattle.std.specs.Bool.{MatchBool};
ghost use Rattle.fx_amounts.specs.OutOfMemory.{refused};
ghost use Rattle.fx_rules.specs.Session.{Header as SessionHeader};
ghost use Rattle.session_head.specs.HeadText.{head_text_of};
ghost use Rattle.session_script.specs.inside.Stage.{is_open, past_behind};
ghost use Rattle.session_script.specs.declared.script.Keeps.TheVariants.{Nothing};

use crate::ends::{EarlyEnd, Stop, TextEnd};
use crate::script::Keeps;
use fx_amounts::Memory;
use fx_edges::Source;
use fx_rules::Session;
use fx_text::LineCutter;
pub(crate) use stage::Stage;
use std::alloc::Global;

/// The most bytes that are taken of an input.
pub const INPUT_LIMIT: usize = 1 << 26;

/// The bytes that a round takes of it at most.
pub const ROUND: usize = 65_536;

/// The bytes that one read asks for.
const PIECE: usize = 4096;

/// Takes the text of a session piece by piece, however it is cut.
#[derive(Drop)]
pub(crate) struct Intake {
    /// It holds the line that the last piece cut, also from one round to the next.
    cutter: LineCutter,
    alloc: Global,
    pub(crate) stage: Stage,
    /// The bytes taken so far.
    taken: usize,

    ghost readable: { IsTrue (is_open stage) },
    ghost within: { taken ≤ 2 ^ 26 },
}

impl Intake {
    ghost use Rattle.session_script.specs.Stage.{Past, heard_at, no_past, sent_at, session_at};
    ghost use Rattle.session_script.specs.Intake.{StandsFor};
    ghost use Rattle.session_script.specs.inside.Intake.{IsSettled, Closed};
    ghost use Rattle.session_script.specs.Reading.{GoesOn};
    ghost use Rattle.session_script.specs.Rounds.{IsFront};
    ghost use Rattle.session_script.specs.inside.Rounds.{ReadsOn, TookRound};

    /// An intake of no bytes, which is told what is kept. It takes no memory.
    pub(crate) fn new(alloc: Global, keeps: Keeps) -> Intake
        ensures begun { StandsFor result [] (no_past keeps) }
        ensures heading { session_at result.stage ≡ None }
        ensures none { result.taken ≡ 0 }
    {
        Intake {
            cutter: LineCutter::new(),
            alloc,
            stage: Stage::new(alloc, keeps),
            taken: 0,
        }
    }

    /// An intake of no bytes that goes on behind the text of a session's header. It takes no memory.
    pub(crate) fn resume(alloc: Global, session: Session) -> Intake
        ensures stands { StandsFor result (head_text_of session) (no_past Nothing) }
        ensures session { session_at result.stage ≡ Some session }
        ensures sent { sent_at result.stage ≡ [] }
        ensures heard { heard_at result.stage ≡ [] }
        ensures front { IsFront (head_text_of session) }
        ensures goes_on { GoesOn (head_text_of session) }
        ensures none { result.taken ≡ 0 }
    {
        Intake {
            cutter: LineCutter::new(),
            alloc,
            stage: Stage::resume(alloc, session),
            taken: 0,
        }
    }

    /// What its lines have come to.
    pub(crate) fn into_stage(self) -> Stage
        ensures { result ≡ self.stage }
    {
        self.stage
    }

    /// Takes a round of the source's bytes, up to the END line, a fault of the header, the source's end or a read that fails;
    /// 65,536 bytes at most, and 2^26 of all rounds. Each read asks for 4,096 bytes, or for what the round leaves where that
    /// is less. Answers how the text ended, if it did. After `Err` the intake must not be used any more.
    pub(crate) fn read_round<S: Source>(&mut self, source: &mut S) -> Result<Option<TextEnd>, Stop>
        ensures took { (front : List ℕ) (before : S) (former : Past) (input : List ℕ) → ReadsOn front S.left S.faults before source.old self.old former input → TookRound front S.left S.faults before source.new self.new (past_behind former self.old.stage) input result }
        ensures session { (h : SessionHeader) → session_at self.old.stage ≡ Some h → session_at self.new.stage ≡ Some h }
        ensures further { result ≡ Ok None → self.old.taken < self.new.taken }

        // Behind START no fault is a header's.
        ensures started { (h : SessionHeader) → session_at self.old.stage ≡ Some h → IfErr result (λ stop. stop ≡ Stop.Memory refused) }

        // A round takes 65,536 bytes at most, and just as many where the text goes on.
        ensures few { IfOk result (λ _. self.new.taken ≤ self.old.taken + 65536) }
        ensures whole { result ≡ Ok None → self.new.taken ≡ self.old.taken + 65536 }
    {
        self.stage.begin_round();
        let end = INPUT_LIMIT.min(self.taken + ROUND);
        let mut piece = [0; PIECE];
        while self.taken < end {
            let room = PIECE.min(end - self.taken);
            let Ok(count) = source.read(&mut piece[..room]) else {
                return Ok(Some(TextEnd::Early(EarlyEnd::ReadFault)));
            };
            if count == 0 {
                return self.close();
            }
            self.feed(&piece[..count])?;
            if self.is_settled() {
                return self.close();
            }
        }
        if end == INPUT_LIMIT {
            return Ok(Some(TextEnd::Early(EarlyEnd::TooMuch)));
        }
        Ok(None)
    }

    /// Takes the next piece. Its first line is read from the cutter, which may hold the front of it, and each other one where
    /// it lies. After `Err` some of its lines may be taken, and the intake must not be used any more.
    fn feed(&mut self, piece: &[u8]) -> Result<(), Memory>
        requires room { self.old.taken + length piece.now ≤ 2 ^ 26 }
        ensures fed { OnOk result ((text : List ℕ) (former : Past) → StandsFor self.old text former → StandsFor self.new (text ++ piece.now) former) }
        ensures taken { OnOk result (self.new.taken ≡ self.old.taken + length piece.now) }
        ensures session { (h : SessionHeader) → session_at self.old.stage ≡ Some h → session_at self.new.stage ≡ Some h }
    {
        if let Some(behind) = self.cutter.complete(piece) {
            self.stage.take(self.alloc, &self.cutter.line())?;
            let rest = self.stage.take_all(self.alloc, behind)?;
            self.cutter.hold(rest);
        }
        self.taken += piece.len();
        Ok(())
    }

    /// Whether no further byte changes what the text says: its header has a fault, or its END line was read.
    fn is_settled(&self) -> bool
        ensures { (text : List ℕ) (former : Past) → StandsFor self.now text former → MatchBool result (IsSettled text) (GoesOn text) }
    {
        match &self.stage {
            Stage::Heading { .. } => false,
            Stage::Commanding { ended, .. } => *ended,
            Stage::Faulted { .. } => true,
        }
    }

    /// How the text ends where nothing follows: what is left over behind the last line feed may be its END line.
    fn close(&self) -> Result<Option<TextEnd>, Stop>
        ensures closed { (text : List ℕ) (former : Past) → StandsFor self.now text former → Closed text result }
        ensures ended { result ≢ Ok None }
        ensures started { (h : SessionHeader) → session_at self.now.stage ≡ Some h → IsOk result }
    {
        match &self.stage {
            Stage::Heading { .. } => Ok(Some(TextEnd::Early(EarlyEnd::Cut))),
            Stage::Commanding { ended, .. } => {
                if *ended || self.cutter.rest_is_end() {
                    Ok(Some(TextEnd::EndLine))
                } else {
                    Ok(Some(TextEnd::Early(EarlyEnd::Cut)))
                }
            }
            Stage::Faulted { line, reason } => Err(Stop::Header {
                line: *line,
                reason: *reason,
            }),
        }
    }
}
