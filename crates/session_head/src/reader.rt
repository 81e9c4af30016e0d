ghost use Rattle.std.specs.Prelude.{◌≡◌, ◌≢◌, ℕ, ◌++◌, ◌∷◌, [], List, Ok, Err, OnErr, IsTrue};
ghost use Rattle.fx_amounts.specs.OutOfMemory.{refused};
ghost use Rattle.fx_text.specs.Lines.{line_seen};
ghost use Rattle.fx_text.specs.declared.line.Line.{Line as TextLine};
ghost use Rattle.session_head.specs.Head.{read_head, with_line, answer_to, UnlessMemory, IsStarted, session_of, next, Faulted};
ghost use Rattle.session_head.specs.declared.reason.HeadReason.{HeadReason};

use crate::draft::Draft;
use crate::reason::{HeadReason, HeadStep, HeadStop};
use crate::statement::{Statement, statement_from, version_from};
use fx_rules::Session;
use fx_text::{Line, LineView, fields};
use std::alloc::Global;
use std::marker::Model;

/// Reads a header line by line. Contracts see what the lines so far are as a header.
#[derive(Drop)]
pub struct HeadReader {
    alloc: Global,
    /// How many lines were read, those that are ignored included.
    lines: u64,
    stage: Stage,
}

impl Model for HeadReader {
    ghost use Rattle.session_head.specs.Head.{Head};

    ghost Value = { Head };

    ghost use Rattle.session_head.specs.inside.Stage.{head_of};

    ghost view = { λ r. head_of r.lines r.stage };
}

// How far a header has come.
#[derive(Drop)]
enum Stage {
    // Only lines that are ignored.
    Begun,
    // The first line has told the version.
    Drafting(Draft),
    // START has come.
    Started(Session),
    // That line had that fault.
    Faulted { line: u64, reason: HeadReason },
}

impl HeadReader {
    /// A reader of no lines. It takes no memory.
    pub fn new(alloc: Global) -> HeadReader
        ensures { result ≡ read_head [] }
    {
        HeadReader {
            alloc,
            lines: 0,
            stage: Stage::Begun,
        }
    }

    /// Reads one line more. After `Memory` the reader is as it was; after a fault each further call answers that same
    /// fault, and never `Memory`.
    pub fn line(&mut self, line: &Line) -> Result<HeadStep, HeadStop>
        requires open { ¬ (IsStarted self.old) }
        ensures read { UnlessMemory result (self.new ≡ with_line self.old line.now) }
        ensures answer { UnlessMemory result (result ≡ answer_to self.new) }
        ensures memory { result ≡ Err (HeadStop.Memory refused) → self.new ≡ self.old }
        ensures goes_on { result ≢ Ok HeadStep.Start → ¬ (IsStarted self.new) }

        // A fault stays: the reader keeps the one that it answers, and answers the one that it keeps.
        ensures fault { (number : ℕ) (reason : HeadReason) → result ≡ Err (HeadStop.Fault number reason) → self.new ≡ Faulted number reason }
        ensures again { (number : ℕ) (reason : HeadReason) → self.old ≡ Faulted number reason → result ≡ Err (HeadStop.Fault number reason) }

        // What the reader stands at is what all its lines are.
        ensures whole { (lines : List TextLine) → self.old ≡ read_head lines → with_line self.old line.now ≡ read_head (lines ++ line.now ∷ []) }
    {
        self.line_in(&line.view())
    }

    /// Reads the next line of a header where it lies, as `line` reads one that is held.
    pub fn line_in(&mut self, line: &LineView<'_>) -> Result<HeadStep, HeadStop>
        requires open { ¬ (IsStarted self.old) }
        ensures read { UnlessMemory result (self.new ≡ with_line self.old (line_seen line.now)) }
        ensures answer { UnlessMemory result (result ≡ answer_to self.new) }
        ensures memory { result ≡ Err (HeadStop.Memory refused) → self.new ≡ self.old }
        ensures goes_on { result ≢ Ok HeadStep.Start → ¬ (IsStarted self.new) }

        // A fault stays: the reader keeps the one that it answers, and answers the one that it keeps.
        ensures fault { (number : ℕ) (reason : HeadReason) → result ≡ Err (HeadStop.Fault number reason) → self.new ≡ Faulted number reason }
        ensures again { (number : ℕ) (reason : HeadReason) → self.old ≡ Faulted number reason → result ≡ Err (HeadStop.Fault number reason) }

        // What the reader stands at is what all its lines are.
        ensures whole { (lines : List TextLine) → self.old ≡ read_head lines → with_line self.old (line_seen line.now) ≡ read_head (lines ++ line_seen line.now ∷ []) }
    {
        let number = self.lines.saturating_add(1);
        let step = self.stage.read(self.alloc, number, line)?;
        self.lines = number;
        Ok(step)
    }

    /// The session, where START was answered; `None` exactly where it was not. It takes no memory.
    pub fn into_session(self) -> Option<Session>
        ensures value { result ≡ session_of self }
    {
        match self.stage {
            Stage::Started(session) => Some(session),
            _ => None,
        }
    }
}

impl Stage {
    ghost use Rattle.session_head.specs.inside.Stage.{head_of, taken, IsTaken, is_open};

    // Reads the line of that number.
    fn read(
        &mut self,
        alloc: Global,
        number: u64,
        line: &LineView<'_>,
    ) -> Result<HeadStep, HeadStop>
        requires { ¬ (IsStarted (head_of number self.old)) }
        ensures read { (lines : ℕ) → number ≡ next lines → UnlessMemory result (head_of number self.new ≡ with_line (head_of lines self.old) (line_seen line.now)) }
        ensures answer { UnlessMemory result (result ≡ answer_to (head_of number self.new)) }
        ensures memory { result ≡ Err (HeadStop.Memory refused) → self.new ≡ self.old }
        ensures again { (at : ℕ) (reason : HeadReason) → head_of number self.old ≡ Faulted at reason → result ≡ Err (HeadStop.Fault at reason) }
    {
        if let Stage::Faulted { line, reason } = *self {
            return Err(HeadStop::Fault { line, reason });
        }
        if line.is_passed_over() {
            return Ok(HeadStep::More);
        }
        let taken = self.take(alloc, number, line);
        if let Err(HeadStop::Fault { line, reason }) = taken {
            *self = Stage::Faulted { line, reason };
        }
        taken
    }

    // Takes the line of that number, which is not ignored. After `Err` the stage is as it was.
    fn take(
        &mut self,
        alloc: Global,
        number: u64,
        line: &LineView<'_>,
    ) -> Result<HeadStep, HeadStop>
        requires { IsTrue (is_open self.old) }
        ensures taken { IsTaken number result self.new (taken number self.old (line_seen line.now)) }
        ensures err { OnErr result (self.new ≡ self.old) }
    {
        let LineView::Whole(text) = *line else {
            return Err(HeadStop::Fault {
                line: number,
                reason: HeadReason::Long,
            });
        };
        let fields = fields(text);
        if let Stage::Drafting(draft) = self {
            let statement = statement_from(draft, &fields).map_err(|reason| HeadStop::Fault {
                line: number,
                reason,
            })?;
            if let Statement::Start = statement {
                let session = draft.take_session()?;
                *self = Stage::Started(session);
                return Ok(HeadStep::Start);
            }
            draft.add(statement)?;
            return Ok(HeadStep::More);
        }
        let Some(version) = version_from(&fields) else {
            return Err(HeadStop::Fault {
                line: number,
                reason: HeadReason::Version,
            });
        };
        *self = Stage::Drafting(Draft::new(alloc, version)?);
        Ok(HeadStep::More)
    }
}
