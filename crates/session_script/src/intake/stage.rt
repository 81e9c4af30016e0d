ghost use Rattle.std.specs.Prelude.{◌≡◌, ◌++◌, ◌∷◌, [], List, IsTrue, IfOk, OnOk, IsSome, Some, None};
ghost use Rattle.std.specs.Bool.{MatchBool};
ghost use Rattle.fx_rules.specs.Session.{Header as SessionHeader};
ghost use Rattle.fx_text.specs.Lines.{lines_of, rest_of, line_seen, IsRest};
ghost use Rattle.fx_text.specs.declared.line.Line.{Line as TextLine};
ghost use Rattle.session_head.specs.Head.{session_of};
ghost use Rattle.session_head.specs.HeadText.{head_text_of};
ghost use Rattle.session_script.specs.declared.script.Keeps.TheVariants.{Nothing};

use crate::script::{Keeps, Script};
use fx_amounts::Memory;
use fx_rules::Session;
use fx_text::{LineView, first_line};
use session_head::{HeadReader, HeadReason, HeadStep, HeadStop};
use std::alloc::Global;
use std::mem;

/// What the lines of a text have come to.
#[derive(Drop)]
pub(crate) enum Stage {
    /// The header goes on. It is told what is kept behind it.
    Heading { reader: HeadReader, keeps: Keeps },
    /// START was read. Once the END line was, no further line is looked at.
    Commanding { script: Script, ended: bool },
    /// The header has a fault. No further line is looked at.
    Faulted { line: u64, reason: HeadReason },
}

impl Stage {
    ghost use Rattle.session_script.specs.Stage.{Past, StandsAt, no_past, session_at, sent_at, heard_at};
    ghost use Rattle.session_script.specs.inside.Stage.{is_open, TakesFront, past_behind};
    ghost use Rattle.session_script.specs.Reading.{GoesOn};
    ghost use Rattle.session_script.specs.Rounds.{IsFront};

    /// The stage before the first line, where it is told what is kept. It takes no memory.
    pub(crate) fn new(alloc: Global, keeps: Keeps) -> Stage
        ensures begun { StandsAt result [] (no_past keeps) }
        ensures readable { IsTrue (is_open result) }
        ensures heading { session_at result ≡ None }
    {
        Stage::Heading {
            reader: HeadReader::new(alloc),
            keeps,
        }
    }

    /// The stage behind the START of a session's header. Nothing is kept beside the commands. It takes no memory.
    pub(crate) fn resume(alloc: Global, session: Session) -> Stage
        ensures stands { StandsAt result (lines_of (head_text_of session)) (no_past Nothing) }
        ensures readable { IsTrue (is_open result) }
        ensures session { session_at result ≡ Some session }
        ensures sent { sent_at result ≡ [] }
        ensures heard { heard_at result ≡ [] }
        ensures front { IsFront (head_text_of session) }
        ensures goes_on { GoesOn (head_text_of session) }
    {
        // A session is valid as it is seen.
        let _banks = session.banks();
        Stage::Commanding {
            script: Script::of(alloc, session, Keeps::Nothing),
            ended: false,
        }
    }

    /// Whether START was read.
    pub(crate) fn has_started(&self) -> bool
        ensures { MatchBool result (IsSome (session_at self.now)) (session_at self.now ≡ None) }
    {
        matches!(self, Stage::Commanding { .. })
    }

    /// Lets go of the commands so far, which were a former round's.
    pub(crate) fn begin_round(&mut self)
        requires { IsTrue (is_open self.old) }
        ensures begun { (lines : List TextLine) (former : Past) → StandsAt self.old lines former → StandsAt self.new lines (past_behind former self.old) }
        ensures readable { IsTrue (is_open self.new) }
        ensures session { (h : SessionHeader) → session_at self.old ≡ Some h → session_at self.new ≡ Some h }
    {
        if let Stage::Commanding { script, .. } = self {
            script.begin_round();
        }
    }

    /// Takes one line more. After `Err` it is not taken.
    pub(crate) fn take(&mut self, alloc: Global, line: &LineView<'_>) -> Result<(), Memory>
        requires { IsTrue (is_open self.old) }
        ensures taken { OnOk result ((lines : List TextLine) (former : Past) → StandsAt self.old lines former → StandsAt self.new (lines ++ line_seen line.now ∷ []) former) }
        ensures readable { IsTrue (is_open self.new) }
        ensures session { (h : SessionHeader) → session_at self.old ≡ Some h → session_at self.new ≡ Some h }
    {
        match self {
            Stage::Heading { reader, keeps } => match reader.line_in(line) {
                Ok(HeadStep::More) => {}
                Ok(HeadStep::Start) => {
                    let script = started(alloc, reader, *keeps);
                    *self = Stage::Commanding {
                        script,
                        ended: false,
                    };
                }
                Err(HeadStop::Fault { line, reason }) => *self = Stage::Faulted { line, reason },
                Err(HeadStop::Memory(memory)) => return Err(memory),
            },
            Stage::Commanding { script, ended } => {
                if !*ended {
                    *ended = script.add(line)?;
                }
            }
            Stage::Faulted { .. } => {}
        }
        Ok(())
    }

    /// Takes the lines that end in a text, one after another, and answers the rest of it. After `Err` some of them may be
    /// taken.
    pub(crate) fn take_all<'p>(&mut self, alloc: Global, text: &'p [u8]) -> Result<&'p [u8], Memory>
        requires { IsTrue (is_open self.old) }
        ensures taken { OnOk result ((lines : List TextLine) (former : Past) → StandsAt self.old lines former → StandsAt self.new (lines ++ lines_of text.now) former) }
        ensures rest { IfOk result (λ rest. IsRest rest.now) }
        ensures behind { IfOk result (λ rest. rest.now ≡ rest_of text.now) }
        ensures readable { IsTrue (is_open self.new) }
        ensures session { (h : SessionHeader) → session_at self.old ≡ Some h → session_at self.new ≡ Some h }
    {
        let mut rest = self.take_spelled(text)?;
        while let Some((line, behind)) = first_line(rest) {
            self.take(alloc, &line)?;
            rest = self.take_spelled(behind)?;
        }
        Ok(rest)
    }

    /// Takes the lines that a text begins with and that are commands in their one spelling, and answers what stands behind them.
    /// After `Err` some of them may be taken.
    #[inline(always)]
    fn take_spelled<'p>(&mut self, text: &'p [u8]) -> Result<&'p [u8], Memory>
        requires { IsTrue (is_open self.old) }
        ensures taken { IfOk result (λ rest. TakesFront self.old self.new text.now rest.now) }
        ensures readable { IsTrue (is_open self.new) }
        ensures session { (h : SessionHeader) → session_at self.old ≡ Some h → session_at self.new ≡ Some h }
    {
        if let Stage::Commanding { script, ended } = self {
            if !*ended {
                return script.add_spelled(text);
            }
        }
        Ok(text)
    }
}

/// The script of the session that a reader has read, so far without a command. It tells what is kept. The reader begins anew.
fn started(alloc: Global, reader: &mut HeadReader, keeps: Keeps) -> Script
    requires { IsSome (session_of reader.old) }
    ensures session { session_of reader.old ≡ Some result.session }
    ensures sent { result.sent.items ≡ [] }
    ensures strays { result.strays ≡ 0 }
    ensures keeps { result.keeps ≡ keeps }
    ensures journal { result.journal.items ≡ [] }
    ensures heard { result.heard ≡ [] }
{
    let reader = mem::replace(reader, HeadReader::new(alloc));
    Script::of(alloc, reader.into_session().unwrap(), keeps)
}
