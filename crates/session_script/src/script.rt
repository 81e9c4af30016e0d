ghost use Rattle.std.specs.Prelude.{◌≡◌, ◌≢◌, false, [], ◌∷◌, ◌++◌, IfOk, OnOk};
ghost use Rattle.std.specs.Bool.{MatchBool};
ghost use Rattle.fx_rules.specs.Sending.{IsSentOf};
ghost use Rattle.fx_text.specs.Lines.{line_seen};
ghost use Rattle.order_lines.specs.Grammar.{command_line};
ghost use Rattle.order_lines.specs.declared.spoken.Spoken.TheVariants.{Stray as StraySpoken};
ghost use Rattle.session_script.specs.Journal.{sent_lines};
ghost use Rattle.session_script.specs.Heard.Heard.{Command as HeardCommand, Stray as HeardStray};
ghost use Rattle.session_script.specs.declared.script.Keeps.TheVariants.{Journal, Strays};

use crate::aside::{colon_line, spoken_of};
use crate::front::{front_of, push_spelled};
use crate::heard::HeardLines;
use fx_amounts::{BankId, Memory};
use fx_rules::{Command, Sent, Session};
use fx_text::{LineText, LineView};
use order_lines::{Spoken, make_command};
use std::alloc::Global;

/// What is kept of a text beside the commands of its last round.
#[derive(Clone, Copy, Debug, PartialEq, Eq)]
pub enum Keeps {
    /// Nothing.
    Nothing,
    /// The journal's lines of the commands of all rounds.
    Journal,
    /// The strays of the last round, among its commands.
    Strays,
}

/// What the text of a session says: the session of its header, the commands of the last round in the order of their lines,
/// and how many of the lines behind START were strays so far.
#[derive(Debug, Drop)]
pub struct Script {
    pub session: Session,
    pub sent: Vec<Sent>,
    pub strays: u64,
    /// What is kept beside the commands.
    pub keeps: Keeps,
    /// Where the journal is kept, its lines of the commands of all rounds, in the order of their lines. Those of lines in their one
    /// spelling are the bytes of the text, and the others are made.
    pub journal: Vec<u8>,
    /// Where strays are kept, the commands and the strays of the last round, in the order of their lines.
    pub heard: HeardLines,
}

impl Script {
    ghost use Rattle.session_script.specs.inside.Stage.{Adds, AddsFront, SaysAsBefore};

    /// The script of a session, so far without a command. It tells what is kept.
    pub(crate) fn of(alloc: Global, session: Session, keeps: Keeps) -> Script
        ensures session { result.session ≡ session }
        ensures sent { result.sent.items ≡ [] }
        ensures strays { result.strays ≡ 0 }
        ensures keeps { result.keeps ≡ keeps }
        ensures journal { result.journal.items ≡ [] }
        ensures heard { result.heard ≡ [] }
    {
        Script {
            session,
            sent: Vec::new(alloc),
            strays: 0,
            keeps,
            journal: Vec::new(alloc),
            heard: HeardLines::new(alloc),
        }
    }

    /// Lets go of the commands so far, which were a former round's.
    pub(crate) fn begin_round(&mut self)
        ensures session { self.new.session ≡ self.old.session }
        ensures sent { self.new.sent.items ≡ [] }
        ensures strays { self.new.strays ≡ self.old.strays }
        ensures keeps { self.new.keeps ≡ self.old.keeps }
        ensures journal { self.new.journal.items ≡ self.old.journal.items }
        ensures heard { self.new.heard ≡ [] }
    {
        self.sent.clear();
        self.heard.clear();
    }

    /// Adds what a line behind START says, and answers whether it is the END line. After `Err` it may be added in part.
    pub(crate) fn add(&mut self, line: &LineView<'_>) -> Result<bool, Memory>
        ensures adds { IfOk result
            (λ ended. Adds self.old self.new (line_seen line.now) (command_line self.old.session (line_seen line.now)) ended) }
        ensures session { self.new.session ≡ self.old.session }
    {
        match spoken_of(&self.session, line) {
            Spoken::Of(bank, command) => {
                self.hear_command(bank, &command)?;
                self.write_command(bank, &command)?;
                self.sent.push(Sent { bank, command })?;
            }
            Spoken::Stray => self.add_stray(line)?,
            Spoken::Passed => {}
            Spoken::End => return Ok(true),
        }
        Ok(false)
    }

    /// Adds a command's line to the journal, where it is kept. After `Err` it is not added.
    fn write_command(&mut self, bank: BankId, command: &Command) -> Result<(), Memory>
        requires sent { IsSentOf self.old.session (record { bank = bank; command = command.now }) }
        ensures as_before { SaysAsBefore self.old self.new }
        ensures journal { OnOk result (self.old.keeps ≡ Journal → self.new.journal.items ≡ self.old.journal.items ++ sent_lines self.old.session (record { bank = bank; command = command.now } ∷ [])) }
        ensures heard { self.new.heard ≡ self.old.heard }
    {
        if self.keeps != Keeps::Journal {
            return Ok(());
        }
        let mut line = LineText::new();
        make_command(&self.session, bank, command, &mut line);
        self.journal.extend_from_slice(line.as_slice())?;
        Ok(())
    }

    /// Adds lines to the journal, where it is kept. After `Err` they are not added.
    fn write_lines(&mut self, lines: &[u8]) -> Result<(), Memory>
        ensures as_before { SaysAsBefore self.old self.new }
        ensures journal { OnOk result (self.old.keeps ≡ Journal → self.new.journal.items ≡ self.old.journal.items ++ lines.now) }
        ensures heard { self.new.heard ≡ self.old.heard }
    {
        if self.keeps == Keeps::Journal {
            self.journal.extend_from_slice(lines)?;
        }
        Ok(())
    }

    /// Adds a stray. After `Err` it may be counted and is not heard.
    fn add_stray(&mut self, line: &LineView<'_>) -> Result<(), Memory>
        ensures adds { OnOk result (Adds self.old self.new (line_seen line.now) StraySpoken false) }
        ensures session { self.new.session ≡ self.old.session }
    {
        self.strays = self.strays.saturating_add(1);
        self.hear_stray(line)
    }

    /// Hears a command, where strays are kept. After `Err` it is not heard.
    fn hear_command(&mut self, bank: BankId, command: &Command) -> Result<(), Memory>
        ensures as_before { SaysAsBefore self.old self.new }
        ensures journal { self.new.journal.items ≡ self.old.journal.items }
        ensures heard { OnOk result (self.old.keeps ≡ Strays → self.new.heard ≡ self.old.heard ++ HeardCommand (record { bank = bank; command = command.now }) ∷ []) }
    {
        if self.keeps == Keeps::Strays {
            self.heard.push_command(bank, command)?;
        }
        Ok(())
    }

    /// Hears a stray, where strays are kept. After `Err` it is not heard.
    fn hear_stray(&mut self, line: &LineView<'_>) -> Result<(), Memory>
        ensures as_before { SaysAsBefore self.old self.new }
        ensures journal { self.new.journal.items ≡ self.old.journal.items }
        ensures heard { OnOk result (self.old.keeps ≡ Strays → self.new.heard ≡ self.old.heard ++ HeardStray (line_seen line.now) ∷ []) }
    {
        if self.keeps == Keeps::Strays {
            self.heard.push_stray(line)?;
        }
        Ok(())
    }

    /// Hears the strays with whose lines a text begins, as long as each is told by the colon of its first field, and answers what
    /// stands behind these lines. After `Err` some of them may be heard.
    fn hear_strays<'p>(&mut self, text: &'p [u8]) -> Result<&'p [u8], Memory>
        ensures adds { IfOk result (λ rest. AddsFront self.old self.new text.now rest.now) }
        ensures session { self.new.session ≡ self.old.session }
    {
        // What such a line says rests on a valid session, as each is.
        let _banks = self.session.banks();
        let mut rest = text;
        while let Some((line, behind)) = colon_line(rest) {
            self.add_stray(&line)?;
            rest = behind;
        }
        Ok(rest)
    }

    /// Adds the commands with whose lines in their one spelling a text begins, and answers what stands behind these lines. Where
    /// strays are kept it hears those with which the text begins instead. After `Err` they may be added or heard in part.
    #[inline(always)]
    pub(crate) fn add_spelled<'p>(&mut self, text: &'p [u8]) -> Result<&'p [u8], Memory>
        ensures adds { IfOk result (λ rest. AddsFront self.old self.new text.now rest.now) }
        ensures session { self.new.session ≡ self.old.session }
    {
        if self.keeps_strays() {
            return self.hear_strays(text);
        }
        let rest = push_spelled(&self.session, text, &mut self.sent)?;
        self.write_lines(front_of(text, rest))?;
        Ok(rest)
    }

    /// Whether strays are kept.
    fn keeps_strays(&self) -> bool
        ensures { MatchBool result (self.now.keeps ≡ Strays) (self.now.keeps ≢ Strays) }
    {
        self.keeps == Keeps::Strays
    }
}
