ghost use Rattle.std.specs.Prelude.{◌≡◌, ◌<◌, ◌∷◌, ◌++◌, [], length, slice_index_or, IfOk, OnOk, OnErr};
ghost use Rattle.fx_text.specs.Lines.{line_seen};
ghost use Rattle.session_script.specs.Heard.{heard_seen};
ghost use Rattle.session_script.specs.Heard.Heard.{Command as HeardCommand, Stray as HeardStray};
ghost use Rattle.session_script.specs.inside.Kept.{kept_at, text_of};

use fx_amounts::{BankId, Memory};
use fx_rules::{Command, Sent};
use fx_text::LineView;
use std::alloc::Global;
use std::marker::Model;

/// What a line behind START gives a run that knows more kinds of lines than there are without it, where it is held.
#[derive(Clone, Copy, Debug)]
pub enum HeardView<'a> {
    /// A command of a bank.
    Command(Sent),
    /// A line that is a stray without those kinds.
    Stray(LineView<'a>),
}

/// What the lines of a round give such a run, in their order. The texts of the strays lie one behind the other, so that a round
/// takes no memory where a former one had as many.
#[derive(Debug, Drop)]
pub struct HeardLines {
    commands: Vec<Sent>,
    bytes: Vec<u8>,
    items: Vec<Kept>,
}

/// Which of the commands a line is, or where the text of a stray lies among the bytes.
#[derive(Clone, Copy, Debug)]
enum Kept {
    Command { at: usize },
    Whole { from: usize, to: usize },
    Long { from: usize, to: usize },
}

impl Model for HeardLines {
    ghost use Rattle.std.specs.Prelude.{List, length, map};
    ghost use Rattle.fx_rules.specs.Lists.{Each};
    ghost use Rattle.session_script.specs.Heard.{Heard};
    ghost use Rattle.session_script.specs.inside.Kept.{IsAmong, heard_in};

    ghost Value = { List Heard };

    ghost view = { λ h. map (heard_in h.commands.items h.bytes.items) h.items.items };

    ghost invariant = { λ h. Each (IsAmong (length h.commands.items) (length h.bytes.items)) h.items.items };
}

impl HeardLines {
    /// Nothing heard. It takes no memory.
    pub(crate) fn new(alloc: Global) -> HeardLines
        ensures { result ≡ [] }
    {
        HeardLines {
            commands: Vec::new(alloc),
            bytes: Vec::new(alloc),
            items: Vec::new(alloc),
        }
    }

    /// How many lines were heard.
    pub fn len(&self) -> usize
        ensures { result ≡ length self.now }
    {
        self.items.len()
    }

    /// What was heard of the line at a place.
    pub fn at(&self, place: usize) -> HeardView<'_>
        requires place { place < length self.now }
        ensures value { heard_seen result ≡ slice_index_or self.now place (heard_seen result) }
    {
        match self.items[place] {
            Kept::Command { at } => HeardView::Command(self.commands[at]),
            Kept::Whole { from, to } => HeardView::Stray(LineView::Whole(&self.bytes[from..to])),
            Kept::Long { from, to } => HeardView::Stray(LineView::Long(&self.bytes[from..to])),
        }
    }

    /// Lets go of all.
    pub(crate) fn clear(&mut self)
        ensures { self.new ≡ [] }
    {
        self.commands.clear();
        self.bytes.clear();
        self.items.clear();
    }

    /// Adds a command.
    pub(crate) fn push_command(&mut self, bank: BankId, command: &Command) -> Result<(), Memory>
        ensures ok { OnOk result (self.new ≡ self.old ++ HeardCommand (record { bank = bank; command = command.now }) ∷ []) }
    {
        self.items.reserve(1)?;
        let at = self.commands.len();
        let command = *command;
        self.commands.push(Sent { bank, command })?;
        self.items.push_reserved(Kept::Command { at });
        Ok(())
    }

    /// Adds a stray.
    pub(crate) fn push_stray(&mut self, line: &LineView<'_>) -> Result<(), Memory>
        ensures ok { OnOk result (self.new ≡ self.old ++ HeardStray (line_seen line.now) ∷ []) }
    {
        self.items.reserve(1)?;
        let kept = keep(line, &mut self.bytes)?;
        self.items.push_reserved(kept);
        Ok(())
    }
}

/// Adds a line's text to the bytes, and answers where it lies there. After `Err` they are as they were.
fn keep(line: &LineView<'_>, bytes: &mut Vec<u8>) -> Result<Kept, Memory>
    ensures longer { OnOk result (bytes.new.items ≡ bytes.old.items ++ text_of (line_seen line.now)) }
    ensures kept { IfOk result (λ kept. kept ≡ kept_at (length bytes.old.items) (line_seen line.now)) }
    ensures memory { OnErr result (bytes.new.items ≡ bytes.old.items) }
{
    let from = bytes.len();
    match *line {
        LineView::Whole(text) => {
            bytes.extend_from_slice(text)?;
            let to = bytes.len();
            Ok(Kept::Whole { from, to })
        }
        LineView::Long(field) => {
            bytes.extend_from_slice(field)?;
            let to = bytes.len();
            Ok(Kept::Long { from, to })
        }
    }
}
