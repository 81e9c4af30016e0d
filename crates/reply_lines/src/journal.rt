ghost use Rattle.std.specs.Prelude.{◌≡◌, ◌<◌, ◌+◌, ◌^◌, [], ◌∷◌, ◌++◌, OnOk, OnErr};
ghost use Rattle.fx_edges.specs.Gathered.{Gathered};
ghost use Rattle.fx_rules.specs.Step.{IsCommand};
ghost use Rattle.order_lines.specs.Spelling.{command_text_of};
ghost use Rattle.reply_lines.specs.inside.Journals.{count_line};

use crate::lines::write_count;
use fx_amounts::{BankId, Memory};
use fx_edges::{Pieces, Sink, SinkFault};
use fx_rules::{Command, Session};
use fx_text::LineText;
use order_lines::make_command;
use std::alloc::Global;

/// The journal of a day so far: how many entries it has, and their lines.
#[derive(Drop)]
pub struct JournalText {
    pub(crate) count: usize,
    pub(crate) lines: Vec<u8>,
    /// The last line that was made of a command.
    line: LineText,
}

/// The lines of a journal, where they stand, and of how many entries they are.
#[derive(Clone, Copy)]
pub struct JournalLines<'a> {
    pub count: usize,
    pub lines: &'a [u8],
}

impl JournalText {
    /// The journal without an entry. It takes no memory.
    pub fn new(alloc: Global) -> JournalText
        ensures count { result.count ≡ 0 }
        ensures lines { result.lines.items ≡ [] }
    {
        JournalText {
            count: 0,
            lines: Vec::new(alloc),
            line: LineText::new(),
        }
    }

    /// The journal of so many entries that has these lines. It takes no memory.
    pub fn of(count: usize, lines: Vec<u8>) -> JournalText
        ensures count { result.count ≡ count }
        ensures lines { result.lines.items ≡ lines.items }
    {
        JournalText {
            count,
            lines,
            line: LineText::new(),
        }
    }

    /// Adds the line of a sender's command, which is made. At `Memory` the journal is as it was.
    pub fn add(
        &mut self,
        session: &Session,
        sender: BankId,
        command: &Command,
    ) -> Result<(), Memory>
        requires command { IsCommand session.now sender command.now }
        requires few { self.old.count + 1 < 2 ^ 64 }
        ensures count { OnOk result (self.new.count ≡ self.old.count + 1) }
        ensures lines { OnOk result (self.new.lines.items ≡ self.old.lines.items ++ (command_text_of session.now sender command.now ++ 10 ∷ [])) }
        ensures memory { OnErr result (self.new.lines.items ≡ self.old.lines.items) }
    {
        make_command(session, sender, command, &mut self.line);
        self.lines.extend_from_slice(self.line.as_slice())?;
        self.count += 1;
        Ok(())
    }

    /// Adds the lines of so many entries more, all at once. At `Memory` the journal is as it was.
    pub fn add_lines(&mut self, count: usize, lines: &[u8]) -> Result<(), Memory>
        requires few { self.old.count + count < 2 ^ 64 }
        ensures count { OnOk result (self.new.count ≡ self.old.count + count) }
        ensures lines { OnOk result (self.new.lines.items ≡ self.old.lines.items ++ lines.now) }
        ensures memory { OnErr result (self.new.lines.items ≡ self.old.lines.items) }
    {
        self.lines.extend_from_slice(lines)?;
        self.count += count;
        Ok(())
    }

    /// Its lines, where they stand.
    pub(crate) fn as_lines(&self) -> JournalLines<'_>
        ensures count { result.count ≡ self.now.count }
        ensures lines { result.lines.now ≡ self.now.lines.items }
    {
        JournalLines {
            count: self.count,
            lines: &self.lines,
        }
    }
}

/// Writes the line that begins the journal.
#[tactic(auto, unfolding(crate::specs::inside::Journals::count_line))]
pub(crate) fn write_journal_line<K: Sink>(
    count: usize,
    pieces: &mut Pieces,
    out: &mut K,
) -> Result<(), SinkFault>
    ensures wrote { Gathered K.written K.faults pieces.old out.old pieces.new out.new (count_line count) result }
{
    write_count(b"JOURNAL", count as u128, pieces, out)
}
