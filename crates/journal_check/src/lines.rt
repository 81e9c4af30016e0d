ghost use Rattle.std.specs.Prelude.{◌≡◌, ◌≤◌, ◌+◌, ◌++◌, true, drop, length, [], OnOk};
ghost use Rattle.fx_rules.specs.Sending.{IsSentOf};
ghost use Rattle.journal_check.specs.inside.Stops.{IsSpelling, StandsIn, lines_of, sent_line};

use crate::journal::ReadSent;
use fx_amounts::Memory;
use fx_rules::Session;
use fx_text::LineText;
use order_lines::make_command;
use std::alloc::Global;

/// The lines of a journal's entries so far, each in its one spelling. While all were read in that spelling, they are bytes of the text
/// that they were read from. From the first other line on they are made.
#[derive(Drop)]
pub(crate) struct ReadLines<'a> {
    /// The text from the first line on.
    rest: &'a [u8],
    /// So many of its bytes were read.
    len: usize,
    is_made: bool,
    made: Vec<u8>,
}

impl<'a> ReadLines<'a> {
    /// The lines of no entry, where the first one begins at an offset of a text. It takes no memory.
    pub(crate) fn new(alloc: Global, text: &'a [u8], at: usize) -> ReadLines<'a>
        requires { at ≤ length text.now }
        ensures rest { result.rest.now ≡ drop at text.now }
        ensures len { result.len ≡ 0 }
        ensures none { lines_of result ≡ [] }
    {
        ReadLines {
            rest: text.split_at(at).1,
            len: 0,
            is_made: false,
            made: Vec::new(alloc),
        }
    }

    /// The bytes of the lines.
    pub(crate) fn as_slice(&self) -> &[u8]
        requires { self.now.len ≤ length self.now.rest.now }
        ensures { result.now ≡ lines_of self.now }
    {
        if self.is_made {
            &self.made
        } else {
            self.rest.split_at(self.len).0
        }
    }

    /// Adds the line of a command that was read behind the others.
    pub(crate) fn add(&mut self, session: &Session, read: &ReadSent<'_>) -> Result<(), Memory>
        requires sent { IsSentOf session.now read.now.sent }
        requires stands { StandsIn self.old.rest.now self.old.len read.now }
        requires spelled { IsSpelling session.now read.now }
        ensures rest { self.new.rest.now ≡ self.old.rest.now }
        ensures len { OnOk result (self.new.len ≡ self.old.len + length read.now.line.now) }
        ensures lines { OnOk result (lines_of self.new ≡ lines_of self.old ++ sent_line session.now read.now.sent) }
    {
        if self.is_made || !read.spelled {
            self.make(session, read)?;
        }
        self.len += read.line.len();
        Ok(())
    }

    /// Makes the line of a command behind the others.
    fn make(&mut self, session: &Session, read: &ReadSent<'_>) -> Result<(), Memory>
        requires sent { IsSentOf session.now read.now.sent }
        requires within { self.old.len ≤ length self.old.rest.now }
        ensures rest { self.new.rest.now ≡ self.old.rest.now }
        ensures len { self.new.len ≡ self.old.len }
        ensures made { OnOk result (self.new.is_made ≡ true) }
        ensures lines { OnOk result (self.new.made.items ≡ lines_of self.old ++ sent_line session.now read.now.sent) }
    {
        if !self.is_made {
            let (lines, _) = self.rest.split_at(self.len);
            self.made.clear();
            self.made.extend_from_slice(lines)?;
            self.is_made = true;
        }
        let mut line = LineText::new();
        make_command(session, read.sent.bank, &read.sent.command, &mut line);
        self.made.extend_from_slice(line.as_slice())?;
        Ok(())
    }
}
