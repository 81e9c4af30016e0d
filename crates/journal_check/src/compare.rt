ghost use Rattle.std.specs.Prelude.{◌≡◌, ◌≢◌, ◌≤◌, ◌<◌, List, length, take, slice_get, Some, None, IfOk};
ghost use Rattle.fx_rules.specs.declared.outcome.Entry.{Entry};
ghost use Rattle.journal_check.specs.inside.Comparing.{told};
ghost use Rattle.journal_check.specs.inside.Stops.{HasServedJournal, IsComparedWith, end_of};

use crate::journal::ServedJournal;
use crate::stop::Stop;
use fx_edges::{Sink, SinkFault};
use fx_rules::Session;
use reply_lines::{JournalLines, OutFault, write_day};
use std::alloc::Global;
use std::marker::Model;

/// A text that is compared with what is written into it. It takes what the text has too, and one byte more; then it fails,
/// so that nothing more need be written.
#[derive(Drop)]
struct Comparison<'a> {
    text: &'a [u8],
    /// The text has what was written up to here.
    at: usize,
    /// The byte that was written next, where the text has another one or has ended.
    wrong: Option<u8>,
    faults: u64,
}

impl<'a> Model for Comparison<'a> {
    ghost use Rattle.journal_check.specs.inside.Comparing.{Comparing, IsComparing};

    ghost Value = { Comparing };

    ghost view = { λ c. record { text = c.text.now; at = c.at; wrong = c.wrong; faults = c.faults } };

    ghost invariant = { λ c. IsComparing (record { text = c.text.now; at = c.at; wrong = c.wrong; faults = c.faults }) };
}

impl<'a> Comparison<'a> {
    ghost use Rattle.journal_check.specs.inside.Comparing.{IsComparing};

    fn new(text: &'a [u8]) -> Comparison<'a>
        ensures { result ≡ record { text = text.now; at = 0; wrong = None; faults = 0 } }
    {
        Comparison {
            text,
            at: 0,
            wrong: None,
            faults: 0,
        }
    }

    /// Where the text has all that was written, and otherwise the first place where it does not.
    fn end(&self) -> Result<usize, Stop>
        ensures end { result ≡ end_of self.now.at self.now.wrong }
        ensures valid { IsComparing self.now }
    {
        match self.wrong {
            None => Ok(self.at),
            Some(_) => Err(Stop::Wrong {
                offset: self.at as u64,
            }),
        }
    }
}

impl<'a> Sink for Comparison<'a> {
    ghost written = { λ c. Some (told c) };

    ghost faults = { λ c. c.faults };

    fn write(&mut self, piece: &[u8]) -> Result<usize, SinkFault> {
        if self.wrong.is_some() {
            self.faults = self.faults.saturating_add(1);
            return Err(SinkFault::Failed);
        }
        let (_, left) = self.text.split_at(self.at);
        let count = agreeing(left, piece);
        if count == 0 && !piece.is_empty() {
            self.wrong = Some(piece[0]);
            return Ok(1);
        }
        self.at += count;
        Ok(count)
    }
}

/// In how many bytes a text and a piece agree from their front on.
fn agreeing(text: &[u8], piece: &[u8]) -> usize
    ensures in_text { result ≤ length text.now }
    ensures in_piece { result ≤ length piece.now }
    ensures same { take result text.now ≡ take result piece.now }
    ensures differs { result < length piece.now → slice_get text.now result ≢ slice_get piece.now result }
{
    // A whole piece is compared many bytes at a time.
    if text.starts_with(piece) {
        return piece.len();
    }
    agreeing_by_bytes(text, piece)
}

fn agreeing_by_bytes(text: &[u8], piece: &[u8]) -> usize
    ensures in_text { result ≤ length text.now }
    ensures in_piece { result ≤ length piece.now }
    ensures same { take result text.now ≡ take result piece.now }
    ensures differs { result < length piece.now → slice_get text.now result ≢ slice_get piece.now result }
{
    for (at, byte) in piece.iter().enumerate() {
        if text.get(at) != Some(byte) {
            return at;
        }
    }
    piece.len()
}

/// Compares a text with the output of the history whose commands were served, up to its last lines: where that ends in the text, or
/// the first place where the text has another byte or has ended.
pub(crate) fn compare_day(
    alloc: Global,
    text: &[u8],
    session: &Session,
    served: ServedJournal<'_>,
) -> Result<usize, Stop>
    requires served { (entries : List Entry) × HasServedJournal session.now entries served }
    ensures compared { (entries : List Entry) → HasServedJournal session.now entries served.entry → IsComparedWith session.now entries text.now result }
    ensures within { IfOk result (λ end. end ≤ length text.now) }
{
    let mut comparison = Comparison::new(text);
    let ServedJournal { run, count, lines } = served;
    let (host, notices) = run.into_parts();
    let journal = JournalLines {
        count,
        lines: lines.as_slice(),
    };
    match write_day(alloc, session, journal, notices, &host, &mut comparison) {
        Ok(()) => comparison.end(),
        // The text differed, and nothing more was written.
        Err(OutFault::Write) => comparison.end(),
        Err(OutFault::Memory(memory)) => Err(Stop::Memory(memory)),
    }
}
