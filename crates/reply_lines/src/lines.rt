ghost use Rattle.std.specs.Prelude.{◌≡◌, ◌≤◌, ◌∷◌, ℕ, List, [], length, OnOk};
ghost use Rattle.std.specs.List.{flat_map};
ghost use Rattle.fx_amounts.specs.Numeral.{numeral};
ghost use Rattle.fx_edges.specs.Gathered.{Gathered};
ghost use Rattle.fx_rules.specs.Lists.{Each};
ghost use Rattle.fx_rules.specs.Session.{Header};
ghost use Rattle.reply_lines.specs.Rows.{row};

use crate::notices::make_count;
use fx_amounts::Memory;
use fx_edges::{Pieces, Sink, SinkFault};
use fx_rules::Session;
use fx_text::LineText;

/// What an output has a line of: an entry of the journal, a row of the report.
pub(crate) trait Print {
    // The session has the banks and pairs that the line names.
    ghost fits: { Header → Self → Type 0 };

    // The line, with its line feed.
    ghost text: { Header → Self → List ℕ };

    /// Makes the line anew.
    fn make_line(&self, session: &Session, line: &mut LineText)
        requires fits { fits session.now self.now }
        ensures made { line.new ≡ text session.now self.now };
}

/// Writes a line of each item.
pub(crate) fn write_lines<T: Print, K: Sink>(
    session: &Session,
    items: &[T],
    pieces: &mut Pieces,
    out: &mut K,
) -> Result<(), SinkFault>
    requires fit { Each (T.fits session.now) items.now }
    ensures wrote { Gathered K.written K.faults pieces.old out.old pieces.new out.new (flat_map (T.text session.now) items.now) result }
{
    let mut line = LineText::new();
    for item in items {
        item.make_line(session, &mut line);
        pieces.put(line.as_slice(), out)?;
    }
    Ok(())
}

/// Writes the line of a word of at most 20 bytes and a number.
pub fn write_count<K: Sink>(
    word: &[u8],
    count: u128,
    pieces: &mut Pieces,
    out: &mut K,
) -> Result<(), SinkFault>
    requires word { length word.now ≤ 20 }
    ensures wrote { Gathered K.written K.faults pieces.old out.old pieces.new out.new (row word.now (numeral count ∷ [])) result }
{
    let mut line = LineText::new();
    make_count(word, count, &mut line);
    pieces.put(line.as_slice(), out)
}

/// Writes a line that was made, where there was memory for it.
pub(crate) fn write_made<K: Sink>(
    made: Result<(), Memory>,
    line: &[u8],
    pieces: &mut Pieces,
    out: &mut K,
) -> Result<(), SinkFault>
    ensures wrote { (text : List ℕ) → OnOk made (line.now ≡ text) → Gathered K.written K.faults pieces.old out.old pieces.new out.new text result }
{
    match made {
        Ok(()) => pieces.put(line, out),
        Err(memory) => Err(SinkFault::Memory(memory)),
    }
}
