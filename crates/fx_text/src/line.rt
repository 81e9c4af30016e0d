ghost use Rattle.std.specs.Prelude.{◌≡◌, IfOk};
ghost use Rattle.std.specs.Str.Lines.{strip_carriage_return};

use crate::field::{Fields, is_comment};
use fx_amounts::Memory;
use std::alloc::Global;
use std::marker::Model;

/// The longest line, in bytes without its line end.
pub(crate) const MOST_BYTES: usize = 256;

/// A text of any bytes, held in a `Vec`.
#[derive(Debug, Drop)]
pub struct Bytes {
    bytes: Vec<u8>,
}

impl Model for Bytes {
    ghost use Rattle.std.specs.Prelude.{List, ℕ};

    ghost Value = { List ℕ };

    ghost view = { λ b. b.bytes.items };
}

impl Bytes {
    /// The bytes of a `Vec`. Takes no memory.
    pub fn from_vec(bytes: Vec<u8>) -> Bytes
        ensures { result ≡ bytes.items }
    {
        Bytes { bytes }
    }

    /// The bytes as a slice.
    pub fn as_slice(&self) -> &[u8]
        ensures { result.now ≡ self.now }
    {
        &self.bytes
    }

    fn copied(alloc: Global, text: &[u8]) -> Result<Bytes, Memory>
        ensures { IfOk result (λ bytes. bytes ≡ text.now) }
    {
        Ok(Bytes::from_vec(Vec::from_slice(alloc, text)?))
    }
}

/// A line of a text, without its line end.
#[derive(Debug, Drop)]
pub enum Line {
    /// A line of at most 256 bytes.
    Whole(Bytes),
    /// A longer line, of which the first field of its first 256 bytes is kept.
    Long(Bytes),
}

impl Line {
    ghost use Rattle.fx_text.specs.Lines.{line_of, line_seen, is_passed_over};

    // The line of a part that a line feed ends.
    pub(crate) fn of(alloc: Global, part: &[u8]) -> Result<Line, Memory>
        ensures { IfOk result (λ line. line ≡ line_of part.now) }
    {
        match LineView::of(part) {
            LineView::Whole(text) => Ok(Line::Whole(Bytes::copied(alloc, text)?)),
            LineView::Long(field) => Ok(Line::Long(Bytes::copied(alloc, field)?)),
        }
    }

    /// The line where it is held. Takes no memory.
    pub fn view(&self) -> LineView<'_>
        ensures { line_seen result ≡ self.now }
    {
        match self {
            Line::Whole(text) => LineView::Whole(text.as_slice()),
            Line::Long(field) => LineView::Long(field.as_slice()),
        }
    }

    /// Whether the line is ignored: it has no field, or its first field begins with `#`. Of a long line
    /// only the field that is kept counts, also where it is empty.
    pub fn is_passed_over(&self) -> bool
        ensures { result ≡ is_passed_over self.now }
    {
        self.view().is_passed_over()
    }
}

/// A line of a text where it lies, without its line end. Contracts see it as the `Line` that it would be.
#[derive(Clone, Copy, Debug)]
pub enum LineView<'a> {
    /// A line of at most 256 bytes.
    Whole(&'a [u8]),
    /// A longer line, of which the first field of its first 256 bytes is seen.
    Long(&'a [u8]),
}

impl<'a> LineView<'a> {
    ghost use Rattle.fx_text.specs.Lines.{line_of, line_seen, is_passed_over};

    /// The line of a part of a text that a line feed ends, where it lies: without the carriage return that may end it, and
    /// long where more than 256 bytes are left. Takes no memory.
    #[tactic(auto, unfolding(crate::specs::Lines::line_of))]
    pub fn of(part: &'a [u8]) -> LineView<'a>
        ensures { line_seen result ≡ line_of part.now }
    {
        let text = without_carriage_return(part);
        if text.len() <= MOST_BYTES {
            LineView::Whole(text)
        } else {
            let (front, _) = text.split_at(MOST_BYTES);
            LineView::Long(Fields::of(front).first())
        }
    }

    /// Whether the line is ignored: it has no field, or its first field begins with `#`. Of a long line
    /// only the field that is seen counts, also where it is empty. Takes no memory.
    pub fn is_passed_over(&self) -> bool
        ensures { result ≡ is_passed_over (line_seen self.now) }
    {
        match self {
            LineView::Whole(text) => Fields::of(text).is_passed_over(),
            LineView::Long(field) => is_comment(field),
        }
    }
}

fn without_carriage_return(part: &[u8]) -> &[u8]
    ensures { result.now ≡ strip_carriage_return part.now }
{
    match part {
        [text @ .., b'\r'] => text,
        _ => part,
    }
}
