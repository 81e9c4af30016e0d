ghost use Rattle.std.specs.Prelude.{◌≡◌, ◌<◌, [], ◌∷◌, ◌++◌, ◌==◌, List, ℕ, length, take, position, vec_len, IfOk, IfSome, OnOk, OnErr, MatchOption};
ghost use Rattle.fx_text.specs.Lines.{parts_of, line_of, line_seen, lines_of, held_of, is_end_rest, rest_of, IsRest, IsFirstLine};
ghost use Rattle.fx_text.specs.inside.Held.{IsHeld, IsFirstPart};

use crate::field::Fields;
use crate::line::{Line, LineView, MOST_BYTES};
use fx_amounts::Memory;
use memchr::memchr;
use std::marker::Model;

/// What can matter of a line that has not ended: a whole line, the carriage return of its end, and one byte more.
const MOST_HELD: usize = 258;

/// Cuts bytes into lines, in any pieces. It holds what can matter of the bytes after the last line feed, in a
/// fixed room, so that a long line takes no memory.
#[derive(Drop)]
pub struct LineCutter {
    held: Held,
}

impl Model for LineCutter {
    ghost use Rattle.std.specs.Prelude.{List, ℕ};

    ghost Value = { List ℕ };

    ghost use Rattle.fx_text.specs.inside.Held.{IsHeld};

    ghost view = { λ c. c.held };

    ghost invariant = { λ c. IsHeld c.held };
}

#[derive(Drop)]
struct Held {
    bytes: [u8; MOST_HELD],
    len: usize,
}

impl Model for Held {
    ghost use Rattle.std.specs.Prelude.{List, ℕ, ◌≤◌, take};

    ghost Value = { List ℕ };

    ghost view = { λ h. take h.len h.bytes };

    ghost invariant = { λ h. h.len ≤ 258 };
}

impl Held {
    fn new() -> Held
        ensures { result ≡ [] }
    {
        Held {
            bytes: [0; MOST_HELD],
            len: 0,
        }
    }

    fn copy(&self) -> Held
        ensures { result ≡ self.now }
    {
        Held {
            bytes: self.bytes,
            len: self.len,
        }
    }

    fn as_slice(&self) -> &[u8]
        ensures { result.now ≡ self.now }
    {
        self.bytes.split_at(self.len).0
    }

    // Forgets all bytes.
    fn clear(&mut self)
        ensures { self.new ≡ [] }
    {
        self.len = 0;
    }

    // Adds bytes, as many as there is room for.
    fn extend(&mut self, bytes: &[u8])
        ensures { self.new ≡ take 258 (self.old ++ bytes.now) }
    {
        let count = bytes.len().min(MOST_HELD - self.len);
        self.bytes[self.len..self.len + count].copy_from_slice(&bytes[..count]);
        self.len += count;
    }

    // Adds the bytes up to the first line feed, and answers what stands behind it; adds all where there is none.
    fn complete<'p>(&mut self, piece: &'p [u8]) -> Option<&'p [u8]>
        requires { IsHeld self.old }
        ensures held { IsHeld self.new }
        ensures line { MatchOption result
            (IsRest (self.old ++ piece.now) × (self.new ≡ held_of (self.old ++ piece.now)))
            (λ behind. IsFirstLine (self.old ++ piece.now) (line_of self.new) behind.now) }
        ensures shorter { IfSome result (λ behind. length behind.now < length piece.now) }
    {
        match split_at_line_feed(piece) {
            Some((part, behind)) => {
                self.extend(part);
                Some(behind)
            }
            None => {
                self.extend(piece);
                None
            }
        }
    }
}

impl LineCutter {
    /// A cutter that holds nothing. Takes no memory.
    pub fn new() -> LineCutter
        ensures { result ≡ [] }
    {
        LineCutter { held: Held::new() }
    }

    /// Appends the lines that the piece ends. After `Err` the cutter and the list are as they were.
    pub fn feed(&mut self, piece: &[u8], out: &mut Vec<Line>) -> Result<(), Memory>
        ensures lines { OnOk result (out.new.items ≡ out.old.items ++ lines_of (self.old ++ piece.now)) }
        ensures held { OnOk result (self.new ≡ held_of (self.old ++ piece.now)) }
        ensures err_held { OnErr result (self.new ≡ self.old) }
        ensures err_lines { OnErr result (out.new.items ≡ out.old.items) }

        // However the text before was cut, the piece adds these lines to those of the text, and this is held of its rest.
        ensures whole_lines { (text : List ℕ) → self.old ≡ held_of text
            → lines_of (text ++ piece.now) ≡ lines_of text ++ lines_of (self.old ++ piece.now) }
        ensures whole_held { (text : List ℕ) → self.old ≡ held_of text
            → held_of (text ++ piece.now) ≡ held_of (self.old ++ piece.now) }
    {
        let before = out.len();
        match cut(self.held.copy(), piece, out) {
            Ok(held) => {
                self.held = held;
                Ok(())
            }
            Err(memory) => {
                out.truncate(before);
                Err(memory)
            }
        }
    }

    /// Adds the bytes of the piece up to its first line feed to those that are held, and answers what of the piece stands
    /// behind it: `line` is then the line that it ends. `None` where the piece ends no line; then all of it is held.
    pub fn complete<'p>(&mut self, piece: &'p [u8]) -> Option<&'p [u8]>
        ensures line { MatchOption result
            (IsRest (self.old ++ piece.now) × (self.new ≡ held_of (self.old ++ piece.now)))
            (λ behind. IsFirstLine (self.old ++ piece.now) (line_of self.new) behind.now) }
    {
        self.held.complete(piece)
    }

    /// What is held as a line, where a line feed ended it. Takes no memory.
    pub fn line(&self) -> LineView<'_>
        ensures { line_seen result ≡ line_of self.now }
    {
        LineView::of(self.held.as_slice())
    }

    /// Forgets what is held, and holds a rest in which no line ends.
    pub fn hold(&mut self, rest: &[u8])
        requires { IsRest rest.now }
        ensures { self.new ≡ held_of rest.now }
    {
        self.held.clear();
        self.held.extend(rest);
    }

    /// Whether the bytes after the last line feed are at most 256 and have `END` as their only field.
    pub fn rest_is_end(&self) -> bool
        ensures held { result ≡ is_end_rest self.now }
        ensures rest { (text : List ℕ) → self.now ≡ held_of text → result ≡ is_end_rest (rest_of text) }
    {
        self.holds_end()
    }

    fn holds_end(&self) -> bool
        ensures { result ≡ is_end_rest self.now }
    {
        let rest = self.held.as_slice();
        rest.len() <= MOST_BYTES && Fields::of(rest).is_end()
    }
}

// The lines that the piece ends, appended, and what is held after it. After `Err` some lines may be appended.
fn cut(mut held: Held, piece: &[u8], out: &mut Vec<Line>) -> Result<Held, Memory>
    requires { IsHeld held }
    ensures lines { OnOk result (out.new.items ≡ out.old.items ++ lines_of (held ++ piece.now)) }
    ensures held { IfOk result (λ after. after ≡ held_of (held ++ piece.now)) }
    ensures err { OnErr result (take (vec_len out.old) out.new.items ≡ out.old.items) }
{
    let mut rest = piece;
    while let Some(behind) = held.complete(rest) {
        let line = Line::of(*out.allocator(), held.as_slice())?;
        out.push(line)?;
        held.clear();
        rest = behind;
    }
    Ok(held)
}

/// The first line that ends in a text, where it lies, and what stands behind its line feed; `None` where no line ends
/// in it. Takes no memory.
pub fn first_line(text: &[u8]) -> Option<(LineView<'_>, &[u8])>
    ensures line { MatchOption result (IsRest text.now)
        (λ found. IsFirstLine text.now (line_seen found.0) found.1.now) }
    ensures shorter { IfSome result (λ found. length found.1.now < length text.now) }
{
    let (part, behind) = split_at_line_feed(text)?;
    Some((LineView::of(part), behind))
}

// What of a text stands before its first line feed, and behind it.
fn split_at_line_feed(text: &[u8]) -> Option<(&[u8], &[u8])>
    ensures { MatchOption result (parts_of text.now ≡ text.now ∷ [])
        (λ found. IsFirstPart text.now found.0.now found.1.now) }
{
    let at = line_feed(text)?;
    let (part, rest) = text.split_at(at);
    let (_, behind) = rest.split_at(1);
    Some((part, behind))
}

// Where a text has its first line feed.
fn line_feed(text: &[u8]) -> Option<usize>
    ensures { result ≡ position (λ byte. byte == 10) text.now }
{
    memchr(b'\n', text)
}
