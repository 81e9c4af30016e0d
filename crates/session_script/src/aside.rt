ghost use Rattle.std.specs.Prelude.{◌≡◌, ◌<◌, ◌==◌, ◌||◌, IsTrue, IfSome, length, position};
ghost use Rattle.fx_text.specs.Fields.{is_blank};
ghost use Rattle.fx_text.specs.Lines.{IsFirstLine, line_seen};
ghost use Rattle.fx_text.specs.declared.line.Line.TheVariants.{Whole as WholeLine};
ghost use Rattle.fx_rules.specs.Session.{Header, IsSession};
ghost use Rattle.fx_rules.specs.Step.{IsCommand};
ghost use Rattle.order_lines.specs.Grammar.{IfSent, command_line};
ghost use Rattle.order_lines.specs.declared.spoken.Spoken.TheVariants.{Stray as StraySpoken};

use fx_rules::Session;
use fx_text::{LineView, first_line};
use order_lines::{Spoken, command_in};

/// What a line behind START says, as `command_in` reads it. One whose first field has a colon is a stray, since no sender's name has
/// one, and is not read further.
pub(crate) fn spoken_of(session: &Session, line: &LineView<'_>) -> Spoken
    ensures reads { result ≡ command_line session.now (line_seen line.now) }
    ensures range { IfSent result (IsCommand session.now) }
{
    // That a sender's name has no colon rests on a valid session, as each is.
    let _banks = session.banks();
    match *line {
        LineView::Whole(text) if has_colon(text) => Spoken::Stray,
        _ => command_in(session, line),
    }
}

/// Whether a line begins with a field that has a colon and begins no comment.
fn has_colon(text: &[u8]) -> bool
    ensures stray { IsTrue result → (h : Header) → IsSession h → command_line h (WholeLine text.now) ≡ StraySpoken }
{
    match place_of_colon(text) {
        Some(at) => text[at] == b':' && text[0] != b'#',
        None => false,
    }
}

/// The place of the first colon or blank of a text.
fn place_of_colon(text: &[u8]) -> Option<usize>
    ensures value { result ≡ position (λ byte. (byte == 58) || is_blank byte) text.now }
    ensures within { IfSome result (λ at. at < length text.now) }
{
    text.iter()
        .position(|byte| *byte == b':' || *byte == b' ' || *byte == b'\t')
}

/// The line that a text begins with, where it is a stray for the colon of its first field, and what stands behind its line feed.
/// `None` where the text begins otherwise; its first line may be a stray then too. Takes no memory.
pub(crate) fn colon_line(text: &[u8]) -> Option<(LineView<'_>, &[u8])>
    ensures line { IfSome result (λ found. IsFirstLine text.now (line_seen found.0) found.1.now) }
    ensures stray { IfSome result (λ found. (h : Header) → IsSession h → command_line h (line_seen found.0) ≡ StraySpoken) }
    ensures shorter { IfSome result (λ found. length found.1.now < length text.now) }
{
    let (line, behind) = first_line(text)?;
    match line {
        LineView::Whole(whole) if has_colon(whole) => Some((line, behind)),
        _ => None,
    }
}
