//! What a refusal tells a client.
ghost use Rattle.std.specs.Prelude.{◌≡◌, ◌≤◌, ◌∷◌, [], length, codes, OnOk};
ghost use Rattle.fx_amounts.specs.Numeral.{numeral};
ghost use Rattle.fx_rules.specs.Session.{Header};
ghost use Rattle.reply_lines.specs.Rows.{row};
ghost use Rattle.client_day.specs.Desks.{with_notes};
ghost use Rattle.client_day.specs.Notes.{refusal_notes};

use client_desk::Ask;
use fx_amounts::{Memory, Units};
use fx_text::LineText;
use reply_lines::NoticeDesk;

/// Adds what a refusal tells to a client's desk; nothing where the answer is none. Without memory for it the desk stays.
pub(crate) fn tell_refusal(desk: &mut NoticeDesk, answer: Ask) -> Result<(), Memory>
    ensures ok { OnOk result ((h : Header) → desk.new ≡ with_notes h desk.old (refusal_notes answer)) }
{
    let mut line = LineText::new();
    match answer {
        Ask::Pass => Ok(()),
        Ask::Short { free } => {
            make_short(desk.next_number(), free, &mut line);
            desk.push(&line)
        }
        Ask::Barred => {
            make_barred(desk.next_number(), &mut line);
            desk.push(&line)
        }
    }
}

/// Makes the line that tells how much a client has free.
fn make_short(number: u128, free: Units, line: &mut LineText)
    ensures made { line.new ≡ row (numeral number) (codes "SHORT" ∷ numeral free ∷ []) }
    ensures some { 1 ≤ length line.new }
{
    line.clear();
    line.push_wide(number);
    line.push_field(b"SHORT");
    line.push_number_field(free.get());
    line.push_byte(b'\n');
}

/// Makes the line that tells that a command is none of the client's own.
fn make_barred(number: u128, line: &mut LineText)
    ensures made { line.new ≡ row (numeral number) (codes "BARRED" ∷ []) }
    ensures some { 1 ≤ length line.new }
{
    line.clear();
    line.push_wide(number);
    line.push_field(b"BARRED");
    line.push_byte(b'\n');
}
