ghost use Rattle.std.specs.Prelude.{◌≡◌, ◌<◌, ◌++◌, ◌∷◌, length, IfSome};
ghost use Rattle.fx_text.specs.Lines.{IsFirstLine};
ghost use Rattle.fx_text.specs.declared.line.Line.TheVariants.{Whole as WholeLine};
ghost use Rattle.fx_rules.specs.Sending.{IsSentOf};
ghost use Rattle.order_lines.specs.Grammar.{command_line};
ghost use Rattle.order_lines.specs.Spelling.{command_text_of};
ghost use Rattle.order_lines.specs.Words.{side_word};
ghost use Rattle.order_lines.specs.inside.Spelled.{EndsWith};
ghost use Rattle.order_lines.specs.declared.spoken.Spoken.TheVariants.{Of as OfBank};
ghost use Rattle.order_lines.specs.declared.word.Word.TheVariants as word;

use crate::fronts::{
    LIMIT_DIGITS, LOTS_DIGITS, SHORTEST, field_before, life_before, lots_of, number_before,
    order_number_before, pair_before, price_of, ticks_before, word_before,
};
use crate::reading::{decimals, read_other};
use crate::word::Word;
use fx_amounts::{BankId, Side, Units};
use fx_rules::{Command, Sent, Session};

/// The command, with its sender, with whose line in its one spelling a text begins, and what stands behind that line's line feed.
/// `None` where the text begins otherwise; its first line may be a command then too. The bytes are read from the first to the line
/// feed, without a search for it and without a list of fields. Takes no memory.
pub fn spelled_command<'p>(session: &Session, text: &'p [u8]) -> Option<(Sent, &'p [u8])>
    ensures spelled { IfSome result (λ found. text.now ≡ command_text_of session.now found.0.bank found.0.command ++ 10 ∷ found.1.now) }

    // These bytes are the text's first line, and it says that command, which its sender may send.
    ensures line { IfSome result (λ found. IsFirstLine text.now (WholeLine (command_text_of session.now found.0.bank found.0.command)) found.1.now) }
    ensures reads { IfSome result (λ found. command_line session.now (WholeLine (command_text_of session.now found.0.bank found.0.command)) ≡ OfBank found.0.bank found.0.command) }
    ensures valid { IfSome result (λ found. IsSentOf session.now found.0) }
    ensures shorter { IfSome result (λ found. length found.1.now < length text.now) }
{
    // The clauses on the line rest on a valid session, as each is.
    let _banks = session.banks();
    let (name, fields) = field_before(text, SHORTEST, b' ')?;
    let bank = session.bank_in_front(text, name.len())?;
    let (word, fields) = word_before(fields)?;
    match command_behind(session, bank, word, fields) {
        Some((command, behind)) => Some((Sent { bank, command }, behind)),
        None => None,
    }
}

// The command of a word whose fields a text begins with, and what stands behind their line feed.
fn command_behind<'p>(
    session: &Session,
    sender: BankId,
    word: Word,
    text: &'p [u8],
) -> Option<(Command, &'p [u8])>
    ensures { IfSome result (λ found. EndsWith session.now sender word text.now found.0 found.1.now) }
{
    if let Some(side) = word.side() {
        return order_behind(session, sender, side, text);
    }
    match word {
        Word::Cancel => cancel_behind(session, sender, text),
        Word::Reduce => reduce_behind(session, sender, text),
        Word::Pull => pull_behind(session, sender, text),
        Word::Line => line_behind(session, sender, text),
        Word::Show => show_behind(session, sender, text),
        Word::Book => book_behind(session, sender, text),
        _ => None,
    }
}

#[inline(always)]
fn order_behind<'p>(
    session: &Session,
    sender: BankId,
    side: Side,
    text: &'p [u8],
) -> Option<(Command, &'p [u8])>
    ensures { IfSome result (λ found. EndsWith session.now sender (side_word side) text.now found.0 found.1.now) }
{
    let Some((pair, fields)) = pair_before(session, text, b' ') else {
        return None;
    };
    let places = usize::from(decimals(session, pair));
    let (ticks, fields) = ticks_before(fields, places, b' ')?;
    let price = price_of(ticks)?;
    let (count, fields) = number_before(fields, LOTS_DIGITS, b' ')?;
    let lots = lots_of(count)?;
    let (life, behind) = life_before(fields)?;
    let order = Command::Order {
        side,
        pair,
        price,
        lots,
        life,
    };
    Some((order, behind))
}

fn cancel_behind<'p>(
    session: &Session,
    sender: BankId,
    text: &'p [u8],
) -> Option<(Command, &'p [u8])>
    ensures { IfSome result (λ found. EndsWith session.now sender word.Cancel text.now found.0 found.1.now) }
{
    let Some((pair, fields)) = pair_before(session, text, b' ') else {
        return None;
    };
    let (number, behind) = order_number_before(fields, b'\n')?;
    Some((Command::Cancel { pair, number }, behind))
}

fn reduce_behind<'p>(
    session: &Session,
    sender: BankId,
    text: &'p [u8],
) -> Option<(Command, &'p [u8])>
    ensures { IfSome result (λ found. EndsWith session.now sender word.Reduce text.now found.0 found.1.now) }
{
    let Some((pair, fields)) = pair_before(session, text, b' ') else {
        return None;
    };
    let (number, fields) = order_number_before(fields, b' ')?;
    let (count, behind) = number_before(fields, LOTS_DIGITS, b'\n')?;
    let lots = lots_of(count)?;
    Some((Command::Reduce { pair, number, lots }, behind))
}

fn line_behind<'p>(session: &Session, sender: BankId, text: &'p [u8]) -> Option<(Command, &'p [u8])>
    ensures { IfSome result (λ found. EndsWith session.now sender word.Line text.now found.0 found.1.now) }
{
    let (name, fields) = field_before(text, SHORTEST, b' ')?;
    let bank = read_other(session, sender, name).ok()?;
    let (units, behind) = number_before(fields, LIMIT_DIGITS, b'\n')?;
    let limit = Units::new(units)?;
    Some((Command::Line { bank, limit }, behind))
}

fn pull_behind<'p>(session: &Session, sender: BankId, text: &'p [u8]) -> Option<(Command, &'p [u8])>
    ensures { IfSome result (λ found. EndsWith session.now sender word.Pull text.now found.0 found.1.now) }
{
    let Some((pair, behind)) = pair_before(session, text, b'\n') else {
        return None;
    };
    Some((Command::Pull { pair }, behind))
}

fn show_behind<'p>(session: &Session, sender: BankId, text: &'p [u8]) -> Option<(Command, &'p [u8])>
    ensures { IfSome result (λ found. EndsWith session.now sender word.Show text.now found.0 found.1.now) }
{
    let (name, behind) = field_before(text, SHORTEST, b'\n')?;
    let bank = read_other(session, sender, name).ok()?;
    Some((Command::Show { bank }, behind))
}

fn book_behind<'p>(session: &Session, sender: BankId, text: &'p [u8]) -> Option<(Command, &'p [u8])>
    ensures { IfSome result (λ found. EndsWith session.now sender word.Book text.now found.0 found.1.now) }
{
    let Some((pair, behind)) = pair_before(session, text, b'\n') else {
        return None;
    };
    Some((Command::Book { pair }, behind))
}
