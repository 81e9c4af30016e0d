//! What comes of a command, in words.
use fx_amounts::{BankId, Memory, Side};
use fx_rules::{Fill, Level, Outcome, Session};
use fx_text::{push_number, push_price};

/// The decimals of a price in the words; those of each pair of the trials' sessions.
const DECIMALS: u8 = 5;

/// Adds what came of a command, as a desk's reply words it: `ORDERED 2 1`. Each fill follows, as its taker with the number of its
/// order, its side, the lots and the price, and its maker: `, ALFA 1 BUY EUR/USD 2 1.08420 BETA 1`.
pub fn tell(session: &Session, outcome: &Outcome, text: &mut Vec<u8>) -> Result<(), Memory> {
    match outcome {
        Outcome::Ordered { filled, rests, .. } => say(
            b"ORDERED",
            &[u64::from(*filled), u64::from(*rests)],
            text,
        )?,
        Outcome::LineSet { limit, .. } => say(b"LIMIT", &[limit.get()], text)?,
        Outcome::TotalSet { limit, .. } => say(b"TOTAL", &[*limit], text)?,
        Outcome::Settled { given, .. } => say(b"SETTLED", &[given.get()], text)?,
        Outcome::Depth { bids, asks } => {
            say(b"BOOK BIDS", &[], text)?;
            tell_levels(bids.as_slice(), text)?;
            say(b" ASKS", &[], text)?;
            tell_levels(asks.as_slice(), text)?;
        }
        _ => tell_numbers(outcome, text)?,
    }
    for fill in outcome.fills() {
        tell_fill(session, fill, text)?;
    }
    Ok(())
}

/// Tells an outcome that has no list of levels.
fn tell_numbers(outcome: &Outcome, text: &mut Vec<u8>) -> Result<(), Memory> {
    match outcome {
        Outcome::Killed => say(b"KILLED", &[], text),
        Outcome::Cancelled { left } => say(b"CANCELLED", &[u64::from(*left)], text),
        Outcome::Reduced { left } => say(b"REDUCED", &[u64::from(*left)], text),
        Outcome::NotLess { left } => say(b"NOTLESS", &[u64::from(*left)], text),
        Outcome::Pulled { count } => say(b"PULLED", &[u64::from(*count)], text),
        Outcome::Shown { limit, used, eff } => say(
            b"SHOWN",
            &[limit.get(), used.get(), eff.get()],
            text,
        ),
        Outcome::Rejected { reason } => say(b"BAD", &[u64::from(reason.code())], text),
        _ => say(b"NOTHING", &[], text),
    }
}

/// A word and the numbers behind it.
fn say(word: &[u8], numbers: &[u64], text: &mut Vec<u8>) -> Result<(), Memory> {
    text.extend_from_slice(word)?;
    for number in numbers {
        text.push(b' ')?;
        push_number(u128::from(*number), text)?;
    }
    Ok(())
}

fn tell_levels(levels: &[Level], text: &mut Vec<u8>) -> Result<(), Memory> {
    for level in levels {
        text.push(b' ')?;
        push_price(level.price, DECIMALS, text)?;
        say(b"", &[level.lots], text)?;
    }
    Ok(())
}

fn tell_fill(session: &Session, fill: &Fill, text: &mut Vec<u8>) -> Result<(), Memory> {
    text.extend_from_slice(b", ")?;
    tell_order(session, fill.taker, fill.taker_number, text)?;
    text.extend_from_slice(match fill.taker_side {
        Side::Buy => b" BUY ",
        Side::Sell => b" SELL ",
    })?;
    if let Some(rule) = session.pairs().get(fill.pair.index()) {
        text.extend_from_slice(&rule.text())?;
    }
    say(b"", &[u64::from(fill.lots.count())], text)?;
    text.push(b' ')?;
    push_price(fill.price, DECIMALS, text)?;
    text.push(b' ')?;
    tell_order(session, fill.maker, fill.maker_number, text)
}

/// A bank, and the number of its order.
fn tell_order(
    session: &Session,
    bank: BankId,
    number: u32,
    text: &mut Vec<u8>,
) -> Result<(), Memory> {
    if let Some(name) = session.banks().get(bank.index()) {
        text.extend_from_slice(name.as_bytes())?;
    }
    say(b"", &[u64::from(number)], text)
}
