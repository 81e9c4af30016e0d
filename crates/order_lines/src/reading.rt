ghost use Rattle.std.specs.Prelude.{◌≡◌, ◌<◌, length, IfOk};
ghost use Rattle.fx_amounts.specs.Quantity.{IsDecimals};
ghost use Rattle.fx_rules.specs.Session.{pair_count, decimals_of};
ghost use Rattle.order_lines.specs.Words.{field_count};
ghost use Rattle.order_lines.specs.Reading.{pair_said, price_said, lots_said, life_said, number_said, bank_said, other_said, limit_said, units_said, order_said, cancel_said, reduce_said, line_said, settle_said, word_said, command_said};

use crate::sender::has_word;
use crate::word::{Word, life_from};
use fx_amounts::{BankId, Lots, PairId, Price, PriceFault, Side, Units, price_from};
use fx_rules::{Command, Life, Reject, Session};
use fx_text::{Fields, number};

/// The command of a line of a sender, or the first fault: the word, then the number of fields, then the fields from
/// left to right.
#[tactic(auto, unfolding(crate::specs::Reading::command_said))]
pub(crate) fn read_command(
    session: &Session,
    sender: BankId,
    fields: &Fields<'_>,
) -> Result<Command, Reject>
    ensures { result ≡ command_said session.now sender fields.now }
{
    let word = read_word(session, sender, fields)?;
    if fields.count() != word.field_count() {
        return Err(Reject::Count);
    }
    match word {
        Word::Buy => read_order(session, Side::Buy, fields),
        Word::Sell => read_order(session, Side::Sell, fields),
        Word::Cancel => read_cancel(session, fields),
        Word::Reduce => read_reduce(session, fields),
        Word::Pull => Ok(Command::Pull {
            pair: read_pair(session, fields.field(2))?,
        }),
        Word::Line => read_line(session, sender, fields),
        Word::Show => Ok(Command::Show {
            bank: read_other(session, sender, fields.field(2))?,
        }),
        Word::Book => Ok(Command::Book {
            pair: read_pair(session, fields.field(2))?,
        }),
        Word::Total => Ok(Command::Total {
            limit: read_limit(fields.field(2))?,
        }),
        Word::Settle => read_settle(session, fields),
    }
}

#[tactic(auto, unfolding(crate::specs::Reading::word_said))]
fn read_word(session: &Session, sender: BankId, fields: &Fields<'_>) -> Result<Word, Reject>
    ensures { result ≡ word_said session.now sender fields.now }
{
    if fields.count() < 2 {
        return Err(Reject::Word);
    }
    match Word::from_bytes(fields.field(1)) {
        Some(word) if has_word(session, sender, word) => Ok(word),
        _ => Err(Reject::Word),
    }
}

#[tactic(auto, unfolding(crate::specs::Reading::order_said))]
fn read_order(session: &Session, side: Side, fields: &Fields<'_>) -> Result<Command, Reject>
    requires { length fields.now ≡ 6 }
    ensures { result ≡ order_said session.now side fields.now }
{
    let pair = read_pair(session, fields.field(2))?;
    let price = read_price(session, pair, fields.field(3))?;
    let lots = read_lots(fields.field(4))?;
    let life = read_life(fields.field(5))?;
    Ok(Command::Order {
        side,
        pair,
        price,
        lots,
        life,
    })
}

#[tactic(auto, unfolding(crate::specs::Reading::cancel_said))]
fn read_cancel(session: &Session, fields: &Fields<'_>) -> Result<Command, Reject>
    requires { length fields.now ≡ 4 }
    ensures { result ≡ cancel_said session.now fields.now }
{
    let pair = read_pair(session, fields.field(2))?;
    let number = read_number(fields.field(3))?;
    Ok(Command::Cancel { pair, number })
}

#[tactic(auto, unfolding(crate::specs::Reading::reduce_said))]
fn read_reduce(session: &Session, fields: &Fields<'_>) -> Result<Command, Reject>
    requires { length fields.now ≡ 5 }
    ensures { result ≡ reduce_said session.now fields.now }
{
    let pair = read_pair(session, fields.field(2))?;
    let number = read_number(fields.field(3))?;
    let lots = read_lots(fields.field(4))?;
    Ok(Command::Reduce { pair, number, lots })
}

#[tactic(auto, unfolding(crate::specs::Reading::line_said))]
fn read_line(session: &Session, sender: BankId, fields: &Fields<'_>) -> Result<Command, Reject>
    requires { length fields.now ≡ 4 }
    ensures { result ≡ line_said session.now sender fields.now }
{
    let bank = read_other(session, sender, fields.field(2))?;
    let limit = read_limit(fields.field(3))?;
    Ok(Command::Line { bank, limit })
}

#[tactic(auto, unfolding(crate::specs::Reading::settle_said))]
fn read_settle(session: &Session, fields: &Fields<'_>) -> Result<Command, Reject>
    requires { length fields.now ≡ 5 }
    ensures { result ≡ settle_said session.now fields.now }
{
    let a = read_bank(session, fields.field(2))?;
    let b = read_other(session, a, fields.field(3))?;
    let units = read_units(fields.field(4))?;
    Ok(Command::Settle { a, b, units })
}

#[tactic(auto, unfolding(crate::specs::Reading::pair_said))]
#[inline(always)]
fn read_pair(session: &Session, text: &[u8]) -> Result<PairId, Reject>
    ensures value { result ≡ pair_said session.now text.now }
    ensures within { IfOk result (λ pair. pair < pair_count session.now) }
{
    session.pair_named(text).ok_or(Reject::Pair)
}

#[tactic(auto, unfolding(crate::specs::Reading::price_said))]
fn read_price(session: &Session, pair: PairId, text: &[u8]) -> Result<Price, Reject>
    requires { pair < pair_count session.now }
    ensures { result ≡ price_said session.now pair text.now }
{
    match price_from(text, decimals(session, pair)) {
        Ok(price) => Ok(price),
        Err(PriceFault::Form) => Err(Reject::PriceForm),
        Err(PriceFault::Range) => Err(Reject::PriceRange),
    }
}

/// The decimals of a pair's prices.
pub(crate) fn decimals(session: &Session, pair: PairId) -> u8
    requires { pair < pair_count session.now }
    ensures value { result ≡ decimals_of session.now pair }
    ensures range { IsDecimals result }
{
    session.pairs()[pair.index()].decimals
}

#[tactic(auto, unfolding(crate::specs::Reading::lots_said))]
fn read_lots(text: &[u8]) -> Result<Lots, Reject>
    ensures { result ≡ lots_said text.now }
{
    let count = number(text, u64::from(Lots::LEAST), u64::from(Lots::MOST)).ok_or(Reject::Lots)?;
    Lots::new(count as u32).ok_or(Reject::Lots)
}

#[tactic(auto, unfolding(crate::specs::Reading::life_said))]
fn read_life(text: &[u8]) -> Result<Life, Reject>
    ensures { result ≡ life_said text.now }
{
    life_from(text).ok_or(Reject::Life)
}

#[tactic(auto, unfolding(crate::specs::Reading::number_said))]
fn read_number(text: &[u8]) -> Result<u32, Reject>
    ensures { result ≡ number_said text.now }
{
    let number = number(text, 1, u64::from(u32::MAX)).ok_or(Reject::Number)?;
    Ok(number as u32)
}

#[tactic(auto, unfolding(crate::specs::Reading::bank_said))]
fn read_bank(session: &Session, text: &[u8]) -> Result<BankId, Reject>
    ensures { result ≡ bank_said session.now text.now }
{
    session.bank_named(text).ok_or(Reject::Bank)
}

/// The bank of that name, where it is another than this one.
#[tactic(auto, unfolding(crate::specs::Reading::other_said, crate::specs::Reading::bank_said))]
pub(crate) fn read_other(session: &Session, bank: BankId, text: &[u8]) -> Result<BankId, Reject>
    ensures { result ≡ other_said session.now bank text.now }
{
    match session.bank_named(text) {
        Some(other) if other != bank => Ok(other),
        _ => Err(Reject::Bank),
    }
}

#[tactic(auto, unfolding(crate::specs::Reading::limit_said))]
fn read_limit(text: &[u8]) -> Result<Units, Reject>
    ensures { result ≡ limit_said text.now }
{
    let units = number(text, 0, Units::MOST).ok_or(Reject::Limit)?;
    Units::new(units).ok_or(Reject::Limit)
}

#[tactic(auto, unfolding(crate::specs::Reading::units_said))]
fn read_units(text: &[u8]) -> Result<Units, Reject>
    ensures { result ≡ units_said text.now }
{
    let units = number(text, 1, Units::MOST).ok_or(Reject::Units)?;
    Units::new(units).ok_or(Reject::Units)
}
