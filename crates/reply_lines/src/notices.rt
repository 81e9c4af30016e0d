ghost use Rattle.std.specs.Prelude.{◌≡◌, ◌∷◌, [], ◌<◌, ◌≤◌, ◌++◌, ◌+◌, ◌*◌, ◌^◌, codes, false, length, take};
ghost use Rattle.fx_amounts.specs.Numeral.{numeral};
ghost use Rattle.fx_amounts.specs.Quantity.{IsDecimals};
ghost use Rattle.fx_text.specs.Fields.{fields_text};
ghost use Rattle.order_lines.specs.Words.{word_text, side_word};
ghost use Rattle.reply_lines.specs.Rows.{row};
ghost use Rattle.fx_rules.specs.Session.{IsSender, bank_count, pair_count};
ghost use Rattle.reply_lines.specs.Notices.{booked_pair, level_fields, book_fields, desk_line};
ghost use Rattle.reply_lines.specs.Fills.{trade_fields, amount_fields, AreTextsOf, AreShort};
ghost use Rattle.reply_lines.specs.inside.Fills.{party_of, fill_line};
ghost use Rattle.reply_lines.specs.inside.Replies.{is_of_order, plain_fields};
ghost use Rattle.reply_lines.specs.inside.Telling.{bank_of};

use fx_amounts::{BankId, PairId, Side, Units, base_amount, quote_amount};
use fx_rules::{Command, Fill, Level, Outcome, Session};
use fx_text::{
    LineText, put_byte, put_field, put_name_field, put_number_field, put_price_field, put_wide,
    put_word_field,
};
use order_lines::sender_name;

/// The most bytes of a line that shows no local book, and of what another has beside its levels.
pub(crate) const LINE: usize = 256;

/// The most bytes of a level of a local book: its price and its lots, a space before each.
const LEVEL: usize = 49;

/// Writes the line of the reply to a bank's command `number` into a room of bytes from a place on, with its number `notice` on the desk,
/// where the reply shows no local book, and answers the place behind it.
#[inline(always)]
pub(crate) fn put_reply(
    notice: u128,
    number: u32,
    outcome: &Outcome,
    room: &mut [u8],
    at: usize,
) -> usize
    requires room { at + LINE ≤ length room.old }
    ensures written { take result room.new ≡ take at room.old ++ row (numeral notice) (codes "REPLY" ∷ numeral number ∷ plain_fields outcome.now) }
    ensures within { result ≤ at + LINE }
{
    let end = put_wide(notice, room, at);
    let end = put_count(b"REPLY", number, room, end);
    let end = put_outcome(outcome, room, end);
    put_byte(b'\n', room, end)
}

/// The bytes that a line which shows a local book of these levels has at most.
pub(crate) fn book_room(bids: &[Level], asks: &[Level]) -> usize
    ensures { result < 2 ^ 63 → result ≡ LINE + LEVEL * (length bids.now + length asks.now) }
{
    let levels = bids.len().saturating_add(asks.len());
    levels.saturating_mul(LEVEL).saturating_add(LINE)
}

/// Writes the line of the reply to a bank's command `number` for the local book of a pair, as `put_reply` writes that of another reply.
pub(crate) fn put_book_reply(
    session: &Session,
    notice: u128,
    number: u32,
    pair: PairId,
    bids: &[Level],
    asks: &[Level],
    room: &mut [u8],
    at: usize,
) -> usize
    requires pair { pair < pair_count session.now }
    requires room { at + LINE + LEVEL * (length bids.now + length asks.now) ≤ length room.old }
    ensures written { take result room.new ≡ take at room.old ++ row (numeral notice)
        (codes "REPLY" ∷ numeral number ∷ codes "BOOK" ∷ book_fields session.now pair bids.now asks.now) }
    ensures within { result ≤ at + LINE + LEVEL * (length bids.now + length asks.now) }
{
    let end = put_wide(notice, room, at);
    let end = put_count(b"REPLY", number, room, end);
    let end = put_word_field(b"BOOK", room, end);
    let end = put_book(session, pair, bids, asks, room, end);
    put_byte(b'\n', room, end)
}

/// Writes the fields of an outcome that is no local book.
#[inline(always)]
fn put_outcome(outcome: &Outcome, room: &mut [u8], at: usize) -> usize
    requires room { at + 84 ≤ length room.old }
    ensures written { take result room.new ≡ take at room.old ++ fields_text (plain_fields outcome.now) }
    ensures within { result ≤ at + 84 }
{
    match outcome {
        Outcome::Ordered { filled, rests, .. } => put_counts(b"ORDERED", *filled, *rests, room, at),
        Outcome::Cancelled { left } => put_count(b"CANCELLED", *left, room, at),
        _ => put_other_outcome(outcome, room, at),
    }
}

/// Writes the fields of an outcome that is no local book, and of no order that was swept or taken out. It stands apart since it is seldom
/// called, and `put_outcome` stays small enough to be made part of its callers.
fn put_other_outcome(outcome: &Outcome, room: &mut [u8], at: usize) -> usize
    requires other { is_of_order outcome.now ≡ false }
    requires room { at + 84 ≤ length room.old }
    ensures written { take result room.new ≡ take at room.old ++ fields_text (plain_fields outcome.now) }
    ensures within { result ≤ at + 84 }
{
    match outcome {
        Outcome::Killed => put_word_field(b"KILLED", room, at),
        Outcome::Reduced { left } => put_count(b"REDUCED", *left, room, at),
        Outcome::NotLess { left } => put_count(b"NOTLESS", *left, room, at),
        Outcome::Nothing => put_word_field(b"NOTHING", room, at),
        Outcome::Pulled { count } => put_count(b"PULLED", *count, room, at),
        Outcome::LineSet { limit, .. } => put_units(b"LIMIT", limit.get(), room, at),
        Outcome::TotalSet { limit, .. } => put_units(b"TOTAL", *limit, room, at),
        Outcome::Settled { given, .. } => put_units(b"SETTLED", given.get(), room, at),
        Outcome::Shown { limit, used, eff } => put_line(*limit, *used, *eff, room, at),
        Outcome::Depth { .. } => at,
        Outcome::Rejected { reason } => put_count(b"BAD", u32::from(reason.code()), room, at),
        Outcome::Ordered { .. } | Outcome::Cancelled { .. } => unreachable!(),
    }
}

/// Writes a word and a number.
#[inline(always)]
fn put_count<const N: usize>(word: &[u8; N], count: u32, room: &mut [u8], at: usize) -> usize
    requires word { N ≤ 20 }
    requires room { at + 42 ≤ length room.old }
    ensures written { take result room.new ≡ take at room.old ++ fields_text (word.now ∷ numeral count ∷ []) }
    ensures within { result ≤ at + 42 }
{
    put_units(word, u64::from(count), room, at)
}

/// Writes a word and two numbers.
#[inline(always)]
fn put_counts<const N: usize>(
    word: &[u8; N],
    first: u32,
    second: u32,
    room: &mut [u8],
    at: usize,
) -> usize
    requires word { N ≤ 20 }
    requires room { at + 63 ≤ length room.old }
    ensures written { take result room.new ≡ take at room.old ++ fields_text (word.now ∷ numeral first ∷ numeral second ∷ []) }
    ensures within { result ≤ at + 63 }
{
    let end = put_count(word, first, room, at);
    put_number_field(u64::from(second), room, end)
}

/// Writes a word and credit units.
#[inline(always)]
fn put_units<const N: usize>(word: &[u8; N], units: u64, room: &mut [u8], at: usize) -> usize
    requires word { N ≤ 20 }
    requires room { at + 42 ≤ length room.old }
    ensures written { take result room.new ≡ take at room.old ++ fields_text (word.now ∷ numeral units ∷ []) }
    ensures within { result ≤ at + 42 }
{
    let end = put_word_field(word, room, at);
    put_number_field(units, room, end)
}

/// Writes a limit, what is used, and the line between two banks.
fn put_line(limit: Units, used: Units, eff: Units, room: &mut [u8], at: usize) -> usize
    requires room { at + 84 ≤ length room.old }
    ensures written { take result room.new ≡ take at room.old ++ fields_text (codes "SHOWN" ∷ numeral limit ∷ numeral used ∷ numeral eff ∷ []) }
    ensures within { result ≤ at + 84 }
{
    let end = put_units(b"SHOWN", limit.get(), room, at);
    let end = put_number_field(used.get(), room, end);
    put_number_field(eff.get(), room, end)
}

/// The pair whose book a command asks for; the first pair where it asks for none.
pub(crate) fn booked_pair(command: &Command) -> PairId
    ensures { result ≡ booked_pair command.now }
{
    match command {
        Command::Book { pair } => *pair,
        _ => PairId::at(0),
    }
}

/// Writes the fields of a local book, each behind a space: its pair, and the levels of both sides.
pub(crate) fn put_book(
    session: &Session,
    pair: PairId,
    bids: &[Level],
    asks: &[Level],
    room: &mut [u8],
    at: usize,
) -> usize
    requires pair { pair < pair_count session.now }
    requires room { at + 18 + LEVEL * (length bids.now + length asks.now) ≤ length room.old }
    ensures written { take result room.new ≡ take at room.old ++ fields_text (book_fields session.now pair bids.now asks.now) }
    ensures within { result ≤ at + 18 + LEVEL * (length bids.now + length asks.now) }
{
    let rule = session.rule(pair);
    let end = put_field(&rule.text(), room, at);
    let end = put_word_field(b"BIDS", room, end);
    let end = put_levels(rule.decimals, bids, room, end);
    let end = put_word_field(b"ASKS", room, end);
    put_levels(rule.decimals, asks, room, end)
}

/// Writes the price and the lots of each level.
fn put_levels(decimals: u8, levels: &[Level], room: &mut [u8], at: usize) -> usize
    requires decimals { IsDecimals decimals }
    requires room { at + LEVEL * length levels.now ≤ length room.old }
    ensures written { take result room.new ≡ take at room.old ++ fields_text (level_fields decimals levels.now) }
    ensures within { result ≤ at + LEVEL * length levels.now }
{
    let mut end = at;
    for level in levels {
        end = put_price_field(level.price, decimals, room, end);
        end = put_number_field(level.lots, room, end);
    }
    end
}

/// A bank's part in a fill.
#[derive(Clone, Copy, Debug, PartialEq, Eq)]
pub enum FillPart {
    /// Its order was swept.
    Taker,
    /// Its order rested.
    Maker,
}

impl FillPart {
    /// The bank with this part in a fill.
    pub(crate) fn bank(self, fill: &Fill) -> BankId
        ensures { result ≡ bank_of self fill.now }
    {
        match self {
            FillPart::Taker => fill.taker,
            FillPart::Maker => fill.maker,
        }
    }
}

/// A fill as one of its two banks sees it: its own order's number and side, and the other bank.
#[derive(Clone, Copy)]
pub(crate) struct Party {
    number: u32,
    side: Side,
    other: BankId,
}

impl Party {
    /// The fill as the bank with this part in it sees it.
    pub(crate) fn of(part: FillPart, fill: &Fill) -> Party
        ensures { result ≡ party_of part fill.now }
    {
        match part {
            FillPart::Taker => Party {
                number: fill.taker_number,
                side: fill.taker_side,
                other: fill.maker,
            },
            FillPart::Maker => Party {
                number: fill.maker_number,
                side: fill.taker_side.opposite(),
                other: fill.taker,
            },
        }
    }
}

/// What the two notices of a fill have in common, so that it is made once for both.
#[derive(Drop)]
pub(crate) struct FillTexts {
    /// The fill's pair, lots and price, a space before each.
    trade: LineText,
    /// Its base and quote amounts, a space before each.
    amounts: LineText,
}

impl FillTexts {
    /// Those of no fill yet.
    pub(crate) fn new() -> FillTexts {
        FillTexts {
            trade: LineText::new(),
            amounts: LineText::new(),
        }
    }

    /// Makes those of a fill, in place of what there was.
    pub(crate) fn make(&mut self, session: &Session, fill: &Fill)
        requires pair { fill.now.pair < pair_count session.now }
        ensures texts { AreTextsOf session.now fill.now self.new }
    {
        make_trade(session, fill, &mut self.trade);
        make_amounts(session, fill, &mut self.amounts);
    }
}

/// Writes the line of a fill as one of its banks sees it into a room of bytes from a place on, with its number on the desk, and answers
/// the place behind it.
pub(crate) fn put_fill(
    session: &Session,
    number: u128,
    party: &Party,
    texts: &FillTexts,
    room: &mut [u8],
    at: usize,
) -> usize
    requires other { party.now.other < bank_count session.now }
    requires short { AreShort texts.now }
    requires room { at + LINE ≤ length room.old }
    ensures written { take result room.new ≡ take at room.old ++ fill_line session.now number party.now texts.now }
    ensures within { result ≤ at + LINE }
{
    let end = put_wide(number, room, at);
    let end = put_own_side(party.number, party.side, room, end);
    let end = texts.trade.put(room, end);
    let end = put_name_field(session.name(party.other), room, end);
    let end = texts.amounts.put(room, end);
    put_byte(b'\n', room, end)
}

/// Writes the word of a fill, and the number and side of the bank's own order.
#[inline(always)]
fn put_own_side(own_number: u32, side: Side, room: &mut [u8], at: usize) -> usize
    requires room { at + 63 ≤ length room.old }
    ensures written { take result room.new ≡ take at room.old ++ fields_text (codes "FILL" ∷ numeral own_number ∷ word_text (side_word side) ∷ []) }
    ensures within { result ≤ at + 63 }
{
    let end = put_count(b"FILL", own_number, room, at);
    put_side(side, room, end)
}

/// Writes the word of a side.
#[inline(always)]
fn put_side(side: Side, room: &mut [u8], at: usize) -> usize
    requires room { at + 5 ≤ length room.old }
    ensures written { take result room.new ≡ take at room.old ++ 32 ∷ word_text (side_word side) }
    ensures within { result ≤ at + 5 }
{
    match side {
        Side::Buy => put_word_field(b"BUY", room, at),
        Side::Sell => put_word_field(b"SELL", room, at),
    }
}

/// Makes the text of a fill's pair, lots and price.
fn make_trade(session: &Session, fill: &Fill, text: &mut LineText)
    requires pair { fill.now.pair < pair_count session.now }
    ensures made { text.new ≡ fields_text (trade_fields session.now fill.now) }
    ensures few { length (fields_text (trade_fields session.now fill.now)) ≤ 70 }
{
    let rule = session.rule(fill.pair);
    text.clear();
    text.push_field(&rule.text());
    text.push_number_field(u64::from(fill.lots.count()));
    text.push_price_field(fill.price, rule.decimals);
}

/// Makes the text of a fill's base and quote amounts.
fn make_amounts(session: &Session, fill: &Fill, text: &mut LineText)
    requires pair { fill.now.pair < pair_count session.now }
    ensures made { text.new ≡ fields_text (amount_fields session.now fill.now) }
    ensures few { length (fields_text (amount_fields session.now fill.now)) ≤ 61 }
{
    let rule = session.rule(fill.pair);
    text.clear();
    text.push_number_field(base_amount(fill.lots, rule.lot));
    text.push_wide_field(quote_amount(fill.lots, rule.lot, fill.price, rule.decimals));
}

/// Makes the line that begins a sender's desk.
pub(crate) fn make_desk(session: &Session, sender: BankId, count: u128, line: &mut LineText)
    requires { IsSender session.now sender }
    ensures { line.new ≡ desk_line session.now sender count }
{
    line.clear();
    line.push(b"DESK");
    line.push_field(sender_name(session, sender));
    line.push_wide_field(count);
    line.push_byte(b'\n');
}

/// Makes the line of a word and a number.
pub(crate) fn make_count(word: &[u8], count: u128, line: &mut LineText)
    requires { length word.now ≤ 20 }
    ensures { line.new ≡ row word.now (numeral count ∷ []) }
{
    line.clear();
    line.push(word);
    line.push_wide_field(count);
    line.push_byte(b'\n');
}
