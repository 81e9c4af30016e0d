ghost use Rattle.std.specs.Prelude.{◌≡◌, ◌≢◌, ℕ, ◌+◌, ◌-◌, ◌<◌, ◌≤◌, ◌^◌, ◌∷◌, ◌++◌, true, length, take, slice_index, IfSome, IsTrue};
ghost use Rattle.std.specs.Char.{is_ascii_digit};
ghost use Rattle.std.specs.List.{list_all};
ghost use Rattle.std.specs.Str.Parse.{digits_value_after};
ghost use Rattle.fx_amounts.specs.Numeral.{numeral};
ghost use Rattle.fx_amounts.specs.Price.{IsPrice};
ghost use Rattle.fx_amounts.specs.PriceText.{price_text};
ghost use Rattle.fx_amounts.specs.Quantity.{IsDecimals, IsLots};
ghost use Rattle.fx_rules.specs.Session.{pair_count, pair_name};
ghost use Rattle.fx_rules.specs.Step.{IsNumber};
ghost use Rattle.order_lines.specs.Words.{life_text, word_text};

use crate::word::Word;
use fx_amounts::{Lots, PairId, Price};
use fx_rules::{Life, Session};

// These read a field that a text begins with, in its one spelling, up to the byte `end`, and answer what stands behind that byte too;
// `None` where the text begins otherwise. Numbers are made as they are walked, in one pass.

/// How far behind its least end a name may end: no name has more bytes than 16.
const NEAR: usize = 16;

/// The bytes of the shortest name.
pub(crate) const SHORTEST: usize = 3;

/// The bytes of a pair, as `EUR/USD`.
const PAIR: usize = 7;

/// The most digits of a number of lots.
pub(crate) const LOTS_DIGITS: usize = 7;

/// The most digits of an order's number, and of the whole part of a price.
const NUMBER_DIGITS: usize = 10;

/// The most digits of a limit.
pub(crate) const LIMIT_DIGITS: usize = 16;

/// Reads a price with so many decimal places: its ticks, which may be out of range, and what stands behind the byte `end`. It is called, and
/// not made part of its callers, so that its loops keep what they need in registers.
#[inline(never)]
pub(crate) fn ticks_before(text: &[u8], places: usize, end: u8) -> Option<(u64, &[u8])>
    requires { IsDecimals places }
    ensures { IfSome result (λ found. text.now ≡ price_text places found.0 ++ end ∷ found.1.now) }
{
    if places == 0 {
        let (ticks, behind) = number_before(text, NUMBER_DIGITS, end)?;
        return Some((ticks, behind));
    }
    let (whole, fraction) = whole_before(text)?;
    let ticks = places_from(whole, fraction, places)?;
    let behind = behind_byte(fraction, places, end)?;
    Some((ticks, behind))
}

/// Reads the whole part of a price, and answers what stands behind its point too. Most have one digit.
#[inline(always)]
fn whole_before(text: &[u8]) -> Option<(u64, &[u8])>
    ensures spelled { IfSome result (λ found. text.now ≡ numeral found.0 ++ 46 ∷ found.1.now) }
    ensures below { IfSome result (λ found. found.0 < 10 ^ 10) }
{
    match text {
        [digit, b'.', fraction @ ..] if digit.is_ascii_digit() => {
            Some((u64::from(*digit - b'0'), fraction))
        }
        _ => number_before(text, NUMBER_DIGITS, b'.'),
    }
}

/// The number that the first `places` bytes of a text make behind the digits of `front`; `None` where not all of them are digits. Each
/// number of places has its own `exact_digits`, whose loop has a fixed number of turns.
#[inline(always)]
fn places_from(front: u64, text: &[u8], places: usize) -> Option<u64>
    requires some { 1 ≤ places }
    requires few { IsDecimals places }
    requires fits { front < 10 ^ (19 - places) }
    ensures within { IfSome result (λ _. places ≤ length text.now) }
    ensures digits { IfSome result (λ _. list_all is_ascii_digit (take places text.now) ≡ true) }
    ensures value { IfSome result (λ value. value ≡ digits_value_after 10 front (take places text.now)) }
{
    match places {
        1 => exact_digits::<1>(front, text),
        2 => exact_digits::<2>(front, text),
        3 => exact_digits::<3>(front, text),
        4 => exact_digits::<4>(front, text),
        5 => exact_digits::<5>(front, text),
        _ => exact_digits::<6>(front, text),
    }
}

/// The number that the first `N` bytes of a text make behind the digits of `front`; `None` where not all of them are digits.
#[inline(always)]
fn exact_digits<const N: usize>(front: u64, text: &[u8]) -> Option<u64>
    requires few { N ≤ 19 }
    requires fits { front < 10 ^ (19 - N) }
    ensures within { IfSome result (λ _. N ≤ length text.now) }
    ensures digits { IfSome result (λ _. list_all is_ascii_digit (take N text.now) ≡ true) }
    ensures value { IfSome result (λ value. value ≡ digits_value_after 10 front (take N text.now)) }
{
    let digits = text.first_chunk::<N>()?;
    let mut value = front;
    for at in 0..N {
        let byte = digits[at];
        if !byte.is_ascii_digit() {
            return None;
        }
        value = value * 10 + u64::from(byte - b'0');
    }
    Some(value)
}

/// The price of so many ticks, where they are in range.
pub(crate) fn price_of(ticks: u64) -> Option<Price>
    ensures { IfSome result (λ price. IsPrice price × (price ≡ ticks)) }
{
    Price::new(u32::try_from(ticks).ok()?)
}

/// So many lots, where they are in range.
pub(crate) fn lots_of(count: u64) -> Option<Lots>
    ensures { IfSome result (λ lots. IsLots lots × (lots ≡ count)) }
{
    Lots::new(u32::try_from(count).ok()?)
}

/// Reads the number of an order, which is not 0, and answers what stands behind the byte `end` too.
pub(crate) fn order_number_before(text: &[u8], end: u8) -> Option<(u32, &[u8])>
    ensures { IfSome result (λ found. IsNumber found.0 × (text.now ≡ numeral found.0 ++ end ∷ found.1.now)) }
{
    let (value, behind) = number_before(text, NUMBER_DIGITS, end)?;
    let number = u32::try_from(value).ok()?;
    if number == 0 {
        return None;
    }
    Some((number, behind))
}

/// Reads the word of a command and the space behind it, and answers what stands behind that too. The words of version 2 are not among
/// these: their lines are read field by field, as any other line.
#[inline(always)]
pub(crate) fn word_before(text: &[u8]) -> Option<(Word, &[u8])>
    ensures { IfSome result (λ found. text.now ≡ word_text found.0 ++ 32 ∷ found.1.now) }
{
    match text {
        [b'B', b'U', b'Y', b' ', behind @ ..] => Some((Word::Buy, behind)),
        [b'S', b'E', b'L', b'L', b' ', behind @ ..] => Some((Word::Sell, behind)),
        [b'C', b'A', b'N', b'C', b'E', b'L', b' ', behind @ ..] => Some((Word::Cancel, behind)),
        [b'R', b'E', b'D', b'U', b'C', b'E', b' ', behind @ ..] => Some((Word::Reduce, behind)),
        [b'P', b'U', b'L', b'L', b' ', behind @ ..] => Some((Word::Pull, behind)),
        [b'L', b'I', b'N', b'E', b' ', behind @ ..] => Some((Word::Line, behind)),
        [b'S', b'H', b'O', b'W', b' ', behind @ ..] => Some((Word::Show, behind)),
        [b'B', b'O', b'O', b'K', b' ', behind @ ..] => Some((Word::Book, behind)),
        _ => None,
    }
}

/// Reads the life of an order and the line feed behind it, and answers what stands behind that too.
#[inline(always)]
pub(crate) fn life_before(text: &[u8]) -> Option<(Life, &[u8])>
    ensures { IfSome result (λ found. text.now ≡ life_text found.0 ++ 10 ∷ found.1.now) }
{
    match text {
        [b'D', b'A', b'Y', b'\n', behind @ ..] => Some((Life::Day, behind)),
        [b'I', b'O', b'C', b'\n', behind @ ..] => Some((Life::Ioc, behind)),
        [b'F', b'O', b'K', b'\n', behind @ ..] => Some((Life::Fok, behind)),
        _ => None,
    }
}

/// Reads a number of so many digits at most, and answers what stands behind the byte `end` too.
#[inline(always)]
pub(crate) fn number_before(text: &[u8], most: usize, end: u8) -> Option<(u64, &[u8])>
    requires { most ≤ 19 }
    ensures spelled { IfSome result (λ found. text.now ≡ numeral found.0 ++ end ∷ found.1.now) }
    ensures below { IfSome result (λ found. found.0 < 10 ^ most) }
{
    let (value, digits) = digits_from(0, text, most);
    if !is_number(text, digits) {
        return None;
    }
    let behind = behind_byte(text, digits, end)?;
    Some((value, behind))
}

/// Whether so many digits at a text's front are a number's one spelling: one at least, and no leading zero but in `0` itself.
fn is_number(text: &[u8], digits: usize) -> bool
    requires { digits ≤ length text.now }
    ensures some { IsTrue result → 1 ≤ digits }
    ensures leads { IsTrue result → 1 < digits → slice_index text.now 0 ≢ 48 }
{
    digits > 0 && (text[0] != b'0' || digits == 1)
}

/// The number that the digits at a text's front make behind those of `front`, `most` of them at most, and how many they are.
#[inline(always)]
fn digits_from(front: u64, text: &[u8], most: usize) -> (u64, usize)
    requires most { most ≤ 19 }
    requires fits { front < 10 ^ (19 - most) }
    ensures few { result.1 ≤ most }
    ensures within { result.1 ≤ length text.now }
    ensures digits { list_all is_ascii_digit (take result.1 text.now) ≡ true }
    ensures value { result.0 ≡ digits_value_after 10 front (take result.1 text.now) }
    ensures below { (digits : ℕ) → front < 10 ^ digits → result.0 < 10 ^ (digits + result.1) }
{
    let mut value = front;
    let end = text.len().min(most);
    for at in 0..end {
        let byte = text[at];
        if !byte.is_ascii_digit() {
            return (value, at);
        }
        value = value * 10 + u64::from(byte - b'0');
    }
    (value, end)
}

/// What stands behind the byte at a place of a text, where it is this byte.
fn behind_byte(text: &[u8], at: usize, byte: u8) -> Option<&[u8]>
    ensures { IfSome result (λ behind. text.now ≡ take at text.now ++ byte ∷ behind.now) }
{
    if at >= text.len() || text[at] != byte {
        return None;
    }
    let (_, rest) = text.split_at(at);
    let (_, behind) = rest.split_at(1);
    Some(behind)
}

/// The pair that a text begins with, and what stands behind the byte `end`.
#[inline(always)]
pub(crate) fn pair_before<'p>(
    session: &Session,
    text: &'p [u8],
    end: u8,
) -> Option<(PairId, &'p [u8])>
    ensures within { IfSome result (λ found. found.0 < pair_count session.now) }
    ensures spelled { IfSome result (λ found. text.now ≡ pair_name session.now found.0 ++ end ∷ found.1.now) }
{
    if text.len() <= PAIR || text[PAIR] != end {
        return None;
    }
    let pair = session.pair_in_front(text)?;
    let (_, behind) = text.split_at(PAIR + 1);
    Some((pair, behind))
}

/// The field that a text begins with, of that many bytes at least, and what stands behind the byte `end`.
pub(crate) fn field_before(text: &[u8], least: usize, end: u8) -> Option<(&[u8], &[u8])>
    ensures { IfSome result (λ found. text.now ≡ found.0.now ++ end ∷ found.1.now) }
{
    let at = place_from(text, least, end)?;
    let (field, rest) = text.split_at(at);
    let (_, behind) = rest.split_at(1);
    Some((field, behind))
}

/// The first place, from that one on and near to it, where a byte stands. It is called so that each field is walked by one small
/// loop; made part of its callers it takes three times as long.
#[inline(never)]
fn place_from(text: &[u8], from: usize, byte: u8) -> Option<usize>
    ensures { IfSome result (λ at. (at < length text.now) × (slice_index text.now at ≡ byte)) }
{
    let most = text.len().min(from.saturating_add(NEAR));
    for at in from..most {
        if text[at] == byte {
            return Some(at);
        }
    }
    None
}
