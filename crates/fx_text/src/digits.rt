ghost use Rattle.std.specs.Prelude.{◌≡◌, ◌+◌, ◌/◌, ◌%◌, ◌<◌, ◌≤◌, ◌^◌, [], ◌∷◌, ◌++◌, length, take};
ghost use Rattle.fx_amounts.specs.Numeral.{numeral};
ghost use Rattle.fx_amounts.specs.PriceText.{last_digits, price_text};
ghost use Rattle.fx_amounts.specs.Quantity.{IsDecimals};

use fx_amounts::Price;
use itoa::Buffer;

// Each call writes into a room of bytes from a place on, and those that do not always write as many answer the place behind them. What
// stands before the place stays.

// The two digits of each number below 100.
static PAIRS: [u8; 200] =
    *b"00010203040506070809101112131415161718192021222324252627282930313233343536373839404142434445464748495051525354555657585960616263646566676869707172737475767778798081828384858687888990919293949596979899";

#[inline(always)]
fn put_pair(pair: u64, room: &mut [u8], at: usize)
    requires pair { pair < 100 }
    requires room { at + 2 ≤ length room.old }
    ensures { take (at + 2) room.new ≡ take at room.old ++ (48 + pair / 10) ∷ (48 + pair % 10) ∷ [] }
{
    let from = pair as usize * 2;
    let (tens, ones) = (PAIRS[from], PAIRS[from + 1]);
    room[at] = tens;
    room[at + 1] = ones;
}

/// The last digit of a number.
#[inline(always)]
fn put_one(value: u64, room: &mut [u8], at: usize)
    requires room { at + 1 ≤ length room.old }
    ensures { take (at + 1) room.new ≡ take at room.old ++ last_digits 1 value }
{
    room[at] = b'0' + (value % 10) as u8;
}

/// The last two digits of a number.
#[inline(always)]
fn put_two(value: u64, room: &mut [u8], at: usize)
    requires room { at + 2 ≤ length room.old }
    ensures { take (at + 2) room.new ≡ take at room.old ++ last_digits 2 value }
{
    put_pair(value % 100, room, at);
}

/// The last four digits of a number.
#[inline(always)]
fn put_four(value: u64, room: &mut [u8], at: usize)
    requires room { at + 4 ≤ length room.old }
    ensures { take (at + 4) room.new ≡ take at room.old ++ last_digits 4 value }
{
    put_two(value / 100, room, at);
    put_two(value, room, at + 2);
}

/// A number with four digits at most.
#[inline(always)]
fn put_short(value: u64, room: &mut [u8], at: usize) -> usize
    requires short { value < 10_000 }
    requires room { at + 4 ≤ length room.old }
    ensures written { take result room.new ≡ take at room.old ++ numeral value }
    ensures within { result ≤ at + 4 }
{
    if value < 10 {
        room[at] = b'0' + value as u8;
        return at + 1;
    }
    if value < 100 {
        put_pair(value, room, at);
        return at + 2;
    }
    if value < 1_000 {
        room[at] = b'0' + (value / 100) as u8;
        put_pair(value % 100, room, at + 1);
        return at + 3;
    }
    put_pair(value / 100, room, at);
    put_pair(value % 100, room, at + 2);
    at + 4
}

/// A number with eight digits at most, and more than four.
#[inline(always)]
fn put_eight(value: u64, room: &mut [u8], at: usize) -> usize
    requires few { value < 100_000_000 }
    requires many { 10_000 ≤ value }
    requires room { at + 8 ≤ length room.old }
    ensures written { take result room.new ≡ take at room.old ++ numeral value }
    ensures within { result ≤ at + 8 }
{
    let end = put_short(value / 10_000, room, at);
    put_four(value, room, end);
    end + 4
}

/// A number with eight digits at most.
fn put_few(value: u64, room: &mut [u8], at: usize) -> usize
    requires few { value < 100_000_000 }
    requires room { at + 8 ≤ length room.old }
    ensures written { take result room.new ≡ take at room.old ++ numeral value }
    ensures within { result ≤ at + 8 }
{
    if value < 10_000 {
        put_short(value, room, at)
    } else {
        put_eight(value, room, at)
    }
}

/// A number with sixteen digits at most, and more than eight.
fn put_sixteen(value: u64, room: &mut [u8], at: usize) -> usize
    requires few { value < 10_000_000_000_000_000 }
    requires many { 100_000_000 ≤ value }
    requires room { at + 16 ≤ length room.old }
    ensures written { take result room.new ≡ take at room.old ++ numeral value }
    ensures within { result ≤ at + 16 }
{
    let end = put_few(value / 100_000_000, room, at);
    put_four(value / 10_000, room, end);
    put_four(value, room, end + 4);
    end + 8
}

/// A number with more than four digits.
fn put_long(value: u64, room: &mut [u8], at: usize) -> usize
    requires long { 10_000 ≤ value }
    requires room { at + 20 ≤ length room.old }
    ensures written { take result room.new ≡ take at room.old ++ numeral value }
    ensures within { result ≤ at + 20 }
{
    if value < 100_000_000 {
        return put_eight(value, room, at);
    }
    if value < 10_000_000_000_000_000 {
        return put_sixteen(value, room, at);
    }
    let mut buffer = Buffer::new();
    put_text(buffer.format(value).as_bytes(), room, at)
}

/// A number's decimal digits, 20 at most.
#[inline(always)]
pub(crate) fn put_number(value: u64, room: &mut [u8], at: usize) -> usize
    requires room { at + 20 ≤ length room.old }
    ensures written { take result room.new ≡ take at room.old ++ numeral value }
    ensures within { result ≤ at + 20 }
{
    if value < 10_000 {
        put_short(value, room, at)
    } else {
        put_long(value, room, at)
    }
}

/// The most digits of a large number.
pub const WIDE_DIGITS: usize = 39;

/// A large number's decimal digits, `WIDE_DIGITS` at most.
#[inline(always)]
pub fn put_wide(value: u128, room: &mut [u8], at: usize) -> usize
    requires room { at + WIDE_DIGITS ≤ length room.old }
    ensures written { take result room.new ≡ take at room.old ++ numeral value }
    ensures within { result ≤ at + WIDE_DIGITS }
{
    match u64::try_from(value) {
        Ok(small) => put_number(small, room, at),
        Err(_) => put_widest(value, room, at),
    }
}

/// A number of more than 64 bits.
fn put_widest(value: u128, room: &mut [u8], at: usize) -> usize
    requires room { at + WIDE_DIGITS ≤ length room.old }
    ensures written { take result room.new ≡ take at room.old ++ numeral value }
    ensures within { result ≤ at + WIDE_DIGITS }
{
    let mut buffer = Buffer::new();
    put_text(buffer.format(value).as_bytes(), room, at)
}

/// A price's one spelling, where a tick is the last of `decimals` decimal places: 27 bytes at most.
#[inline(always)]
pub(crate) fn put_price(price: Price, decimals: u8, room: &mut [u8], at: usize) -> usize
    requires decimals { IsDecimals decimals }
    requires room { at + 27 ≤ length room.old }
    ensures written { take result room.new ≡ take at room.old ++ price_text decimals price }
    ensures within { result ≤ at + 27 }
{
    let ticks = u64::from(price.ticks());
    if decimals == 0 {
        return put_number(ticks, room, at);
    }
    let point = put_number(ticks / unit_of(decimals), room, at);
    let places = put_byte(b'.', room, point);
    put_places(ticks, decimals, room, places);
    places + usize::from(decimals)
}

/// The last digits of a number, so many.
#[inline(always)]
fn put_places(value: u64, count: u8, room: &mut [u8], at: usize)
    requires some { 1 ≤ count }
    requires few { count ≤ 6 }
    requires room { at + count ≤ length room.old }
    ensures { take (at + count) room.new ≡ take at room.old ++ last_digits count value }
{
    match count {
        1 => put_one(value, room, at),
        2 => put_two(value, room, at),
        3 => {
            put_one(value / 100, room, at);
            put_two(value, room, at + 1);
        }
        4 => put_four(value, room, at),
        5 => {
            put_one(value / 10_000, room, at);
            put_four(value, room, at + 1);
        }
        _ => {
            put_two(value / 10_000, room, at);
            put_four(value, room, at + 2);
        }
    }
}

// The ticks of a price of 1.
fn unit_of(decimals: u8) -> u64
    requires { IsDecimals decimals }
    ensures value { result ≡ 10 ^ decimals }
    ensures some { 0 < result }
{
    match decimals {
        0 => 1,
        1 => 10,
        2 => 100,
        3 => 1_000,
        4 => 10_000,
        5 => 100_000,
        _ => 1_000_000,
    }
}

/// A text.
#[inline(always)]
pub fn put_text(text: &[u8], room: &mut [u8], at: usize) -> usize
    requires room { at + length text.now ≤ length room.old }
    ensures written { take result room.new ≡ take at room.old ++ text.now }
    ensures end { result ≡ at + length text.now }
{
    let end = at + text.len();
    room[at..end].copy_from_slice(text);
    end
}

/// A word. Its length is fixed, so that it is written without a call.
#[inline(always)]
fn put_word<const N: usize>(word: &[u8; N], room: &mut [u8], at: usize) -> usize
    requires room { at + N ≤ length room.old }
    ensures written { take result room.new ≡ take at room.old ++ word.now }
    ensures end { result ≡ at + N }
{
    room[at..at + N].copy_from_slice(word);
    at + N
}

/// A byte.
#[inline(always)]
pub fn put_byte(byte: u8, room: &mut [u8], at: usize) -> usize
    requires room { at + 1 ≤ length room.old }
    ensures written { take result room.new ≡ take at room.old ++ byte ∷ [] }
    ensures end { result ≡ at + 1 }
{
    room[at] = byte;
    at + 1
}

/// A text behind a space.
#[inline(always)]
pub fn put_field(text: &[u8], room: &mut [u8], at: usize) -> usize
    requires room { at + 1 + length text.now ≤ length room.old }
    ensures written { take result room.new ≡ take at room.old ++ 32 ∷ text.now }
    ensures end { result ≡ at + 1 + length text.now }
{
    let end = put_byte(b' ', room, at);
    put_text(text, room, end)
}

/// A name behind a space. One of three or four letters is written without a call.
#[inline(always)]
pub fn put_name_field(name: &[u8], room: &mut [u8], at: usize) -> usize
    requires room { at + 1 + length name.now ≤ length room.old }
    ensures written { take result room.new ≡ take at room.old ++ 32 ∷ name.now }
    ensures end { result ≡ at + 1 + length name.now }
{
    match name {
        [a, b, c] => put_word(&[b' ', *a, *b, *c], room, at),
        [a, b, c, d] => put_word(&[b' ', *a, *b, *c, *d], room, at),
        _ => put_field(name, room, at),
    }
}

/// A word behind a space. Its length is fixed, as that of `put_word`.
#[inline(always)]
pub fn put_word_field<const N: usize>(word: &[u8; N], room: &mut [u8], at: usize) -> usize
    requires room { at + 1 + N ≤ length room.old }
    ensures written { take result room.new ≡ take at room.old ++ 32 ∷ word.now }
    ensures end { result ≡ at + 1 + N }
{
    let end = put_byte(b' ', room, at);
    put_word(word, room, end)
}

/// A number behind a space.
#[inline(always)]
pub fn put_number_field(value: u64, room: &mut [u8], at: usize) -> usize
    requires room { at + 21 ≤ length room.old }
    ensures written { take result room.new ≡ take at room.old ++ 32 ∷ numeral value }
    ensures within { result ≤ at + 21 }
{
    let end = put_byte(b' ', room, at);
    put_number(value, room, end)
}

/// A price behind a space, where a tick is the last of `decimals` decimal places.
#[inline(always)]
pub fn put_price_field(price: Price, decimals: u8, room: &mut [u8], at: usize) -> usize
    requires decimals { IsDecimals decimals }
    requires room { at + 28 ≤ length room.old }
    ensures written { take result room.new ≡ take at room.old ++ 32 ∷ price_text decimals price }
    ensures within { result ≤ at + 28 }
{
    let end = put_byte(b' ', room, at);
    put_price(price, decimals, room, end)
}
