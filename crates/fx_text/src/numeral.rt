ghost use Rattle.std.specs.Prelude.{◌≡◌, ℕ, ◌+◌, ◌-◌, ◌*◌, ◌^◌, ◌<◌, ◌≤◌, length, IfSome, IsTrue, SomeIff};
ghost use Rattle.std.specs.Char.{is_ascii_digit};
ghost use Rattle.fx_amounts.specs.Numeral.{numeral};
ghost use Rattle.fx_text.specs.Number.{number_of};

use fx_amounts::{MOST_SHORT, short_numeral};

/// The number from `least` to `most` that a text writes: decimal digits, without a leading zero other than in
/// `0` itself. `None` where the text is no such number. The text may be of any length.
pub fn number(text: &[u8], least: u64, most: u64) -> Option<u64>
    ensures reads { result ≡ number_of least most text.now }
    ensures least { IfSome result (λ value. least ≤ value) }
    ensures most { IfSome result (λ value. value ≤ most) }
    ensures spelling { IfSome result (λ value. text.now ≡ numeral value) }
    ensures spelled { (value : ℕ) → text.now ≡ numeral value → least ≤ value → value ≤ most → result ≡ Some value }
{
    number_within(text, least, most)
}

fn number_within(text: &[u8], least: u64, most: u64) -> Option<u64>
    ensures { result ≡ number_of least most text.now }
{
    match value_of(text) {
        Some(value) if least <= value && value <= most => Some(value),
        _ => None,
    }
}

// The number that the text writes, where it is below 2^64.
fn value_of(text: &[u8]) -> Option<u64>
    ensures { result ≡ number_of 0 (2 ^ 64 - 1) text.now }
{
    if text.len() <= MOST_SHORT {
        short_numeral(text)
    } else {
        long_value(text)
    }
}

// The number that a text of more than 19 bytes writes, where it is below 2^64. It is none where a zero leads it.
fn long_value(text: &[u8]) -> Option<u64>
    requires { 19 < length text.now }
    ensures { result ≡ number_of 0 (2 ^ 64 - 1) text.now }
{
    if text[0] == b'0' {
        return None;
    }
    let mut value = 0u64;
    for byte in text {
        value = with_digit(value, *byte)?;
    }
    Some(value)
}

// The number with one digit more behind it.
fn with_digit(value: u64, byte: u8) -> Option<u64>
    ensures { SomeIff result (IsTrue (is_ascii_digit byte) × (value * 10 + (byte - 48) < 2 ^ 64)) (value * 10 + (byte - 48)) }
{
    if !byte.is_ascii_digit() {
        return None;
    }
    value.checked_mul(10)?.checked_add(u64::from(byte - b'0'))
}
