ghost use Rattle.std.specs.Prelude.{ℕ, ◌+◌, ◌-◌, ◌^◌, ◌<◌, ◌≤◌, length, IsTrue, IfSome, SomeIff};
ghost use Rattle.std.specs.Char.{is_ascii_digit};
ghost use Rattle.std.specs.List.{list_all};
ghost use Rattle.std.specs.Str.Parse.{digits_value, digits_value_after};
ghost use Rattle.fx_amounts.specs.Numeral.{is_numeral};

/// The most bytes of a short text: digits that make a number below 10^19, which a `u64` holds.
pub const MOST_SHORT: usize = 19;

/// The number that a short text is the numeral of: decimal digits, without a leading zero other than in `0` itself.
/// `None` where the text is no numeral.
#[tactic(auto, unfolding(crate::specs::Numeral::is_numeral))]
pub fn short_numeral(text: &[u8]) -> Option<u64>
    requires { length text.now ≤ 19 }
    ensures value { SomeIff result (IsTrue (is_numeral text.now)) (digits_value 10 text.now) }
    ensures below { IfSome result (λ value. value < 10 ^ length text.now) }
{
    let leads_with_zero = text.len() > 1 && text[0] == b'0';
    if text.is_empty() || leads_with_zero {
        return None;
    }
    with_digits(0, text)
}

// The number with the digits of a text behind its own, 19 at most with these; `None` where a byte is no digit.
pub(crate) fn with_digits(front: u64, text: &[u8]) -> Option<u64>
    requires short { length text.now ≤ 19 }
    requires fits { front < 10 ^ (19 - length text.now) }
    ensures value { SomeIff result (IsTrue (list_all is_ascii_digit text.now)) (digits_value_after 10 front text.now) }
    ensures below { (digits : ℕ) → front < 10 ^ digits → IfSome result (λ value. value < 10 ^ (digits + length text.now)) }
{
    let mut value = front;
    for byte in text {
        if !byte.is_ascii_digit() {
            return None;
        }
        value = value * 10 + u64::from(byte - b'0');
    }
    Some(value)
}
