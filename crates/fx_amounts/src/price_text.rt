ghost use Rattle.std.specs.Prelude.{◌≡◌, ℕ, ◌-◌, ◌^◌, ◌≤◌, ◌↔◌, min, length, IsTrue, IfOk, SomeIff};
ghost use Rattle.std.specs.Char.{is_ascii_digit};
ghost use Rattle.std.specs.List.{list_all};
ghost use Rattle.fx_amounts.specs.Numeral.{is_numeral};
ghost use Rattle.fx_amounts.specs.Price.{IsPrice};
ghost use Rattle.fx_amounts.specs.PriceText.{fault_code, price_text, is_price_text, ticks_of, price_of_ticks, price_of, IsPriceText};

use crate::numeral::{MOST_SHORT, short_numeral, with_digits};
use crate::price::Price;

/// Why a text is no price.
#[derive(Clone, Copy, Debug, PartialEq, Eq)]
pub enum PriceFault {
    /// The text is not in the form of a price.
    Form = 1,
    /// The text is in that form, and its ticks are out of range.
    Range = 2,
}

impl PriceFault {
    /// The number of the fault: 1 for `Form`, 2 for `Range`.
    pub fn code(self) -> u8
        ensures { result ≡ fault_code self }
    {
        self as u8
    }
}

/// The price that a text says, where a tick is the last of `decimals` decimal places.
///
/// The form is digits without a leading zero, other than `0` itself, and, where there are decimals, a point
/// and exactly that many digits. The text may be of any length, and `decimals` any number.
pub fn price_from(text: &[u8], decimals: u8) -> Result<Price, PriceFault>
    ensures reads { result ≡ price_of decimals text.now }
    ensures value { IfOk result (λ price. text.now ≡ price_text decimals price) }
    ensures spelled { (ticks : ℕ) → text.now ≡ price_text decimals ticks → result ≡ price_of_ticks ticks }
    ensures form { (result ≡ Err PriceFault.Form) ↔ ¬ (IsPriceText decimals text.now) }
    ensures range { (result ≡ Err PriceFault.Range)
        ↔ ((ticks : ℕ) × (text.now ≡ price_text decimals ticks) × ¬ (IsPrice ticks)) }
{
    said_price(text, decimals)
}

fn said_price(text: &[u8], decimals: u8) -> Result<Price, PriceFault>
    ensures { result ≡ price_of decimals text.now }
{
    if text.len() <= MOST_SHORT {
        short_price(text, decimals)
    } else {
        long_price(text, decimals)
    }
}

// The price of a short text, which is looked at once.
#[tactic(auto, unfolding(crate::specs::PriceText::price_of))]
fn short_price(text: &[u8], decimals: u8) -> Result<Price, PriceFault>
    requires { length text.now ≤ 19 }
    ensures { result ≡ price_of decimals text.now }
{
    match short_ticks(text, decimals) {
        Some(ticks) => price_of_ticks(ticks),
        None => Err(PriceFault::Form),
    }
}

// The ticks of a short text in the form of a price.
fn short_ticks(text: &[u8], decimals: u8) -> Option<u64>
    requires { length text.now ≤ 19 }
    ensures { SomeIff result (IsTrue (is_price_text decimals text.now)) (ticks_of text.now) }
{
    if decimals == 0 {
        return short_numeral(text);
    }
    let places = usize::from(decimals);
    let (whole, rest) = text.split_at(text.len().saturating_sub(places + 1));
    let front = short_numeral(whole)?;
    match rest {
        [b'.', fraction @ ..] => with_digits(front, fraction),
        _ => None,
    }
}

#[tactic(auto, unfolding(crate::specs::PriceText::price_of))]
fn long_price(text: &[u8], decimals: u8) -> Result<Price, PriceFault>
    ensures { result ≡ price_of decimals text.now }
{
    if !is_price(text, decimals) {
        return Err(PriceFault::Form);
    }
    price_of_ticks(value_of(text))
}

// The price of so many ticks; more than a `u64` holds may be said as its largest.
fn price_of_ticks(ticks: u64) -> Result<Price, PriceFault>
    ensures { result ≡ price_of_ticks ticks }
{
    u32::try_from(ticks)
        .ok()
        .and_then(Price::new)
        .ok_or(PriceFault::Range)
}

// Whether the text is in the form of a price.
fn is_price(text: &[u8], decimals: u8) -> bool
    ensures { result ≡ is_price_text decimals text.now }
{
    if decimals == 0 {
        return is_numeral(text);
    }
    let places = usize::from(decimals);
    let (whole, rest) = text.split_at(text.len().saturating_sub(places + 1));
    match rest {
        [b'.', fraction @ ..] => is_numeral(whole) && are_digits(fraction),
        _ => false,
    }
}

#[tactic(auto, unfolding(crate::specs::Numeral::is_numeral))]
fn is_numeral(text: &[u8]) -> bool
    ensures { result ≡ is_numeral text.now }
{
    let leads_with_zero = text.len() > 1 && text[0] == b'0';
    !text.is_empty() && are_digits(text) && !leads_with_zero
}

fn are_digits(text: &[u8]) -> bool
    ensures { result ≡ list_all is_ascii_digit text.now }
{
    text.iter().all(u8::is_ascii_digit)
}

// The number that the digits of the text make, or the largest `u64` where that is less.
fn value_of(text: &[u8]) -> u64
    ensures { result ≡ min (ticks_of text.now) (2 ^ 64 - 1) }
{
    let mut value = 0u64;
    for byte in text {
        if byte.is_ascii_digit() {
            value = value
                .saturating_mul(10)
                .saturating_add(u64::from(byte - b'0'));
        }
    }
    value
}
