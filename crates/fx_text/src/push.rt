ghost use Rattle.std.specs.Prelude.{◌≡◌, ℕ, ◌<◌, ◌≤◌, ◌^◌, ◌++◌, take, vec_len, OnOk, OnErr};
ghost use Rattle.fx_amounts.specs.Numeral.{numeral};
ghost use Rattle.fx_amounts.specs.PriceText.{price_text, price_of};
ghost use Rattle.fx_text.specs.Number.{number_of};

use fx_amounts::{Memory, Price};
use itoa::Buffer;

/// The most digits that the ticks of a price have. Its places before the last so many are zeros.
const MOST_DIGITS: u8 = 10;

/// Appends a number's decimal digits. After `Err` the list is as it was.
pub fn push_number(value: u128, out: &mut Vec<u8>) -> Result<(), Memory>
    ensures ok { OnOk result (out.new.items ≡ out.old.items ++ numeral value) }
    ensures err { OnErr result (out.new.items ≡ out.old.items) }
    ensures read_back { (least most : ℕ) → least ≤ value → value ≤ most → number_of least most (numeral value) ≡ Some value }
{
    let mut buffer = Buffer::new();
    out.extend_from_slice(buffer.format(value).as_bytes())?;
    Ok(())
}

/// Appends a price's one spelling, where a tick is the last of `decimals` decimal places, which may be any number.
/// After `Err` the list is as it was. Only trials call it.
pub fn push_price(price: Price, decimals: u8, out: &mut Vec<u8>) -> Result<(), Memory>
    ensures ok { OnOk result (out.new.items ≡ out.old.items ++ price_text decimals price) }
    ensures err { OnErr result (out.new.items ≡ out.old.items) }
    ensures read_back { price_of decimals (price_text decimals price) ≡ Ok price }
{
    let before = out.len();
    let pushed = push_ticks(u64::from(price.ticks()), decimals, out);
    if pushed.is_err() {
        out.truncate(before);
    }
    pushed
}

// After `Err` a part of the price may be appended.
fn push_ticks(ticks: u64, decimals: u8, out: &mut Vec<u8>) -> Result<(), Memory>
    requires { ticks < 10 ^ 10 }
    ensures ok { OnOk result (out.new.items ≡ out.old.items ++ price_text decimals ticks) }
    ensures err { OnErr result (take (vec_len out.old) out.new.items ≡ out.old.items) }
{
    if decimals == 0 {
        return push_number(u128::from(ticks), out);
    }
    let kept = decimals.min(MOST_DIGITS);
    let unit = unit_of(kept);
    push_number(u128::from(ticks / unit), out)?;
    out.push(b'.')?;
    out.resize(out.len() + usize::from(decimals - kept), b'0')?;
    // A leading one, which is left out, keeps the zeros in front of the other digits.
    let mut buffer = Buffer::new();
    let (_, places) = buffer.format(unit + ticks % unit).as_bytes().split_at(1);
    out.extend_from_slice(places)?;
    Ok(())
}

// The ticks of a price of 1.
fn unit_of(decimals: u8) -> u64
    requires { decimals ≤ 10 }
    ensures value { result ≡ 10 ^ decimals }
    ensures some { 0 < result }
    ensures most { result ≤ 10 ^ 10 }
{
    10u64.pow(u32::from(decimals))
}
