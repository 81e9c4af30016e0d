ghost use Rattle.std.specs.Prelude.{◌≡◌, ◌≤◌, ◌*◌, ◌%◌, ◌^◌};
ghost use Rattle.fx_amounts.specs.Amount as amount;
ghost use Rattle.fx_amounts.specs.Quantity.{IsLot, IsDecimals};

use crate::price::Price;
use crate::quantity::Lots;

/// The amount of a fill in units of the base currency, where a lot is `lot` of them.
pub fn base_amount(lots: Lots, lot: u32) -> u64
    requires { IsLot lot }
    ensures value { result ≡ amount.base_amount lots lot }
    ensures most { result ≤ 10 ^ 15 }
{
    u64::from(lots.count()) * u64::from(lot)
}

/// The amount of a fill in units of the quote currency, where a lot is `lot` units of the base currency and a
/// tick the last of `decimals` decimal places. It is whole, since a lot is a multiple of `10^decimals`.
pub fn quote_amount(lots: Lots, lot: u32, price: Price, decimals: u8) -> u128
    requires lot { IsLot lot }
    requires decimals { IsDecimals decimals }
    requires whole { lot % 10 ^ decimals ≡ 0 }
    ensures value { result ≡ amount.quote_amount lots lot price decimals }
    ensures whole { result * 10 ^ decimals ≡ lots * lot * price }
    ensures most { result ≤ 10 ^ 24 }
{
    let per_tick = lot / 10u32.pow(u32::from(decimals));
    u128::from(lots.count()) * u128::from(per_tick) * u128::from(price.ticks())
}
