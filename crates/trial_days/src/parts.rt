//! Banks, pairs and amounts by their numbers.
ghost use Rattle.std.specs.Prelude.{◌≡◌, ◌<◌};
ghost use Rattle.fx_amounts.specs.Price.{IsPrice};
ghost use Rattle.fx_amounts.specs.Quantity.{IsLots, IsUnits};

use fx_amounts::{BankId, Lots, PairId, Price, Units};

/// The first bank of a header.
pub const ALFA: u8 = 0;

/// The second.
pub const BETA: u8 = 1;

/// The third.
pub const GAMA: u8 = 2;

/// The bank at a place of the header, 0 to 63.
pub fn bank(number: u8) -> BankId
    requires { number < 64 }
    ensures { result ≡ number }
{
    BankId::new(number).unwrap()
}

/// The pair at a place of the header, 0 to 31.
pub fn pair(number: u8) -> PairId
    requires { number < 32 }
    ensures { result ≡ number }
{
    PairId::new(number).unwrap()
}

/// A price of so many ticks, 1 to 10^9.
pub fn price(ticks: u32) -> Price
    requires { IsPrice ticks }
    ensures { result ≡ ticks }
{
    Price::new(ticks).unwrap()
}

/// So many lots, 1 to 10^6.
pub fn lots(count: u32) -> Lots
    requires { IsLots count }
    ensures { result ≡ count }
{
    Lots::new(count).unwrap()
}

/// So many credit units, 0 to 10^15.
pub fn units(count: u64) -> Units
    requires { IsUnits count }
    ensures { result ≡ count }
{
    Units::new(count).unwrap()
}
