ghost use Rattle.std.specs.Prelude.{◌≡◌, ◌≤◌, ◌^◌, ◌*◌, ◌↔◌, IsSome, IfSome};
ghost use Rattle.fx_amounts.specs.Quantity.{IsLots, IsUnits, IsWeight};

use std::marker::Model;

/// A size of 1 to 10^6 lots.
#[derive(Clone, Copy, Debug, PartialEq, Eq, PartialOrd, Ord, Hash)]
pub struct Lots {
    count: u32,
}

impl Model for Lots {
    ghost use Rattle.std.specs.Prelude.{ℕ};
    ghost use Rattle.fx_amounts.specs.Quantity.{IsLots};

    ghost Value = { ℕ };

    ghost view = { λ l. l.count };

    ghost invariant = { λ l. IsLots l.count };

    ghost inverse = { λ n. record { count = n } };
}

impl Lots {
    /// The smallest size, in lots.
    pub const LEAST: u32 = 1;

    /// The largest size, in lots.
    pub const MOST: u32 = 1_000_000;

    /// The size of so many lots; `None` where they are out of range.
    pub fn new(lots: u32) -> Option<Lots>
        ensures valid { IsSome result ↔ IsLots lots }
        ensures value { IfSome result (λ size. size ≡ lots) }
    {
        if (Self::LEAST..=Self::MOST).contains(&lots) {
            Some(Lots { count: lots })
        } else {
            None
        }
    }

    /// The number of lots.
    pub fn count(self) -> u32
        ensures value { result ≡ self }
        ensures least { 1 ≤ result }
        ensures most { result ≤ 10 ^ 6 }
    {
        self.count
    }

    /// The credit that a fill of these lots uses, at `weight` credit units a lot.
    pub fn cost(self, weight: u32) -> Units
        requires { IsWeight weight }
        ensures { result ≡ self * weight }
    {
        Units {
            units: u64::from(self.count) * u64::from(weight),
        }
    }
}

/// Credit units, 0 to 10^15: a limit, a use or a cost.
#[derive(Clone, Copy, Debug, PartialEq, Eq, PartialOrd, Ord, Hash)]
pub struct Units {
    units: u64,
}

impl Model for Units {
    ghost use Rattle.std.specs.Prelude.{ℕ};
    ghost use Rattle.fx_amounts.specs.Quantity.{IsUnits};

    ghost Value = { ℕ };

    ghost view = { λ u. u.units };

    ghost invariant = { λ u. IsUnits u.units };

    ghost inverse = { λ n. record { units = n } };
}

impl Units {
    /// The largest number of credit units.
    pub const MOST: u64 = 1_000_000_000_000_000;

    /// So many credit units; `None` where they are out of range.
    pub fn new(units: u64) -> Option<Units>
        ensures valid { IsSome result ↔ IsUnits units }
        ensures value { IfSome result (λ credit. credit ≡ units) }
    {
        if units <= Self::MOST {
            Some(Units { units })
        } else {
            None
        }
    }

    /// The number of credit units.
    pub fn get(self) -> u64
        ensures value { result ≡ self }
        ensures most { result ≤ 10 ^ 15 }
    {
        self.units
    }
}
