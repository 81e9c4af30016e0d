ghost use Rattle.std.specs.Prelude.{◌≡◌, ◌≤◌, ◌^◌, ◌↔◌, IsSome, IfSome};
ghost use Rattle.fx_amounts.specs.Price.{IsPrice, crosses};

use crate::side::Side;
use std::marker::Model;

/// A price of 1 to 10^9 ticks. One tick is the last decimal place of the pair.
#[derive(Clone, Copy, Debug, PartialEq, Eq, PartialOrd, Ord, Hash)]
pub struct Price {
    ticks: u32,
}

impl Model for Price {
    ghost use Rattle.std.specs.Prelude.{ℕ};
    ghost use Rattle.fx_amounts.specs.Price.{IsPrice};

    ghost Value = { ℕ };

    ghost view = { λ p. p.ticks };

    ghost invariant = { λ p. IsPrice p.ticks };

    ghost inverse = { λ n. record { ticks = n } };
}

impl Price {
    /// The lowest price, in ticks.
    pub const LEAST: u32 = 1;

    /// The highest price, in ticks.
    pub const MOST: u32 = 1_000_000_000;

    /// The price of so many ticks; `None` where they are out of range.
    pub fn new(ticks: u32) -> Option<Price>
        ensures valid { IsSome result ↔ IsPrice ticks }
        ensures value { IfSome result (λ price. price ≡ ticks) }
    {
        if (Self::LEAST..=Self::MOST).contains(&ticks) {
            Some(Price { ticks })
        } else {
            None
        }
    }

    /// The ticks of the price.
    pub fn ticks(self) -> u32
        ensures value { result ≡ self }
        ensures least { 1 ≤ result }
        ensures most { result ≤ 10 ^ 9 }
    {
        self.ticks
    }

    /// Whether an order of `side` at this price may trade with a resting order of the other side at `other`.
    pub fn crosses(self, other: Price, side: Side) -> bool
        ensures { result ≡ crosses side self other }
    {
        match side {
            Side::Buy => self >= other,
            Side::Sell => self <= other,
        }
    }
}
