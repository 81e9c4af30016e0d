ghost use Rattle.std.specs.Prelude.{◌≡◌, ◌≤◌, ◌^◌};
ghost use Rattle.match_sweep.specs.Takers.{swept_in};

use fx_amounts::{BankId, Lots, PairId, Price, Side};
use fx_rules::SweptOrder;

/// A bank's order as it comes to a pair's book.
#[derive(Clone, Copy, Debug, PartialEq, Eq)]
pub struct Taker {
    /// Its owner.
    pub bank: BankId,
    /// The number of its command in the owner's stream, from 1.
    pub number: u32,
    /// Whether it buys or sells.
    pub side: Side,
    /// The price that it takes or better, in ticks, 1 to 10^9.
    pub price: Price,
    /// The lots that it wants, 1 to 10^6.
    pub lots: Lots,
    /// The place of its command among all commands, from 0. It takes orders that arrived before it.
    pub arrival: u64,
}

impl Taker {
    /// The order as it is swept in a pair, before its first fill.
    pub(crate) fn in_pair(&self, pair: PairId) -> SweptOrder
        ensures value { result ≡ swept_in pair self.now }
        ensures most { result.left ≤ 10 ^ 6 }
    {
        SweptOrder {
            bank: self.bank,
            number: self.number,
            pair,
            side: self.side,
            price: self.price,
            left: u128::from(self.lots.count()),
            arrival: self.arrival,
        }
    }
}
