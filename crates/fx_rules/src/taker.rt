ghost use Rattle.std.specs.Prelude.{◌≡◌, ◌≤◌, ◌/◌};
ghost use Rattle.fx_amounts.specs.Quantity.{IsWeight};
ghost use Rattle.fx_rules.specs.Sweep.{amount, fill_with, at_rest};
ghost use Rattle.fx_rules.specs.Raise.{taker_of_resting};

use crate::orders::{ActiveOrder, Fill, Resting};
use fx_amounts::{BankId, Lots, PairId, Price, Side};

/// An order as it is swept: one that comes in, or one that rests when its turn comes.
#[derive(Clone, Copy, Debug, PartialEq, Eq)]
pub struct SweptOrder {
    /// Its owner.
    pub bank: BankId,
    /// The number of its command in the owner's stream.
    pub number: u32,
    /// The pair in which it is swept.
    pub pair: PairId,
    /// Whether it buys or sells.
    pub side: Side,
    /// The price that it takes or better, in ticks, 1 to 10^9.
    pub price: Price,
    /// The lots that it still wants; of an order that takes all there is they may be more than an order can have.
    pub left: u128,
    /// It takes orders that arrived before this.
    pub arrival: u64,
}

impl SweptOrder {
    /// A resting order of a pair as it is swept: as it stands, with its own arrival.
    pub fn of_resting(pair: PairId, order: &Resting) -> Self
        ensures value { result ≡ taker_of_resting pair order.now }
    {
        SweptOrder {
            bank: order.bank,
            number: order.number,
            pair,
            side: order.side,
            price: order.price,
            left: u128::from(order.left.count()),
            arrival: order.arrival,
        }
    }

    /// The order as it comes to rest, with so many lots left.
    pub fn at_rest(&self, left: Lots) -> ActiveOrder
        ensures value { result ≡ at_rest self.now left }
    {
        ActiveOrder {
            pair: self.pair,
            order: Resting {
                bank: self.bank,
                number: self.number,
                side: self.side,
                price: self.price,
                left,
                arrival: self.arrival,
            },
        }
    }

    /// The lots that it takes of a resting order, of whose owner so many can be reached. It wants a lot at least, and so
    /// many can be reached.
    pub fn amount(&self, maker: &Resting, reach: u64) -> Lots
        requires left { 1 ≤ self.now.left }
        requires reach { 1 ≤ reach }
        ensures value { result ≡ amount self.now maker.now reach }
    {
        let within = reach.min(u64::from(maker.left.count()));
        let lots = self.left.min(u128::from(within));
        Lots::new(lots as u32).unwrap()
    }

    /// The lots that it takes of a resting order where a line of so many credit units pays for what can be reached, at `weight`
    /// credit units a lot, 1 to 10^6. It wants a lot at least, and the line pays for one. Most lines pay for all that both want;
    /// then nothing is divided.
    pub fn amount_by_line(&self, maker: &Resting, line: u64, weight: u32) -> Lots
        requires left { 1 ≤ self.now.left }
        requires weight { IsWeight weight }
        requires line { weight ≤ line }
        ensures value { result ≡ amount self.now maker.now (line / weight) }
    {
        let wanted = self.amount(maker, u64::from(maker.left.count()));
        if wanted.cost(weight).get() <= line {
            return wanted;
        }
        self.amount(maker, line / u64::from(weight))
    }

    /// Its fill with a resting order, at the resting order's price.
    pub fn fill_with(&self, maker: &Resting, lots: Lots) -> Fill
        ensures value { result ≡ fill_with self.now maker.now lots }
    {
        Fill {
            pair: self.pair,
            taker: self.bank,
            taker_number: self.number,
            taker_side: self.side,
            maker: maker.bank,
            maker_number: maker.number,
            price: maker.price,
            lots,
        }
    }
}
