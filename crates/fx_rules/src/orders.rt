use crate::lists::ListOf;
use fx_amounts::{BankId, Lots, PairId, Price, Side};

/// An order that rests in the book of a pair, with at least one lot left.
#[derive(Clone, Copy, Debug, PartialEq, Eq)]
pub struct Resting {
    /// Its owner.
    pub bank: BankId,
    /// Whether it buys or sells.
    pub side: Side,
    /// The number of its command in the owner's stream, from 1.
    pub number: u32,
    /// The price that it takes or better, in ticks, 1 to 10^9.
    pub price: Price,
    /// The lots that it still wants, 1 to 10^6.
    pub left: Lots,
    /// The place of its command among all commands, from 0. Of equal prices the lower arrival goes first.
    pub arrival: u64,
}

/// An order that rests in some pair of the market: the pair and the order.
#[derive(Clone, Copy, Debug, PartialEq, Eq)]
pub struct ActiveOrder {
    /// The pair in whose book it rests.
    pub pair: PairId,
    /// The order itself.
    pub order: Resting,
}

/// A trade between a taker and a resting order, the maker, at the maker's price.
#[derive(Clone, Copy, Debug, PartialEq, Eq)]
pub struct Fill {
    /// What is traded.
    pub pair: PairId,
    /// The bank whose order was swept.
    pub taker: BankId,
    /// The number of the taker's order in its stream, from 1.
    pub taker_number: u32,
    /// Whether the taker buys or sells; the maker does the other.
    pub taker_side: Side,
    /// The bank whose order rested.
    pub maker: BankId,
    /// The number of the maker's order in its stream, from 1.
    pub maker_number: u32,
    /// The maker's price, in ticks, 1 to 10^9.
    pub price: Price,
    /// The lots traded, 1 to 10^6.
    pub lots: Lots,
}

/// Fills in the order in which they were made.
pub type FillList = ListOf<Fill>;

/// The lots that a local book shows at one price.
#[derive(Clone, Copy, Debug, PartialEq, Eq)]
pub struct Level {
    /// In ticks, 1 to 10^9.
    pub price: Price,
    /// All lots shown at that price.
    pub lots: u64,
}

/// Levels, the best price first.
pub type LevelList = ListOf<Level>;

/// A sweep that was found and is not yet carried out.
#[derive(Debug, Drop)]
pub struct Plan {
    /// What it would fill, in order.
    pub fills: FillList,
    /// The lots that the taker would have left, 0 to 10^6.
    pub left: u32,
}
