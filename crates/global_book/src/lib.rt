//! The book of one pair: the orders that rest in it, found by command, by owner and by price.
#![tactic(auto)]

mod ahead;
mod book;
mod gathering;
mod linked;
mod owner_list;
mod side_heads;
mod side_ladders;

pub use book::PairBook;
pub use side_heads::SideHeads;
pub use side_ladders::price_at;
