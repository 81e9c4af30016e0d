//! The orders that rest in a book, in a list by arrival, each linked with its neighbours in its level and found by bank and number.
#![tactic(auto)]

mod list;
mod nodes;
mod row;

pub use list::OrderList;
