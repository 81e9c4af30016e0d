//! The sweep of a taker through one pair's book: found first, over a book and lines that stay as they are, and then
//! carried out in the book.
#![tactic(auto)]

mod carrying;
mod laws;
mod reached;
mod sweeping;
mod taker;
mod walk;

pub use carrying::{carry, carry_fills};
pub use laws::{sweeps_are_carried, turns_are_carried};
pub use reached::levels_in_reach;
pub use sweeping::{SweepPlan, plan, sweep};
pub use taker::Taker;
