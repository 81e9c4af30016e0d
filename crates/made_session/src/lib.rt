//! Sessions made from a number: banks, pairs, limits and commands, all drawn one after another. The same numbers make
//! the same session at every run.
#![tactic(auto)]

mod banks;
mod commands;
mod draws;
mod load;
mod sums;

pub use load::load_session;
pub use sums::{Totals, add_up};
