//! A kept journal read back: the session and the history whose commands its blocks hold.
#![tactic(auto)]

mod blocks;
mod found;
mod lines;
mod stop;

pub use found::{Found, history};
