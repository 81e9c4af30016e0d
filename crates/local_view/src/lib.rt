//! The local book of a bank in one pair: what it could take now, by price.
#![tactic(auto)]

mod shown;

pub use shown::depth;
