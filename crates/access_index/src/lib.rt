//! The levels of each owner's resting orders of one side in one pair, and the best order that can be reached among all owners.
#![tactic(auto)]

mod ranked;
mod words;

pub use ranked::RankedOwners;
pub use words::{FirstHeads, Head, HeadWords, word_beyond};
