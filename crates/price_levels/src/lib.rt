//! The levels of one owner's resting orders of one side, by rank, and the counter of a search's steps.
#![tactic(auto)]

mod bit_row;
mod far_levels;
mod ladder;
mod level;
mod steps;
mod window;

pub use ladder::Ladder;
pub use level::Level;
pub use steps::Steps;
pub use window::{RANKS, Window};
