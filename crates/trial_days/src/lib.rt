//! The days that trials play: sessions and commands that a text says, or that are drawn from a number; what comes of a command,
//! in words; and whether what two hosts tell of a day is the same.
#![tactic(auto)]

mod compare;
mod day;
mod draws;
mod fault;
mod parts;
mod said;
mod told;

pub use compare::{are_alike, is_same};
pub use day::trial_day;
pub use draws::Draws;
pub use fault::NoDay;
pub use parts::{ALFA, BETA, GAMA, bank, lots, pair, price, units};
pub use said::{MOST_COMMANDS, day_of, session_of};
pub use told::tell;
