//! A session that is run on threads while a reader watches it. After each round the reader looks at local books while the round's entries
//! are published; at the end it looks at all of them. What it saw is written behind the output.
#![tactic(auto)]

mod look;
mod publishing;
mod round;
mod screen;
mod text;
mod watching;

pub use text::write_watched;
pub use watching::{Watched, watch_session};
