//! One history that only grows, tokens that have each seen a beginning of it, and the desk at which banks trade from any threads.
//!
//! The writer holds the entries. Each key has one front, which has seen a beginning of them, and which signs each entry
//! that touches its key before the next one comes. So who holds a front knows, whatever other threads did meanwhile, that
//! no entry behind the last one that it met touches its key. A slip carries what one front has seen to another.
//!
//! A bank's pass knows a beginning of a desk's one history: each command that it submits goes behind all that the pass had
//! seen, and a note carries what one pass has seen to another.
//!
//! Everything may go to other threads. Only `Blank::new`, `open`, `Writer::reserve` and `open_passes` take memory, and no call of the
//! history or of a pass waits; a desk's `submit` may.
#![tactic(auto)]

mod desk;
mod history;
mod names;
mod opening;
mod pass;
mod rule;
mod steps;
mod tokens;

pub use desk::Desk;
pub use history::{Writer, close};
pub use names::Naming;
pub use opening::{Blank, open};
pub use pass::{Note, Pass, open_passes, place_among};
pub use tokens::{Front, Slip};
