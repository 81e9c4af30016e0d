//! The host with a lock for each pair and one for the credit book: any threads may submit, those of different pairs side by
//! side, and what they are told is one legal history.
//!
//! A command in a pair takes its pair's lock, then the credit lock, which it gives back before it changes the pair's book. A credit
//! change, which is about all pairs, keeps every command of a pair out while it works. A show command and a line that could not be
//! read take the credit lock alone.
#![tactic(auto)]

mod change;
mod closing;
mod credit_lock;
mod host;
mod locks;
mod opening;
mod pair_locks;
mod reading;
mod turn;

pub use closing::{Closed, close_host};
pub use fx_chronicle::Pass;
pub use host::Host;
pub use opening::{keys_of, open_host};
