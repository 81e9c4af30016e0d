//! The plain host: one thread, one flat list of resting orders, and the market's rules on it.
//!
//! It keeps no list of fills, but what each two banks have used; so it stands for each state of the market that has its
//! orders, limits, totals, uses and counts, and its contracts speak of each of these.
//!
//! Behind one lock it is the plainest desk: any threads may submit, and what they are told is one legal history.
#![tactic(auto)]

mod as_market;
mod changes;
mod credit;
mod depth;
mod floor;
mod host;
mod one_lock;
mod opening;
mod raise;
mod recorded;
mod sweep;

pub use host::FlatHost;
pub use one_lock::{OneLockHost, OnePass, close_one, open_one};
pub use recorded::replay;
