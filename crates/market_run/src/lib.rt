//! The loop over one market: commands are served one after another, and an observer is told each entry as it is made. One
//! observer keeps them, as the history.
#![tactic(auto)]

mod ahead;
mod history;
mod observer;
mod running;

pub use ahead::ReadsAhead;
pub use history::{History, run_in_order};
pub use observer::Observer;
pub use running::Run;
