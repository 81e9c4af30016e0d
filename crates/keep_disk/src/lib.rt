//! The journal file: blocks that are each on the disk before they count, opened again after any crash.
#![tactic(auto)]

mod keeper;
mod open;
mod read;
mod rounds;
mod write;

pub use fx_text::Bytes as Body;
pub use keeper::Keeper;
pub use open::open_keeper;
pub use rounds::{Round, Rounds, RunFault, keep_round, keep_rounds};
