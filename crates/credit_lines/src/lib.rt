//! The credit lines between a session's banks.
//!
//! Each bank sets a limit on each other bank, in credit units, and may set a total over all others. What two banks trade with each
//! other uses credit. The line between them is the lesser of their two limits less what they have used, and no more than the total of
//! either leaves of what it has spent. No line is ever exceeded.
//!
//! The credit table has the lines, and how many commands each sender has sent.
#![tactic(auto)]

mod amounts;
mod following;
mod laws;
mod lines;
mod places;
mod sessions;
mod table;

pub use amounts::at_most;
pub use laws::{steps_are_paid, sweeps_are_paid, turns_are_paid};
pub use lines::CreditLines;
pub use table::CreditTable;
