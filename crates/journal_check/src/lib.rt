//! The check of an output: whether a text is the output of a legal history, and where it is not; and the session and the history
//! of one that is.
#![tactic(auto)]

mod check;
mod compare;
mod header;
mod journal;
mod judging;
mod kept;
mod last;
mod laws;
mod line;
mod lines;
mod piece;
mod read;
mod stop;

pub use check::{Verdict, check_output};
pub use last::Passed;
pub use laws::{outputs_agree, outputs_list, verdicts_agree};
pub use read::{Read, check_read};
