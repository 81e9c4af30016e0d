//! The calls that keep a session in a journal file: a new one, or one that goes on from what is kept.
#![tactic(auto)]

mod ending;
mod fault;
mod keeping;
mod restarting;
mod run;
mod text;

pub use ending::ending_of;
pub use fault::KeptFault;
pub use keeping::keep;
pub use restarting::restart;
pub use run::KeptRun;
