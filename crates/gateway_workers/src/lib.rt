//! Workers: the banks' lanes, each a pass and a stream of commands, served in threads at any desk.
//!
//! `ThreadedRun` has a session's commands served so, round by round, with one lane for each sender, at the host with a lock for each
//! pair.
#![tactic(auto)]

mod gathering;
mod lane;
mod lanes;
mod market;
mod replaying;
mod round;
mod run;
mod whole;

pub use fx_host::keys_of;
pub use lane::Lane;
pub use round::run_round;
pub use run::ThreadedRun;
pub use whole::run_on_threads;
