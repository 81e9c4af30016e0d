//! The words of the program, in their forms, and what each of them does over the streams that it is handed, and the status that it ends
//! with. `clap` reads the words, and what it matched, printed back, has to be the words: so each task has one spelling, but for the
//! number of workers that is left out.
#![tactic(auto)]

mod checking;
mod client_run;
mod ending;
mod keeping;
mod kept;
mod line;
mod loading;
mod matched;
mod paying;
mod reading;
mod running;
mod serial_run;
mod status;
mod task;
mod watching;

pub use checking::check;
pub use client_run::clients;
pub use keeping::follow_kept;
pub use kept::{KeptTask, kept_task};
pub use loading::{Summary, load, load_summary, summaries_agree};
pub use paying::{find_payments, payments, write_payments};
pub use reading::{WordsFault, read_words};
pub use running::run;
pub use serial_run::serial;
pub use status::Status;
pub use task::{DEFAULT_WORKERS, Task};
pub use watching::watch;
