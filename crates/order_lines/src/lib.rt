//! The lines of a session after its header: what each says, with the first fault of a bad one, and the journal's
//! spelling of every command.
#![tactic(auto)]

mod fronts;
mod reading;
mod sender;
mod spelled;
mod spoken;
mod word;
mod writing;

pub use sender::sender_name;
pub use spelled::spelled_command;
pub use spoken::{Spoken, command_by, command_from, command_in, journal_from, journal_in};
pub use writing::{command_text, make_command};
