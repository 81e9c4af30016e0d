//! Clients of the banks: they trade in their bank's name, each under a limit of its own that the bank has set. No client has
//! more filled and resting than its limit.
//!
//! A `ClientBook` keeps what that takes, and no history: the owner of each command, what each client has filled and what its
//! resting orders reserve, and the lots that each order of a client has left. It is asked before a client's command is sent,
//! and told of each entry of the history behind it.
#![tactic(auto)]

mod account;
mod ask;
mod book;
mod client;
mod clients;
mod keys;
mod laws;
mod line;
mod record;
mod rows;
mod spelled;

pub use ask::Ask;
pub use book::ClientBook;
pub use client::{Client, ClientId};
pub use clients::Clients;
pub use laws::{clients_stay_within, fills_are_drawn, sides_have_one_entry, steps_settle};
pub use line::{ClientLine, client_line, client_line_with};
