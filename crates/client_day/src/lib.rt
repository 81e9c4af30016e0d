//! A session whose banks have clients, served in the order of its lines. Each client's command is asked of the clients' book
//! before it is sent; what each client has and was told is written behind the output.
#![tactic(auto)]

mod day;
mod desk;
mod handing;
mod notes;
mod rounds;
mod text;

pub use day::ClientDay;
pub use rounds::serve_clients;
pub use text::write_clients;
