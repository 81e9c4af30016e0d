//! Trials of what is printed and told of a history: its output, its report, and the check of an output; of the lines and the
//! days of clients; and the writing of an output from a history alone, with which they begin.
#![tactic(auto)]

#[cfg(test)]
mod checks;
#[cfg(test)]
mod client_days;
#[cfg(test)]
mod clients;
#[cfg(test)]
mod fixture;
#[cfg(test)]
mod outputs;
#[cfg(test)]
mod payments;
#[cfg(test)]
mod reports;
#[cfg(test)]
mod told;
mod written;

pub use written::write_output;
