//! Trials of one pair's book, and of what is swept and shown from it: books of thousands of orders of up to 64 banks, from
//! a number, beside a plain walk over the flat list of the same orders.
#![tactic(auto)]

#[cfg(test)]
mod cursors;
#[cfg(test)]
mod drawn;
#[cfg(test)]
mod far;
#[cfg(test)]
mod plain;
#[cfg(test)]
mod swept;
#[cfg(test)]
mod windows;
