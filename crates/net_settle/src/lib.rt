//! What the banks pay at the end of a day for its fills, in one of two ways: each two banks what one of them is due from the
//! other, or netted over all banks.
//!
//! Both begin with one walk along the history, which adds each fill to what its two banks are due from one another. No sum is
//! tested: what a bank is due from another is a part of what it gets, and that fits (`day_report`).
#![tactic(auto)]

mod balances;
mod dues;
mod each_two;
mod form;
mod laws;
mod netting;
mod payment;

pub use each_two::bilateral;
pub use form::Form;
pub use laws::{flows_are_nets, least_day, least_each_two};
pub use netting::net;
pub use payment::Payment;
