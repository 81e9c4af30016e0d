//! The report of a day: the volume of each pair, the credit between each two banks, and what each bank has of each
//! currency by its fills.
//!
//! It comes from one walk along the history, which adds each fill to tables of sums. No sum is tested: that each fits
//! follows from the law that no more is traded than was sent. Each of at most 65 senders sends fewer than 2^32 commands of
//! at most 10^6 lots; so all fills of a day together have fewer than 2^63 lots. A settlement changes nothing in that.
#![tactic(auto)]

mod amounts;
mod currencies;
mod day;
mod day_sums;
mod flows;
mod rows;
mod table;
mod uses;
mod volumes;

pub use amounts::{Amounts, amounts_of, buyer, seller};
pub use currencies::{Columns, Currencies};
pub use day::{nets_balance, report};
pub use day_sums::DaySums;
pub use rows::{Net, NetList, Report, Use, UseList, Volume, VolumeList};
pub use table::Table;
