//! The market's words: sessions, commands, orders, fills and outcomes, and in `specs/` what they mean.
//!
//! Amounts are those of `fx_amounts`: prices in ticks, quantities in lots, credit in units. A bank or a pair is named
//! by its place in the session's header, from 0.
#![tactic(auto)]

mod command;
mod depth;
mod gates;
mod guesses;
mod keyed;
mod laws;
mod lists;
mod market;
mod names;
mod orders;
mod outcome;
mod sender;
mod session;
mod taker;

pub use command::{Command, Life, Reject, Sent, is_command};
pub use depth::{SHOWN_LEVELS, add_fill, any_price};
pub use gates::{Gate, OpenGate};
pub use keyed::Keyed;
pub use laws::{
    arrivals_fit, counts_are_own, full_books_stay, legal_goes_on, legal_is_sound,
    legal_is_uncrossed, lines_are_plain, lines_fall, local_books_are_truthful, next_entries_agree,
    other_counts_stay, other_pairs_stay, outcomes_agree, sweeps_agree, traded_is_sent,
    views_fill_all, views_fill_totals, views_show_all, views_tell_all,
};
pub use lists::ListOf;
pub use market::Market;
pub use names::{Code, Name};
pub use orders::{ActiveOrder, Fill, FillList, Level, LevelList, Plan, Resting};
pub use outcome::{CommandList, Entry, EntryList, Outcome};
pub use sender::Sender;
pub use session::{PairRule, Session};
pub use taker::SweptOrder;
