//! The market on one thread, over one book for each pair and the credit table beside them. It answers as the plain host does, but
//! finds what a command needs in its pair's book instead of walking all orders.
//!
//! What is done in one pair, and from pair to pair, stands in functions over a book or books and the table, so that it does
//! not matter who keeps them.
#![tactic(auto)]

mod ahead;
mod answering;
mod as_market;
mod carrying;
mod counting;
mod every_pair;
mod host;
mod one_pair;
mod recorded;
mod turning;

pub use answering::answer;
pub use carrying::{carry_out, reserve};
pub use counting::resting;
pub use host::PairHost;
pub use recorded::replay;
pub use turning::{carry_recorded, carry_turn};
