//! What a credit change brings together: in one pair, of a limit planned from the orders of its two banks alone, and from pair to
//! pair.
#![tactic(auto)]

mod change;
mod course;
mod laws;
mod own_lines;
mod pay;
mod prices;
mod raise;
mod replay;
mod sweep;
mod waiting;
mod walk;

pub use change::{CreditChange, is_change};
pub use laws::{limits_set_others_apart, raises_begin, raises_go_on, two_banks_turn};
pub use raise::plan_raise;
pub use sweep::plan_sweep;
