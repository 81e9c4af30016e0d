//! The credit book: the credit side of the market, with the one history that led it to where it stands.
//!
//! Who wants to trade needs it, whatever the pair, since every fill uses a line. So it lies behind a lock of its own, as a
//! `SignedBook`; the pairs' books lie behind others. A command happens when its entry is recorded here.
#![tactic(auto)]

mod book;
mod signed;

pub use book::CreditBook;
pub use fx_chronicle::Pass;
pub use signed::SignedBook;
