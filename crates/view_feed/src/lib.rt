//! A market shown to readers beside its host. A feed takes in the entries of a history and publishes them a few at a time; its
//! readers see the market in the state after the published entries. A reader takes no lock, waits for nobody, and never sees the
//! market go back.
//!
//! Two copies of the market are kept. Readers look at one, while the feed brings the other up to date; then the two swap. So each
//! entry is taken in twice, and no call walks the orders that rest but for a reader's own local book.
#![tactic(auto)]

mod fault;
mod feed;
mod opening;
mod operation;
mod reader;
mod rule;
mod shown;
mod tape;

pub use fault::FeedFault;
pub use feed::Feed;
pub use opening::open_feed;
pub use reader::{FeedReader, Told};
