//! A pair's book behind a lock of its own, with what it has seen of the history.
//!
//! Whoever gets the lock knows of the book what its type says: it is right for a beginning of the history, and no entry that it has
//! not met is about its pair. With the credit book at hand the shard catches up, and then the book is right for all of the
//! history.
#![tactic(auto)]

mod shard;

pub use shard::Shard;
