use crate::tape::Front;
use fx_rules::Entry;
use std::alloc::Global;
use std::sync::Arc;

/// What changes a market that is shown.
#[derive(Drop)]
pub(crate) enum Operation {
    /// It goes on by an entry.
    Add(Arc<Entry, Global>),
    /// The entries so far are these of the tape.
    Mark(Front),
}
