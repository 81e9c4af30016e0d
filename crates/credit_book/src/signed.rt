ghost use Rattle.std.specs.Prelude.{◌≡◌, []};

use crate::book::CreditBook;
use fx_chronicle::Naming;

/// A credit book as it lies behind a lock: no key has still to sign its last entry.
#[derive(Drop)]
pub struct SignedBook<N: Naming> {
    /// The book. While the lock is held a key may have still to sign.
    pub book: CreditBook<N>,

    ghost signed: { book.history.pending ≡ [] },
}
