ghost use Rattle.std.specs.Prelude.{◌≡◌};

use fx_rules::{Market, Sent};

/// A market that can read ahead what commands will need.
pub trait ReadsAhead: Market {
    /// Reads what these commands will need, so that the processor fetches it for all of them at once and not for one after the other as
    /// they are served. Nothing changes. It takes no memory.
    fn read_ahead(&mut self, sent: &[Sent])
        ensures same { self.new ≡ self.old };
}
