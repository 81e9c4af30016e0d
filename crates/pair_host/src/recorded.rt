ghost use Rattle.std.specs.Prelude.{IfOk};
ghost use Rattle.fx_rules.specs.History.{IsLegal, state};
ghost use Rattle.pair_host.specs.Standing.{StandsFor};

use crate::host::PairHost;
use fx_amounts::Memory;
use fx_rules::{Entry, Session};
use std::alloc::Global;

/// The host after a legal history of the session: it opens, and carries what was recorded, with no search.
pub fn replay(alloc: Global, session: &Session, entries: &[Entry]) -> Result<PairHost, Memory>
    requires legal { IsLegal session.now entries.now }
    ensures replays { IfOk result (StandsFor session.now (state session.now entries.now)) }
{
    let mut host = PairHost::open(alloc, session)?;
    for entry in entries {
        host.follow(entry)?;
    }
    Ok(host)
}
