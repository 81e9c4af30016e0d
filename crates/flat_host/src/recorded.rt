ghost use Rattle.std.specs.Prelude.{IfOk};
ghost use Rattle.fx_rules.specs.History.{IsLegal, state};
ghost use Rattle.flat_host.specs.FlatState.{StandsFor};

use crate::host::FlatHost;
use fx_amounts::Memory;
use fx_rules::{Entry, Session};
use std::alloc::Global;

/// The host after a legal history of the session: it opens, and carries what was recorded, with no search.
pub fn replay(alloc: Global, session: &Session, entries: &[Entry]) -> Result<FlatHost, Memory>
    requires legal { IsLegal session.now entries.now }
    ensures replays { IfOk result (StandsFor session.now (state session.now entries.now)) }
{
    let mut host = FlatHost::open(alloc, session)?;
    for entry in entries {
        host.follow(entry)?;
    }
    Ok(host)
}
