ghost use Rattle.std.specs.Prelude.{◌≡◌, IfOk};

use fx_amounts::Memory;
use fx_rules::Session;
use std::alloc::Global;

/// The same session again.
pub(crate) fn copy_of(alloc: Global, session: &Session) -> Result<Session, Memory>
    ensures same { IfOk result (λ copy. copy ≡ session.now) }
{
    let banks = Vec::from_slice(alloc, session.banks())?;
    let pairs = Vec::from_slice(alloc, session.pairs())?;
    let limits = Vec::from_slice(alloc, session.limits())?;
    if session.version() == 2 {
        let totals = Vec::from_slice(alloc, session.totals())?;
        Ok(Session::build_two(banks, pairs, limits, totals).unwrap())
    } else {
        Ok(Session::build(banks, pairs, limits).unwrap())
    }
}
