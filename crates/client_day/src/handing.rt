ghost use Rattle.std.specs.Prelude.{◌≡◌};
ghost use Rattle.client_day.specs.Days.{IsHanded};

use fx_amounts::Memory;
use fx_rules::{Entry, Session};
use market_run::Observer;

/// An observer that keeps nothing of an entry and hands it back, to whoever tells it.
#[derive(Clone, Copy, Debug)]
pub(crate) struct HandsBack;

impl Observer for HandsBack {
    type Left = Entry;

    ghost told = { IsHanded };

    ghost is_ready = { λ _. Unit {0} };

    ghost leaves = { λ left entry. left ≡ entry };

    ghost may_break = { ⊥ };

    fn make_ready(&mut self) -> Result<(), Memory> {
        Ok(())
    }

    #[inline(always)]
    fn tell(&mut self, _session: &Session, entry: Entry) -> Result<Entry, Memory> {
        Ok(entry)
    }

    fn hear(&mut self, _session: &Session, _entry: Entry) -> Result<(), Memory> {
        Ok(())
    }
}
