ghost use Rattle.std.specs.Prelude.{◌≡◌, ◌<◌, ◌^◌, [], IfOk, length, map};
ghost use Rattle.fx_rules.specs.Lists.{Each};
ghost use Rattle.fx_rules.specs.History.{IsLegal, state};
ghost use Rattle.fx_rules.specs.Sending.{IsSentOf, sent_by};
ghost use Rattle.fx_rules.specs.State.{opening};

use crate::observer::Observer;
use crate::running::Run;
use fx_amounts::Memory;
use fx_rules::{Entry, Market, Sent, Session};
use std::alloc::Global;
use std::marker::Model;

/// The history as it is made: all its entries, which it keeps. It never breaks, since it has the capacity for an entry before the
/// market makes it.
#[derive(Drop)]
pub struct History {
    entries: Vec<Entry>,
}

impl Model for History {
    ghost use Rattle.std.specs.Prelude.{◌-◌, vec_len, vec_capacity};
    ghost use Rattle.market_run.specs.Kept.{Kept};

    ghost Value = { Kept };

    ghost view = { λ h. record { entries = h.entries.items; room = vec_capacity h.entries - vec_len h.entries } };
}

impl History {
    /// The history without an entry. It takes no memory.
    pub fn new(alloc: Global) -> Self
        ensures none { result.entries ≡ [] }
    {
        History {
            entries: Vec::new(alloc),
        }
    }

    /// The entries, in order. It takes no memory.
    pub fn into_entries(self) -> Vec<Entry>
        ensures entries { result.items ≡ self.entries }
    {
        self.entries
    }
}

impl Observer for History {
    type Left = ();

    ghost told = { λ _ entries history. history.entries ≡ entries };

    ghost is_ready = { λ history. 0 < history.room };

    ghost leaves = { λ _ _. Unit {0} };

    ghost may_break = { ⊥ };

    fn make_ready(&mut self) -> Result<(), Memory> {
        self.entries.reserve(1)?;
        Ok(())
    }

    fn tell(&mut self, _session: &Session, entry: Entry) -> Result<(), Memory> {
        self.entries.push_reserved(entry);
        Ok(())
    }

    fn hear(&mut self, session: &Session, entry: Entry) -> Result<(), Memory> {
        self.tell(session, entry)
    }
}

/// The history of commands, fewer than 2^32, that a market serves one after another from the session's opening state on, and the
/// market in the state after it. At `Memory` the market is dropped.
pub fn run_in_order<M: Market + Drop>(
    alloc: Global,
    session: &Session,
    market: M,
    sent: &[Sent],
) -> Result<(Vec<Entry>, M), Memory>
    requires opening { M.stands market session.now (opening session.now) }
    requires valid { Each (IsSentOf session.now) sent.now }
    requires few { length sent.now < 2 ^ 32 }
    ensures legal { IfOk result (λ ran. IsLegal session.now ran.0.items) }
    ensures in_order { IfOk result (λ ran. map sent_by ran.0.items ≡ sent.now) }
    ensures market { IfOk result (λ ran. M.stands ran.1 session.now (state session.now ran.0.items)) }
{
    let mut run = Run::open(session, market, History::new(alloc));
    run.serve_all(session, sent)?;
    let (market, history) = run.into_parts();
    Ok((history.into_entries(), market))
}
