ghost use Rattle.std.specs.Prelude.{◌∷◌, ◌++◌, [], List, IfOk, OnOk, OnErr};
ghost use Rattle.fx_rules.specs.declared.outcome.Entry.{Entry as HistoryEntry};
ghost use Rattle.fx_rules.specs.History.{IsLegal};
ghost use Rattle.fx_rules.specs.Session.{Header};
ghost use Rattle.market_run.specs.Running.{StillTold, ToldNext};

use fx_amounts::Memory;
use fx_rules::{Entry, Session};

/// Who is told each entry of a history as it is made.
pub trait Observer {
    /// What is left of an entry that was told.
    type Left: Drop;

    /// Of which entries of which session it was told.
    ghost told: { Header → List HistoryEntry → Self → Type 0 };

    /// That it can be told an entry now.
    ghost is_ready: { Self → Type 0 };

    /// What it leaves of an entry.
    ghost leaves: { Self.Left → HistoryEntry → Type 0 };

    /// That memory can run out while it is told an entry that it was ready for. Then it was told a part of it and is good for
    /// nothing more.
    ghost may_break: { Type 0 };

    /// Makes ready to be told an entry. It was told of the same entries after as before, also after `Memory`.
    fn make_ready(&mut self) -> Result<(), Memory>
        ensures same { StillTold told self.old self.new }
        ensures ready { OnOk result (is_ready self.new) };

    /// Is told the next entry of a legal history of the session, and gives back what it leaves of it.
    fn tell(&mut self, session: &Session, entry: Entry) -> Result<Self::Left, Memory>
        requires ready { is_ready self.old }
        requires next { (entries : List HistoryEntry) × IsLegal session.now (entries ++ entry ∷ []) × told session.now entries self.old }
        ensures told { OnOk result (ToldNext told session.now self.old self.new entry) }
        ensures left { IfOk result (λ left. leaves left entry) }
        ensures memory { OnErr result may_break };

    /// Is told the next entry likewise, and gives nothing back: an entry is large, and moving it takes time.
    fn hear(&mut self, session: &Session, entry: Entry) -> Result<(), Memory>
        requires ready { is_ready self.old }
        requires next { (entries : List HistoryEntry) × IsLegal session.now (entries ++ entry ∷ []) × told session.now entries self.old }
        ensures told { OnOk result (ToldNext told session.now self.old self.new entry) }
        ensures memory { OnErr result may_break };
}
