ghost use Rattle.std.specs.Prelude.{◌≡◌, ◌<◌, ◌⊎◌, ◌∷◌, [], IfOk, OnOk, OnErr};
ghost use Rattle.fx_rules.specs.State.{opening};
ghost use Rattle.market_run.specs.Running.{HasServed, IsAsBefore, MadeEntry, MayServe, ServesOn, ServesSome};

use crate::ahead::ReadsAhead;
use crate::observer::Observer;
use fx_amounts::Memory;
use fx_rules::{Entry, Market, Sent, Session};
use std::marker::Model;

/// A market on one thread, and an observer that is told each entry that it makes. `HasServed` says of which history of the session
/// the two are.
#[derive(Drop)]
pub struct Run<M, O> {
    market: M,
    observer: O,
}

impl<M, O> Model for Run<M, O> {
    ghost use Rattle.market_run.specs.Ran.{Ran};

    ghost Value = { Ran M O };

    ghost view = { λ r. record { market = r.market; observer = r.observer } };
}

impl<M, O> Run<M, O> {
    /// The market and the observer. It takes no memory.
    pub fn into_parts(self) -> (M, O)
        ensures market { result.0 ≡ self.market }
        ensures observer { result.1 ≡ self.observer }
    {
        (self.market, self.observer)
    }
}

impl<M: Market, O: Observer> Run<M, O> {
    /// The run of a market that has served nothing yet and stands for the session's opening state, and of an observer that was
    /// told nothing yet. It takes no memory.
    pub fn open(session: &Session, market: M, observer: O) -> Self
        requires market { M.stands market session.now (opening session.now) }
        requires told { O.told session.now [] observer }
        ensures opens { HasServed M.stands O.told session.now [] result }
        ensures market { result.market ≡ market }
        ensures observer { result.observer ≡ observer }
    {
        // A legal history rests on a valid session, as each is.
        let _banks = session.banks();
        Run { market, observer }
    }

    /// Serves a sender's next command, and gives back what the observer leaves of the entry that the market makes of it: the
    /// history goes on by it, legally. After `Memory` the run is as it was; but where the observer can break, the market may have
    /// gone on by an entry of which the observer was told a part or nothing, and the run must not be used any more.
    pub fn serve_entry(&mut self, session: &Session, sent: Sent) -> Result<O::Left, Memory>
        requires may_serve { MayServe M.stands O.told session.now self.old (sent ∷ []) }
        ensures served { IfOk result (MadeEntry M.stands O.told session.now O.leaves self.old self.new sent) }
        ensures memory { OnErr result (IsAsBefore O.told self.old self.new ⊎ O.may_break) }
    {
        self.observer.make_ready()?;
        let number = self.market.count(sent.bank) + 1;
        let outcome = self.market.apply(sent.bank, &sent.command)?;
        let entry = Entry {
            bank: sent.bank,
            number,
            command: sent.command,
            outcome,
        };
        self.observer.tell(session, entry)
    }

    /// Serves a sender's next command, as `serve_entry` does, and gives nothing back. After `Memory` the run is as `serve_entry` leaves
    /// it.
    pub fn serve(&mut self, session: &Session, sent: Sent) -> Result<(), Memory>
        requires may_serve { MayServe M.stands O.told session.now self.old (sent ∷ []) }
        ensures served { OnOk result (ServesOn M.stands O.told session.now self.old self.new (sent ∷ [])) }
        ensures memory { OnErr result (IsAsBefore O.told self.old self.new ⊎ O.may_break) }
    {
        self.serve_one(session, &sent)
    }

    /// Serves the next command of a session, as `serve` does, and leaves it to its owner.
    #[inline(always)]
    fn serve_one(&mut self, session: &Session, sent: &Sent) -> Result<(), Memory>
        requires may_serve { MayServe M.stands O.told session.now self.old (sent.now ∷ []) }
        ensures served { OnOk result (ServesOn M.stands O.told session.now self.old self.new (sent.now ∷ [])) }
        ensures memory { OnErr result (IsAsBefore O.told self.old self.new ⊎ O.may_break) }
    {
        self.observer.make_ready()?;
        let bank = sent.bank;
        let number = self.market.count(bank) + 1;
        let outcome = self.market.apply(bank, &sent.command)?;
        let entry = Entry {
            bank,
            number,
            command: sent.command,
            outcome,
        };
        self.observer.hear(session, entry)
    }

    /// Serves commands one after another, each as `serve` does. After `Memory` it has served the first so many of them, and not
    /// all; where the observer can break, the run must not be used any more.
    pub fn serve_all(&mut self, session: &Session, sent: &[Sent]) -> Result<(), Memory>
        requires may_serve { MayServe M.stands O.told session.now self.old sent.now }
        ensures served { OnOk result (ServesOn M.stands O.told session.now self.old self.new sent.now) }
        ensures begun { OnErr result (ServesSome M.stands O.told session.now self.old self.new sent.now ⊎ O.may_break) }
    {
        for next in sent {
            self.serve_one(session, next)?;
        }
        Ok(())
    }
}

/// How many commands a market reads ahead at once. The reads of some sixteen go side by side; more gain nothing.
const AHEAD: usize = 16;

impl<M: ReadsAhead, O: Observer> Run<M, O> {
    /// Has the market read ahead what these commands will need. Nothing changes. It takes no memory.
    pub fn read_ahead(&mut self, sent: &[Sent])
        ensures same { self.new ≡ self.old }
    {
        self.market.read_ahead(sent);
    }

    /// Serves commands one after another as `serve_all` does, and has the market read ahead for the next sixteen each time.
    pub fn serve_ahead(&mut self, session: &Session, sent: &[Sent]) -> Result<(), Memory>
        requires may_serve { MayServe M.stands O.told session.now self.old sent.now }
        ensures served { OnOk result (ServesOn M.stands O.told session.now self.old self.new sent.now) }
        ensures begun { OnErr result (ServesSome M.stands O.told session.now self.old self.new sent.now ⊎ O.may_break) }
    {
        for next in sent.chunks(AHEAD) {
            self.read_ahead(next);
            self.serve_all(session, next)?;
        }
        Ok(())
    }
}
