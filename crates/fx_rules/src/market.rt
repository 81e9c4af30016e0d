ghost use Rattle.std.specs.Prelude.{◌≡◌, IfOk, OnErr};
ghost use Rattle.fx_rules.specs.Session.{Header};
ghost use Rattle.fx_rules.specs.State.{State};
ghost use Rattle.fx_rules.specs.Market.{InSome, InEach, MaySend, MayAsk, HasSent, GoesOn, IsDepthOf};

use crate::command::Command;
use crate::outcome::Outcome;
use fx_amounts::{BankId, Memory, PairId};

/// A market on one thread. It stands for states of sessions, and its calls speak of those to which a legal history led:
/// that history goes on with each command that it carries out.
pub trait Market {
    ghost stands: { Self → Header → State → Type 0 };

    /// How many commands a sender has sent. It takes no memory.
    fn count(&self, bank: BankId) -> u32
        ensures count { InEach (stands self.now) (HasSent bank result) };

    /// Carries out a sender's next command, which the market's session lets it send, with a number below 2^32. The entry
    /// of that command and the outcome goes on each legal history that led here. After `Memory` the market is as it was.
    fn apply(&mut self, bank: BankId, command: &Command) -> Result<Outcome, Memory>
        requires may_send { InSome (stands self.old) (MaySend bank command.now) }
        ensures goes_on { IfOk result (GoesOn (stands self.old) (stands self.new) bank command.now) }
        ensures memory { OnErr result (self.new ≡ self.old) };

    /// A bank's local book of a pair: what it could take now, by price. At `Memory` there was none for its levels.
    fn depth(&self, bank: BankId, pair: PairId) -> Result<Outcome, Memory>
        requires may_ask { InSome (stands self.now) (MayAsk bank pair) }
        ensures depth { IfOk result (λ outcome. InEach (stands self.now) (IsDepthOf bank pair outcome)) };
}
