ghost use Rattle.std.specs.Prelude.{◌≡◌};
ghost use Rattle.fx_rules.specs.Session.{Header};
ghost use Rattle.fx_rules.specs.State.{State};

use crate::host::PairHost;
use fx_amounts::{BankId, Memory, PairId};
use fx_rules::{Command, Market, Outcome, Sent};
use market_run::ReadsAhead;

impl Market for PairHost {
    ghost use Rattle.pair_host.specs.Standing.{stands};

    ghost stands = { stands };

    fn count(&self, bank: BankId) -> u32 {
        PairHost::count(self, bank)
    }

    fn apply(&mut self, bank: BankId, command: &Command) -> Result<Outcome, Memory> {
        PairHost::apply(self, bank, command)
    }

    fn depth(&self, bank: BankId, pair: PairId) -> Result<Outcome, Memory> {
        PairHost::depth(self, bank, pair)
    }
}

impl ReadsAhead for PairHost {
    fn read_ahead(&mut self, sent: &[Sent]) {
        PairHost::read_ahead(self, sent);
    }
}
