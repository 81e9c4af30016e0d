use crate::host::FlatHost;
use fx_amounts::{BankId, Memory, PairId};
use fx_rules::{Command, Market, Outcome};

/// The plain host as a market: what the trait says of legal histories follows from what the host says of each state that
/// it stands for.
impl Market for FlatHost {
    ghost use Rattle.flat_host.specs.Steps.{stands};

    ghost stands = { stands };

    fn count(&self, bank: BankId) -> u32 {
        FlatHost::count(self, bank)
    }

    fn apply(&mut self, bank: BankId, command: &Command) -> Result<Outcome, Memory> {
        FlatHost::apply(self, bank, command)
    }

    fn depth(&self, bank: BankId, pair: PairId) -> Result<Outcome, Memory> {
        FlatHost::depth(self, bank, pair)
    }
}
