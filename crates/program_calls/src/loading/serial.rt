ghost use Rattle.std.specs.Prelude.{◌≡◌, ◌<◌, ◌^◌, IfOk, length};
ghost use Rattle.fx_rules.specs.Lists.{Each};
ghost use Rattle.fx_rules.specs.Sending.{IsSentOf};
ghost use Rattle.program_calls.specs.LoadLines.{counts_of};
ghost use Rattle.program_calls.specs.inside.LoadSummary.{ComesTo};

use fx_amounts::Memory;
use fx_rules::{Sent, Session};
use made_session::add_up;
use market_run::run_in_order;
use pair_host::PairHost;
use std::alloc::Global;

/// What a run in order came to.
#[derive(Clone, Copy)]
pub(crate) struct SerialTotals {
    /// How many commands it served.
    pub(crate) commands: u64,
    /// How many fills they made.
    pub(crate) fills: u64,
    /// The lots of them all.
    pub(crate) lots: u64,
    /// How many orders rest at its end.
    pub(crate) resting: u64,
}

impl SerialTotals {
    /// As they are told.
    pub(crate) fn counts(self) -> [u64; 4]
        ensures { result ≡ counts_of self }
    {
        [self.commands, self.fills, self.lots, self.resting]
    }
}

/// Runs commands in order on one host over the pair books, and says what they came to.
pub(crate) fn serial_totals(
    alloc: Global,
    session: &Session,
    sent: &[Sent],
) -> Result<SerialTotals, Memory>
    requires valid { Each (IsSentOf session.now) sent.now }
    requires few { length sent.now < 2 ^ 32 }
    ensures comes_to { IfOk result (ComesTo session.now sent.now) }
{
    let host = PairHost::open(alloc, session)?;
    let (history, market) = run_in_order(alloc, session, host, sent)?;
    let entries = history.as_slice();
    let totals = add_up(entries);
    Ok(SerialTotals {
        commands: entries.len() as u64,
        fills: totals.fills,
        lots: totals.lots,
        resting: market.resting(),
    })
}
