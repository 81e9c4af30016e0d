ghost use Rattle.std.specs.Prelude.{◌≡◌, ◌≤◌};
ghost use Rattle.fx_rules.specs.Session.{Header};
ghost use Rattle.fx_rules.specs.History.{IsLegal};
ghost use Rattle.day_report.specs.Trades.{lots_in};
ghost use Rattle.made_session.specs.Totals.{fills_told, lots_told};

use fx_rules::{Entry, Fill};

/// What a history comes to.
#[derive(Clone, Copy, Debug, PartialEq, Eq)]
pub struct Totals {
    /// How many fills its entries tell, at most `lots`.
    pub fills: u64,
    /// The lots of them all, below 2^63.
    pub lots: u64,
}

/// What a legal history comes to. It takes no memory.
#[tactic(auto, using(crate::proofs::TotalsLemmas::one_more))]
pub fn add_up(entries: &[Entry]) -> Totals
    requires legal { (h : Header) × IsLegal h entries.now }
    ensures fills { result.fills ≡ fills_told entries.now }
    ensures lots { result.lots ≡ lots_told entries.now }
{
    let mut sums = Totals { fills: 0, lots: 0 };
    for entry in entries {
        let fills = entry.outcome.fills();
        sums.fills += fills.len() as u64;
        sums.lots += lots_of(fills);
    }
    sums
}

/// The lots of some fills.
#[tactic(auto, using(crate::proofs::TotalsLemmas::more_lots))]
fn lots_of(fills: &[Fill]) -> u64
    requires fit { lots_in fills.now ≤ 4096000000000000000 }
    ensures value { result ≡ lots_in fills.now }
{
    let mut lots = 0u64;
    for fill in fills {
        lots += u64::from(fill.lots.count());
    }
    lots
}
