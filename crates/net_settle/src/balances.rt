ghost use Rattle.std.specs.Prelude.{◌≡◌, ◌<◌, length, IfOk};
ghost use Rattle.net_settle.specs.inside.Dues.{HasPlaces, SumsFit, owes_in, owed_in};

use crate::dues::Dues;
use fx_amounts::Memory;
use std::alloc::Global;

/// What each bank owes of a currency, and what it is owed, in units of it, by its place. One of the two is 0.
#[derive(Debug, Drop)]
pub(crate) struct Balances {
    pub owes: Vec<u128>,
    pub owed: Vec<u128>,
}

impl Balances {
    /// The balances of a column's currency.
    pub(crate) fn of(alloc: Global, dues: &Dues, column: usize) -> Result<Balances, Memory>
        requires places { HasPlaces dues.now }
        requires column { column < length dues.now.currencies.codes.items }
        requires fit { SumsFit dues.now column }
        ensures owes { IfOk result (λ balances. balances.owes.items ≡ owes_in dues.now column) }
        ensures owed { IfOk result (λ balances. balances.owed.items ≡ owed_in dues.now column) }
    {
        let mut owes = Vec::new(alloc);
        let mut owed = Vec::new(alloc);
        for bank in 0..dues.banks {
            let flow = dues.flow(bank, column);
            owes.push(flow.gave.saturating_sub(flow.got))?;
            owed.push(flow.got.saturating_sub(flow.gave))?;
        }
        Ok(Balances { owes, owed })
    }
}
