ghost use Rattle.std.specs.Prelude.{◌≡◌, ◌<◌, slice_index_or, IfOk, OnOk, length, position, bytes_eq};
ghost use Rattle.day_report.specs.Sums.{AreCurrencies, StandsAt};
ghost use Rattle.day_report.specs.inside.Parts.{with_code};

use fx_amounts::{Memory, PairId};
use fx_rules::{Code, Session};
use std::alloc::Global;

/// Where the currencies of a pair stand among those of all pairs.
#[derive(Clone, Copy, Debug)]
pub struct Columns {
    /// The place of the base currency.
    pub base: usize,
    /// The place of the quote currency.
    pub quote: usize,
}

/// The currencies of a session's pairs, each once, in the order in which the pairs first name them.
#[derive(Debug, Drop)]
pub struct Currencies {
    /// At most 64: a pair names two.
    pub codes: Vec<Code>,
    /// By pair.
    columns: Vec<Columns>,
}

impl Currencies {
    /// The currencies of a session. `Memory` when out of memory.
    pub fn open(alloc: Global, session: &Session) -> Result<Currencies, Memory>
        ensures value { IfOk result (AreCurrencies session.now) }
    {
        let mut codes = Vec::new(alloc);
        let mut columns = Vec::new(alloc);
        for rule in session.pairs() {
            let base = column_of(rule.base, &mut codes)?;
            let quote = column_of(rule.quote, &mut codes)?;
            columns.push(Columns { base, quote })?;
        }
        Ok(Currencies { codes, columns })
    }

    /// The columns of a pair's currencies.
    pub fn of_pair(&self, pair: PairId) -> Columns
        requires { pair < length self.now.columns.items }
        ensures value { (d : _) → result ≡ slice_index_or self.now.columns.items pair d }
    {
        self.columns[pair.index()]
    }
}

/// Where a code stands; one that is not there yet is added.
fn column_of(code: Code, codes: &mut Vec<Code>) -> Result<usize, Memory>
    ensures codes { OnOk result (codes.new.items ≡ with_code codes.old.items code) }
    ensures column { IfOk result (StandsAt codes.new.items code) }
{
    match place_of(code, codes) {
        Some(column) => Ok(column),
        None => {
            codes.push(code)?;
            Ok(codes.len() - 1)
        }
    }
}

/// The place of a code among others.
fn place_of(code: Code, codes: &[Code]) -> Option<usize>
    ensures value { result ≡ position (λ other. bytes_eq other code) codes.now }
{
    codes.iter().position(|other| *other == code)
}
