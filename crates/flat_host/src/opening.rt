ghost use Rattle.std.specs.Prelude.{ℕ, ◌≡◌, ◌<◌, IfOk, Option, None, slice_index, slice_index_or, vec_len};
ghost use Rattle.fx_rules.specs.Session.{opening_total};
ghost use Rattle.flat_host.specs.inside.Opening.{limit_at};

use fx_amounts::{BankId, Memory, Units};
use fx_rules::Session;
use std::alloc::Global;

/// The limits that the banks open with, in rows of 65.
pub(crate) fn opening_limits(alloc: Global, session: &Session) -> Result<Vec<Units>, Memory>
    ensures full { IfOk result (λ limits. vec_len limits ≡ 4225) }
    ensures limits { IfOk result (λ limits. (place : ℕ) → place < 4225 → slice_index limits.items place ≡ limit_at session.now place) }
{
    let mut limits = Vec::new(alloc);
    for place in 0..4225u32 {
        limits.push(opening_limit_at(session, place))?;
    }
    Ok(limits)
}

/// A table in which nothing is used.
pub(crate) fn no_uses(alloc: Global) -> Result<Vec<Units>, Memory>
    ensures full { IfOk result (λ uses. vec_len uses ≡ 4225) }
    ensures uses { IfOk result (λ uses. (place : ℕ) → slice_index uses.items place ≡ 0) }
{
    let mut uses = Vec::new(alloc);
    for _place in 0..4225u32 {
        uses.push(Units::new(0).unwrap())?;
    }
    Ok(uses)
}

/// The limit that stands at a place of the table; 0 where no two banks of the session have it.
fn opening_limit_at(session: &Session, place: u32) -> Units
    requires { place < 4225 }
    ensures value { result ≡ limit_at session.now place }
{
    let banks = session.banks().len();
    let i = BankId::at((place / 65) as usize);
    let j = BankId::at((place % 65) as usize);
    if i.index() < banks && j.index() < banks {
        session.limit(i, j)
    } else {
        Units::new(0).unwrap()
    }
}

/// The totals that the banks open with, at 65 places.
pub(crate) fn opening_totals(alloc: Global, session: &Session) -> Result<Vec<Option<u64>>, Memory>
    ensures full { IfOk result (λ totals. vec_len totals ≡ 65) }
    ensures totals { IfOk result (λ totals. (bank : ℕ) → bank < 65 → slice_index_or totals.items bank None ≡ opening_total session.now bank) }
{
    let mut totals = Vec::new(alloc);
    for place in 0..BankId::SENDERS {
        totals.push(opening_total_at(session, BankId::at(place)))?;
    }
    Ok(totals)
}

/// The total that a bank opens with, where it has one.
fn opening_total_at(session: &Session, bank: BankId) -> Option<u64>
    ensures value { result ≡ opening_total session.now bank }
{
    match session.total(bank) {
        None => None,
        Some(units) => Some(units.get()),
    }
}
