//! Sums and differences of credit units.
ghost use Rattle.std.specs.Prelude.{◌≡◌, ◌≤◌, ◌+◌, ◌-◌, min, max};
ghost use Rattle.fx_amounts.specs.Quantity.{IsUnits};
ghost use Rattle.fx_rules.specs.State as state;

use fx_amounts::Units;

pub(crate) fn lesser(a: Units, b: Units) -> Units
    ensures { result ≡ min a b }
{
    if a <= b { a } else { b }
}

pub(crate) fn greater(a: Units, b: Units) -> Units
    ensures value { result ≡ max a b }
    ensures most { IsUnits result }
{
    if a <= b { b } else { a }
}

pub(crate) fn sum(a: Units, b: Units) -> Units
    requires { IsUnits (a + b) }
    ensures { result ≡ a + b }
{
    Units::new(a.get() + b.get()).unwrap()
}

pub(crate) fn difference(a: Units, b: Units) -> Units
    requires { b ≤ a }
    ensures { result ≡ a - b }
{
    Units::new(a.get() - b.get()).unwrap()
}

/// Credit units, and no more than a bound where there is one, in credit units too.
pub fn at_most(bound: Option<u64>, units: Units) -> Units
    ensures value { result ≡ state.at_most bound units }
{
    match bound {
        Some(most) if most < units.get() => Units::new(most).unwrap(),
        _ => units,
    }
}
