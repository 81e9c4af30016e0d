ghost use Rattle.std.specs.Prelude.{◌≡◌, ◌-◌, ◌≤◌, ◌+◌, ◌^◌};
ghost use Rattle.client_desk.specs.Standing.{no_sums};
ghost use Rattle.client_desk.specs.inside.Changes.{filled_sums, released_sums, reserved_sums};

use fx_amounts::Units;
use std::marker::Model;

/// What a client has filled and what its resting orders reserve, in credit units; together at most 10^15.
#[derive(Clone, Copy, Debug)]
pub(crate) struct Account {
    filled: u64,
    reserved: u64,
}

impl Model for Account {
    ghost use Rattle.std.specs.Prelude.{◌≤◌, ◌+◌, ◌^◌};
    ghost use Rattle.client_desk.specs.Standing.{Sums};

    ghost Value = { Sums };

    ghost view = { λ a. record { filled = a.filled; reserved = a.reserved } };

    ghost invariant = { λ a. a.filled + a.reserved ≤ 10 ^ 15 };

    ghost inverse = { λ s. record { filled = s.filled; reserved = s.reserved } };
}

impl Account {
    /// Nothing.
    pub(crate) fn open() -> Account
        ensures value { result ≡ no_sums }
    {
        Account {
            filled: 0,
            reserved: 0,
        }
    }

    /// What is filled.
    pub(crate) fn filled(&self) -> Units
        ensures value { result ≡ self.now.filled }
    {
        Units::new(self.filled).unwrap()
    }

    /// What is reserved.
    pub(crate) fn reserved(&self) -> Units
        ensures value { result ≡ self.now.reserved }
    {
        Units::new(self.reserved).unwrap()
    }

    /// What a limit leaves; nothing where there is more than the limit.
    pub(crate) fn free(&self, limit: Units) -> Units
        ensures value { result ≡ limit - self.now.filled - self.now.reserved }
    {
        let free = limit
            .get()
            .saturating_sub(self.filled)
            .saturating_sub(self.reserved);
        Units::new(free).unwrap()
    }

    /// Reserves credit units.
    pub(crate) fn reserve(&mut self, units: u64)
        requires room { self.old.filled + self.old.reserved + units ≤ 10 ^ 15 }
        ensures value { self.new ≡ reserved_sums self.old units }
    {
        self.reserved += units;
    }

    /// Reserves so many credit units less.
    pub(crate) fn release(&mut self, units: u64)
        requires most { units ≤ self.old.reserved }
        ensures value { self.new ≡ released_sums self.old units }
    {
        self.reserved -= units;
    }

    /// So many credit units that were reserved are filled.
    pub(crate) fn fill(&mut self, units: u64)
        requires most { units ≤ self.old.reserved }
        ensures value { self.new ≡ filled_sums self.old units }
    {
        self.reserved -= units;
        self.filled += units;
    }
}
