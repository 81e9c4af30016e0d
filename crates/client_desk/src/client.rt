ghost use Rattle.std.specs.Prelude.{◌≡◌, ◌<◌};

use fx_amounts::{BankId, Units};
use fx_rules::Name;
use std::marker::Model;

/// A client of a bank.
#[derive(Clone, Copy, Debug, PartialEq, Eq)]
pub struct Client {
    /// The bank in whose name it trades.
    pub bank: BankId,
    /// Its own name, in the form of a bank's.
    pub name: Name,
    /// The most that it may have filled and resting, in credit units, 0 to 10^15.
    pub limit: Units,
}

/// The place of a client among the clients, from 0, in the order in which they were declared: 0 to 1023.
#[derive(Clone, Copy, Debug, PartialEq, Eq)]
pub struct ClientId(u16);

impl Model for ClientId {
    ghost use Rattle.std.specs.Prelude.{ℕ, ◌<◌};

    ghost Value = { ℕ };

    ghost view = { λ c. c.0 };

    ghost invariant = { λ c. c.0 < 1024 };

    ghost inverse = { λ n. record { 0 = n } };
}

impl ClientId {
    /// How many clients there can be.
    pub const COUNT: usize = 1024;

    /// The client at a place of a table of clients.
    pub fn at(index: usize) -> ClientId
        requires within { index < 1024 }
        ensures value { result ≡ index }
    {
        ClientId(index as u16)
    }

    /// The client's place in a table of clients.
    pub fn index(self) -> usize
        ensures value { result ≡ self }
        ensures most { result < 1024 }
    {
        usize::from(self.0)
    }
}
