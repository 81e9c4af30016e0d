ghost use Rattle.std.specs.Prelude.{◌≡◌, ◌<◌, ◌↔◌, IsSome, IfSome};
ghost use Rattle.fx_amounts.specs.Seat.{IsBank, IsPair};

use std::marker::Model;

/// The number of a sender: a bank's is its place in the session's header, 0 to 63, and the operator's is 64.
#[derive(Clone, Copy, Debug, PartialEq, Eq, PartialOrd, Ord, Hash)]
pub struct BankId(u8);

impl Model for BankId {
    ghost use Rattle.std.specs.Prelude.{ℕ};
    ghost use Rattle.fx_amounts.specs.Seat.{IsBank};

    ghost Value = { ℕ };

    ghost view = { λ b. b.0 };

    ghost invariant = { λ b. IsBank b.0 };

    ghost inverse = { λ n. record { 0 = n } };
}

impl BankId {
    /// How many banks a session can have.
    pub const COUNT: usize = 64;

    /// The places of an array that a bare number of a sender indexes: as many as there can be senders.
    pub const SENDERS: usize = 65;

    /// The operator, who is no bank: it has no line, no orders and no local book.
    pub const HOST: BankId = BankId(64);

    /// The sender of this number; `None` where it is out of range.
    pub fn new(number: u8) -> Option<BankId>
        ensures valid { IsSome result ↔ IsBank number }
        ensures value { IfSome result (λ bank. bank ≡ number) }
    {
        if usize::from(number) < Self::SENDERS {
            Some(BankId(number))
        } else {
            None
        }
    }

    /// The sender at a place of a table of senders.
    pub fn at(index: usize) -> BankId
        requires within { IsBank index }
        ensures value { result ≡ index }
    {
        BankId(index as u8)
    }

    /// The sender's place in a table of senders.
    pub fn index(self) -> usize
        ensures value { result ≡ self }
        ensures most { result < 65 }
    {
        usize::from(self.0)
    }
}

/// The number of a currency pair, in the order of the session's header: 0 to 31.
#[derive(Clone, Copy, Debug, PartialEq, Eq, PartialOrd, Ord, Hash)]
pub struct PairId(u8);

impl Model for PairId {
    ghost use Rattle.std.specs.Prelude.{ℕ};
    ghost use Rattle.fx_amounts.specs.Seat.{IsPair};

    ghost Value = { ℕ };

    ghost view = { λ p. p.0 };

    ghost invariant = { λ p. IsPair p.0 };

    ghost inverse = { λ n. record { 0 = n } };
}

impl PairId {
    /// How many pairs a session can have.
    pub const COUNT: usize = 32;

    /// The pair of this number; `None` where it is out of range.
    pub fn new(number: u8) -> Option<PairId>
        ensures valid { IsSome result ↔ IsPair number }
        ensures value { IfSome result (λ pair. pair ≡ number) }
    {
        if usize::from(number) < Self::COUNT {
            Some(PairId(number))
        } else {
            None
        }
    }

    /// The pair at a place of a table of pairs.
    pub fn at(index: usize) -> PairId
        requires within { IsPair index }
        ensures value { result ≡ index }
    {
        PairId(index as u8)
    }

    /// The pair's place in a table of pairs.
    pub fn index(self) -> usize
        ensures value { result ≡ self }
        ensures most { result < 32 }
    {
        usize::from(self.0)
    }
}
