ghost use Rattle.std.specs.Prelude.{◌≡◌, ◌<◌, IfOk, OnErr};
ghost use Rattle.fx_rules.specs.Step.{fills_of, item_count};

use crate::command::{Command, Reject};
use crate::lists::ListOf;
use crate::orders::{Fill, FillList, LevelList};
use fx_amounts::{BankId, Memory, Units};

/// What came of a command. What is filled, rests or is left is in lots, a limit, a total, a use and a line in credit units.
#[derive(Debug, Drop)]
pub enum Outcome {
    /// An order was swept: the lots filled, the lots that rest, and the fills in order.
    Ordered {
        filled: u32,
        rests: u32,
        fills: FillList,
    },
    /// A fill-or-kill order would have left a rest; nothing changed.
    Killed,
    /// The order was taken out with so many lots left.
    Cancelled {
        left: u32,
    },
    /// The order has so many lots left now.
    Reduced {
        left: u32,
    },
    /// The order has no more left than was asked for, and stays as it is with `left`.
    NotLess {
        left: u32,
    },
    /// No such order of the sender rests in the pair.
    Nothing,
    /// So many orders were taken out.
    Pulled {
        count: u32,
    },
    /// The limit that was set, and the fills that it made possible, in order.
    LineSet {
        limit: Units,
        fills: FillList,
    },
    /// The total that was set, at most 63 * 10^15, and the fills that it made possible, in order.
    TotalSet {
        limit: u64,
        fills: FillList,
    },
    /// The units that were given back, and the fills that this made possible, in order.
    Settled {
        given: Units,
        fills: FillList,
    },
    /// The sender's limit on the other bank, what the two have used, and the line between them.
    Shown {
        limit: Units,
        used: Units,
        eff: Units,
    },
    /// The sender's local book: of each side at most ten levels, the best first.
    Depth {
        bids: LevelList,
        asks: LevelList,
    },
    /// The command line could not be read.
    Rejected {
        reason: Reject,
    },
}

impl Outcome {
    /// The fills that it tells, in order; none but of an order that was swept and of a credit change. It takes no memory.
    pub fn fills(&self) -> &[Fill]
        ensures fills { result.now ≡ fills_of self.now }
    {
        match self {
            Outcome::Ordered { fills, .. } => fills.as_slice(),
            Outcome::LineSet { fills, .. }
            | Outcome::TotalSet { fills, .. }
            | Outcome::Settled { fills, .. } => fills.as_slice(),
            _ => &[],
        }
    }

    /// An equal outcome, in memory of its own; one without fills and levels takes none. At `Memory` there is no new outcome,
    /// and this one is as it was.
    pub fn copy(&self) -> Result<Outcome, Memory>
        ensures equal { IfOk result (λ outcome. outcome ≡ self.now) }
        ensures wanted { OnErr result (0 < item_count self.now) }
    {
        Ok(match self {
            Outcome::Ordered {
                filled,
                rests,
                fills,
            } => Outcome::Ordered {
                filled: *filled,
                rests: *rests,
                fills: fills.copy()?,
            },
            Outcome::Killed => Outcome::Killed,
            Outcome::Cancelled { left } => Outcome::Cancelled { left: *left },
            Outcome::Reduced { left } => Outcome::Reduced { left: *left },
            Outcome::NotLess { left } => Outcome::NotLess { left: *left },
            Outcome::Nothing => Outcome::Nothing,
            Outcome::Pulled { count } => Outcome::Pulled { count: *count },
            Outcome::LineSet { limit, fills } => Outcome::LineSet {
                limit: *limit,
                fills: fills.copy()?,
            },
            Outcome::TotalSet { limit, fills } => Outcome::TotalSet {
                limit: *limit,
                fills: fills.copy()?,
            },
            Outcome::Settled { given, fills } => Outcome::Settled {
                given: *given,
                fills: fills.copy()?,
            },
            Outcome::Shown { limit, used, eff } => Outcome::Shown {
                limit: *limit,
                used: *used,
                eff: *eff,
            },
            Outcome::Depth { bids, asks } => Outcome::Depth {
                bids: bids.copy()?,
                asks: asks.copy()?,
            },
            Outcome::Rejected { reason } => Outcome::Rejected { reason: *reason },
        })
    }
}

/// An entry of the history: one command, with what came of it.
#[derive(Debug, Drop)]
pub struct Entry {
    /// Who sent it.
    pub bank: BankId,
    /// Its place in the sender's stream, from 1.
    pub number: u32,
    pub command: Command,
    pub outcome: Outcome,
}

/// Entries in the order of the history.
pub type EntryList = ListOf<Entry>;

/// Commands in the order of a stream.
pub type CommandList = ListOf<Command>;
