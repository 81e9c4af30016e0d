use fx_rules::{Entry, Outcome};

/// Whether both have the same entries.
pub fn are_alike(one: &[Entry], other: &[Entry]) -> bool {
    for (entry, other_entry) in one.iter().zip(other.iter()) {
        if !are_same(entry, other_entry) {
            return false;
        }
    }
    one.len() == other.len()
}

fn are_same(one: &Entry, other: &Entry) -> bool {
    one.bank == other.bank
        && one.number == other.number
        && one.command == other.command
        && is_same(&one.outcome, &other.outcome)
}

/// Whether both tell the same.
pub fn is_same(one: &Outcome, other: &Outcome) -> bool {
    one.fills() == other.fills() && is_same_beside_fills(one, other)
}

/// Whether two outcomes are alike in all but their fills.
fn is_same_beside_fills(one: &Outcome, other: &Outcome) -> bool {
    match (one, other) {
        (
            Outcome::Ordered { filled, rests, .. },
            Outcome::Ordered {
                filled: other_filled,
                rests: other_rests,
                ..
            },
        ) => filled == other_filled && rests == other_rests,
        (
            Outcome::LineSet { limit, .. },
            Outcome::LineSet {
                limit: other_limit,
                ..
            },
        ) => limit == other_limit,
        (
            Outcome::TotalSet { limit, .. },
            Outcome::TotalSet {
                limit: other_limit,
                ..
            },
        ) => limit == other_limit,
        (
            Outcome::Settled { given, .. },
            Outcome::Settled {
                given: other_given,
                ..
            },
        ) => given == other_given,
        (
            Outcome::Depth { bids, asks },
            Outcome::Depth {
                bids: other_bids,
                asks: other_asks,
            },
        ) => bids.as_slice() == other_bids.as_slice() && asks.as_slice() == other_asks.as_slice(),
        _ => is_same_number(one, other),
    }
}

/// Whether two outcomes that have no list are alike.
fn is_same_number(one: &Outcome, other: &Outcome) -> bool {
    match (one, other) {
        (Outcome::Killed, Outcome::Killed) | (Outcome::Nothing, Outcome::Nothing) => true,
        (Outcome::Cancelled { left }, Outcome::Cancelled { left: other_left })
        | (Outcome::Reduced { left }, Outcome::Reduced { left: other_left })
        | (Outcome::NotLess { left }, Outcome::NotLess { left: other_left }) => left == other_left,
        (Outcome::Pulled { count }, Outcome::Pulled { count: other_count }) => count == other_count,
        (
            Outcome::Shown { limit, used, eff },
            Outcome::Shown {
                limit: other_limit,
                used: other_used,
                eff: other_eff,
            },
        ) => limit == other_limit && used == other_used && eff == other_eff,
        (
            Outcome::Rejected { reason },
            Outcome::Rejected {
                reason: other_reason,
            },
        ) => reason == other_reason,
        _ => false,
    }
}
