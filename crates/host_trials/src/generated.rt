//! Generated days, played at each host.
use crate::alike::{Unlike, told_by_all};
use fx_rules::Entry;
use std::alloc::AllocGlobal;
use std::sync::Wait;
use trial_days::trial_day;

/// A day: its seed, how many banks and pairs it has, and how many parts of how many commands, each followed by the local books of
/// every bank in every pair.
pub(crate) type Generated = (u64, (u8, u8), (u32, u32));

/// Whether there were fills on a day, of which the hosts tell alike.
pub(crate) fn has_fills<R: AllocGlobal + Wait>(rt: &R, day: Generated) -> Result<bool, Unlike> {
    let (seed, (banks, pairs), (parts, commands)) = day;
    let (session, sent) = trial_day(rt.alloc(), seed, banks, pairs, parts, commands)?;
    let (entries, _resting) = told_by_all(rt, &session, &sent)?;
    Ok(entries.iter().any(is_filled))
}

fn is_filled(entry: &Entry) -> bool {
    !entry.outcome.fills().is_empty()
}

/// The day of version 2 with a number: of 2 to 5 banks and 1 to 3 pairs.
fn day_of_two(number: u64) -> Generated {
    let banks = 2 + (number % 4) as u8;
    let pairs = 1 + (number / 4 % 3) as u8;
    (number.wrapping_mul(8), (banks, pairs), (2, 20))
}

/// On how many of the days of version 2 with numbers from `first` on there were fills, `count` days that the hosts tell alike; else
/// the first of which they do not, and why.
pub(crate) fn filled_days<R: AllocGlobal + Wait>(
    rt: &R,
    first: u64,
    count: u64,
) -> Result<u64, (u64, Unlike)> {
    let mut found = 0u64;
    for place in 0..count {
        let number = first.wrapping_add(place);
        match has_fills(rt, day_of_two(number)) {
            Ok(true) => found = found.saturating_add(1),
            Ok(false) => {}
            Err(unlike) => return Err((number, unlike)),
        }
    }
    Ok(found)
}
