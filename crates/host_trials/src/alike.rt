//! A day at each host: the plain host, the host over the pair books, and both desks.
ghost use Rattle.std.specs.Prelude.{◌≤◌, length};
ghost use Rattle.fx_rules.specs.Lists.{Each};
ghost use Rattle.fx_rules.specs.Sending.{IsSentOf};

use crate::desks::{Day, Refused, at_one_lock, at_pair_locks};
use crate::markets::{is_alike, play};
use fx_amounts::Memory;
use fx_rules::{Entry, Sent, Session};
use std::alloc::{AllocGlobal, Global};
use std::sync::Wait;
use trial_days::{NoDay, are_alike};

/// Why the hosts do not tell a day alike.
#[derive(Clone, Copy, Debug, PartialEq, Eq)]
pub(crate) enum Unlike {
    /// There was no memory for it.
    Memory,
    /// There is no such day.
    Day(NoDay),
    /// The host over the pair books tells otherwise than the plain host.
    PairBooks,
    /// The host behind one lock does.
    OneLock,
    /// The host with a lock for each pair does.
    PairLocks,
}

impl From<Memory> for Unlike {
    fn from(_memory: Memory) -> Unlike {
        Unlike::Memory
    }
}

impl From<NoDay> for Unlike {
    fn from(none: NoDay) -> Unlike {
        Unlike::Day(none)
    }
}

/// The history of a day, and how many orders rest at its end. An error where a host tells of it or stands otherwise than another.
pub(crate) fn told_by_all<R: AllocGlobal + Wait>(
    rt: &R,
    session: &Session,
    sent: &[Sent],
) -> Result<(Vec<Entry>, u64), Unlike>
    requires valid { Each (IsSentOf session.now) sent.now }
    requires few { length sent.now ≤ 100000 }
{
    let (entries, resting) = told_by_markets(rt.alloc(), session, sent)?;
    let one_lock = at_one_lock(rt, session, sent);
    if !is_day_of(&one_lock, &entries, resting) {
        return Err(Unlike::OneLock);
    }
    let pair_locks = at_pair_locks(rt, session, sent);
    if !is_day_of(&pair_locks, &entries, resting) {
        return Err(Unlike::PairLocks);
    }
    Ok((entries, resting))
}

/// The history and the number of resting orders of a day at the two hosts on one thread, which have to tell the same.
fn told_by_markets(
    alloc: Global,
    session: &Session,
    sent: &[Sent],
) -> Result<(Vec<Entry>, u64), Unlike>
    requires valid { Each (IsSentOf session.now) sent.now }
    requires few { length sent.now ≤ 100000 }
{
    let day = play(alloc, session, sent)?;
    if !is_alike(alloc, session, &day)? {
        return Err(Unlike::PairBooks);
    }
    let (entries, plain) = day.plain;
    Ok((entries, plain.resting()))
}

/// Whether a desk told these entries, in its history and command by command, and gave books in which so many orders rest.
fn is_day_of(day: &Result<Day, Refused>, entries: &[Entry], resting: u64) -> bool {
    match day {
        Ok(day) => {
            day.is_in_history()
                && are_alike(&day.history, entries)
                && day.resting.unwrap_or(resting) == resting
        }
        Err(_) => false,
    }
}
