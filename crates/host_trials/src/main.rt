//! Trials of the hosts: the plain host, the host over the pair books, and the desks.
//!
//! With no words the program plays a day with every kind of command at both desks, and prints what the banks are told at each. A call
//! of a desk that is refused when out of memory is made again, so that a run of which one allocation is refused prints the same.
//! `days FIRST COUNT` plays so many generated days of version 2 at each host, those with the numbers from FIRST on, and prints on how
//! many there were fills; or, with status 3, the first that the hosts do not tell alike. Status 1: other words; 2: standard output
//! failed; 6: the program itself was out of memory.
//!
//! Its tests play worked sessions and generated days at each host, and run days on threads.
#![tactic(auto)]

ghost use Rattle.std.specs.Prelude.{◌≤◌, length};
ghost use Rattle.fx_rules.specs.Lists.{Each};
ghost use Rattle.fx_rules.specs.Sending.{IsSentOf};

mod alike;
mod desks;
mod generated;
#[cfg(test)]
mod kinds;
mod markets;
#[cfg(test)]
mod readers;
#[cfg(test)]
mod refused;
#[cfg(test)]
mod rounds;
#[cfg(test)]
mod threads;
#[cfg(test)]
mod worked;

use desks::{Day, Refused, at_one_lock, at_pair_locks};
use fx_amounts::Memory;
use fx_edges::{StdSink, write_all};
use fx_rules::{Sent, Session};
use generated::filled_days;
use std::alloc::AllocGlobal;
use std::env::{self, Args};
use std::process::ExitCode;
use std::sync::Wait;
use trial_days::{day_of, tell};

/// A day with each kind of command and each outcome.
const DAY: &[u8] = b"FXBOOK 1
BANK ALFA
BANK BETA
BANK GAMA
PAIR EUR/USD 5 1000000 100
PAIR GBP/USD 5 1000000 70
LINE ALFA BETA 1000
LINE BETA ALFA 1000
START
BETA SELL EUR/USD 1.08420 2 DAY
ALFA BUY EUR/USD 1.08425 3 DAY
BETA BOOK EUR/USD
ALFA REDUCE EUR/USD 1 1
GAMA BUY EUR/USD 1.08430 1 FOK
GAMA CANCEL EUR/USD 7
BETA SELL GBP/USD 1.27000 20 DAY
ALFA BUY GBP/USD 1.27010 20 DAY
ALFA LINE BETA 2000
BETA LINE ALFA 3000
ALFA SHOW BETA
ALFA LINE BETA 400
ALFA BUY EUR/USD 1.08400 5 DAY
ALFA REDUCE EUR/USD 7 3
ALFA CANCEL EUR/USD 1
ALFA PULL EUR/USD
GAMA BUY EUR/USD 1.08420 1 GTC
GAMA BOOK GBP/USD
END
";

/// What is printed of the day at both desks. A desk that was not opened is tried once more.
fn written<R: AllocGlobal + Wait>(
    rt: &R,
    session: &Session,
    sent: &[Sent],
) -> Result<Vec<u8>, Memory>
    requires valid { Each (IsSentOf session.now) sent.now }
    requires few { length sent.now ≤ 100000 }
{
    let mut text = Vec::new(rt.alloc());
    let mut day = at_one_lock(rt, session, sent);
    if is_not_opened(&day) {
        day = at_one_lock(rt, session, sent);
    }
    tell_day(session, b"ONE LOCK\n", &day, &mut text)?;
    day = at_pair_locks(rt, session, sent);
    if is_not_opened(&day) {
        day = at_pair_locks(rt, session, sent);
    }
    tell_day(session, b"PAIR LOCKS\n", &day, &mut text)?;
    Ok(text)
}

fn is_not_opened(day: &Result<Day, Refused>) -> bool {
    match day {
        Err(Refused::Opening) => true,
        _ => false,
    }
}

/// Adds a desk's name, what the banks were told there, and whether its history tells the same.
fn tell_day(
    session: &Session,
    name: &[u8],
    day: &Result<Day, Refused>,
    text: &mut Vec<u8>,
) -> Result<(), Memory> {
    text.extend_from_slice(name)?;
    let Ok(day) = day else {
        text.extend_from_slice(b"NO DAY\n")?;
        return Ok(());
    };
    for outcome in &day.told {
        tell(session, outcome, text)?;
        text.push(b'\n')?;
    }
    text.extend_from_slice(if day.is_in_history() {
        b"ALIKE IN THE HISTORY\n".as_slice()
    } else {
        b"OTHERWISE IN THE HISTORY\n"
    })?;
    Ok(())
}

/// What the words ask for.
enum Task {
    /// The day at both desks.
    Day,
    /// Generated days, so many from this one on.
    Generated { first: u64, count: u64 },
}

fn number(words: &mut Args) -> Option<u64> {
    let word = words.next()?;
    word.as_str().parse::<u64>().ok()
}

fn task_of(mut words: Args) -> Option<Task> {
    let _name = words.next();
    let Some(word) = words.next() else {
        return Some(Task::Day);
    };
    if word.as_str() != "days" {
        return None;
    }
    let first = number(&mut words)?;
    let count = number(&mut words)?;
    Some(Task::Generated { first, count })
}

/// What is printed of the day, with the program's status; none when out of memory.
fn told_day<R: AllocGlobal + Wait>(rt: &R) -> Option<(Vec<u8>, u8)> {
    let (session, sent) = day_of(rt.alloc(), DAY).ok()?;
    let text = written(rt, &session, &sent).ok()?;
    Some((text, 0))
}

/// What is printed of generated days, with the program's status; none when out of memory.
fn told_generated<R: AllocGlobal + Wait>(rt: &R, first: u64, count: u64) -> Option<(Vec<u8>, u8)> {
    let alloc = rt.alloc();
    match filled_days(rt, first, count) {
        Ok(filled) => {
            let text = format!(in alloc;
                "{count} days, {filled} of them with fills: no difference\n"
            );
            Some((text.ok()?.into_bytes(), 0))
        }
        Err((number, unlike)) => {
            let text = format!(in alloc; "day {number}: {unlike:?}\n");
            Some((text.ok()?.into_bytes(), 3))
        }
    }
}

fn main(rt: HostRuntime) -> ExitCode {
    let Ok(words) = env::args(&rt) else {
        return ExitCode::from(6);
    };
    let told = match task_of(words) {
        Some(Task::Day) => told_day(&rt),
        Some(Task::Generated { first, count }) => told_generated(&rt, first, count),
        None => return ExitCode::from(1),
    };
    let Some((text, status)) = told else {
        return ExitCode::from(6);
    };
    match write_all(&mut StdSink::new(rt.stdout()), &text) {
        Ok(()) => ExitCode::from(status),
        Err(_) => ExitCode::from(2),
    }
}
