//! Days in three rounds on threads: two are run and gathered, their history is submitted again at another run, and the third is run
//! there.
ghost use Rattle.std.specs.Prelude.{◌≡◌, ◌≤◌, length, IfOk};
ghost use Rattle.credit_book.specs.Recorded.{key_count};
ghost use Rattle.fx_rules.specs.History.{IsLegal};
ghost use Rattle.fx_rules.specs.Lists.{Each};
ghost use Rattle.fx_rules.specs.Sending.{IsSentOf};

use fx_amounts::Memory;
use fx_chronicle::{Blank, Naming};
use fx_rules::{Entry, EntryList, OpenGate, Sent, Session};
use gateway_workers::{ThreadedRun, keys_of};
use std::alloc::AllocGlobal;
use std::marker::Brand;
use std::sync::Wait;
use std::test::Fail;
use std::thread::Threads;
use trial_days::{MOST_COMMANDS, are_alike, trial_day};

/// A day of three rounds: its seed, how many banks and pairs, and in how many threads it is run.
type Day = (u64, (u8, u8), u32);

const DAYS: [Day; 4] = [
    (31, (2, 1), 1),
    (32, (3, 2), 4),
    (33, (5, 4), 2),
    (34, (16, 3), 4),
];

/// Two rounds of a run: what was gathered behind each, and the history at the close.
#[derive(Drop)]
struct TwoRounds {
    first: EntryList,
    second: EntryList,
    history: Vec<Entry>,
}

/// A round behind a history that was submitted again: what was gathered behind it, and the history at the close.
#[derive(Drop)]
struct RoundBehind {
    more: EntryList,
    history: Vec<Entry>,
}

/// Runs two rounds at a host of this blank, and gathers each.
fn two_rounds<N: Naming + Send + Sync, R: AllocGlobal + Threads + Wait + Sync>(
    rt: &R,
    blank: Blank<Entry>,
    session: &Session,
    sent: (&[Sent], &[Sent]),
    workers: u32,
) -> Result<TwoRounds, Memory>
    requires table { blank.table ≡ N.table }
    requires keys { blank.keys ≡ key_count N.session }
    requires session { session.now ≡ N.session }
    requires valid { Each (IsSentOf session.now) sent.0.now }
    requires valid_too { Each (IsSentOf session.now) sent.1.now }
    requires few { length sent.0.now ≤ 100000 }
    requires few_too { length sent.1.now ≤ 100000 }
    requires workers { 1 ≤ workers }
    ensures legal { IfOk result (λ ran. IsLegal session.now ran.history.items) }
{
    let mut run = ThreadedRun::<N>::open(rt.alloc(), blank, session)?;
    run.serve_round(rt, sent.0, workers, &OpenGate)?;
    let first = run.gather(rt)?;
    run.serve_round(rt, sent.1, workers, &OpenGate)?;
    let second = run.gather(rt)?;
    let (history, _market) = run.close(rt.alloc(), session)?;
    Ok(TwoRounds {
        first,
        second,
        history,
    })
}

/// Submits a history's commands again at a host of this blank, and runs and gathers a round behind it.
fn round_behind<N: Naming + Send + Sync, R: AllocGlobal + Threads + Wait + Sync>(
    rt: &R,
    blank: Blank<Entry>,
    session: &Session,
    kept: &[Entry],
    sent: &[Sent],
    workers: u32,
) -> Result<RoundBehind, Memory>
    requires table { blank.table ≡ N.table }
    requires keys { blank.keys ≡ key_count N.session }
    requires session { session.now ≡ N.session }
    requires legal { IsLegal session.now kept.now }
    requires kept { length kept.now ≤ 100000 }
    requires valid { Each (IsSentOf session.now) sent.now }
    requires few { length sent.now ≤ 100000 }
    requires workers { 1 ≤ workers }
{
    let mut run = ThreadedRun::<N>::open(rt.alloc(), blank, session)?;
    run.replay(rt, kept)?;
    run.serve_round(rt, sent, workers, &OpenGate)?;
    let more = run.gather(rt)?;
    let (history, _market) = run.close(rt.alloc(), session)?;
    Ok(RoundBehind { more, history })
}

/// Whether a history is these entries and then those.
fn is_both(history: &[Entry], first: &[Entry], second: &[Entry]) -> bool {
    if history.len() < first.len() {
        return false;
    }
    let (front, back) = history.split_at(first.len());
    are_alike(front, first) && are_alike(back, second)
}

/// The history of two rounds, where it is what was gathered of them.
fn gathered<R: AllocGlobal + Threads + Wait + Sync>(
    rt: &R,
    session: &Session,
    sent: (&[Sent], &[Sent]),
    workers: u32,
) -> Result<Vec<Entry>, Fail>
    requires valid { Each (IsSentOf session.now) sent.0.now }
    requires valid_too { Each (IsSentOf session.now) sent.1.now }
    requires few { length sent.0.now ≤ 100000 }
    requires few_too { length sent.1.now ≤ 100000 }
    requires workers { 1 ≤ workers }
    ensures legal { IfOk result (λ history. IsLegal session.now history.items) }
{
    let blank = Blank::new(rt.alloc(), keys_of(session))?;
    let ran = two_rounds::<Brand, R>(rt, blank, session, sent, workers)?;
    if !is_both(&ran.history, ran.first.as_slice(), ran.second.as_slice()) {
        return Err("the history is not what was gathered of two rounds".into());
    }
    Ok(ran.history)
}

/// Whether the history of a run is one that was submitted again, and then what was gathered of a round behind it.
fn is_gathered_behind<R: AllocGlobal + Threads + Wait + Sync>(
    rt: &R,
    session: &Session,
    kept: &[Entry],
    sent: &[Sent],
    workers: u32,
) -> Result<bool, Fail>
    requires legal { IsLegal session.now kept.now }
    requires kept { length kept.now ≤ 100000 }
    requires valid { Each (IsSentOf session.now) sent.now }
    requires few { length sent.now ≤ 100000 }
    requires workers { 1 ≤ workers }
{
    let blank = Blank::new(rt.alloc(), keys_of(session))?;
    let ran = round_behind::<Brand, R>(rt, blank, session, kept, sent, workers)?;
    Ok(ran.more.as_slice().len() == sent.len() && is_both(&ran.history, kept, ran.more.as_slice()))
}

/// Whether a day in three rounds, the last behind the history of the others, makes the histories that are gathered of it.
fn is_gathered<R: AllocGlobal + Threads + Wait + Sync>(
    rt: &R,
    session: &Session,
    sent: &[Sent],
    workers: u32,
) -> Result<bool, Fail>
    requires valid { Each (IsSentOf session.now) sent.now }
    requires few { length sent.now ≤ 100000 }
    requires workers { 1 ≤ workers }
{
    let (first, rest) = sent.split_at(sent.len() / 3);
    let (second, third) = rest.split_at(rest.len() / 2);
    let kept = gathered(rt, session, (first, second), workers)?;
    if kept.len() != first.len() + second.len() || kept.len() > MOST_COMMANDS {
        return Ok(false);
    }
    is_gathered_behind(rt, session, &kept, third, workers)
}

#[test]
fn rounds_are_gathered_and_a_history_is_submitted_again(rt: HostRuntime) -> Result<(), Fail> {
    for (seed, (banks, pairs), workers) in DAYS {
        let (session, sent) = trial_day(rt.alloc(), seed, banks, pairs, 3, 60)?;
        let is_whole = is_gathered(&rt, &session, &sent, workers)?;
        assert!(rt; is_whole, "seed {seed}");
    }
    Ok(())
}
