//! Runs of a session on threads.
ghost use Rattle.std.specs.Prelude.{◌≤◌, IfOk, IfSome, length};
ghost use Rattle.fx_rules.specs.Lists.{Each};
ghost use Rattle.fx_rules.specs.Sending.{IsSentOf};

use crate::alike::told_by_all;
use fx_amounts::{BankId, Memory, PairId};
use fx_rules::{Entry, Gate, Sent, Session};
use gateway_workers::run_on_threads;
use std::alloc::{AllocGlobal, Global};
use std::sync::{Mutex, Wait};
use std::test::Fail;
use std::thread::Threads;
use trial_days::{MOST_COMMANDS, are_alike, bank, trial_day};

/// How many banks send commands.
const BANKS: u8 = 16;

/// What a gate was told of one bank: how many commands came, how many went, and whether each call was the next.
#[derive(Clone, Copy, Debug, PartialEq, Eq)]
struct Calls {
    before: u32,
    after: u32,
    in_order: bool,
}

/// A gate that counts, and holds nobody up.
#[derive(Drop)]
struct CountingGate {
    calls: Mutex<Vec<Calls>>,
}

impl Gate for CountingGate {
    fn before<R: Wait>(&self, rt: &R, bank: BankId, number: u32) {
        let mut calls = self.calls.lock(rt);
        if let Some(own) = calls.get_mut(bank.index()) {
            own.before = own.before.wrapping_add(1);
            own.in_order = own.in_order
                && own.before == number
                && own.after.wrapping_add(1) == number;
        }
    }

    fn after<R: Wait>(&self, rt: &R, bank: BankId, number: u32) {
        let mut calls = self.calls.lock(rt);
        if let Some(own) = calls.get_mut(bank.index()) {
            own.after = own.after.wrapping_add(1);
            own.in_order = own.in_order && own.before == number && own.after == number;
        }
    }

    fn inside<R: Wait>(&self, _rt: &R, _pair: PairId) {}
}

/// Whether each bank had as many calls before its commands, and as many after, as it sends, in order.
fn are_counted(calls: &[Calls], sent: &[Sent]) -> bool {
    for (bank, own) in calls.iter().enumerate() {
        let count = sent.iter().filter(|next| next.bank.index() == bank).count();
        if !own.in_order || own.before as usize != count || own.after as usize != count {
            return false;
        }
    }
    true
}

/// The command of those sent that an entry carried out.
fn sent_as(session: &Session, sent: &[Sent], entry: &Entry) -> Option<Sent>
    requires valid { Each (IsSentOf session.now) sent.now }
    ensures valid { IfSome result (IsSentOf session.now) }
{
    for next in sent {
        if next.bank == entry.bank && next.command == entry.command {
            return Some(*next);
        }
    }
    None
}

/// The commands that were sent, in the order of the history.
fn in_order(
    alloc: Global,
    session: &Session,
    sent: &[Sent],
    history: &[Entry],
) -> Result<Vec<Sent>, Memory>
    requires valid { Each (IsSentOf session.now) sent.now }
    ensures valid { IfOk result (λ ordered. Each (IsSentOf session.now) ordered.items) }
{
    let mut ordered = Vec::new(alloc);
    for entry in history {
        if let Some(next) = sent_as(session, sent, entry) {
            ordered.push(next)?;
        }
    }
    Ok(ordered)
}

/// Whether all hosts, which are sent the history's commands in its order, answer as the history says.
fn is_replayed<R: AllocGlobal + Wait>(
    rt: &R,
    session: &Session,
    sent: &[Sent],
    history: &[Entry],
) -> Result<bool, Fail>
    requires valid { Each (IsSentOf session.now) sent.now }
{
    let ordered = in_order(rt.alloc(), session, sent, history)?;
    if ordered.len() != history.len() || ordered.len() > MOST_COMMANDS {
        return Ok(false);
    }
    let (entries, _resting) = told_by_all(rt, session, &ordered)?;
    Ok(are_alike(&entries, history))
}

/// Whether the history has what a bank sends, in its order.
fn has_stream(history: &[Entry], sent: &[Sent], bank: BankId) -> bool {
    let carried_out = history.iter().filter(|entry| entry.bank == bank);
    let mut its = sent.iter().filter(|next| next.bank == bank);
    for entry in carried_out {
        match its.next() {
            Some(next) if next.command == entry.command => {}
            _ => return false,
        }
    }
    its.next().is_none()
}

/// Whether the history has what each of sixteen banks sends, in its order.
fn has_streams(history: &[Entry], sent: &[Sent]) -> bool {
    for number in 0..BANKS {
        if !has_stream(history, sent, bank(number)) {
            return false;
        }
    }
    true
}

/// Runs a day in so many threads. The history, where the gate saw each command come and go.
fn run_counted<R: AllocGlobal + Threads + Wait + Sync>(
    rt: &R,
    session: &Session,
    sent: &[Sent],
    workers: u32,
) -> Result<Vec<Entry>, Fail>
    requires valid { Each (IsSentOf session.now) sent.now }
    requires few { length sent.now ≤ 100000 }
    requires workers { 1 ≤ workers }
{
    let none = Calls {
        before: 0,
        after: 0,
        in_order: true,
    };
    let gate = CountingGate {
        calls: Mutex::new(vec![in rt.alloc(); none; BANKS as usize]?),
    };
    let (history, _market) = run_on_threads(rt, session, sent, workers, &gate)?;
    if are_counted(&gate.calls.into_inner(), sent) {
        Ok(history)
    } else {
        Err("the gate was not called before and after each command".into())
    }
}

/// Whether a run in so many threads makes a history of all these commands, each bank's in its order, with fills, and with
/// the outcomes that the hosts answer one after another.
fn is_one_history<R: AllocGlobal + Threads + Wait + Sync>(
    rt: &R,
    session: &Session,
    sent: &[Sent],
    workers: u32,
) -> Result<bool, Fail>
    requires valid { Each (IsSentOf session.now) sent.now }
    requires few { length sent.now ≤ 100000 }
    requires workers { 1 ≤ workers }
{
    let history = run_counted(rt, session, sent, workers)?;
    let has_fills = history
        .iter()
        .any(|entry| !entry.outcome.fills().is_empty());
    Ok(
        has_fills
            && history.len() == sent.len()
            && has_streams(&history, sent)
            && is_replayed(rt, session, sent, &history)?,
    )
}

#[test]
fn sixteen_banks_make_one_history(rt: HostRuntime) -> Result<(), Fail> {
    let (session, sent) = trial_day(rt.alloc(), 1, BANKS, 2, 2, 1_000)?;
    for workers in [1, 4, 16] {
        let is_one = is_one_history(&rt, &session, &sent, workers)?;
        assert!(rt; is_one, "{workers} workers");
    }
    Ok(())
}
