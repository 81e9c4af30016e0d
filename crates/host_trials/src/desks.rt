//! A day at a desk, command by command on one thread. A submit that is refused when out of memory is made again.
ghost use Rattle.std.specs.Prelude.{◌≡◌, ◌≤◌, ◌<◌, ◌-◌, ◌+◌, ◌^◌, OnOk, IfOk, length};
ghost use Rattle.credit_book.specs.Recorded.{key_count};
ghost use Rattle.fx_chronicle.specs.Submitting.{Submitted};
ghost use Rattle.fx_rules.specs.Lists.{Each};
ghost use Rattle.fx_rules.specs.Sending.{IsSentOf};
ghost use Rattle.fx_rules.specs.Session.{IsSession, senders};
ghost use Rattle.fx_rules.specs.Step.{IsCommand};
ghost use Rattle.host_trials.specs.inside.Passes.{AreOfSenders};

use flat_host::{close_one, open_one};
use fx_chronicle::{Blank, Desk, Naming, Pass, place_among};
use fx_host::{Closed, Host, close_host, keys_of, open_host};
use fx_rules::{Command, Entry, EntryList, OpenGate, Outcome, Sent, Session};
use pair_host::resting;
use pair_shards::Shard;
use std::alloc::AllocGlobal;
use std::marker::Brand;
use std::sync::Wait;
use trial_days::{are_alike, is_same};

/// What a day at a desk came to: what the banks were told, and the history at the close.
#[derive(Drop)]
pub(crate) struct Day {
    pub(crate) told: Vec<Outcome>,
    pub(crate) history: Vec<Entry>,
    /// How many orders rest in the pairs' books at the close, where the desk gives them.
    pub(crate) resting: Option<u64>,
}

impl Day {
    /// Whether the history tells what the banks were told, in order.
    pub(crate) fn is_in_history(&self) -> bool {
        for (outcome, entry) in self.told.iter().zip(self.history.iter()) {
            if !is_same(outcome, &entry.outcome) {
                return false;
            }
        }
        self.told.len() == self.history.len()
    }
}

/// Why a desk's day came to nothing.
#[derive(Clone, Copy, Debug, PartialEq, Eq)]
pub(crate) enum Refused {
    /// The desk was not opened: out of memory. It may be tried again.
    Opening,
    /// A call was refused twice: out of memory.
    Calling,
    /// A pass was given other entries than those of the history.
    Seeing,
}

/// A day at the host behind one lock.
pub(crate) fn at_one_lock<R: AllocGlobal + Wait>(
    rt: &R,
    session: &Session,
    sent: &[Sent],
) -> Result<Day, Refused>
    requires valid { Each (IsSentOf session.now) sent.now }
    requires few { length sent.now ≤ 100000 }
{
    match Blank::new(rt.alloc(), 65) {
        Ok(blank) => day_at_one_lock::<Brand, _>(rt, blank, session, sent),
        Err(_) => Err(Refused::Opening),
    }
}

/// A day at the host with a lock for each pair.
pub(crate) fn at_pair_locks<R: AllocGlobal + Wait>(
    rt: &R,
    session: &Session,
    sent: &[Sent],
) -> Result<Day, Refused>
    requires valid { Each (IsSentOf session.now) sent.now }
    requires few { length sent.now ≤ 100000 }
{
    match Blank::new(rt.alloc(), keys_of(session)) {
        Ok(blank) => day_at_pair_locks::<Brand, _>(rt, blank, session, sent),
        Err(_) => Err(Refused::Opening),
    }
}

/// A day at the host behind one lock, over this blank.
fn day_at_one_lock<N: Naming + Send, R: AllocGlobal + Wait>(
    rt: &R,
    blank: Blank<Entry>,
    session: &Session,
    sent: &[Sent],
) -> Result<Day, Refused>
    requires table { blank.table ≡ N.table }
    requires keys { blank.keys ≡ 65 }
    requires session { session.now ≡ N.session }
    requires valid { Each (IsSentOf session.now) sent.now }
    requires few { length sent.now ≤ 100000 }
{
    // That each sender has a pass rests on a valid session, as each is.
    let _banks = session.banks();
    let mut told = room(rt, sent)?;
    let Ok((host, mut passes)) = open_one::<N>(rt.alloc(), blank, session) else {
        return Err(Refused::Opening);
    };
    let done = submit_all(rt, &host, &mut passes, sent, &mut told);
    let history = close_one(host, passes);
    done?;
    Ok(Day {
        told,
        history,
        resting: None,
    })
}

/// A day at the host with a lock for each pair, over this blank.
fn day_at_pair_locks<N: Naming + Send, R: AllocGlobal + Wait>(
    rt: &R,
    blank: Blank<Entry>,
    session: &Session,
    sent: &[Sent],
) -> Result<Day, Refused>
    requires table { blank.table ≡ N.table }
    requires keys { blank.keys ≡ key_count session.now }
    requires session { session.now ≡ N.session }
    requires valid { Each (IsSentOf session.now) sent.now }
    requires few { length sent.now ≤ 100000 }
{
    // That each sender has a pass rests on a valid session, as each is.
    let _banks = session.banks();
    let mut told = room(rt, sent)?;
    let Ok((host, mut passes)) = open_host::<N>(rt.alloc(), blank, session) else {
        return Err(Refused::Opening);
    };
    let done = submit_all(rt, &host, &mut passes, sent, &mut told);
    let seen = entries_again(rt, &host, &mut passes);
    let Closed {
        history,
        table: _,
        shards,
    } = close_host(host, passes);
    done?;
    if !are_alike(&history, seen?.as_slice()) {
        return Err(Refused::Seeing);
    }
    Ok(Day {
        told,
        history,
        resting: Some(resting_in(&shards)),
    })
}

/// Room for as many outcomes as there are commands.
fn room<R: AllocGlobal>(rt: &R, sent: &[Sent]) -> Result<Vec<Outcome>, Refused> {
    match Vec::with_capacity(rt.alloc(), sent.len()) {
        Ok(told) => Ok(told),
        Err(_) => Err(Refused::Opening),
    }
}

/// Submits commands one after another, each by its sender's pass, which learns before what the last one has seen. Adds what the
/// banks are told.
fn submit_all<D: Desk, R: Wait>(
    rt: &R,
    desk: &D,
    passes: &mut [D::Pass],
    sent: &[Sent],
    told: &mut Vec<Outcome>,
) -> Result<(), Refused>
    requires session { IsSession D.session }
    requires count { length passes.old ≡ length (senders D.session) }
    requires passes { AreOfSenders D.session D.bank D.mine 0 passes.old }
    requires valid { Each (IsSentOf D.session) sent.now }
    requires few { length sent.now ≤ 100000 }
{
    let mut note = None;
    for next in sent {
        let place = place_among(passes.len(), next.bank);
        let pass = &mut passes[place];
        if let Some(note) = note.take() {
            desk.learn(pass, note);
        }
        submit_told(rt, desk, pass, &next.command, told)?;
        note = Some(desk.note(pass));
    }
    Ok(())
}

/// Submits a command, and adds what the bank is told.
fn submit_told<D: Desk, R: Wait>(
    rt: &R,
    desk: &D,
    pass: &mut D::Pass,
    command: &Command,
    told: &mut Vec<Outcome>,
) -> Result<(), Refused>
    requires command { IsCommand D.session (D.bank pass.old) command.now }
    requires few { length (D.mine pass.old) < 2 ^ 32 - 1 }
    ensures bank { D.bank pass.new ≡ D.bank pass.old }
    ensures one_more { OnOk result (length (D.mine pass.new) ≡ length (D.mine pass.old) + 1) }
{
    let outcome = submit_again(rt, desk, pass, command)?;
    match told.push(outcome) {
        Ok(()) => Ok(()),
        Err(_) => Err(Refused::Calling),
    }
}

/// Submits a command, and once more where it was refused when out of memory: a refused one left no trace.
fn submit_again<D: Desk, R: Wait>(
    rt: &R,
    desk: &D,
    pass: &mut D::Pass,
    command: &Command,
) -> Result<Outcome, Refused>
    requires command { IsCommand D.session (D.bank pass.old) command.now }
    requires few { length (D.mine pass.old) < 2 ^ 32 - 1 }
    ensures bank { D.bank pass.new ≡ D.bank pass.old }
    ensures submitted { IfOk result (Submitted D.session (D.bank pass.old) (D.seen pass.old) (D.mine pass.old) command.now (D.seen pass.new) (D.mine pass.new)) }
{
    if let Ok(outcome) = desk.submit(rt, &OpenGate, pass, command) {
        return Ok(outcome);
    }
    match desk.submit(rt, &OpenGate, pass, command) {
        Ok(outcome) => Ok(outcome),
        Err(_) => Err(Refused::Calling),
    }
}

/// The entries that the first pass is given, asked for once more where that was refused when out of memory.
fn entries_again<N: Naming, R: Wait>(
    rt: &R,
    host: &Host<N>,
    passes: &mut [Pass<N>],
) -> Result<EntryList, Refused> {
    let Some(pass) = passes.first_mut() else {
        return Err(Refused::Seeing);
    };
    if let Ok(entries) = host.entries_from(rt, pass, 0) {
        return Ok(entries);
    }
    match host.entries_from(rt, pass, 0) {
        Ok(entries) => Ok(entries),
        Err(_) => Err(Refused::Calling),
    }
}

/// How many orders rest in the pairs' books.
fn resting_in<N: Naming>(shards: &[Shard<N>]) -> u64 {
    let mut count = 0u64;
    for shard in shards {
        count = count.saturating_add(resting(shard.book()));
    }
    count
}
