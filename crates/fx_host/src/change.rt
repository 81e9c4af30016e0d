//! A credit change over all pairs, while no other command of a pair is served.
ghost use Rattle.std.specs.Prelude.{◌≡◌, ◌<◌, ◌-◌, ◌+◌, ◌^◌, [], true, length, IfOk, OnOk, OnErr};
ghost use Rattle.fx_rules.specs.Session.{IsSession, pair_count};
ghost use Rattle.fx_rules.specs.Keyed.{pair_key};
ghost use Rattle.fx_rules.specs.Step.{IsCommand};
ghost use Rattle.fx_rules.specs.History.{state, own};
ghost use Rattle.fx_rules.specs.Sending.{IsNextIn};
ghost use Rattle.fx_chronicle.specs.Touching.{pends};
ghost use Rattle.credit_raise.specs.UnderWay.{IsUnderWay, is_change};
ghost use Rattle.credit_book.specs.Recorded.{signed_by};
ghost use Rattle.credit_book.specs.Serving.{IsServed};
ghost use Rattle.fx_chronicle.specs.Submitting.{Submitted};
ghost use Rattle.pair_shards.specs.inside.Shards.{PairsPend};
ghost use Rattle.fx_host.specs.inside.Changing.{IsLast, IsPlanned};

use crate::credit_lock::CreditAlone;
use crate::pair_locks::PairsAlone;
use credit_book::{CreditBook, Pass};
use credit_raise::CreditChange;
use fx_amounts::{Memory, PairId};
use fx_chronicle::Naming;
use fx_rules::{Command, Entry, Outcome, Sender};
use std::alloc::Global;
use std::sync::Wait;

/// A credit change once every pair had its turn. Nothing is made of it yet.
struct Planned {
    /// What it makes in each pair.
    change: CreditChange,
    /// Its entry.
    entry: Entry,
    /// What its bank is told.
    answer: Outcome,
}

/// Serves a sender's credit change with all locks that it needs. After `Memory` the credit book and the pass are as they were, and so
/// are the pairs' books.
pub(crate) fn change_all<R: Wait, N: Naming>(
    rt: &R,
    alloc: Global,
    alone: CreditAlone<'_, N>,
    pass: &mut Pass<N>,
    command: &Command,
) -> Result<Outcome, Memory>
    requires command { IsCommand N.session pass.old.key command.now }
    requires change { is_change command.now ≡ true }
    requires few { length (own pass.old.key pass.old.met) < 2 ^ 32 - 1 }
    ensures bank { pass.new.key ≡ pass.old.key }
    ensures submitted { IfOk result (Submitted N.session pass.old.key pass.old.seen (own pass.old.key pass.old.met) command.now pass.new.seen (own pass.new.key pass.new.met)) }
    ensures memory { OnErr result (pass.new ≡ pass.old) }
{
    let (pairs, mut credit) = alone.into_parts();
    change_credit(rt, alloc, &pairs, &mut credit.book, pass, command)
}

/// Serves it over these pairs. All of them are planned, and all memory is taken, before anything is made; then it is entered into
/// the history, and each pair signs it and makes its part.
fn change_credit<R: Wait, N: Naming>(
    rt: &R,
    alloc: Global,
    pairs: &PairsAlone<'_, N>,
    credit: &mut CreditBook<N>,
    pass: &mut Pass<N>,
    command: &Command,
) -> Result<Outcome, Memory>
    requires signed { credit.old.history.pending ≡ [] }
    requires command { IsCommand N.session pass.old.key command.now }
    requires change { is_change command.now ≡ true }
    requires few { length (own pass.old.key pass.old.met) < 2 ^ 32 - 1 }
    ensures served { IfOk result (IsServed N.session credit.old.history.entries pass.old command.now credit.new.history.entries pass.new) }
    ensures signed { credit.new.history.pending ≡ [] }
    ensures memory { OnErr result (credit.new ≡ credit.old) }
    ensures pass_memory { OnErr result (pass.new ≡ pass.old) }
{
    let sender = credit.sender(pass);
    let Planned {
        change,
        entry,
        answer,
    } = plan_change(rt, alloc, pairs, credit, sender, command)?;
    credit.reserve()?;
    credit.enter(pass, entry);
    carry_all(rt, pairs, credit, &change);
    Ok(answer)
}

/// Plans a sender's credit change, the next command of its bank, pair by pair. It takes memory for all that is made of it, but for
/// the history's room.
fn plan_change<R: Wait, N: Naming>(
    rt: &R,
    alloc: Global,
    pairs: &PairsAlone<'_, N>,
    credit: &mut CreditBook<N>,
    sender: Sender,
    command: &Command,
) -> Result<Planned, Memory>
    requires signed { credit.old.history.pending ≡ [] }
    requires next { IsNextIn (state N.session credit.old.history.entries) sender }
    requires number { sender.number < 2 ^ 32 }
    requires command { IsCommand N.session sender.bank command.now }
    requires change { is_change command.now ≡ true }
    ensures planned { IfOk result (λ planned. IsPlanned N.session credit.old.history.entries sender.bank command.now planned.change planned.entry planned.answer) }
    ensures same { credit.new ≡ credit.old }
{
    let mut change = CreditChange::open(alloc, credit.lines(), sender.bank, command)?;
    plan_all(rt, alloc, pairs, credit, &mut change)?;
    let answer = change.outcome(alloc)?;
    let entry = Entry {
        bank: sender.bank,
        number: sender.number,
        command: *command,
        outcome: answer.copy()?,
    };
    Ok(Planned {
        change,
        entry,
        answer,
    })
}

/// Each pair has its turn in a credit change that has just begun, by the lines that the pairs before it left.
fn plan_all<R: Wait, N: Naming>(
    rt: &R,
    alloc: Global,
    pairs: &PairsAlone<'_, N>,
    credit: &mut CreditBook<N>,
    change: &mut CreditChange,
) -> Result<(), Memory>
    requires session { IsSession N.session }
    requires signed { credit.old.history.pending ≡ [] }
    requires under_way { IsUnderWay N.session (state N.session credit.old.history.entries) change.old }
    requires begins { change.old.plans ≡ [] }
    ensures goes_on { OnOk result (IsUnderWay N.session (state N.session credit.old.history.entries) change.new) }
    ensures turns { OnOk result (length change.new.plans ≡ pair_count N.session) }
    ensures command { change.new.command ≡ change.old.command }
    ensures sender { change.new.sender ≡ change.old.sender }
    ensures same { credit.new ≡ credit.old }
{
    for place in 0..pairs.count() {
        plan_pair(rt, alloc, pairs, credit, change, PairId::at(place))?;
    }
    Ok(())
}

/// The next pair has its turn. Its lock is given back.
fn plan_pair<R: Wait, N: Naming>(
    rt: &R,
    alloc: Global,
    pairs: &PairsAlone<'_, N>,
    credit: &mut CreditBook<N>,
    change: &mut CreditChange,
    pair: PairId,
) -> Result<(), Memory>
    requires within { pair < pair_count N.session }
    requires signed { credit.old.history.pending ≡ [] }
    requires under_way { IsUnderWay N.session (state N.session credit.old.history.entries) change.old }
    requires next { pair ≡ length change.old.plans }
    ensures goes_on { OnOk result (IsUnderWay N.session (state N.session credit.old.history.entries) change.new) }
    ensures turns { OnOk result (length change.new.plans ≡ length change.old.plans + 1) }
    ensures command { change.new.command ≡ change.old.command }
    ensures sender { change.new.sender ≡ change.old.sender }
    ensures same { credit.new ≡ credit.old }
{
    let mut shard = pairs.lock(rt, pair);
    shard.turn(alloc, credit, change)
}

/// Each pair signs the last entry, of a credit change for which each had its turn, and makes its part.
fn carry_all<R: Wait, N: Naming>(
    rt: &R,
    pairs: &PairsAlone<'_, N>,
    credit: &mut CreditBook<N>,
    change: &CreditChange,
)
    requires session { IsSession N.session }
    requires last { IsLast N.session credit.old.history.entries change.now }
    requires pend { PairsPend N.session 0 credit.old.history.pending }
    ensures entries { credit.new.history.entries ≡ credit.old.history.entries }
    ensures signed { credit.new.history.pending ≡ [] }
{
    for place in 0..pairs.count() {
        carry_pair(rt, pairs, credit, change, PairId::at(place));
    }
}

/// One pair signs, and makes its part. Its lock is given back.
fn carry_pair<R: Wait, N: Naming>(
    rt: &R,
    pairs: &PairsAlone<'_, N>,
    credit: &mut CreditBook<N>,
    change: &CreditChange,
    pair: PairId,
)
    requires within { pair < pair_count N.session }
    requires last { IsLast N.session credit.old.history.entries change.now }
    requires pends { pends credit.old.history.pending (pair_key pair) ≡ true }
    ensures value { credit.new ≡ signed_by (pair_key pair) credit.old }
{
    let mut shard = pairs.lock(rt, pair);
    shard.carry(credit, change.plan(pair));
}
