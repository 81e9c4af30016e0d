//! The lock of the credit book, and who may have it.
ghost use Rattle.std.specs.Prelude.{◌≡◌, ◌<◌, ◌-◌, ◌^◌, [], true, drop, length, IfOk, OnOk, OnErr};
ghost use Rattle.fx_rules.specs.Step.{IsCommand};
ghost use Rattle.fx_rules.specs.History.{own};
ghost use Rattle.fx_chronicle.specs.Submitting.{Submitted};
ghost use Rattle.credit_lines.specs.Table.{is_of_no_pair};
ghost use Rattle.fx_host.specs.inside.Reading.{HasCaughtUp};

use crate::locks::lock_soon;
use crate::pair_locks::PairsAlone;
use crate::reading::copied_from;
use credit_book::{CreditBook, Pass, SignedBook};
use fx_amounts::Memory;
use fx_chronicle::Naming;
use fx_rules::{Command, Entry, Outcome};
use pair_shards::Shard;
use std::alloc::Global;
use std::sync::{Mutex, MutexGuard, Wait};

/// The credit book behind its lock, with no key that has still to sign.
#[derive(Drop)]
pub(crate) struct CreditLock<N: Naming> {
    lock: Mutex<SignedBook<N>>,
}

/// What a credit change works on: the credit book, with all pairs. Who holds it has the turn alone, and took the credit lock after it.
#[derive(Drop)]
pub(crate) struct CreditAlone<'a, N: Naming> {
    pairs: PairsAlone<'a, N>,
    credit: MutexGuard<'a, SignedBook<N>>,
}

impl<N: Naming> CreditLock<N> {
    /// The credit book behind a lock.
    pub(crate) fn new(book: CreditBook<N>) -> CreditLock<N>
        requires signed { book.history.pending ≡ [] }
    {
        CreditLock {
            lock: Mutex::new(SignedBook { book }),
        }
    }

    /// The credit book for a command in a pair, which has the pair's shard.
    pub(crate) fn lock_beside<'a, R: Wait>(
        &'a self,
        rt: &R,
        _shard: &MutexGuard<'_, Shard<N>>,
    ) -> MutexGuard<'a, SignedBook<N>> {
        lock_soon(rt, &self.lock)
    }

    /// The credit book for a credit change, which has the turn alone and so all pairs.
    pub(crate) fn lock_alone<'a, R: Wait>(
        &'a self,
        rt: &R,
        pairs: PairsAlone<'a, N>,
    ) -> CreditAlone<'a, N> {
        CreditAlone {
            pairs,
            credit: lock_soon(rt, &self.lock),
        }
    }

    /// Serves a command about no pair. It has the credit lock and no other, so the lock is not handed out.
    pub(crate) fn serve<R: Wait>(
        &self,
        rt: &R,
        pass: &mut Pass<N>,
        command: &Command,
    ) -> Result<Outcome, Memory>
        requires command { IsCommand N.session pass.old.key command.now }
        requires no_pair { is_of_no_pair command.now ≡ true }
        requires few { length (own pass.old.key pass.old.met) < 2 ^ 32 - 1 }
        ensures bank { pass.new.key ≡ pass.old.key }
        ensures submitted { IfOk result (Submitted N.session pass.old.key pass.old.seen (own pass.old.key pass.old.met) command.now pass.new.seen (own pass.new.key pass.new.met)) }
        ensures memory { OnErr result (pass.new ≡ pass.old) }
    {
        let mut credit = lock_soon(rt, &self.lock);
        credit.book.serve(pass, command)
    }

    /// The pass sees the whole history so far. It has the credit lock and no other.
    pub(crate) fn catch_up<R: Wait>(&self, rt: &R, pass: &mut Pass<N>)
        ensures caught_up { HasCaughtUp N.session pass.old pass.new }
    {
        let mut credit = lock_soon(rt, &self.lock);
        credit.book.catch_up_pass(pass);
    }

    /// The entries from position `start` on of the history so far, all of which the pass then sees. It has the credit lock and no
    /// other. After `Memory` the pass is as it was.
    pub(crate) fn entries_from<R: Wait>(
        &self,
        rt: &R,
        alloc: Global,
        pass: &mut Pass<N>,
        start: u64,
    ) -> Result<Vec<Entry>, Memory>
        ensures entries { IfOk result (λ entries. entries.items ≡ drop start pass.new.seen) }
        ensures caught_up { OnOk result (HasCaughtUp N.session pass.old pass.new) }
        ensures memory { OnErr result (pass.new ≡ pass.old) }
    {
        let mut credit = lock_soon(rt, &self.lock);
        let entries = copied_from(alloc, credit.book.entries(), start)?;
        credit.book.catch_up_pass(pass);
        Ok(entries)
    }

    /// The credit book out of its lock.
    pub(crate) fn into_book(self) -> CreditBook<N>
        ensures signed { result.history.pending ≡ [] }
    {
        self.lock.into_inner().book
    }
}

impl<'a, N: Naming> CreditAlone<'a, N> {
    /// The pairs, and the credit book.
    pub(crate) fn into_parts(self) -> (PairsAlone<'a, N>, MutexGuard<'a, SignedBook<N>>) {
        (self.pairs, self.credit)
    }
}
