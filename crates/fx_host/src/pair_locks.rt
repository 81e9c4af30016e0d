//! The locks of the pairs. One of them is to be had with the turn in hand alone.
ghost use Rattle.std.specs.Prelude.{◌≡◌, ◌<◌, vec_len};
ghost use Rattle.std.specs.Sync.Mutex.{mutex_guard_value};
ghost use Rattle.fx_rules.specs.Session.{pair_count};
ghost use Rattle.fx_rules.specs.Keyed.{pair_key};
ghost use Rattle.fx_host.specs.inside.Locking.{AreInOrder};

use crate::locks::lock_soon;
use crate::turn::{SharedTurn, WholeTurn};
use fx_amounts::PairId;
use fx_chronicle::Naming;
use pair_shards::Shard;
use std::marker::Model;
use std::sync::{Mutex, MutexGuard, Wait};

/// A pair's shard behind its lock, and the pair beside it. Contracts see the pair.
#[derive(Drop)]
pub(crate) struct PairLock<N: Naming> {
    pair: PairId,
    lock: Mutex<Shard<N>>,
}

impl<N: Naming> Model for PairLock<N> {
    ghost use Rattle.std.specs.Prelude.{ℕ};

    ghost Value = { ℕ };

    ghost view = { λ lock. lock.pair };
}

impl<N: Naming> PairLock<N> {
    /// The shard behind a lock of its own.
    pub(crate) fn new(shard: Shard<N>) -> PairLock<N>
        ensures pair { result ≡ shard.book.pair }
    {
        PairLock {
            pair: shard.pair(),
            lock: Mutex::new(shard),
        }
    }

    /// The shard, once its lock is got. What lies behind a lock is known by its type alone, so the shard is asked for its pair. It
    /// tells the pair beside the lock, since `new` alone makes the two.
    fn lock<R: Wait>(&self, rt: &R) -> MutexGuard<'_, Shard<N>>
        ensures pair { (mutex_guard_value result).book.pair ≡ self.now }
        ensures key { (mutex_guard_value result).front.key ≡ pair_key self.now }
    {
        for _ in rt.forever() {
            let shard = lock_soon(rt, &self.lock);
            if shard.pair() == self.pair {
                return shard;
            }
        }
        unreachable!()
    }

    /// The shard out of its lock.
    pub(crate) fn into_shard(self) -> Shard<N> {
        self.lock.into_inner()
    }
}

/// The locks of a session's pairs, each at its pair's place in the header.
#[derive(Drop)]
pub(crate) struct PairLocks<N: Naming> {
    locks: Vec<PairLock<N>>,

    ghost all: { vec_len locks ≡ pair_count N.session },

    ghost in_order: { AreInOrder locks.items },
}

/// The locks of all pairs, to one who has the turn alone.
#[derive(Drop)]
pub(crate) struct PairsAlone<'a, N: Naming> {
    pairs: &'a PairLocks<N>,
}

impl<N: Naming> PairLocks<N> {
    /// The locks of all pairs, in the order of the header.
    pub(crate) fn new(locks: Vec<PairLock<N>>) -> PairLocks<N>
        requires all { vec_len locks ≡ pair_count N.session }
        requires in_order { AreInOrder locks.items }
    {
        PairLocks { locks }
    }

    /// How many there are.
    pub(crate) fn count(&self) -> usize
        ensures count { result ≡ pair_count N.session }
    {
        self.locks.len()
    }

    /// The shard of a pair for a command in it, which shares the turn for as long as it has the shard.
    pub(crate) fn lock_in_turn<'a, R: Wait>(
        &'a self,
        rt: &R,
        _turn: &'a SharedTurn<'_>,
        pair: PairId,
    ) -> MutexGuard<'a, Shard<N>>
        requires within { pair < pair_count N.session }
        ensures pair { (mutex_guard_value result).book.pair ≡ pair }
        ensures key { (mutex_guard_value result).front.key ≡ pair_key pair }
    {
        self.locks[pair.index()].lock(rt)
    }

    /// All of them for a credit change, which has the turn alone for as long as it has them.
    pub(crate) fn alone<'a>(&'a self, _turn: &'a WholeTurn<'_>) -> PairsAlone<'a, N> {
        PairsAlone { pairs: self }
    }

    /// All of them, to be taken apart.
    pub(crate) fn into_locks(self) -> Vec<PairLock<N>>
        ensures all { vec_len result ≡ pair_count N.session }
        ensures in_order { AreInOrder result.items }
    {
        self.locks
    }
}

impl<'a, N: Naming> PairsAlone<'a, N> {
    /// How many there are.
    pub(crate) fn count(&self) -> usize
        ensures count { result ≡ pair_count N.session }
    {
        self.pairs.count()
    }

    /// The shard of a pair.
    pub(crate) fn lock<R: Wait>(&self, rt: &R, pair: PairId) -> MutexGuard<'a, Shard<N>>
        requires within { pair < pair_count N.session }
        ensures pair { (mutex_guard_value result).book.pair ≡ pair }
        ensures key { (mutex_guard_value result).front.key ≡ pair_key pair }
    {
        self.pairs.locks[pair.index()].lock(rt)
    }
}
