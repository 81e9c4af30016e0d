ghost use Rattle.std.specs.Prelude.{◌≡◌, ◌+◌, length, map, vec_len, IfOk};
ghost use Rattle.fx_rules.specs.Session.{IsSession, pair_count, senders};
ghost use Rattle.fx_chronicle.specs.Passes.{new_passes};
ghost use Rattle.credit_book.specs.Recorded.{key_count};
ghost use Rattle.fx_host.specs.inside.Locking.{AreInOrder};
ghost use Rattle.fx_host.specs.inside.Opening.{ArePairFronts};

use crate::credit_lock::CreditLock;
use crate::host::{Host, ShardRoom};
use crate::pair_locks::{PairLock, PairLocks};
use crate::turn::Turn;
use credit_book::CreditBook;
use fx_amounts::{Memory, PairId};
use fx_chronicle::{Blank, Front, Naming, Pass, open, open_passes};
use fx_rules::{Entry, Session};
use pair_shards::Shard;
use std::alloc::Global;
use std::sync::Mutex;

/// For how many keys the blank of a session's host is made.
pub fn keys_of(session: &Session) -> u32
    ensures keys { result ≡ key_count session.now }
{
    65 + session.pairs().len() as u32
}

/// Opens a host for a day of the session, with one new pass for each of its senders, in order. The blank is for 65 keys and one more
/// for each pair. At `Memory` the blank is gone.
pub fn open_host<N: Naming>(
    alloc: Global,
    blank: Blank<Entry>,
    session: &Session,
) -> Result<(Host<N>, Vec<Pass<N>>), Memory>
    requires table { blank.table ≡ N.table }
    requires keys { blank.keys ≡ key_count N.session }
    requires session { session.now ≡ N.session }
    ensures passes { IfOk result (λ opened. opened.1.items ≡ new_passes N.session) }
    ensures senders { IfOk result (λ opened. map (λ pass. pass.key) opened.1.items ≡ senders N.session) }
{
    let (writer, mut fronts) = open::<N, Entry>(alloc, blank)?;
    let pair_fronts = fronts.split_off(65)?;
    let passes = open_passes(alloc, session, fronts)?;
    let locks = locks_of(alloc, session, pair_fronts)?;
    let book = CreditBook::open(alloc, session, writer)?;
    let mut closed = Vec::new(alloc);
    closed.reserve(locks.len())?;
    let host = Host {
        alloc,
        turn: Turn::new(),
        pairs: PairLocks::new(locks),
        credit: CreditLock::new(book),
        closed: Mutex::new(ShardRoom { shards: closed }),
    };
    Ok((host, passes))
}

/// The shards of the pairs, over the fronts of their keys, each behind a lock of its own, in the order of the header.
fn locks_of<N: Naming>(
    alloc: Global,
    session: &Session,
    fronts: Vec<Front<N, Entry>>,
) -> Result<Vec<PairLock<N>>, Memory>
    requires session { session.now ≡ N.session }
    requires valid { IsSession N.session }
    requires count { length fronts.items ≡ pair_count N.session }
    requires fronts { ArePairFronts 0 fronts.items }
    ensures all { IfOk result (λ locks. vec_len locks ≡ pair_count N.session) }
    ensures in_order { IfOk result (λ locks. AreInOrder locks.items) }
{
    let mut locks = Vec::new(alloc);
    for front in fronts {
        let pair = PairId::at(locks.len());
        let shard = Shard::open(alloc, session, pair, front)?;
        locks.push(PairLock::new(shard))?;
    }
    Ok(locks)
}
