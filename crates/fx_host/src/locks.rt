//! What all locks of a host have in common.
ghost use Rattle.std.specs.Prelude.{◌≤◌};

use fx_amounts::PairId;
use fx_rules::Gate;
use std::hint::spin_loop;
use std::sync::{Mutex, MutexGuard, Wait};

/// How often a lock is looked for before a thread sleeps until it is free. One look takes some hundredths of a microsecond, and a
/// command has the locks for a few microseconds.
const LOOKS: u32 = 400;

/// The guard of a lock, which the thread first looks for a while: to sleep and to be woken takes longer than most commands do.
pub(crate) fn lock_soon<'a, T, R: Wait>(rt: &R, lock: &'a Mutex<T>) -> MutexGuard<'a, T> {
    for _look in 0..LOOKS {
        if let Some(guard) = lock.try_lock() {
            return guard;
        }
        spin_loop();
    }
    lock.lock(rt)
}

/// Calls the gate's `inside` once for each of so many pairs, in order.
pub(crate) fn tell_all<R: Wait, G: Gate>(rt: &R, gate: &G, pairs: usize)
    requires pairs { pairs ≤ 32 }
{
    for place in 0..pairs {
        gate.inside(rt, PairId::at(place));
    }
}
