use std::sync::{RwLock, RwLockReadGuard, RwLockWriteGuard, Wait};

/// The lock that comes first: all commands in pairs share it, and a credit change has it alone.
#[derive(Drop)]
pub(crate) struct Turn {
    lock: RwLock<()>,
}

/// Who shares the turn. No credit change is served until it is let go.
#[derive(Drop)]
pub(crate) struct SharedTurn<'a> {
    _guard: RwLockReadGuard<'a, ()>,
}

/// Who has the turn alone. No command in a pair is served until it is let go.
#[derive(Drop)]
pub(crate) struct WholeTurn<'a> {
    _guard: RwLockWriteGuard<'a, ()>,
}

impl Turn {
    /// A turn that nobody has.
    pub(crate) fn new() -> Turn {
        Turn {
            lock: RwLock::new(()),
        }
    }

    /// Shares the turn, once nobody has it alone.
    pub(crate) fn share<R: Wait>(&self, rt: &R) -> SharedTurn<'_> {
        SharedTurn {
            _guard: self.lock.read(rt),
        }
    }

    /// Has the turn alone, once nobody else has it.
    pub(crate) fn take<R: Wait>(&self, rt: &R) -> WholeTurn<'_> {
        WholeTurn {
            _guard: self.lock.write(rt),
        }
    }
}
