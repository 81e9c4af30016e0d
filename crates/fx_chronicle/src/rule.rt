//! The rule of the table that writer, fronts and slips share, and its kinds of step.
//! The one word is the length of the history. No slot is used: the entries lie with the writer.
use atomic_table::{Join, Play, Seat, Shared, Split, Table, TableRule};
use fx_rules::Keyed;
use std::alloc::Global;
use std::collections::LinkedList;

/// What a seat knows. No value of it is made.
pub struct View<E> {
    /// It is the writer's.
    pub writes: bool,
    /// It has a key.
    pub keyed: bool,
    pub key: u64,
    /// The entries that it has seen.
    pub seen: LinkedList<E>,
    /// The entries that the seat which it took in had seen.
    pub told: LinkedList<E>,
    /// Of its key, the entries seen when it last caught up or signed.
    pub met: LinkedList<E>,
    /// The keys that have still to sign.
    pub pending: LinkedList<u64>,
    /// How many keys were dealt.
    pub keys: u64,
}

pub struct Law;

impl<E: Keyed> TableRule<E, View<E>, ()> for Law {
    ghost use Rattle.std.specs.Prelude.{[]};
    ghost use Rattle.fx_chronicle.specs.Rule.{Kept};
    ghost use Rattle.fx_chronicle.specs.Views.{writer};

    ghost holds = { λ _. Kept E.touches };

    ghost first = { λ _. writer [] [] 0 };
}

pub type History<E> = Table<E, View<E>, (), Law, Global>;

pub type Board<E> = Shared<E, View<E>, (), Law>;

pub type Token<E> = Seat<E, View<E>>;

/// The writer adds an entry.
pub struct Commit;

impl<E: Keyed> Play<E, View<E>> for Commit {
    ghost use Rattle.fx_chronicle.specs.Rule.{Commits};

    ghost then = { Commits E.touches };
}

/// The writer looks at a front that it took in, which then has met all entries.
pub struct Meet;

impl<E: Keyed> Play<E, View<E>> for Meet {
    ghost use Rattle.fx_chronicle.specs.Rule.{Meets};

    ghost then = { Meets E.touches };
}

/// A front looks at a slip that it took in.
pub struct Learn;

impl<E> Play<E, View<E>> for Learn {
    ghost use Rattle.fx_chronicle.specs.Rule.{Learns};

    ghost then = { Learns };
}

/// The writer deals the next key.
pub struct Deal;

impl<E> Split<View<E>> for Deal {
    ghost use Rattle.fx_chronicle.specs.Views.{dealt, next_front};

    ghost left = { dealt };

    ghost right = { next_front };
}

/// The writer lets a front go that it took in.
pub struct LetGo;

impl<E> Split<View<E>> for LetGo {
    ghost use Rattle.fx_chronicle.specs.Views.{let_go, front_again};

    ghost left = { let_go };

    ghost right = { front_again };
}

/// A front gives a slip.
pub struct Give;

impl<E> Split<View<E>> for Give {
    ghost use Rattle.fx_chronicle.specs.Views.{slip_of};

    ghost left = { λ v. v };

    ghost right = { slip_of };
}

/// The writer takes a front in.
pub struct TakeIn;

impl<E> Join<View<E>> for TakeIn {
    ghost use Rattle.fx_chronicle.specs.Views.{taken_in, nobody};

    ghost both = { taken_in };

    ghost spent = { nobody };
}

/// A front takes a slip in.
pub struct Tell;

impl<E> Join<View<E>> for Tell {
    ghost use Rattle.fx_chronicle.specs.Views.{told, nobody};

    ghost both = { told };

    ghost spent = { nobody };
}
