//! The one list of entries that a feed publishes, as proofs tell of it: it only grows. The code keeps its length alone.
ghost use Rattle.std.specs.Prelude.{◌≡◌, ◌+◌, ◌<◌, ◌^◌, ◌++◌, ◌∷◌, [], length, map, IfSome, MatchBool};
ghost use Rattle.std.specs.Arc.{arc_value};
ghost use mathlib.Core.List.{IsPrefix};
ghost use Rattle.view_feed.specs.inside.Tape.{head_of};

use fx_rules::Entry;
use logbook::{Gain, Offer, Plain, Play, Rule, Seen, Start, Word};
use std::alloc::Global;
use std::marker::Model;
use std::sync::{Arc, Wait};

/// The rule of the tape's book.
pub(crate) struct Law;

impl Rule<Entry, u64> for Law {
    ghost use Rattle.std.specs.Prelude.{[]};
    ghost use base.Fml.{ftrue};
    ghost use Rattle.view_feed.specs.inside.Tape.{IsKept};

    ghost holds = { λ cells log. IsKept cells log };

    ghost first = { [] };

    ghost hinted = { λ n log. Unit {0} };

    ghost shows = { λ log. [] };

    ghost keeps = { λ names log. ftrue };

    ghost moves = { λ ask before after answer. Unit {0} };
}

/// A step trades nothing.
pub(crate) struct Nothing;

impl Gain<Entry, u64> for Nothing {
    ghost use base.Fml.{ftrue};

    ghost after = { λ names about answer. ftrue };
}

/// The step that adds an entry.
pub(crate) struct Append;

impl Play<Entry, u64> for Append {
    ghost use Rattle.view_feed.specs.inside.Tape.{Adds};

    ghost then = { Adds };
}

/// What it asks for: the entry.
impl Plain<Entry, Entry, u64> for Append {
    ghost use Rattle.std.specs.Prelude.{None};

    ghost ask = { λ entry. entry };

    ghost state = { λ entry. None };
}

/// A list of entries with which a tape was seen to begin. It holds their number alone. Contracts see the tape and the entries.
#[derive(Drop)]
pub(crate) struct Front {
    count: u64,
    seen: Seen<Entry, u64, Law>,
}

impl Model for Front {
    ghost use Rattle.std.specs.Prelude.{◌≡◌, length};
    ghost use Rattle.view_feed.specs.Feeds.{Stretch};

    ghost Value = { Stretch };

    ghost view = { λ f. record { tape = f.seen.book; entries = f.seen.log } };

    ghost invariant = { λ f. f.count ≡ length f.seen.log };
}

impl Front {
    /// How many entries it has.
    pub(crate) fn count(&self) -> u64
        ensures count { result ≡ length self.now.entries }
    {
        self.count
    }

    /// A copy.
    pub(crate) fn again(&self) -> Front
        ensures same { result ≡ self.now }
    {
        Front {
            count: self.count,
            seen: self.seen.again(),
        }
    }

    /// Whether it has no more entries than another front of the tape. The one with fewer is where the other begins.
    pub(crate) fn begins(&self, other: &Front) -> bool
        requires tape { other.now.tape ≡ self.now.tape }
        ensures begins { MatchBool result (IsPrefix self.now.entries other.now.entries) (IsPrefix other.now.entries self.now.entries) }
    {
        let mut both = self.seen.again();
        both.learn(&other.seen);
        self.count <= other.count
    }

    /// The longer of two fronts of the tape, which each of them begins.
    pub(crate) fn longer(self, other: Front) -> Front
        requires tape { other.tape ≡ self.tape }
        ensures tape { result.tape ≡ self.tape }
        ensures own { IsPrefix self.entries result.entries }
        ensures told { IsPrefix other.entries result.entries }
    {
        if self.begins(&other) { other } else { self }
    }
}

/// The whole tape, to the one that adds to it.
#[derive(Drop)]
pub(crate) struct Tape {
    length: Word<Entry, u64, Law>,
    whole: Front,
}

impl Model for Tape {
    ghost use Rattle.std.specs.Prelude.{◌≡◌};
    ghost use Rattle.view_feed.specs.Feeds.{Stretch};
    ghost use Rattle.view_feed.specs.inside.Tape.{head_of};

    ghost Value = { Stretch };

    ghost view = { λ t. t.whole };

    ghost invariant = { λ t. t.length ≡ head_of t.whole.tape };
}

impl Tape {
    /// A new tape, without an entry.
    pub(crate) fn open() -> Tape
        ensures empty { result.entries ≡ [] }
    {
        let (seen, mut first, _second) = Seen::open(Start::alone(), 0, 0);
        Tape {
            length: Word::tracked(0, &mut first),
            whole: Front { count: 0, seen },
        }
    }

    /// All that is on it.
    pub(crate) fn front(&self) -> Front
        ensures same { result ≡ self.now }
    {
        self.whole.again()
    }

    /// Adds an entry.
    fn add<R: Wait>(&mut self, rt: &R, entry: &Entry)
        requires room { length self.old.entries + 1 < 2 ^ 64 }
        ensures added { self.new ≡ record self.old { entries = self.old.entries ++ entry.now ∷ [] } }
    {
        self.whole = with_entry(rt, &self.length, &self.whole, entry);
    }

    /// Adds entries in order.
    pub(crate) fn add_all<R: Wait>(&mut self, rt: &R, entries: &[Arc<Entry, Global>])
        requires room { length self.old.entries + length entries.now < 2 ^ 64 }
        ensures added { self.new ≡ record self.old { entries = self.old.entries ++ map arc_value entries.now } }
    {
        for entry in entries {
            self.add(rt, entry);
        }
    }
}

/// The whole tape with an entry more. It tries again where the tape is longer than the front. It never is, since one value alone
/// adds to it, but the book can't tell.
fn with_entry<R: Wait>(rt: &R, word: &Word<Entry, u64, Law>, whole: &Front, entry: &Entry) -> Front
    requires word { word.now ≡ head_of whole.now.tape }
    requires room { length whole.now.entries + 1 < 2 ^ 64 }
    ensures added { result ≡ record { tape = whole.now.tape; entries = whole.now.entries ++ entry.now ∷ [] } }
{
    for _ in rt.forever() {
        if let Some(longer) = exchange(word, whole, entry) {
            return longer;
        }
    }
    unreachable!()
}

/// The tape with an entry more, where the front is all of it.
fn exchange(word: &Word<Entry, u64, Law>, whole: &Front, entry: &Entry) -> Option<Front>
    requires word { word.now ≡ head_of whole.now.tape }
    requires room { length whole.now.entries + 1 < 2 ^ 64 }
    ensures added { IfSome result (λ longer. longer ≡ record { tape = whole.now.tape; entries = whole.now.entries ++ entry.now ∷ [] }) }
{
    let count = whole.count;
    let mut seen = whole.seen.again();
    let mut offer: Offer<Entry, u64, Law, Nothing> = seen.plain::<Nothing, Entry, Append>(entry);
    let mut pen = seen.no_pen();
    let found = word.compare_exchange::<Append, Nothing>(
        count,
        count + 1,
        &mut seen,
        &mut offer,
        &mut pen,
    );
    if found != count {
        return None;
    }
    Some(Front {
        count: count + 1,
        seen,
    })
}
