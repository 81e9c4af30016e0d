//! What the readers and the writer of a feed know, and the rule that ties it to what is shown.
use crate::shown::Shown;
use crate::tape::Law;
use atomic_table::{Join, Split};
use crossbeam_utils::rule::{Outcome, Protocol};
use fx_rules::{Entry, Session};
use logbook::Word;

/// What a seat knows of its feed. No value of it is made.
pub(crate) struct View {
    /// Whether it knows the feed at all.
    pub known: bool,
    /// The session whose market the feed shows.
    pub session: Session,
    /// Of the feed's tape.
    pub head: Word<Entry, u64, Law>,
}

/// What is shown is of the one feed that all seats know.
pub(crate) struct OneFeed;

impl Protocol<Shown, View> for OneFeed {
    ghost use Rattle.view_feed.specs.inside.Rule.{Keeps, newcomer};

    ghost holds = { Keeps };

    ghost first = { newcomer };
}

/// A look at what is shown, by a reader or by the writer as it shows more.
pub(crate) struct Sees;

impl Outcome<Shown, View> for Sees {
    ghost use Rattle.view_feed.specs.inside.Rule.{Sees};

    ghost then = { Sees };
}

/// The writer tells a new reader which feed it is.
pub(crate) struct Introduces;

impl Split<View> for Introduces {
    ghost left = { λ v. v };

    ghost right = { λ v. v };
}

impl Join<View> for Introduces {
    ghost use Rattle.view_feed.specs.inside.Rule.{newcomer};

    ghost both = { λ v w. w };

    ghost spent = { newcomer };
}
