//! Entries published by a feed.
ghost use Rattle.std.specs.Prelude.{◌≡◌, ◌++◌, [], IfOk, OnOk, IfSome};
ghost use Rattle.fx_rules.specs.History.{IsLegal};
ghost use Rattle.watched_run.specs.inside.Watching.{HasPublished};

use fx_amounts::Memory;
use fx_rules::Entry;
use std::sync::Wait;
use view_feed::{Feed, Told};

/// How many entries are published at once.
const PIECE: usize = 16;

/// Publishes the next entries of a history, 16 at a time, and answers the last note; none where there are no entries. After `Memory` the
/// first so many are published.
pub(crate) fn publish_all<R: Wait>(
    rt: &R,
    feed: &mut Feed,
    entries: &[Entry],
) -> Result<Option<Told>, Memory>
    requires none { feed.old.pending ≡ [] }
    requires legal { IsLegal feed.old.session (feed.old.published ++ entries.now) }
    ensures feed { (feed.new.tape ≡ feed.old.tape) × (feed.new.readers ≡ feed.old.readers) }
    ensures published { OnOk result (HasPublished entries.now feed.old feed.new) }
    ensures told { IfOk result (λ told. IfSome told (λ note. note ≡ record { tape = feed.new.tape; entries = feed.new.published })) }
    ensures none { IfOk result (λ told. told ≡ None → entries.now ≡ []) }
{
    let mut told = None;
    for piece in entries.chunks(PIECE) {
        told = Some(publish_piece(rt, feed, piece)?);
    }
    Ok(told)
}

/// Publishes the next entries of a history at once.
fn publish_piece<R: Wait>(rt: &R, feed: &mut Feed, piece: &[Entry]) -> Result<Told, Memory>
    requires none { feed.old.pending ≡ [] }
    requires legal { IsLegal feed.old.session (feed.old.published ++ piece.now) }
    ensures feed { (feed.new.tape ≡ feed.old.tape) × (feed.new.readers ≡ feed.old.readers) }
    ensures published { OnOk result (HasPublished piece.now feed.old feed.new) }
    ensures told { IfOk result (λ note. note ≡ record { tape = feed.new.tape; entries = feed.new.published }) }
{
    for entry in piece {
        feed.append(entry)?;
    }
    feed.publish(rt)
}
