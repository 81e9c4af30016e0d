//! One round of a session that is watched.
ghost use Rattle.std.specs.Prelude.{◌≡◌, ◌<◌, ◌≤◌, ◌^◌, ◌++◌, [], ◌%◌, ◌+◌, List, IfOk, IfSome, OnOk, None};
ghost use Rattle.fx_rules.specs.declared.command.Sent.{Sent as SentCommand};
ghost use Rattle.fx_rules.specs.History.{IsLegal};
ghost use Rattle.fx_rules.specs.Session.{pair_count};
ghost use Rattle.gateway_workers.specs.SenderLanes.{CanServe};
ghost use Rattle.watched_run.specs.Looks.{pair_due};
ghost use Rattle.watched_run.specs.inside.Watching.{HasPublished, IsOfFeed, IsWatching, ShowsMore};

use crate::publishing::publish_all;
use crate::screen::Screen;
use fx_amounts::Memory;
use fx_chronicle::Naming;
use fx_rules::{Entry, Gate, Sent, Session};
use gateway_workers::ThreadedRun;
use std::sync::Wait;
use std::thread::{Threads, join_mut};
use view_feed::{Feed, Told};

/// Serves a round's commands in at most `workers` threads (1 or more), and gathers their entries. While these are published the screen's
/// reader looks at local books, and then it learns the last note. A round without commands is not run. After `Memory` the run is over.
pub(crate) fn watch_round<
    N: Naming + Send + Sync,
    R: AllocGlobal + Threads + Wait + Sync,
    G: Gate + Sync,
>(
    rt: &R,
    workers: u32,
    session: &Session,
    sent: &[Sent],
    gate: &G,
    run: &mut ThreadedRun<N>,
    feed: &mut Feed,
    screen: &mut Screen,
) -> Result<(), Memory>
    requires session { session.now ≡ N.session }
    requires workers { 1 ≤ workers }
    requires can_serve { CanServe N.session run.old.lanes.items sent.now }
    requires watching { (so_far : List SentCommand) × IsWatching N.session so_far run.old.gathered run.old.lanes.items feed.old screen.old }
    requires few { screen.old.rounds < 2 ^ 32 }
    ensures feed { (feed.new.tape ≡ feed.old.tape) × (feed.new.readers ≡ feed.old.readers) }
    ensures reader { IsOfFeed screen.old.reader screen.new.reader }
    ensures watching { OnOk result ((so_far : List SentCommand) → IsWatching N.session so_far run.old.gathered run.old.lanes.items feed.old screen.old →
        IsWatching N.session (so_far ++ sent.now) run.new.gathered run.new.lanes.items feed.new screen.new) }
{
    if sent.is_empty() {
        return Ok(());
    }
    run.serve_round(rt, sent, workers, gate)?;
    let entries = run.gather(rt)?;
    match publish_and_show(rt, session, entries.as_slice(), feed, screen)? {
        Some(told) => screen.reader.learn(told),
        None => {}
    }
    Ok(())
}

/// Publishes a round's entries while the screen's reader looks at local books, and answers the last note.
fn publish_and_show<R: Threads + Wait + Sync>(
    rt: &R,
    session: &Session,
    entries: &[Entry],
    feed: &mut Feed,
    screen: &mut Screen,
) -> Result<Option<Told>, Memory>
    requires none { feed.old.pending ≡ [] }
    requires legal { IsLegal feed.old.session (feed.old.published ++ entries.now) }
    requires session { session.now ≡ screen.old.reader.session }
    requires few { screen.old.rounds < 2 ^ 32 }
    ensures feed { (feed.new.tape ≡ feed.old.tape) × (feed.new.readers ≡ feed.old.readers) }
    ensures reader { IsOfFeed screen.old.reader screen.new.reader }
    ensures published { OnOk result (HasPublished entries.now feed.old feed.new) }
    ensures told { IfOk result (λ told. IfSome told (λ note. note ≡ record { tape = feed.new.tape; entries = feed.new.published })) }
    ensures none { IfOk result (λ told. told ≡ None → entries.now ≡ []) }
    ensures shows { OnOk result (ShowsMore session.now (λ known. pair_due session.now known (screen.old.rounds % pair_count session.now)) screen.old screen.new) }
    ensures rounds { OnOk result (screen.new.rounds ≡ screen.old.rounds + 1) }
{
    let (shown, published) = join_mut(
        rt,
        &mut || screen.show_round(rt, session),
        &mut || publish_all(rt, feed, entries),
    );
    shown?;
    published
}
