ghost use Rattle.std.specs.Prelude.{◌≡◌, ◌≤◌, Some};
ghost use Rattle.fx_rules.specs.Session.{Header as SessionHeader};
ghost use Rattle.session_script.specs.Stage.{session_at, sent_at};
ghost use Rattle.session_script.specs.Rounds.{HasRead};
ghost use Rattle.gateway_workers.specs.Recorded.{key_count};
ghost use Rattle.watched_run.specs.Watched.{WatchedText};
ghost use Rattle.watched_run.specs.inside.Watching.{IsOfFeed, IsWatchingText, RoundsWatched, TextWatched};

use crate::round::watch_round;
use crate::screen::Screen;
use fx_amounts::Memory;
use fx_chronicle::{Blank, Naming};
use fx_edges::Source;
use fx_rules::{Entry, Gate};
use gateway_workers::{ThreadedRun, keys_of};
use pair_host::PairHost;
use session_script::{Reading, TextEnd};
use std::marker::Brand;
use std::sync::Wait;
use std::thread::Threads;
use view_feed::{Feed, open_feed};

/// A session that was watched to the end of its text.
#[derive(Drop)]
pub struct Watched {
    /// How the text ended.
    pub end: TextEnd,
    pub history: Vec<Entry>,
    /// The market in the state after the history.
    pub market: PairHost,
    /// How many rounds had commands.
    pub rounds: u64,
    /// A line for each look of the reader.
    pub lines: Vec<u8>,
}

/// Runs the session of a reading, each bank's commands in its order, in at most `workers` threads (1 or more), while a reader watches it.
/// After each round with commands the reader looks at each bank's local book in the pair whose turn it is; and at the end at each in every
/// pair, behind the whole history. It may wait.
pub fn watch_session<R: AllocGlobal + Threads + Wait + Sync, S: Source, G: Gate + Sync>(
    rt: &R,
    workers: u32,
    reading: &mut Reading,
    source: &mut S,
    gate: &G,
) -> Result<Watched, Memory>
    requires workers { 1 ≤ workers }
    requires begun { (before : S) × (h : SessionHeader) × HasRead S.left S.faults before source.old reading.old h (sent_at reading.old.intake.stage) }
    ensures watched { (before : S) (h : SessionHeader) → HasRead S.left S.faults before source.old reading.old h (sent_at reading.old.intake.stage) → WatchedText S.left S.faults before source.new reading.new h result }
{
    let blank = Blank::new(rt.alloc(), keys_of(&reading.script().session))?;
    watch_at::<Brand, R, S, G>(rt, blank, workers, reading, source, gate)
}

/// Opens a run at a host of this blank and a feed with one reader, has the session watched, and ends the feed however that went.
fn watch_at<
    N: Naming + Send + Sync,
    R: AllocGlobal + Threads + Wait + Sync,
    S: Source,
    G: Gate + Sync,
>(
    rt: &R,
    blank: Blank<Entry>,
    workers: u32,
    reading: &mut Reading,
    source: &mut S,
    gate: &G,
) -> Result<Watched, Memory>
    requires table { blank.table ≡ N.table }
    requires keys { blank.keys ≡ key_count N.session }
    requires workers { 1 ≤ workers }
    requires session { session_at reading.old.intake.stage ≡ Some N.session }
    requires begun { (before : S) × HasRead S.left S.faults before source.old reading.old N.session (sent_at reading.old.intake.stage) }
    ensures watched { (before : S) → HasRead S.left S.faults before source.old reading.old N.session (sent_at reading.old.intake.stage) → WatchedText S.left S.faults before source.new reading.new N.session result }
{
    let alloc = rt.alloc();
    let run = ThreadedRun::<N>::open(alloc, blank, &reading.script().session)?;
    let (mut feed, mut readers) = open_feed(alloc, rt, &reading.script().session, 1)?;
    let mut screen = Screen {
        reader: readers.pop().unwrap(),
        lines: Vec::new(alloc),
        rounds: 0,
    };
    let watched = watch_text(
        rt,
        workers,
        run,
        &mut feed,
        &mut screen,
        reading,
        source,
        gate,
    );
    let Screen {
        reader,
        lines,
        rounds,
    } = screen;
    readers.push_reserved(reader);
    feed.close(rt, readers);
    let (end, history, market) = watched?;
    Ok(Watched {
        end,
        history,
        market,
        rounds,
        lines,
    })
}

/// Serves all rounds of a reading, and looks at every local book behind the whole history, which it answers with how the text ended and the
/// market at the end.
fn watch_text<
    N: Naming + Send + Sync,
    R: AllocGlobal + Threads + Wait + Sync,
    S: Source,
    G: Gate + Sync,
>(
    rt: &R,
    workers: u32,
    mut run: ThreadedRun<N>,
    feed: &mut Feed,
    screen: &mut Screen,
    reading: &mut Reading,
    source: &mut S,
    gate: &G,
) -> Result<(TextEnd, Vec<Entry>, PairHost), Memory>
    requires workers { 1 ≤ workers }
    requires watching { (before : S) × IsWatchingText S.left S.faults before source.old reading.old N.session run.gathered run.lanes.items feed.old screen.old }
    ensures feed { (feed.new.tape ≡ feed.old.tape) × (feed.new.readers ≡ feed.old.readers) }
    ensures reader { IsOfFeed screen.old.reader screen.new.reader }
    ensures watched { (before : S) → IsWatchingText S.left S.faults before source.old reading.old N.session run.gathered run.lanes.items feed.old screen.old →
        TextWatched S.left S.faults before source.new reading.new N.session screen.new result }
{
    let end = watch_rounds(rt, workers, &mut run, feed, screen, reading, source, gate)?;
    let session = &reading.script().session;
    let (history, market) = run.close(rt.alloc(), session)?;
    screen.show_all(rt, session, history.len() as u64)?;
    Ok((end, history, market))
}

/// Serves the commands of a reading, round by round, and answers how the text ended. A round without commands is not run.
fn watch_rounds<
    N: Naming + Send + Sync,
    R: AllocGlobal + Threads + Wait + Sync,
    S: Source,
    G: Gate + Sync,
>(
    rt: &R,
    workers: u32,
    run: &mut ThreadedRun<N>,
    feed: &mut Feed,
    screen: &mut Screen,
    reading: &mut Reading,
    source: &mut S,
    gate: &G,
) -> Result<TextEnd, Memory>
    requires workers { 1 ≤ workers }
    requires watching { (before : S) × IsWatchingText S.left S.faults before source.old reading.old N.session run.old.gathered run.old.lanes.items feed.old screen.old }
    ensures feed { (feed.new.tape ≡ feed.old.tape) × (feed.new.readers ≡ feed.old.readers) }
    ensures reader { IsOfFeed screen.old.reader screen.new.reader }
    ensures watched { (before : S) → IsWatchingText S.left S.faults before source.old reading.old N.session run.old.gathered run.old.lanes.items feed.old screen.old →
        RoundsWatched S.left S.faults before source.new reading.new N.session run.new.gathered run.new.lanes.items feed.new screen.new result }
{
    loop {
        let script = reading.script();
        watch_round(
            rt,
            workers,
            &script.session,
            &script.sent,
            gate,
            run,
            feed,
            screen,
        )?;
        if let Some(end) = reading.end() {
            return Ok(end);
        }
        reading.read_round(source)?;
    }
}
