ghost use Rattle.std.specs.Prelude.{◌≡◌, ◌≤◌, [], length, drop as behind, IfOk, OnOk};
ghost use Rattle.left_right.specs.Sides.{view};
ghost use Rattle.fx_rules.specs.Lists.{Each};
ghost use Rattle.view_feed.specs.Feeds.{opened_reader};
ghost use Rattle.view_feed.specs.inside.Rule.{knower};
ghost use Rattle.view_feed.specs.inside.Shown.{IsOf};

use crate::feed::{Feed, show};
use crate::reader::FeedReader;
use crate::rule::Introduces;
use crate::shown::{Copies, Shown};
use crate::tape::{Front, Tape};
use fx_amounts::Memory;
use fx_rules::Session;
use left_right::writer::Writer;
use std::alloc::Global;
use std::sync::Wait;

/// Opens a feed of a session's market, with nothing published, and 1 to 64 readers of it. It waits only where it ends a feed because
/// it is out of memory.
pub fn open_feed<R: Wait>(
    alloc: Global,
    rt: &R,
    session: &Session,
    readers: u32,
) -> Result<(Feed, Vec<FeedReader>), Memory>
    requires least { 1 ≤ readers }
    requires most { readers ≤ 64 }
    ensures feed { IfOk result (λ opened. opened.0 ≡ record { session = session.now; tape = opened.0.tape; readers = readers; published = []; pending = [] }) }
    ensures count { IfOk result (λ opened. length opened.1.items ≡ readers) }
    ensures readers { IfOk result (λ opened. Each (λ reader. reader ≡ opened_reader session.now opened.0.tape) opened.1.items) }
{
    let tape = Tape::open();
    let first = Shown::open(alloc, session, tape.front())?;
    let second = Shown::open(alloc, session, tape.front())?;
    let copies: Copies = Writer::new(alloc, first, second, readers as usize)?;
    let (copies, seated) = seat_all(alloc, rt, copies, &tape.front(), readers);
    match seated {
        Ok(seated) => {
            let feed = Feed {
                copies,
                tape,
                waiting: Vec::new(alloc),
                readers,
            };
            Ok((feed, seated))
        }
        Err(memory) => {
            drop(copies.take(rt));
            Err(memory)
        }
    }
}

/// Shows the market as it opens, so that the writer's seat knows the feed, and gives so many readers a place.
fn seat_all<R: Wait>(
    alloc: Global,
    rt: &R,
    copies: Copies,
    front: &Front,
    readers: u32,
) -> (Copies, Result<Vec<FeedReader>, Memory>)
    requires of { IsOf copies.desk.shown.value.session front.now.tape copies.desk.shown.value }
    requires none { behind copies.behind copies.log.items ≡ [] }
    requires empty { front.now.entries ≡ [] }
    ensures shown { OnOk result.1 (result.0.desk.shown.value ≡ copies.desk.shown.value) }
    ensures none { OnOk result.1 (behind result.0.behind result.0.log.items ≡ []) }
    ensures knows { OnOk result.1 (view result.0.desk.place ≡ knower copies.desk.shown.value.session front.now.tape) }
    ensures count { IfOk result.1 (λ seated. length seated.items ≡ readers) }
    ensures readers { IfOk result.1 (λ seated. Each (λ reader. reader ≡ opened_reader copies.desk.shown.value.session front.now.tape) seated.items) }
{
    let (mut copies, shown) = show(copies, rt);
    if let Err(memory) = shown {
        return (copies, Err(memory));
    }
    let seated = new_readers(alloc, &mut copies, front, readers);
    (copies, seated)
}

/// So many readers, to each of which the writer tells which feed it is.
fn new_readers(
    alloc: Global,
    copies: &mut Copies,
    front: &Front,
    readers: u32,
) -> Result<Vec<FeedReader>, Memory>
    requires knows { view copies.old.desk.place ≡ knower (view copies.old.desk.place).session front.now.tape }
    requires empty { front.now.entries ≡ [] }
    ensures shown { copies.new.desk.shown ≡ copies.old.desk.shown }
    ensures queue { behind copies.new.behind copies.new.log.items ≡ behind copies.old.behind copies.old.log.items }
    ensures knows { view copies.new.desk.place ≡ view copies.old.desk.place }
    ensures count { IfOk result (λ seated. length seated.items ≡ readers) }
    ensures readers { IfOk result (λ seated. Each (λ reader. reader ≡ opened_reader (view copies.old.desk.place).session front.now.tape) seated.items) }
{
    let mut seated = Vec::new(alloc);
    for _seat in 0..readers {
        seated.push(new_reader(copies, front)?)?;
    }
    Ok(seated)
}

/// A reader that has seen nothing, to which the writer tells which feed it is.
fn new_reader(copies: &mut Copies, front: &Front) -> Result<FeedReader, Memory>
    requires knows { view copies.old.desk.place ≡ knower (view copies.old.desk.place).session front.now.tape }
    requires empty { front.now.entries ≡ [] }
    ensures shown { copies.new.desk.shown ≡ copies.old.desk.shown }
    ensures queue { behind copies.new.behind copies.new.log.items ≡ behind copies.old.behind copies.old.log.items }
    ensures knows { view copies.new.desk.place ≡ view copies.old.desk.place }
    ensures reader { IfOk result (λ reader. reader ≡ opened_reader (view copies.old.desk.place).session front.now.tape) }
{
    let mut place = copies.factory().reader()?;
    let note = copies.tell::<Introduces>();
    place.learn::<Introduces>(note);
    Ok(FeedReader {
        place,
        seen: front.again(),
        known: front.again(),
    })
}
