//! A feed and its reader, by calls.
ghost use Rattle.std.specs.Prelude.{◌≡◌, ◌<◌, ◌++◌, ◌∷◌, []};
ghost use Rattle.fx_rules.specs.History.{IsLegal};

use fx_rules::{Entry, Session};
use fx_text::push_number;
use market_run::run_in_order;
use pair_host::PairHost;
use std::alloc::AllocGlobal;
use std::sync::Wait;
use std::test::Fail;
use trial_days::{bank, day_of, pair, tell};
use view_feed::{Feed, FeedReader, open_feed};

/// BETA sells 2 lots, of which ALFA sees what its line allows.
const SELL: &[u8] = b"FXBOOK 1
BANK ALFA
BANK BETA
BANK GAMA
PAIR EUR/USD 5 1000000 100
LINE ALFA BETA 1000
LINE BETA ALFA 1000
START
BETA SELL EUR/USD 1.08420 2 DAY
";

/// What ALFA's looks find before the sell is appended, behind that, and once it is published and learnt; and how many entries it
/// has seen then.
const LOOKS: &[u8] = b"0 BOOK BIDS ASKS
0 BOOK BIDS ASKS
1 BOOK BIDS ASKS 1.08420 2
1
";

/// Adds what a look at ALFA's local book of EUR/USD finds: how many entries are published, and the book.
fn look(reader: &mut FeedReader, session: &Session, text: &mut Vec<u8>) -> Result<(), Fail>
    requires session { reader.old.session ≡ session.now }
    ensures session { reader.new.session ≡ reader.old.session }
    ensures tape { reader.new.tape ≡ reader.old.tape }
{
    let _banks = session.banks();
    let (count, book) = reader.book(bank(0), pair(0))?;
    push_number(u128::from(count), text)?;
    text.push(b' ')?;
    tell(session, &book, text)?;
    text.push(b'\n')?;
    Ok(())
}

/// Adds what the three looks find, and how many entries the reader has seen by then.
fn three_looks<R: Wait>(
    rt: &R,
    feed: &mut Feed,
    reader: &mut FeedReader,
    session: &Session,
    entry: &Entry,
    text: &mut Vec<u8>,
) -> Result<(), Fail>
    requires legal { IsLegal feed.old.session (feed.old.published ++ feed.old.pending ++ entry.now ∷ []) }
    requires session { reader.old.session ≡ session.now }
    requires tape { reader.old.tape ≡ feed.old.tape }
    ensures tape { (feed.new.tape ≡ feed.old.tape) × (reader.new.tape ≡ reader.old.tape) }
    ensures readers { feed.new.readers ≡ feed.old.readers }
{
    look(reader, session, text)?;
    feed.append(entry)?;
    look(reader, session, text)?;
    reader.learn(feed.publish(rt)?);
    look(reader, session, text)?;
    push_number(u128::from(reader.seen()), text)?;
    text.push(b'\n')?;
    Ok(())
}

/// What the looks of ALFA find beside a feed to which this entry is appended.
fn told_to_a_reader<R: AllocGlobal + Wait>(
    rt: &R,
    session: &Session,
    entry: &Entry,
) -> Result<Vec<u8>, Fail>
    requires legal { IsLegal session.now (entry.now ∷ []) }
{
    let alloc = rt.alloc();
    let mut text = Vec::new(alloc);
    let (mut feed, mut readers) = open_feed(alloc, rt, session, 1)?;
    let looked = three_looks(rt, &mut feed, &mut readers[0], session, entry, &mut text);
    feed.close(rt, readers);
    looked?;
    Ok(text)
}

/// What the looks of ALFA find beside a feed to which the entry of a day of one command is appended.
fn told_of_a_day<R: AllocGlobal + Wait>(rt: &R, day: &[u8]) -> Result<Vec<u8>, Fail> {
    let alloc = rt.alloc();
    let (session, sent) = day_of(alloc, day)?;
    let market = PairHost::open(alloc, &session)?;
    let (entries, _market) = run_in_order(alloc, &session, market, &sent)?;
    match entries.as_slice() {
        [entry] => told_to_a_reader(rt, &session, entry),
        _ => Err("the day has not one command".into()),
    }
}

#[test]
fn a_reader_sees_what_is_published(rt: HostRuntime) -> Result<(), Fail> {
    let text = told_of_a_day(&rt, SELL)?;
    assert!(rt; text.as_slice() == LOOKS);
    Ok(())
}
