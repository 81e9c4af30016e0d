//! A day that is told entry by entry is written as its history is, and its notices are told in the order of the history.
ghost use Rattle.std.specs.Prelude.{◌≤◌, length};
ghost use Rattle.fx_rules.specs.History.{IsLegal};

use crate::fixture::{TRADES, TRADING, played};
use crate::outputs::{BUSY, output};
use fx_amounts::Memory;
use fx_edges::SteadySink;
use fx_rules::{Entry, Session};
use reply_lines::{DayText, Ending, NoticeSheet, Telling};
use std::alloc::Global;
use std::test::Fail;

/// The output of a history that is told entry by entry.
fn told_output(alloc: Global, session: &Session, entries: &[Entry]) -> Result<Vec<u8>, Fail>
    requires legal { IsLegal session.now entries.now }
{
    let market = flat_host::replay(alloc, session, entries)?;
    let mut whole = SteadySink::new(alloc);
    let day = DayText::of_history(alloc, session, entries)?;
    day.write(alloc, session, &market, 3, Ending::Cut, &mut whole)?;
    Ok(Vec::from_slice(alloc, whole.written())?)
}

#[test]
fn a_day_told_entry_by_entry(rt: HostRuntime) -> Result<(), Fail> {
    let (session, entries) = played(rt.alloc(), TRADING, BUSY)?;
    let whole = told_output(rt.alloc(), &session, &entries)?;
    let written = output(rt.alloc(), TRADING, BUSY, 3, Ending::Cut)?;
    assert!(rt; whole == written);
    Ok(())
}

/// The notices of three entries, behind so many of these.
const NOTICES: [(usize, &str); 3] = [
    (
        0,
        "BETA 1 REPLY 1 ORDERED 0 2
ALFA 1 REPLY 1 ORDERED 2 1
ALFA 2 FILL 1 BUY EUR/USD 2 1.08420 BETA 2000000 2168400
BETA 2 FILL 1 SELL EUR/USD 2 1.08420 ALFA 2000000 2168400
GAMA 1 REPLY 1 BAD 3
",
    ),
    (
        1,
        "ALFA 1 REPLY 1 ORDERED 2 1
ALFA 2 FILL 1 BUY EUR/USD 2 1.08420 BETA 2000000 2168400
BETA 2 FILL 1 SELL EUR/USD 2 1.08420 ALFA 2000000 2168400
GAMA 1 REPLY 1 BAD 3
",
    ),
    (3, ""),
];

/// The notices of a history's entries behind the first so many, which are counted.
fn told_behind(
    alloc: Global,
    session: &Session,
    entries: &[Entry],
    counted: usize,
) -> Result<Vec<u8>, Memory>
    requires legal { IsLegal session.now entries.now }
    requires within { counted ≤ length entries.now }
{
    let (before, more) = entries.split_at(counted);
    let mut telling = Telling::open(alloc, session)?;
    telling.count(before);
    let mut text = NoticeSheet::new(alloc);
    telling.tell(session, more, &mut text)?;
    Ok(text.into_lines())
}

#[test]
fn notices_are_told_behind_those_that_are_counted(rt: HostRuntime) -> Result<(), Fail> {
    let (session, entries) = played(rt.alloc(), TRADING, TRADES)?;
    for (counted, wanted) in NOTICES {
        let counted = counted.min(entries.len());
        let text = told_behind(rt.alloc(), &session, &entries, counted)?;
        assert!(rt; text.as_slice() == wanted.as_bytes());
    }
    Ok(())
}
