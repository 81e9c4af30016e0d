//! Looks of a reader at a local book.
ghost use Rattle.std.specs.Prelude.{◌≡◌, ◌<◌, ◌++◌, IfOk, OnOk};
ghost use Rattle.fx_rules.specs.Market.{IsDepthOf};
ghost use Rattle.fx_rules.specs.Session.{bank_count, pair_count};
ghost use Rattle.fx_rules.specs.State.{State};
ghost use Rattle.watched_run.specs.Looks.{look_line, due_at};
ghost use Rattle.watched_run.specs.inside.Watching.{HasSeen, IsOfFeed, book_of};

use fx_amounts::{BankId, Memory, PairId};
use fx_rules::{Outcome, Session};
use fx_text::push_number;
use reply_lines::push_book;
use std::sync::Wait;
use view_feed::{FeedFault, FeedReader};

/// A bank's local book of a pair behind the entries that are published now, and how many they are. It looks again where the feed is closed
/// or behind its notes, which never happens.
pub(crate) fn look<R: Wait>(
    rt: &R,
    reader: &mut FeedReader,
    bank: BankId,
    pair: PairId,
) -> Result<(u64, Outcome), Memory>
    requires bank { bank < bank_count reader.old.session }
    requires pair { pair < pair_count reader.old.session }
    ensures feed { IsOfFeed reader.old reader.new }
    ensures seen { IfOk result (λ found. HasSeen bank pair reader.old reader.new found.0 found.1) }
{
    for _ in rt.forever() {
        match reader.book(bank, pair) {
            Ok(found) => return Ok(found),
            Err(FeedFault::Memory(memory)) => return Err(memory),
            Err(FeedFault::Closed | FeedFault::Behind) => {}
        }
    }
    unreachable!()
}

/// A bank's local book of a pair behind so many entries. It looks again where more or fewer are published, which never happens once
/// these are.
pub(crate) fn look_behind<R: Wait>(
    rt: &R,
    reader: &mut FeedReader,
    bank: BankId,
    pair: PairId,
    all: u64,
) -> Result<Outcome, Memory>
    requires bank { bank < bank_count reader.old.session }
    requires pair { pair < pair_count reader.old.session }
    ensures feed { IsOfFeed reader.old reader.new }
    ensures seen { IfOk result (λ book. HasSeen bank pair reader.old reader.new all book) }
{
    for _ in rt.forever() {
        let (count, book) = look(rt, reader, bank, pair)?;
        if count == all {
            return Ok(book);
        }
    }
    unreachable!()
}

/// Appends the line of a look at a bank's local book of a pair. After `Memory` the lines are of no use any more.
pub(crate) fn push_look(
    session: &Session,
    count: u64,
    bank: BankId,
    pair: PairId,
    book: &Outcome,
    lines: &mut Vec<u8>,
) -> Result<(), Memory>
    requires bank { bank < bank_count session.now }
    requires pair { pair < pair_count session.now }
    requires depth { (S : State) × IsDepthOf bank pair book.now session.now S }
    ensures line { OnOk result (lines.new.items ≡ lines.old.items ++ look_line session.now (record { due = due_at 0 pair bank; count = count; book = book_of book.now })) }
{
    let Outcome::Depth { bids, asks } = book else {
        unreachable!()
    };
    push_number(u128::from(count), lines)?;
    lines.push(b' ')?;
    lines.extend_from_slice(session.name(bank))?;
    push_book(session, pair, bids.as_slice(), asks.as_slice(), lines)?;
    lines.push(b'\n')?;
    Ok(())
}
