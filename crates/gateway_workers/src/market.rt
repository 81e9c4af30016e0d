//! The market at the end of a run, from the shards and the credit table that served it.
ghost use Rattle.std.specs.Prelude.{◌≡◌, List, IfOk, IfSome};
ghost use Rattle.fx_rules.specs.declared.outcome.Entry.{Entry as HistoryEntry};
ghost use Rattle.fx_rules.specs.History.{IsLegal, state};
ghost use Rattle.credit_lines.specs.Table.{Stands};
ghost use Rattle.pair_host.specs.Standing.{AreBooksOf, StandsFor};
ghost use Rattle.fx_host.specs.Closing.{AreShardsOf};

use credit_lines::CreditTable;
use fx_amounts::Memory;
use fx_chronicle::Naming;
use fx_rules::{Entry, Session};
use global_book::PairBook;
use pair_host::{PairHost, replay};
use pair_shards::Shard;
use std::alloc::Global;

/// The market in the state after a whole history, of the credit table and the shards' books in that state. No entry is read: the
/// shards stand in the order of the header. That is not in their type, so each is asked for its pair. They are never found in
/// another order, and only then the history would be replayed.
pub(crate) fn market_of<N: Naming>(
    alloc: Global,
    session: &Session,
    history: &[Entry],
    table: CreditTable,
    shards: Vec<Shard<N>>,
) -> Result<PairHost, Memory>
    requires session { session.now ≡ N.session }
    requires legal { IsLegal N.session history.now }
    requires table { Stands N.session (state N.session history.now) table }
    requires shards { AreShardsOf N.session history.now shards.items }
    ensures market { IfOk result (StandsFor N.session (state N.session history.now)) }
{
    match books_of(alloc, shards)? {
        Some(books) => Ok(PairHost::from_parts(books, table)),
        None => replay(alloc, session, history),
    }
}

/// The books of shards that stand in the order of the header; `None` of any others.
fn books_of<N: Naming>(
    alloc: Global,
    shards: Vec<Shard<N>>,
) -> Result<Option<Vec<PairBook>>, Memory>
    ensures books { IfOk result (λ found. IfSome found (λ books. (history : List HistoryEntry) → AreShardsOf N.session history shards.items → AreBooksOf N.session (state N.session history) books.items)) }
{
    let mut books = Vec::new(alloc);
    for shard in shards {
        if shard.pair().index() != books.len() {
            return Ok(None);
        }
        books.push(shard.into_book())?;
    }
    Ok(Some(books))
}
