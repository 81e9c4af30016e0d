ghost use Rattle.std.specs.Prelude.{◌≡◌, ◌<◌, ◌++◌, ℕ, [], flat_map, OnOk, OnErr};
ghost use Rattle.fx_edges.specs.Gathered.{Gathered};
ghost use Rattle.fx_rules.specs.Lists.{below};
ghost use Rattle.fx_rules.specs.Session.{bank_count, pair_count};
ghost use Rattle.fx_text.specs.Fields.{fields_text};
ghost use Rattle.reply_lines.specs.Books.{LocalBook, book_line, books_text};
ghost use Rattle.reply_lines.specs.Notices.{book_fields};
ghost use Rattle.reply_lines.specs.inside.Books.{IsMarketOf, AreBooksOf, book_lines};

use crate::lines::write_made;
use crate::notices::{book_room, put_book};
use crate::room::make_room;
use crate::row::{begin_word_row, end_row, give_up};
use fx_amounts::{BankId, Memory, PairId};
use fx_edges::{Pieces, Sink, SinkFault};
use fx_rules::{Level, Market, Outcome, Session};

/// Writes the local books of each bank in each pair, as they stand in the market.
#[tactic(auto, unfolding(crate::specs::Books::books_text))]
pub(crate) fn write_books<M: Market, K: Sink>(
    session: &Session,
    market: &M,
    line: &mut Vec<u8>,
    pieces: &mut Pieces,
    out: &mut K,
) -> Result<(), SinkFault>
    requires market { IsMarketOf M.stands session.now market.now }
    ensures wrote { (books : ℕ → ℕ → LocalBook) → AreBooksOf M.stands session.now market.now books →
        Gathered K.written K.faults pieces.old out.old pieces.new out.new (books_text session.now books) result }
{
    pieces.put(b"BOOKS\n", out)?;
    write_banks(session, market, line, pieces, out)
}

/// Writes the local books of all banks.
fn write_banks<M: Market, K: Sink>(
    session: &Session,
    market: &M,
    line: &mut Vec<u8>,
    pieces: &mut Pieces,
    out: &mut K,
) -> Result<(), SinkFault>
    requires market { IsMarketOf M.stands session.now market.now }
    ensures wrote { (books : ℕ → ℕ → LocalBook) → AreBooksOf M.stands session.now market.now books →
        Gathered K.written K.faults pieces.old out.old pieces.new out.new (flat_map (book_lines session.now books) (below (bank_count session.now))) result }
{
    for place in 0..session.banks().len() {
        write_pairs(session, market, BankId::at(place), line, pieces, out)?;
    }
    Ok(())
}

/// Writes a bank's local books of all pairs.
fn write_pairs<M: Market, K: Sink>(
    session: &Session,
    market: &M,
    bank: BankId,
    line: &mut Vec<u8>,
    pieces: &mut Pieces,
    out: &mut K,
) -> Result<(), SinkFault>
    requires market { IsMarketOf M.stands session.now market.now }
    requires bank { bank < bank_count session.now }
    ensures wrote { (books : ℕ → ℕ → LocalBook) → AreBooksOf M.stands session.now market.now books →
        Gathered K.written K.faults pieces.old out.old pieces.new out.new (book_lines session.now books bank) result }
{
    for place in 0..session.pairs().len() {
        write_book(session, market, bank, PairId::at(place), line, pieces, out)?;
    }
    Ok(())
}

/// Writes a bank's local book of a pair.
fn write_book<M: Market, K: Sink>(
    session: &Session,
    market: &M,
    bank: BankId,
    pair: PairId,
    line: &mut Vec<u8>,
    pieces: &mut Pieces,
    out: &mut K,
) -> Result<(), SinkFault>
    requires market { IsMarketOf M.stands session.now market.now }
    requires bank { bank < bank_count session.now }
    requires pair { pair < pair_count session.now }
    ensures wrote { (books : ℕ → ℕ → LocalBook) → AreBooksOf M.stands session.now market.now books →
        Gathered K.written K.faults pieces.old out.old pieces.new out.new (book_line session.now books bank pair) result }
{
    let made = make_book(session, market, bank, pair, line);
    write_made(made, line, pieces, out)
}

/// Makes the line of a bank's local book of a pair. At `Memory` it is empty.
fn make_book<M: Market>(
    session: &Session,
    market: &M,
    bank: BankId,
    pair: PairId,
    line: &mut Vec<u8>,
) -> Result<(), Memory>
    requires market { IsMarketOf M.stands session.now market.now }
    requires bank { bank < bank_count session.now }
    requires pair { pair < pair_count session.now }
    ensures ok { OnOk result ((books : ℕ → ℕ → LocalBook) → AreBooksOf M.stands session.now market.now books →
        line.new.items ≡ book_line session.now books bank pair) }
    ensures memory { OnErr result (line.new.items ≡ []) }
{
    line.clear();
    let Outcome::Depth { bids, asks } = market.depth(bank, pair)? else {
        unreachable!()
    };
    begin_word_row(session.name(bank), line)?;
    push_book(session, pair, bids.as_slice(), asks.as_slice(), line)?;
    end_row(line)
}

/// Appends the fields of a local book, each behind a space: its pair, and the levels of both sides. At `Memory` the line is emptied.
pub fn push_book(
    session: &Session,
    pair: PairId,
    bids: &[Level],
    asks: &[Level],
    line: &mut Vec<u8>,
) -> Result<(), Memory>
    requires { pair < pair_count session.now }
    ensures ok { OnOk result (line.new.items ≡ line.old.items ++ fields_text (book_fields session.now pair bids.now asks.now)) }
    ensures memory { OnErr result (line.new.items ≡ []) }
{
    let at = line.len();
    if let Err(memory) = make_room(line, at, book_room(bids, asks)) {
        return give_up(line, memory);
    }
    let end = put_book(session, pair, bids, asks, line, at);
    line.truncate(end);
    Ok(())
}
