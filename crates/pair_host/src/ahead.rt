use fx_rules::{Command, Life, Sent};
use global_book::PairBook;

/// The lots that rest where the Day orders among these commands would come to rest, of their own bank: a sum modulo 2^64, for the sake of
/// the reads alone.
pub(crate) fn lots_ahead(books: &[PairBook], sent: &[Sent]) -> u64 {
    let mut lots = 0u64;
    for next in sent {
        lots = lots.wrapping_add(lots_at(books, next));
    }
    lots
}

/// The lots that rest where a Day order would come to rest, of its own bank; 0 for any other command.
fn lots_at(books: &[PairBook], sent: &Sent) -> u64 {
    match sent.command {
        Command::Order {
            side,
            pair,
            price,
            life: Life::Day,
            ..
        } => match books.get(pair.index()) {
            Some(book) => book.lots_at(sent.bank, side, price),
            None => 0,
        },
        _ => 0,
    }
}
