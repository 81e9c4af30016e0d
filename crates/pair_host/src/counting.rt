ghost use Rattle.std.specs.Prelude.{◌≡◌, ◌≤◌, ◌^◌, None, filter, length};
ghost use Rattle.global_book.specs.Behind.{owned_behind};
ghost use Rattle.global_book.specs.Book.{IsBook, is_of};

use fx_amounts::{BankId, Side};
use fx_rules::Resting;
use global_book::PairBook;
use price_levels::Steps;
use std::sync::ledger::Ledger;

/// How many orders rest in a book, which was made for at most 64 banks.
pub fn resting(book: &PairBook) -> u64
    requires banks { book.now.banks ≤ 64 }
    ensures value { result ≡ length book.now.orders }
    ensures most { result ≤ 2 ^ 38 }
{
    book.len() as u64
}

/// How many orders of a bank rest in a book. It walks them, by a search for each.
pub(crate) fn count_of<L: Ledger>(book: &PairBook, bank: BankId, steps: &mut Steps<L>) -> u32
    ensures count { result ≡ length (filter (is_of bank) book.now.orders) }
{
    let buys = count_side(book, bank, Side::Buy, steps);
    let sells = count_side(book, bank, Side::Sell, steps);
    buys + sells
}

/// How many of them are of a side. It walks them from the best one on.
fn count_side<L: Ledger>(book: &PairBook, bank: BankId, side: Side, steps: &mut Steps<L>) -> u32
    ensures count { result ≡ length (owned_behind side bank (2 ^ 64) None book.now.orders) }
    ensures valid { IsBook book.now }
{
    let mut count = 0;
    let mut past: Option<Resting> = None;
    while let Some(order) = book.next_best(bank, side, past.as_ref(), steps) {
        count += 1;
        past = Some(order);
    }
    count
}
