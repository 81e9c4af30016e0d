//! What a credit change does in every pair, in the order of the header.
ghost use Rattle.std.specs.Prelude.{◌≡◌, ◌<◌, ◌≤◌, [], length, All, IfOk, OnOk};
ghost use Rattle.fx_rules.specs.Session.{bank_count, pair_count};
ghost use Rattle.credit_raise.specs.UnderWay.{HasBanks};
ghost use Rattle.pair_host.specs.inside.Books.{AreBooks, AreEmpty, EachBook, IsCarried, IsRecorded, PlansEach, RestsIn};

use crate::counting::resting;
use crate::turning::{carry_recorded, carry_turn};
use credit_lines::CreditTable;
use credit_raise::CreditChange;
use fx_amounts::{Memory, PairId};
use fx_rules::{Fill, Session};
use global_book::PairBook;
use std::alloc::Global;

/// A book with no orders for each pair of a session.
pub(crate) fn empty_books(alloc: Global, session: &Session) -> Result<Vec<PairBook>, Memory>
    ensures count { IfOk result (λ books. length books.items ≡ pair_count session.now) }
    ensures books { IfOk result (λ books. AreBooks (bank_count session.now) books.items) }
    ensures empty { IfOk result (λ books. AreEmpty books.items) }
{
    let banks = session.banks().len();
    let mut books = Vec::new(alloc);
    for place in 0..session.pairs().len() {
        books.push(PairBook::new(alloc, PairId::at(place), banks)?)?;
    }
    Ok(books)
}

/// Each pair has its turn in a credit change that has just begun.
pub(crate) fn plan_turns(
    alloc: Global,
    books: &[PairBook],
    table: &CreditTable,
    change: &mut CreditChange,
) -> Result<(), Memory>
    requires books { AreBooks (bank_count table.now.session) books.now }
    requires pairs { length books.now ≡ pair_count table.now.session }
    requires begins { change.old.plans ≡ [] }
    requires banks { HasBanks change.old.course (bank_count table.now.session) }
    ensures under_way { OnOk result (PlansEach books.now table.now change.old change.new) }
    ensures turns { OnOk result (length change.new.plans ≡ length books.now) }
    ensures command { change.new.command ≡ change.old.command }
    ensures sender { change.new.sender ≡ change.old.sender }
{
    for book in books {
        change.pair(alloc, book, table.weight(book.pair()))?;
    }
    Ok(())
}

/// Makes what a credit change brings about in each pair, once all had their turns.
pub(crate) fn carry_turns(books: &mut [PairBook], change: &CreditChange)
    requires turned { All (λ book. book.pair < length change.now.plans) books.old }
    ensures carried { EachBook (IsCarried change.now) books.old books.new }
{
    if change.makes_nothing() {
        return;
    }
    for book in books.iter_mut() {
        carry_turn(book, change);
    }
}

/// Makes what a recorded credit change brought about in each pair: these are its fills.
pub(crate) fn carry_all_recorded(books: &mut [PairBook], fills: &[Fill])
    ensures recorded { EachBook (IsRecorded fills.now) books.old books.new }
{
    for book in books.iter_mut() {
        carry_recorded(book, fills);
    }
}

/// How many orders rest in all pairs.
pub(crate) fn all_resting(books: &[PairBook]) -> u64
    requires few { length books.now ≤ 32 }
    requires banks { All (λ book. book.banks ≤ 64) books.now }
    ensures resting { RestsIn books.now result }
{
    let mut count = 0u64;
    for book in books {
        count += resting(book);
    }
    count
}
