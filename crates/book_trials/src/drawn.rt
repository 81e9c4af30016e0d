//! A pair's book from a number, beside the flat list of its orders, and the lines between its banks.
ghost use Rattle.std.specs.Prelude.{◌≡◌, ◌+◌, ◌-◌, ◌<◌, ◌≤◌, ◌^◌, IfOk, IfSome, OnOk, length};
ghost use Rattle.fx_amounts.specs.Price.{IsPrice};
ghost use Rattle.fx_amounts.specs.Quantity.{IsLots};
ghost use Rattle.fx_rules.specs.Lists.{Each};

use credit_lines::CreditLines;
use fx_amounts::{BankId, Memory, Price, Side};
use fx_rules::Resting;
use global_book::PairBook;
use made_session::load_session;
use match_sweep::Taker;
use std::alloc::Global;
use std::test::Fail;
use trial_days::{Draws, bank, lots, pair, price, units};

/// The credit units that a lot uses.
pub(crate) const WEIGHT: u32 = 10;

/// A pair's book, and the same orders in a flat list.
#[derive(Drop)]
pub(crate) struct Pair {
    pub(crate) book: PairBook,
    /// In the order in which they arrived.
    pub(crate) orders: Vec<Resting>,
    pub(crate) lines: CreditLines,
    ghost banks: { book.banks ≡ lines.banks },
}

/// The next price that is drawn: one of two hundred, and every sixteenth time any price.
fn drawn_price(draws: &mut Draws) -> Price {
    if draws.below(16) == 0 {
        price(1 + draws.below(u64::from(Price::MOST)) as u32)
    } else {
        price(108_400 + draws.below(200) as u32)
    }
}

/// The next order that is drawn: of one of so many banks, of either side, for up to nine lots.
pub(crate) fn taker(draws: &mut Draws, banks: u8, arrival: u32) -> Taker
    requires banks { (1 ≤ banks) × (banks ≤ 64) }
    requires arrival { arrival < 2 ^ 32 - 1 }
    ensures bank { result.bank < banks }
    ensures number { result.number ≡ arrival + 1 }
    ensures arrival { result.arrival ≡ arrival }
{
    let side = if draws.below(2) == 0 {
        Side::Buy
    } else {
        Side::Sell
    };
    Taker {
        bank: bank(draws.below(u64::from(banks)) as u8),
        number: arrival + 1,
        side,
        price: drawn_price(draws),
        lots: lots(1 + draws.below(9) as u32),
        arrival: u64::from(arrival),
    }
}

/// What comes to rest of a taker that takes nothing.
fn resting(taker: &Taker) -> Resting
    ensures bank { result.bank ≡ taker.now.bank }
    ensures number { result.number ≡ taker.now.number }
    ensures arrival { result.arrival ≡ taker.now.arrival }
{
    Resting {
        bank: taker.bank,
        number: taker.number,
        side: taker.side,
        price: taker.price,
        left: taker.lots,
        arrival: taker.arrival,
    }
}

/// An order comes to rest behind all others, as the book's next.
pub(crate) fn rest(book: &mut PairBook, order: &Resting) -> Result<(), Memory>
    requires bank { order.now.bank < book.old.banks }
    requires number { order.now.number ≡ order.now.arrival + 1 }
    requires behind { Each (λ other. (other.arrival < order.now.arrival) × (other.number ≤ order.now.arrival)) book.old.orders }
    ensures banks { book.new.banks ≡ book.old.banks }
    ensures behind { OnOk result (Each (λ other. (other.arrival < order.now.arrival + 1) × (other.number ≤ order.now.arrival + 1)) book.new.orders) }
{
    book.reserve(order.bank, order.side, order.price)?;
    book.rest(*order);
    Ok(())
}

/// So many orders of so many banks, in a book and in a list.
fn orders(
    alloc: Global,
    draws: &mut Draws,
    banks: u8,
    count: u32,
) -> Result<(PairBook, Vec<Resting>), Memory>
    requires banks { (1 ≤ banks) × (banks ≤ 64) }
    requires count { count ≤ 100000 }
    ensures banks { IfOk result (λ filled. filled.0.banks ≡ banks) }
{
    let mut book = PairBook::new(alloc, pair(0), usize::from(banks))?;
    let mut orders = Vec::new(alloc);
    for arrival in 0..count {
        let order = resting(&taker(draws, banks, arrival));
        rest(&mut book, &order)?;
        orders.push(order)?;
    }
    Ok((book, orders))
}

/// Sets a bank's limits on all others: of up to sixty lots, and every fourth of none.
fn set_row(lines: &mut CreditLines, setter: BankId, draws: &mut Draws, banks: u8)
    requires setter { setter < banks }
    requires banks { banks ≤ 64 }
    requires lines { lines.old.banks ≡ banks }
    ensures banks { lines.new.banks ≡ lines.old.banks }
{
    for number in 0..banks {
        let other = bank(number);
        let lots = if draws.below(4) == 0 {
            0
        } else {
            draws.below(60)
        };
        if setter != other {
            lines.set(setter, other, units(lots * u64::from(WEIGHT) + 3));
        }
    }
}

/// Sets all limits between so many banks.
fn set_limits(lines: &mut CreditLines, draws: &mut Draws, banks: u8)
    requires banks { banks ≤ 64 }
    requires lines { lines.old.banks ≡ banks }
    ensures banks { lines.new.banks ≡ lines.old.banks }
{
    for number in 0..banks {
        set_row(lines, bank(number), draws, banks);
    }
}

/// A book of so many orders of so many banks, with lines between them.
pub(crate) fn drawn_pair(alloc: Global, seed: u64, banks: u8, count: u32) -> Result<Pair, Fail>
    requires banks { (2 ≤ banks) × (banks ≤ 64) }
    requires count { count ≤ 100000 }
    ensures banks { IfOk result (λ pair. pair.book.banks ≡ banks) }
{
    let (session, _) = load_session(alloc, seed, banks, 1, 1)?;
    if session.banks().len() != usize::from(banks) {
        return Err("another session".into());
    }
    let mut lines = CreditLines::open(alloc, &session)?;
    let mut draws = Draws::new(seed);
    set_limits(&mut lines, &mut draws, banks);
    let (book, orders) = orders(alloc, &mut draws, banks, count)?;
    Ok(Pair {
        book,
        orders,
        lines,
    })
}

/// The bank at a place of the header.
fn bank_at(place: usize) -> Option<BankId>
    ensures { IfSome result (λ bank. bank ≡ place) }
{
    if place < 64 {
        BankId::new(place as u8)
    } else {
        None
    }
}

/// The lots of each bank that a bank's lines allow.
pub(crate) fn reach_of(
    alloc: Global,
    lines: &CreditLines,
    bank: BankId,
    banks: usize,
) -> Result<Vec<u64>, Memory>
    requires bank { bank < lines.now.banks }
    requires banks { banks ≡ lines.now.banks }
    ensures one_each { IfOk result (λ reach. length reach.items ≡ banks) }
{
    let mut reach = Vec::new(alloc);
    for place in 0..banks {
        let lots = match bank_at(place) {
            Some(other) if other != bank => lines.reach(bank, other, WEIGHT),
            _ => 0,
        };
        reach.push(lots)?;
    }
    Ok(reach)
}
