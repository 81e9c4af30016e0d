//! A sweep past a thousand orders that its taker cannot reach: the search takes as many steps as there are banks.
ghost use Rattle.std.specs.Prelude.{◌≡◌, ◌+◌, ◌<◌, ◌≤◌, ◌^◌, IfOk, length};
ghost use Rattle.fx_rules.specs.Lists.{Each};

use crate::drawn::{WEIGHT, rest};
use credit_lines::CreditLines;
use fx_amounts::{Memory, Side};
use fx_rules::{Plan, Resting};
use global_book::PairBook;
use made_session::load_session;
use match_sweep::{Taker, plan};
use price_levels::Steps;
use std::alloc::Global;
use std::marker::Brand;
use std::sync::ledger::{Blank, Ledger};
use std::test::Fail;
use trial_days::{bank, lots, pair, price, units};

/// A sell of one lot.
fn offer(owner: u8, ticks: u32, arrival: u32) -> Resting
    requires bank { owner < 3 }
    requires price { (1 ≤ ticks) × (ticks ≤ 1000000) }
    requires arrival { arrival < 2000 }
    ensures bank { result.bank ≡ owner }
    ensures number { result.number ≡ arrival + 1 }
    ensures arrival { result.arrival ≡ arrival }
{
    Resting {
        bank: bank(owner),
        number: arrival + 1,
        side: Side::Sell,
        price: price(ticks),
        left: lots(1),
        arrival: u64::from(arrival),
    }
}

/// The third bank's thousand sells, and then one of the second bank's above them all.
fn offers(alloc: Global) -> Result<PairBook, Memory>
    ensures banks { IfOk result (λ book. book.banks ≡ 3) }
    ensures early { IfOk result (λ book. Each (λ order. order.arrival < 1001) book.orders) }
{
    let mut book = PairBook::new(alloc, pair(0), 3)?;
    for arrival in 0..1_000u32 {
        rest(&mut book, &offer(2, 108_400 + arrival % 50, arrival))?;
    }
    rest(&mut book, &offer(1, 108_500, 1_000))?;
    Ok(book)
}

/// The lines of three banks, of which the first and the third have none between them.
fn lines(alloc: Global) -> Result<CreditLines, Fail>
    ensures banks { IfOk result (λ lines. lines.banks ≡ 3) }
{
    let (session, _) = load_session(alloc, 1, 3, 1, 1)?;
    if session.banks().len() != 3 {
        return Err("another session".into());
    }
    let mut lines = CreditLines::open(alloc, &session)?;
    lines.set(bank(0), bank(2), units(0));
    Ok(lines)
}

/// What the first bank's buy of two lots would take; with one fill it takes six steps at most to find.
fn bought<L: Ledger>(
    alloc: Global,
    book: &PairBook,
    lines: &CreditLines,
    steps: &mut Steps<L>,
) -> Result<Plan, Memory>
    requires book { book.now.banks ≡ 3 }
    requires early { Each (λ order. order.arrival < 1001) book.now.orders }
    requires lines { lines.now.banks ≡ 3 }
    ensures steps { IfOk result (λ plan. length plan.fills ≡ 1 → steps.new ≤ steps.old + 6) }
{
    let taker = Taker {
        bank: bank(0),
        number: 1,
        side: Side::Buy,
        price: price(108_600),
        lots: lots(2),
        arrival: 1_001,
    };
    plan(alloc, book, lines, WEIGHT, &taker, steps)
}

/// What the buy fills, with a ledger for the steps.
fn bought_counted<L: Ledger>(
    alloc: Global,
    book: &PairBook,
    lines: &CreditLines,
    blank: Blank,
) -> Result<Plan, Memory>
    requires book { book.now.banks ≡ 3 }
    requires early { Each (λ order. order.arrival < 1001) book.now.orders }
    requires lines { lines.now.banks ≡ 3 }
    requires name { blank.name ≡ L.name }
    requires parts { blank.parts ≡ L.parts }
    requires some { 0 < blank.parts }
{
    let mut steps = Steps::<L>::new(blank);
    bought(alloc, book, lines, &mut steps)
}

#[test]
fn a_thousand_orders_out_of_reach_are_passed(rt: HostRuntime) -> Result<(), Fail> {
    let book = offers(rt.alloc())?;
    let lines = lines(rt.alloc())?;
    let plan = bought_counted::<Brand>(rt.alloc(), &book, &lines, Blank::new(1))?;
    let fills = plan.fills.as_slice();
    assert!(rt; fills.len() == 1);
    assert!(rt; fills[0].maker.index() == 1 && fills[0].maker_number == 1_001);
    assert!(rt; plan.left == 1);
    Ok(())
}
