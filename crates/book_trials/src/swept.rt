//! Sweeps and local books of generated books, beside the plain walk.
ghost use Rattle.std.specs.Prelude.{◌≡◌, ◌<◌, ◌≤◌, IfOk, length};

use crate::drawn::{Pair, WEIGHT, drawn_pair, reach_of, taker};
use crate::plain::{Taken, levels, sweep};
use credit_lines::CreditLines;
use fx_amounts::{BankId, Memory, Side};
use fx_rules::{Fill, Level, Outcome};
use local_view::depth;
use match_sweep::{Taker, carry, plan};
use price_levels::Steps;
use std::alloc::Global;
use std::marker::Brand;
use std::sync::ledger::{Blank, Ledger};
use std::test::Fail;
use trial_days::Draws;

/// Whether a fill is what the plain walk took.
fn is_taken(fill: &Fill, taken: &Taken) -> bool {
    fill.maker == taken.maker
        && fill.maker_number == taken.number
        && fill.price == taken.price
        && u64::from(fill.lots.count()) == taken.lots
}

/// Whether the fills are what the plain walk took.
fn are_taken(fills: &[Fill], taken: &[Taken]) -> bool {
    fills.len() == taken.len()
        && fills
            .iter()
            .zip(taken.iter())
            .all(|(fill, next)| is_taken(fill, next))
}

/// One take for each fill; false where a line does not pay for it.
fn take_all(lines: &mut CreditLines, banks: usize, fills: &[Fill]) -> bool
    requires { lines.old.banks ≡ banks }
    ensures { lines.new.banks ≡ lines.old.banks }
{
    for fill in fills {
        let (taker, maker) = (fill.taker, fill.maker);
        if taker.index() >= banks || maker.index() >= banks || taker == maker {
            return false;
        }
        if fill.lots.cost(WEIGHT) > lines.eff(taker, maker) {
            return false;
        }
        lines.take(taker, maker, fill.lots.cost(WEIGHT));
    }
    true
}

/// Whether a taker gets in the book what it gets of the flat list; both have it then.
fn sweep_alike<L: Ledger>(
    alloc: Global,
    pair: &mut Pair,
    order: &Taker,
    steps: &mut Steps<L>,
) -> Result<bool, Memory>
    requires bank { order.now.bank < pair.old.book.banks }
    ensures banks { pair.new.book.banks ≡ pair.old.book.banks }
{
    let Pair {
        book,
        orders,
        lines,
    } = pair;
    let banks = book.banks();
    let mut reach = reach_of(alloc, lines, order.bank, banks)?;
    let plan = plan(alloc, book, lines, WEIGHT, order, steps)?;
    let taken = sweep(
        alloc,
        orders,
        order.side,
        order.price,
        &mut reach,
        order.lots,
    )?;
    carry(book, &plan);
    let is_paid = take_all(lines, banks, plan.fills.as_slice());
    Ok(is_paid && are_taken(plan.fills.as_slice(), &taken))
}

/// What the plain walk shows of a side to a bank.
fn shown(alloc: Global, pair: &Pair, viewer: BankId, side: Side) -> Result<Vec<Level>, Memory>
    requires viewer { viewer < pair.now.book.banks }
{
    let reach = reach_of(alloc, &pair.lines, viewer, pair.book.banks())?;
    let orders = pair.orders.as_slice().to_vec(alloc)?;
    levels(alloc, orders, side, reach)
}

/// Whether an outcome is a local book of these levels.
fn is_book(outcome: &Outcome, wanted: &[Level], offered: &[Level]) -> bool {
    match outcome {
        Outcome::Depth { bids, asks } => { bids.as_slice() == wanted && asks.as_slice() == offered }
        _ => false,
    }
}

/// Whether a bank is shown the levels of the plain walk.
fn show_alike(alloc: Global, pair: &Pair, viewer: BankId) -> Result<bool, Memory>
    requires viewer { viewer < pair.now.book.banks }
{
    let wanted = shown(alloc, pair, viewer, Side::Sell)?;
    let offered = shown(alloc, pair, viewer, Side::Buy)?;
    let outcome = depth(alloc, &pair.book, &pair.lines, WEIGHT, viewer)?;
    Ok(is_book(&outcome, &wanted, &offered))
}

/// Whether so many drawn takers are worked alike, and each of them is shown the same levels.
fn trade_alike<L: Ledger>(
    alloc: Global,
    pair: &mut Pair,
    banks: u8,
    draws: &mut Draws,
    takers: u32,
    blank: Blank,
) -> Result<bool, Memory>
    requires banks { (2 ≤ banks) × (banks ≤ 64) }
    requires pair { pair.old.book.banks ≡ banks }
    requires takers { takers < 1000 }
    requires name { blank.name ≡ L.name }
    requires parts { blank.parts ≡ L.parts }
    requires some { 0 < blank.parts }
    ensures banks { pair.new.book.banks ≡ pair.old.book.banks }
{
    let mut steps = Steps::<L>::new(blank);
    for at in 0..takers {
        let order = taker(draws, banks, 100_000 + at);
        if !sweep_alike(alloc, pair, &order, &mut steps)? || !show_alike(alloc, pair, order.bank)? {
            return Ok(false);
        }
    }
    Ok(true)
}

#[test]
fn generated_books_are_worked_as_by_a_plain_walk(rt: HostRuntime) -> Result<(), Fail> {
    for banks in [8, 16, 32, 64] {
        let mut pair = drawn_pair(rt.alloc(), u64::from(banks), banks, 2_000)?;
        let mut draws = Draws::new(7);
        let is_alike = trade_alike::<Brand>(
            rt.alloc(),
            &mut pair,
            banks,
            &mut draws,
            12,
            Blank::new(1),
        )?;
        assert!(rt; is_alike, "{banks} banks");
    }
    Ok(())
}
