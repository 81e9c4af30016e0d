ghost use Rattle.std.specs.Prelude.{◌≡◌, [], ◌∷◌, IfOk};
ghost use Rattle.fx_amounts.specs.Quantity.{IsWeight};
ghost use Rattle.global_book.specs.Book.{IsBook};
ghost use Rattle.credit_lines.specs.Credit.{IsCredit};
ghost use Rattle.match_sweep.specs.Carries.{carried};
ghost use Rattle.credit_raise.specs.Turns.{TurnsEach};
ghost use Rattle.credit_raise.specs.inside.Paying.{paid_all};
ghost use Rattle.credit_raise.specs.inside.Turns.{bare};

use crate::pay::pay_all;
use crate::prices::Tops;
use crate::walk::crossing_orders;
use credit_lines::CreditLines;
use fx_amounts::{Memory, PairId};
use fx_rules::{Fill, FillList, Plan, Resting, SweptOrder};
use global_book::PairBook;
use match_sweep::{carry_fills, sweep};
use price_levels::Steps;
use std::alloc::Global;
use std::sync::ledger::Ledger;

/// The fills that a credit change makes in one pair, where any lines may have been opened by it and a lot costs `weight` credit units,
/// 1 to 10^6: each order that rests has its turn in arrival order, in which it is swept against those that came before it. `left`
/// is 0. The book was made for as many banks as the lines have.
///
/// Book and lines stay as they are. Where the best prices of the two sides do not cross, it answers at once. Else the turns are
/// made in a copy of both, which takes memory for each order that rests. `Memory` when out of memory.
pub fn plan_sweep<L: Ledger>(
    alloc: Global,
    book: &PairBook,
    lines: &CreditLines,
    weight: u32,
    steps: &mut Steps<L>,
) -> Result<Plan, Memory>
    requires banks { book.now.banks ≡ lines.now.banks }
    requires weight { IsWeight weight }
    ensures fills { IfOk result (λ plan. TurnsEach book.now lines.now weight book.now.orders plan.fills) }
    ensures left { IfOk result (λ plan. plan.left ≡ 0) }
{
    let fills = fills_of_all(alloc, book, lines, weight, steps)?;
    Ok(Plan {
        fills: FillList::from_vec(fills),
        left: 0,
    })
}

/// The fills of all orders' turns.
fn fills_of_all<L: Ledger>(
    alloc: Global,
    book: &PairBook,
    lines: &CreditLines,
    weight: u32,
    steps: &mut Steps<L>,
) -> Result<Vec<Fill>, Memory>
    requires banks { book.now.banks ≡ lines.now.banks }
    requires weight { IsWeight weight }
    ensures turned { IfOk result (λ fills. TurnsEach book.now lines.now weight book.now.orders fills.items) }
{
    if !Tops::of_book(book, steps).cross() {
        return Ok(Vec::new(alloc));
    }
    let orders = crossing_orders(alloc, book, &Tops::widest(), steps)?;
    let mut own_book = book_of(alloc, book.pair(), book.banks(), &orders)?;
    let mut own_lines = lines.copy()?;
    turn_all(alloc, &mut own_book, &mut own_lines, weight, &orders, steps)
}

/// A book of a pair for so many banks in which these orders rest.
fn book_of(
    alloc: Global,
    pair: PairId,
    banks: usize,
    orders: &[Resting],
) -> Result<PairBook, Memory>
    requires valid { IsBook (bare pair banks orders.now) }
    ensures pair { IfOk result (λ book. book.pair ≡ pair) }
    ensures banks { IfOk result (λ book. book.banks ≡ banks) }
    ensures orders { IfOk result (λ book. book.orders ≡ orders.now) }
{
    let mut book = PairBook::new(alloc, pair, banks)?;
    for order in orders {
        book.reserve(order.bank, order.side, order.price)?;
        book.rest(*order);
    }
    Ok(book)
}

/// The turns of some orders in a pair's book, one after the other. Their fills are made in the book, and paid for by the lines.
fn turn_all<L: Ledger>(
    alloc: Global,
    book: &mut PairBook,
    lines: &mut CreditLines,
    weight: u32,
    orders: &[Resting],
    steps: &mut Steps<L>,
) -> Result<Vec<Fill>, Memory>
    requires banks { book.old.banks ≡ lines.old.banks }
    requires weight { IsWeight weight }
    requires valid { IsCredit lines.old }
    ensures turned { IfOk result (λ fills. TurnsEach book.old lines.old weight orders.now fills.items) }
{
    let mut fills = Vec::new(alloc);
    for order in orders {
        let own = turn(alloc, book, lines, weight, order, steps)?;
        fills.extend_from_slice(own.as_slice())?;
    }
    Ok(fills)
}

/// The turn of an order in a pair's book: where it still rests there it is swept as it stands now. Its fills are made in the book,
/// and paid for by the lines.
fn turn<L: Ledger>(
    alloc: Global,
    book: &mut PairBook,
    lines: &mut CreditLines,
    weight: u32,
    order: &Resting,
    steps: &mut Steps<L>,
) -> Result<FillList, Memory>
    requires banks { book.old.banks ≡ lines.old.banks }
    requires weight { IsWeight weight }
    requires valid { IsCredit lines.old }
    ensures turned { IfOk result (λ own. TurnsEach book.old lines.old weight (order.now ∷ []) own) }
    ensures orders { IfOk result (λ own. book.new.orders ≡ carried book.old.orders own) }
    ensures paid { IfOk result (λ own. lines.new ≡ paid_all weight lines.old own) }
    ensures pair { book.new.pair ≡ book.old.pair }
    ensures banks { book.new.banks ≡ book.old.banks }
    ensures valid { IsCredit lines.new }
{
    let Some(now) = book.find(order.bank, order.number, steps) else {
        return Ok(FillList::from_vec(Vec::new(alloc)));
    };
    let taker = SweptOrder::of_resting(book.pair(), &now);
    let sweep = sweep(alloc, book, lines, weight, &taker, steps)?;
    carry_fills(book, sweep.fills.as_slice());
    pay_all(lines, book.banks(), weight, sweep.fills.as_slice());
    Ok(sweep.fills)
}
