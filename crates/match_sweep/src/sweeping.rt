ghost use Rattle.std.specs.Prelude.{◌≡◌, ◌≤◌, ◌<◌, ◌+◌, ◌*◌, length, IfOk};
ghost use Rattle.fx_amounts.specs.Quantity.{IsWeight};
ghost use Rattle.fx_rules.specs.Lists.{Each, total};
ghost use Rattle.global_book.specs.Book.{IsBook};
ghost use Rattle.match_sweep.specs.Takers.{swept_in};
ghost use Rattle.match_sweep.specs.Sweeps.{AddsUp, IsSweep, IsWithinLines};
ghost use Rattle.match_sweep.specs.inside.Heads.{CameBefore};
ghost use Rattle.match_sweep.specs.inside.Walks.{IsByLines};

use crate::taker::Taker;
use crate::walk::Walk;
use credit_lines::CreditLines;
use fx_amounts::{BankId, Memory};
use fx_rules::{FillList, Plan, SweptOrder};
use global_book::PairBook;
use price_levels::Steps;
use std::alloc::Global;
use std::sync::ledger::Ledger;

/// Most markets have at most so many banks, in so many groups of eight. There a sweep begins with so few words.
const FEW_BANKS: usize = 16;

const FEW_GROUPS: usize = 2;

/// How many banks a market can have, in so many groups of eight.
const BANKS: usize = BankId::COUNT;

const GROUPS: usize = 8;

/// The sweep of an order that may want more than an order can have, found and not yet carried out.
#[derive(Debug, Drop)]
pub struct SweepPlan {
    /// What it would fill, in order.
    pub fills: FillList,
    /// The lots that it would have left.
    pub left: u128,
}

/// The sweep of a taker over a pair's book, by the lines of its bank, where a lot costs `weight` credit units, 1 to 10^6.
/// It finds the fills and changes nothing but the counter of its steps, of which it takes at most `(fills + 1) * banks` where
/// every order arrived before the taker. Only the list of fills takes memory, and at `Memory` there was none for it. The book
/// was made for as many banks as the lines have, and the taker's bank is one of them.
#[inline(always)]
pub fn plan<L: Ledger>(
    alloc: Global,
    book: &PairBook,
    lines: &CreditLines,
    weight: u32,
    taker: &Taker,
    steps: &mut Steps<L>,
) -> Result<Plan, Memory>
    requires banks { book.now.banks ≡ lines.now.banks }
    requires bank { taker.now.bank < lines.now.banks }
    requires weight { IsWeight weight }
    ensures sweep { IfOk result (λ plan. IsSweep book.now lines.now weight (swept_in book.now.pair taker.now) plan.fills plan.left) }
    ensures sum { IfOk result (λ plan. total (λ fill. fill.lots) plan.fills + plan.left ≡ taker.now.lots) }
    ensures steps { Each (λ order. order.arrival < taker.now.arrival) book.now.orders → IfOk result (λ plan. steps.new ≤ steps.old + (length plan.fills + 1) * book.now.banks) }
{
    let order = taker.in_pair(book.pair());
    let sweep = sweep(alloc, book, lines, weight, &order, steps)?;
    Ok(Plan {
        fills: sweep.fills,
        left: sweep.left as u32,
    })
}

/// The sweep of an order of the book's pair, which may want more lots than an order can have, as `plan` finds that of a taker.
/// The lots of its fills are at most all that the lines of its bank allow. What the total of its bank, where it has one, does not pay for is
/// left.
#[inline(always)]
pub fn sweep<L: Ledger>(
    alloc: Global,
    book: &PairBook,
    lines: &CreditLines,
    weight: u32,
    order: &SweptOrder,
    steps: &mut Steps<L>,
) -> Result<SweepPlan, Memory>
    requires banks { book.now.banks ≡ lines.now.banks }
    requires bank { order.now.bank < lines.now.banks }
    requires pair { order.now.pair ≡ book.now.pair }
    requires weight { IsWeight weight }
    ensures sweep { IfOk result (λ sweep. IsSweep book.now lines.now weight order.now sweep.fills sweep.left) }
    ensures sum { IfOk result (AddsUp order.now) }
    ensures lots { IfOk result IsWithinLines }
    ensures steps { Each (λ other. other.arrival < order.now.arrival) book.now.orders → IfOk result (λ sweep. steps.new ≤ steps.old + (length sweep.fills + 1) * book.now.banks) }
    ensures valid { IsBook book.now }
{
    let Some(room) = lines.room(order.bank) else {
        return sweep_by_lines(alloc, book, lines, weight, order, steps);
    };
    let mut lesser = *order;
    lesser.left = order.left.min(u128::from(room / u64::from(weight)));
    let cut_off = order.left - lesser.left;
    let mut sweep = sweep_by_lines(alloc, book, lines, weight, &lesser, steps)?;
    sweep.left += cut_off;
    Ok(sweep)
}

/// The sweep of an order as the lines of its bank allow it, whatever the bank's total leaves.
#[inline(always)]
fn sweep_by_lines<L: Ledger>(
    alloc: Global,
    book: &PairBook,
    lines: &CreditLines,
    weight: u32,
    order: &SweptOrder,
    steps: &mut Steps<L>,
) -> Result<SweepPlan, Memory>
    requires banks { book.now.banks ≡ lines.now.banks }
    requires bank { order.now.bank < lines.now.banks }
    requires few { lines.now.banks ≤ 64 }
    requires weight { IsWeight weight }
    ensures sweep { IfOk result (λ sweep. IsByLines book.now lines.now weight order.now sweep.fills sweep.left) }
    ensures sum { IfOk result (AddsUp order.now) }
    ensures steps { CameBefore book.now.orders order.now.arrival → IfOk result (λ sweep. steps.new ≤ steps.old + (length sweep.fills + 1) * book.now.banks) }
    ensures valid { IsBook book.now }
{
    if !book.has_within(order.side.opposite(), order.price, steps) {
        return Ok(SweepPlan {
            fills: FillList::from_vec(Vec::new(alloc)),
            left: order.left,
        });
    }
    if book.banks() <= FEW_BANKS {
        walk_along::<FEW_BANKS, FEW_GROUPS, L>(alloc, book, lines, weight, order, steps)
    } else {
        walk_along::<BANKS, GROUPS, L>(alloc, book, lines, weight, order, steps)
    }
}

/// The same, from best order to best order of the other side, with two steps for each fill at most, in a market of at most `N` banks. It
/// stands apart since a function pays for its tables as it begins.
fn walk_along<const N: usize, const G: usize, L: Ledger>(
    alloc: Global,
    book: &PairBook,
    lines: &CreditLines,
    weight: u32,
    order: &SweptOrder,
    steps: &mut Steps<L>,
) -> Result<SweepPlan, Memory>
    requires banks { book.now.banks ≡ lines.now.banks }
    requires bank { order.now.bank < lines.now.banks }
    requires few { lines.now.banks ≤ N }
    requires most { N ≤ 64 }
    requires groups { G * 8 ≡ N }
    requires weight { IsWeight weight }
    ensures sweep { IfOk result (λ sweep. IsByLines book.now lines.now weight order.now sweep.fills sweep.left) }
    ensures steps { CameBefore book.now.orders order.now.arrival → IfOk result (λ sweep. steps.new ≤ steps.old + 2 * length sweep.fills) }
{
    let mut walk: Walk<N, G> = Walk {
        order: *order,
        heads: book.heads(order.side.opposite(), order.price),
        used: [0; N],
        weight,
    };
    let mut fills = Vec::new(alloc);
    while let Some(fill) = walk.next_fill(lines, steps) {
        fills.push(fill)?;
    }
    Ok(SweepPlan {
        fills: FillList::from_vec(fills),
        left: walk.order.left,
    })
}
