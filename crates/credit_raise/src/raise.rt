ghost use Rattle.std.specs.Prelude.{List, ◌≡◌, ◌≢◌, ◌≤◌, ◌<◌, ◌+◌, ◌*◌, true, [], filter, length, IfOk};
ghost use Rattle.fx_amounts.specs.Quantity.{IsWeight};
ghost use Rattle.fx_rules.specs.declared.orders.Resting.{Resting};
ghost use Rattle.fx_rules.specs.Lists.{Each};
ghost use Rattle.fx_rules.specs.Session.{Header};
ghost use Rattle.fx_rules.specs.Sound.{ArrivesBefore};
ghost use Rattle.fx_rules.specs.State.{State};
ghost use Rattle.fx_rules.specs.Raise.{Turned};
ghost use Rattle.credit_raise.specs.Two.{IsFillOf, IsRaised, is_of_two, lots_of};
ghost use Rattle.credit_raise.specs.inside.Two.{turns};
ghost use Rattle.credit_raise.specs.inside.Playing.{AreGathered, AreTurns, Played, is_early, is_late, other_of};

use crate::prices::{Tops, words_meet};
use crate::replay::Replay;
use crate::waiting::Waiting;
use crate::walk::live_orders;
use fx_amounts::{BankId, Memory, PairId, Side, Units};
use fx_rules::{Fill, FillList, Plan, Resting};
use global_book::PairBook;
use price_levels::Steps;
use std::alloc::Global;
use std::sync::ledger::Ledger;

/// So many turns at most are few.
const FEW: usize = 32;

/// How often the list of those that wait for few turns may be changed, so that it is not searched often.
const CHANGES: u32 = 64;

/// The fills that a raised line between two banks makes in one pair, where `eff` credit units are left of it and a lot
/// costs `weight`, 1 to 10^6. Where nothing rests crossed but between the two, they are the fills of the full sweep, in
/// which each order that rests is swept in arrival order against those that came before it. `left` is 0.
///
/// It looks at the two banks' orders alone, and leaves the book as it is. Those that cross the other bank's best price are gathered,
/// with no search from one to the next. What arrived before the first of the other bank meets nobody, so it waits as it is, in a list. The
/// others have their turns in arrival order, as long as the line pays for a lot. Where they are more than few, or the list would be
/// searched often, all are sorted instead, and each that had its turn stands in a book of its own: it is put in there at most once, each turn
/// looks into it once, and once more for each fill. So it takes memory for these orders and for the fills, and the time of a sort of these
/// orders and of that many searches: six steps at most, two for each order of the two banks and one for each fill. Where the line does not
/// pay for a lot, or the two banks' best prices do not cross, it answers at once. `Memory` when out of memory.
#[inline(always)]
pub fn plan_raise<L: Ledger>(
    alloc: Global,
    book: &PairBook,
    weight: u32,
    i: BankId,
    j: BankId,
    eff: Units,
    steps: &mut Steps<L>,
) -> Result<Plan, Memory>
    requires weight { IsWeight weight }
    requires differ { i ≢ j }
    ensures fills { (h : Header) (S : State) → IsRaised h S book.now weight i j eff →
        IfOk result (λ plan. Turned h book.now.pair S book.now.orders plan.fills) }
    ensures parties { IfOk result (λ plan. Each (IsFillOf book.now.pair i j) plan.fills) }
    ensures cost { IfOk result (λ plan. lots_of plan.fills * weight ≤ eff) }
    ensures left { IfOk result (λ plan. plan.left ≡ 0) }
    ensures steps { IfOk result (λ plan. steps.new ≤ steps.old + 6 + 2 * length (filter (is_of_two i j) book.now.orders) + length plan.fills) }
{
    let fills = fills_of_two(alloc, book, weight, i, j, eff, steps)?;
    Ok(Plan {
        fills: FillList::from_vec(fills),
        left: 0,
    })
}

/// Whether a raised line between two banks makes nothing in one pair, as its `eff` credit units and the words of the two banks' best
/// orders tell: it does not pay for a lot, which costs `weight`, or the best prices of the two do not cross. Two steps at most.
#[inline(always)]
pub(crate) fn is_idle<L: Ledger>(
    book: &PairBook,
    weight: u32,
    i: BankId,
    j: BankId,
    eff: Units,
    steps: &mut Steps<L>,
) -> bool
    requires weight { IsWeight weight }
    requires differ { i ≢ j }
    ensures none { result ≡ true → Played book.now.pair weight i j eff [] (turns i j book.now.orders) [] }
    ensures steps { steps.new ≤ steps.old + 2 }
{
    if eff.get() < u64::from(weight) {
        return true;
    }
    let buys = book.best_words(Side::Buy, steps);
    let sells = book.best_words(Side::Sell, steps);
    !words_meet(buys, sells, i, j)
}

/// The fills of the two banks' orders. Those that no order of the other bank crosses need no turn.
#[inline(always)]
fn fills_of_two<L: Ledger>(
    alloc: Global,
    book: &PairBook,
    weight: u32,
    i: BankId,
    j: BankId,
    eff: Units,
    steps: &mut Steps<L>,
) -> Result<Vec<Fill>, Memory>
    requires weight { IsWeight weight }
    requires differ { i ≢ j }
    ensures played { IfOk result (λ fills. Played book.now.pair weight i j eff [] (turns i j book.now.orders) fills.items) }
    ensures steps { IfOk result (λ fills. steps.new ≤ steps.old + 6 + 2 * length (turns i j book.now.orders) + length fills.items) }
{
    let pair = book.pair();
    if eff.get() < u64::from(weight) {
        return Ok(Vec::new(alloc));
    }
    let (tops_i, tops_j) = Tops::of_two(book, i, j, steps);
    if !tops_i.meet(&tops_j) {
        return Ok(Vec::new(alloc));
    }
    let orders = live_orders(alloc, book, i, j, &tops_i, &tops_j, steps)?;
    play_orders(alloc, pair, weight, i, j, eff, orders, steps)
}

/// The fills of the orders of two banks. Those that arrived before the first order of the other bank meet none. So they wait as they are,
/// without a turn and not sorted, as long as few come behind them and they are seldom searched.
#[inline(never)]
fn play_orders<L: Ledger>(
    alloc: Global,
    pair: PairId,
    weight: u32,
    i: BankId,
    j: BankId,
    eff: Units,
    mut orders: Vec<Resting>,
    steps: &mut Steps<L>,
) -> Result<Vec<Fill>, Memory>
    requires weight { IsWeight weight }
    requires differ { i ≢ j }
    requires turns { (live : List Resting) × AreGathered i j orders.items live }
    ensures played { (live : List Resting) → AreGathered i j orders.items live → IfOk result (λ fills. Played pair weight i j eff [] live fills.items) }
    ensures steps { IfOk result (λ fills. steps.new ≤ steps.old + length orders.items + length fills.items) }
{
    let banks = i.index().max(j.index()) + 1;
    let from = first_of(&orders, i).max(first_of(&orders, j));
    let (early, mut late) = part(alloc, &orders, from)?;
    if late.len() <= FEW {
        late.sort_unstable_by_key(|order| order.arrival);
        let waiting = Waiting::in_list(banks, early, CHANGES);
        if let Ok(fills) = play(alloc, pair, weight, i, j, eff, waiting, &late, steps) {
            return Ok(fills);
        }
    }
    orders.sort_unstable_by_key(|order| order.arrival);
    let waiting = Waiting::in_book(alloc, pair, banks)?;
    play(alloc, pair, weight, i, j, eff, waiting, &orders, steps)
}

/// The first arrival of a bank's orders among these; `u64::MAX` where it has none.
fn first_of(orders: &[Resting], bank: BankId) -> u64
    ensures { Each (λ order. order.bank ≡ bank → result ≤ order.arrival) orders.now }
{
    let mut first = u64::MAX;
    for order in orders {
        if order.bank == bank {
            first = first.min(order.arrival);
        }
    }
    first
}

/// The orders that arrived before a moment, and the others. `Memory` when out of memory.
fn part(
    alloc: Global,
    orders: &[Resting],
    from: u64,
) -> Result<(Vec<Resting>, Vec<Resting>), Memory>
    ensures early { IfOk result (λ parts. parts.0.items ≡ filter (is_early from) orders.now) }
    ensures late { IfOk result (λ parts. parts.1.items ≡ filter (is_late from) orders.now) }
    ensures lots { IfOk result (λ parts. Each (λ order. 1 ≤ order.left) orders.now) }
{
    let mut early = Vec::new(alloc);
    let mut late = Vec::new(alloc);
    early.reserve(orders.len())?;
    for order in orders {
        prove!(order.left.count() > 0);
        if order.arrival < from {
            early.push(*order)?;
        } else {
            late.push(*order)?;
        }
    }
    Ok((early, late))
}

/// Turns of two banks' orders, where others of the two wait: each has its turn in arrival order, until the line does not pay for a lot.
fn play<L: Ledger>(
    alloc: Global,
    pair: PairId,
    weight: u32,
    i: BankId,
    j: BankId,
    eff: Units,
    waiting: Waiting,
    turns: &[Resting],
    steps: &mut Steps<L>,
) -> Result<Vec<Fill>, Memory>
    requires weight { IsWeight weight }
    requires differ { i ≢ j }
    requires turns { AreTurns i j turns.now }
    requires banks { (i < waiting.banks) × (j < waiting.banks) }
    requires before { Each (λ other. Each (ArrivesBefore other) turns.now) waiting.orders }
    ensures played { IfOk result (λ fills. Played pair weight i j eff waiting.orders turns.now fills.items) }
    ensures steps { IfOk result (λ fills. steps.new ≤ steps.old + length turns.now + length fills.items) }
    ensures unlooked { waiting.listed ≡ true → steps.new ≡ steps.old }
{
    let mut replay = Replay::new(alloc, pair, waiting, weight, eff.get());
    for order in turns {
        if replay.line < u64::from(weight) {
            return Ok(replay.fills);
        }
        replay.turn(order, other_of(i, j, order.bank), steps)?;
    }
    Ok(replay.fills)
}

/// The one of two banks that is not this one.
fn other_of(i: BankId, j: BankId, bank: BankId) -> BankId
    ensures { result ≡ other_of i j bank }
{
    if bank == i { j } else { i }
}
