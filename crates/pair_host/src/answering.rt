ghost use Rattle.std.specs.Prelude.{◌≡◌, ◌≤◌, ◌<◌, ◌^◌, Some, IfOk};
ghost use Rattle.fx_amounts.specs.Quantity.{IsWeight};
ghost use Rattle.fx_rules.specs.Step as step;
ghost use Rattle.match_sweep.specs.Takers.{swept_in};
ghost use Rattle.fx_rules.specs.Sending.{pair_of};
ghost use Rattle.pair_host.specs.Answers.{AnswersEach};
ghost use Rattle.pair_host.specs.inside.Answers.{OrdersEach, IsOrderedBy};

use crate::counting::count_of;
use credit_lines::CreditLines;
use fx_amounts::{Lots, Memory};
use fx_rules::{Command, Life, Outcome, Plan, Resting, Sender};
use global_book::PairBook;
use local_view::depth;
use match_sweep::{Taker, plan};
use price_levels::Steps;
use std::alloc::Global;
use std::marker::Brand;
use std::sync::ledger::{Blank, Ledger};

/// The market's answer to a command in the book's pair, where a lot costs `weight` credit units, 1 to 10^6. Nothing changes.
/// It is the answer in each sound state that the book and the lines are of and in which the command is the next, so in those of
/// legal histories and in those within a command too.
///
/// The command is an order, a cancel, a reduction, a pull or a local book of the book's pair. The book was made for as many
/// banks as the lines have, and the sender is one of them. `Memory` if memory for fills or levels is refused.
#[inline(always)]
pub fn answer(
    alloc: Global,
    book: &PairBook,
    lines: &CreditLines,
    weight: u32,
    sender: &Sender,
    command: &Command,
) -> Result<Outcome, Memory>
    requires banks { book.now.banks ≡ lines.now.banks }
    requires bank { sender.now.bank < lines.now.banks }
    requires weight { IsWeight weight }
    requires pair { pair_of command.now ≡ Some book.now.pair }
    ensures answers { IfOk result (AnswersEach book.now lines.now weight sender.now command.now) }
{
    // Reading it tells that it has 64 bits.
    let _arrival = sender.arrival;
    counted_answer::<Brand>(alloc, book, lines, weight, sender, command, Blank::new(1))
}

/// The same, with a ledger for the steps.
#[inline(always)]
fn counted_answer<L: Ledger>(
    alloc: Global,
    book: &PairBook,
    lines: &CreditLines,
    weight: u32,
    sender: &Sender,
    command: &Command,
    blank: Blank,
) -> Result<Outcome, Memory>
    requires banks { book.now.banks ≡ lines.now.banks }
    requires bank { sender.now.bank < lines.now.banks }
    requires weight { IsWeight weight }
    requires pair { pair_of command.now ≡ Some book.now.pair }
    requires name { blank.name ≡ L.name }
    requires parts { blank.parts ≡ L.parts }
    requires some { 0 < blank.parts }
    requires arrival { sender.now.arrival < 2 ^ 64 }
    ensures answers { IfOk result (AnswersEach book.now lines.now weight sender.now command.now) }
{
    let mut steps = Steps::<L>::new(blank);
    match *command {
        Command::Order {
            side,
            price,
            lots,
            life,
            ..
        } => {
            let taker = Taker {
                bank: sender.bank,
                number: sender.number,
                side,
                price,
                lots,
                arrival: sender.arrival,
            };
            order_answer(alloc, book, lines, weight, &taker, life, &mut steps)
        }
        Command::Cancel { number, .. } => {
            Ok(cancel_answer(book.find(sender.bank, number, &mut steps)))
        }
        Command::Reduce { number, lots, .. } => {
            Ok(reduce_answer(lots, book.find(sender.bank, number, &mut steps)))
        }
        Command::Pull { .. } => Ok(Outcome::Pulled {
            count: count_of(book, sender.bank, &mut steps),
        }),
        Command::Book { .. } => depth(alloc, book, lines, weight, sender.bank),
        Command::Line { .. }
        | Command::Total { .. }
        | Command::Settle { .. }
        | Command::Show { .. }
        | Command::Bad { .. } => unreachable!(),
    }
}

/// What an order answers by its life.
#[inline(always)]
fn order_answer<L: Ledger>(
    alloc: Global,
    book: &PairBook,
    lines: &CreditLines,
    weight: u32,
    taker: &Taker,
    life: Life,
    steps: &mut Steps<L>,
) -> Result<Outcome, Memory>
    requires banks { book.now.banks ≡ lines.now.banks }
    requires bank { taker.now.bank < lines.now.banks }
    requires weight { IsWeight weight }
    ensures ordered { IfOk result (OrdersEach book.now lines.now weight (swept_in book.now.pair taker.now) life) }
{
    let plan = plan(alloc, book, lines, weight, taker, steps)?;
    Ok(ordered(taker.lots, life, plan))
}

/// What an order for so many lots answers by its life, where this is its sweep.
#[inline(always)]
fn ordered(lots: Lots, life: Life, plan: Plan) -> Outcome
    requires left { plan.left ≤ lots }
    ensures ordered { IsOrderedBy lots life plan.fills plan.left result }
{
    let rests = match life {
        Life::Day => plan.left,
        Life::Ioc => 0,
        Life::Fok if plan.left > 0 => return Outcome::Killed,
        Life::Fok => 0,
    };
    Outcome::Ordered {
        filled: lots.count() - plan.left,
        rests,
        fills: plan.fills,
    }
}

/// What a cancel of this order answers.
fn cancel_answer(order: Option<Resting>) -> Outcome
    ensures value { result ≡ step.cancel_answer order }
{
    match order {
        None => Outcome::Nothing,
        Some(order) => Outcome::Cancelled {
            left: order.left.count(),
        },
    }
}

/// What a reduction of this order to so many lots answers.
fn reduce_answer(lots: Lots, order: Option<Resting>) -> Outcome
    ensures value { result ≡ step.reduce_answer lots order }
{
    match order {
        None => Outcome::Nothing,
        Some(order) if lots < order.left => Outcome::Reduced { left: lots.count() },
        Some(order) => Outcome::NotLess {
            left: order.left.count(),
        },
    }
}
