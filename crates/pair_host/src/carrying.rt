ghost use Rattle.std.specs.Prelude.{◌≡◌, ◌≤◌, ◌<◌, ◌^◌, false, Some, OnOk};
ghost use Rattle.fx_rules.specs.Lists.{Each};
ghost use Rattle.fx_rules.specs.Sweep.{is_order};
ghost use Rattle.global_book.specs.Room.{HasRoom, TakesRoom};
ghost use Rattle.match_sweep.specs.Carries.{carried};
ghost use Rattle.fx_rules.specs.Sending.{pair_of};
ghost use Rattle.pair_host.specs.Carries.{FollowsOn, HasRoomFor, IsStepOfSome, order_at_rest, orders_after, with_rest};

use fx_amounts::{BankId, Lots, Memory, Price, Side};
use fx_rules::{Command, Fill, Life, Outcome, Resting, Sender};
use global_book::PairBook;
use match_sweep::carry_fills;

/// Makes room for what may come to rest of a bank's command: of a Day order, and of no other. For such an order the places of orders that
/// are gone are first taken out of the book, where these are more than half of it; all other room may go. At `Memory` there may be none.
/// Other commands take no memory. The bank is one of the book's.
#[inline(always)]
pub fn reserve(book: &mut PairBook, bank: BankId, command: &Command) -> Result<(), Memory>
    requires bank { bank < book.old.banks }
    ensures has_room { OnOk result (HasRoomFor book.new bank command.now) }
    ensures pair { book.new.pair ≡ book.old.pair }
    ensures banks { book.new.banks ≡ book.old.banks }
    ensures orders { book.new.orders ≡ book.old.orders }
{
    match *command {
        Command::Order {
            side,
            price,
            life: Life::Day,
            ..
        } => {
            book.pack()?;
            book.reserve(bank, side, price)
        }
        _ => Ok(()),
    }
}

/// Makes what came of a command in its pair's book, for which room was made: the fills of an order are carried out and what
/// it has left rests, an order is taken out or lowered, or all orders of the sender are taken out. It takes no memory.
///
/// The command with its outcome is a step of a state that the book is of; then it is the pair's book in the state after
/// it.
#[inline(always)]
pub fn carry_out(book: &mut PairBook, sender: &Sender, command: &Command, outcome: &Outcome)
    requires step { IsStepOfSome book.old sender.now command.now outcome.now }
    requires pair { pair_of command.now ≡ Some book.old.pair }
    requires room { HasRoomFor book.old sender.now.bank command.now }
    ensures orders { book.new.orders ≡ orders_after sender.now command.now outcome.now book.old.orders }
    ensures follows { FollowsOn book.old book.new sender.now command.now outcome.now }
    ensures pair { book.new.pair ≡ book.old.pair }
    ensures banks { book.new.banks ≡ book.old.banks }
    ensures room { TakesRoom book.old.room book.new.room }
{
    change(book, sender, command, outcome);
}

/// The same, told by the book's orders alone.
#[inline(always)]
fn change(book: &mut PairBook, sender: &Sender, command: &Command, outcome: &Outcome)
    requires step { IsStepOfSome book.old sender.now command.now outcome.now }
    requires pair { pair_of command.now ≡ Some book.old.pair }
    requires room { HasRoomFor book.old sender.now.bank command.now }
    ensures orders { book.new.orders ≡ orders_after sender.now command.now outcome.now book.old.orders }
    ensures pair { book.new.pair ≡ book.old.pair }
    ensures banks { book.new.banks ≡ book.old.banks }
    ensures room { TakesRoom book.old.room book.new.room }
{
    match *command {
        Command::Order { side, price, .. } => {
            if let Outcome::Ordered { rests, fills, .. } = outcome {
                carry_order(book, sender, side, price, *rests, fills.as_slice());
            }
        }
        Command::Cancel { number, .. } => {
            if let Outcome::Cancelled { .. } = outcome {
                book.remove(sender.bank, number);
            }
        }
        Command::Reduce { number, lots, .. } => {
            if let Outcome::Reduced { .. } = outcome {
                book.lower(sender.bank, number, lots);
            }
        }
        Command::Pull { .. } => {
            book.pull(sender.bank);
        }
        Command::Line { .. }
        | Command::Total { .. }
        | Command::Settle { .. }
        | Command::Show { .. }
        | Command::Book { .. }
        | Command::Bad { .. } => {}
    }
}

/// Carries the fills of an order out, and lets `rests` lots of it rest behind all others.
#[inline(always)]
fn carry_order(
    book: &mut PairBook,
    sender: &Sender,
    side: Side,
    price: Price,
    rests: u32,
    fills: &[Fill],
)
    requires most { rests ≤ 10 ^ 6 }
    requires room { 0 < rests → HasRoom book.old.room sender.now.bank side price }
    requires last { Each (λ order. order.arrival < sender.now.arrival) (carried book.old.orders fills.now) }
    requires absent { Each (λ order. is_order sender.now.bank sender.now.number order ≡ false) (carried book.old.orders fills.now) }
    requires number { 1 ≤ sender.now.number }
    ensures orders { book.new.orders ≡ with_rest (order_at_rest sender.now side price rests) (carried book.old.orders fills.now) }
    ensures pair { book.new.pair ≡ book.old.pair }
    ensures banks { book.new.banks ≡ book.old.banks }
    ensures room { TakesRoom book.old.room book.new.room }
{
    carry_fills(book, fills);
    if let Some(left) = Lots::new(rests) {
        book.rest(Resting {
            bank: sender.bank,
            number: sender.number,
            side,
            price,
            left,
            arrival: sender.arrival,
        });
    }
}
