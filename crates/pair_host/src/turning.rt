ghost use Rattle.std.specs.Prelude.{◌≡◌, ◌<◌, length};
ghost use Rattle.global_book.specs.Room.{KeepsRoom};
ghost use Rattle.match_sweep.specs.Carries.{carried};
ghost use Rattle.pair_host.specs.Turns.{FollowsRaise, ReachesEach, fills_in};

use credit_raise::CreditChange;
use fx_rules::Fill;
use global_book::PairBook;
use match_sweep::{carry, carry_fills};

/// Makes what a credit change brings about in the book's pair, whose turn has been planned. It takes no memory.
///
/// In each state of which the credit change is under way and whose book it was, it is then the pair's book with the change and
/// the fills so far made.
pub fn carry_turn(book: &mut PairBook, change: &CreditChange)
    requires turned { book.old.pair < length change.now.plans }
    ensures reaches { ReachesEach change.now book.old book.new }
    ensures pair { book.new.pair ≡ book.old.pair }
    ensures banks { book.new.banks ≡ book.old.banks }
    ensures room { KeepsRoom book.old.room book.new.room }
{
    let plan = change.plan(book.pair());
    carry(book, plan);
}

/// Makes what a recorded credit change brought about in the book's pair: of all fills that its outcome tells, those of the
/// pair. It takes no memory.
///
/// In each sound state in which these are the fills of a credit change, and whose book it was, it is then the pair's book with
/// all of them made.
pub fn carry_recorded(book: &mut PairBook, fills: &[Fill])
    ensures orders { book.new.orders ≡ carried book.old.orders (fills_in book.old.pair fills.now) }
    ensures follows { FollowsRaise book.old book.new fills.now }
    ensures pair { book.new.pair ≡ book.old.pair }
    ensures banks { book.new.banks ≡ book.old.banks }
    ensures room { KeepsRoom book.old.room book.new.room }
{
    carry_own(book, fills);
}

/// The same, told by the book's orders alone.
fn carry_own(book: &mut PairBook, fills: &[Fill])
    ensures orders { book.new.orders ≡ carried book.old.orders (fills_in book.old.pair fills.now) }
    ensures pair { book.new.pair ≡ book.old.pair }
    ensures banks { book.new.banks ≡ book.old.banks }
    ensures room { KeepsRoom book.old.room book.new.room }
{
    let pair = book.pair();
    for at in 0..fills.len() {
        if fills[at].pair == pair {
            carry_fills(book, &fills[at..at + 1]);
        }
    }
}
