ghost use Rattle.std.specs.Prelude.{◌≡◌};
ghost use Rattle.fx_rules.specs.Lists.{EachPair};
ghost use Rattle.fx_rules.specs.State.{State, orders_in};
ghost use Rattle.fx_rules.specs.Sound.{Rises};
ghost use Rattle.fx_rules.specs.Sweep.{filled_all};
ghost use Rattle.global_book.specs.Room.{KeepsRoom};
ghost use Rattle.match_sweep.specs.Carries.{carried};

use fx_rules::{Fill, Plan};
use global_book::PairBook;

/// Carries a plan out in its pair's book: each fill in order takes its lots from its maker, and from its taker where that
/// rests, and an order with nothing left is taken out. No room that was made goes, and it takes no memory. The lines
/// are changed beside it, by one `CreditLines::take` for each fill.
#[inline(always)]
pub fn carry(book: &mut PairBook, plan: &Plan)
    ensures orders { book.new.orders ≡ carried book.old.orders plan.now.fills }
    ensures state { (S : State) → EachPair Rises S.orders → book.old.orders ≡ orders_in book.old.pair S.orders → book.new.orders ≡ orders_in book.old.pair (filled_all S plan.now.fills).orders }
    ensures pair { book.new.pair ≡ book.old.pair }
    ensures banks { book.new.banks ≡ book.old.banks }
    ensures room { KeepsRoom book.old.room book.new.room }
{
    carry_fills(book, plan.fills.as_slice());
}

/// Carries fills out in a book, in order, as `carry` does those of a plan.
#[inline(always)]
pub fn carry_fills(book: &mut PairBook, fills: &[Fill])
    ensures orders { book.new.orders ≡ carried book.old.orders fills.now }
    ensures state { (S : State) → EachPair Rises S.orders → book.old.orders ≡ orders_in book.old.pair S.orders → book.new.orders ≡ orders_in book.old.pair (filled_all S fills.now).orders }
    ensures pair { book.new.pair ≡ book.old.pair }
    ensures banks { book.new.banks ≡ book.old.banks }
    ensures room { KeepsRoom book.old.room book.new.room }
{
    for fill in fills {
        book.take_lots(fill.maker, fill.maker_number, fill.lots);
        book.take_lots(fill.taker, fill.taker_number, fill.lots);
    }
}
