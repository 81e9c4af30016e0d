ghost use Rattle.std.specs.Prelude.{◌≡◌, ◌+◌, ◌≤◌, ◌<◌, ◌^◌, ℕ, true, List, Some, slice_index};
ghost use Rattle.fx_amounts.specs.Price.{IsPrice};
ghost use Rattle.fx_amounts.specs.declared.side.Side.TheVariants.{Buy, Sell};
ghost use Rattle.fx_rules.specs.declared.orders.Resting.{Resting};
ghost use Rattle.fx_rules.specs.Lists.{Among};
ghost use Rattle.global_book.specs.Words.{AreBestWords};
ghost use Rattle.credit_raise.specs.inside.Prices.{AreTops, AreTopsOfAll, IsTop, IsWithin, crosses_tops, is_crossed, ranks_meet, top_of, tops_meet, words_meet};

use fx_amounts::{BankId, Price, Side};
use global_book::{PairBook, price_at};
use price_levels::Steps;
use std::sync::ledger::Ledger;

/// The best prices of a bank's orders; `None` of a side where it has none.
#[derive(Clone, Copy)]
pub(crate) struct Tops {
    pub(crate) buy: Option<Price>,
    pub(crate) sell: Option<Price>,
}

impl Tops {
    /// Those of two banks in a book, by the words of the banks' best orders. Two steps.
    #[inline(always)]
    pub(crate) fn of_two<L: Ledger>(
        book: &PairBook,
        i: BankId,
        j: BankId,
        steps: &mut Steps<L>,
    ) -> (Tops, Tops)
        ensures tops_i { AreTops i book.now.orders result.0 }
        ensures tops_j { AreTops j book.now.orders result.1 }
        ensures steps { steps.new ≡ steps.old + 2 }
    {
        let buys = book.best_words(Side::Buy, steps);
        let sells = book.best_words(Side::Sell, steps);
        (Tops::told(buys, sells, i), Tops::told(buys, sells, j))
    }

    /// Those of a bank, which the words of the banks' best buys and sells tell.
    #[inline(always)]
    fn told(buys: &[u64; BankId::COUNT], sells: &[u64; BankId::COUNT], bank: BankId) -> Tops
        ensures tops { (orders : List Resting) → AreBestWords Buy orders buys.now → AreBestWords Sell orders sells.now → AreTops bank orders result }
    {
        Tops {
            buy: top_told(buys, bank, Side::Buy),
            sell: top_told(sells, bank, Side::Sell),
        }
    }

    /// Those of all banks together in a book. Two steps.
    pub(crate) fn of_book<L: Ledger>(book: &PairBook, steps: &mut Steps<L>) -> Tops
        ensures tops { AreTopsOfAll book.now.orders result }
        ensures steps { steps.new ≡ steps.old + 2 }
    {
        Tops {
            buy: best_of(book, Side::Buy, steps),
            sell: best_of(book, Side::Sell, steps),
        }
    }

    /// The best prices that there are: each order crosses them.
    pub(crate) fn widest() -> Tops
        ensures all { (order : Resting) → IsPrice order.price → crosses_tops result order ≡ true }
    {
        Tops {
            buy: Price::new(Price::MOST),
            sell: Price::new(Price::LEAST),
        }
    }

    /// Whether they cross each other.
    pub(crate) fn cross(&self) -> bool
        ensures { result ≡ is_crossed self.now.buy self.now.sell }
    {
        is_crossed(self.buy, self.sell)
    }

    /// The best price of a side.
    pub(crate) fn of(&self, side: Side) -> Option<Price>
        ensures { result ≡ top_of self.now side }
    {
        match side {
            Side::Buy => self.buy,
            Side::Sell => self.sell,
        }
    }

    /// Whether the best prices of two banks cross.
    #[inline(always)]
    pub(crate) fn meet(&self, other: &Tops) -> bool
        ensures { result ≡ tops_meet self.now other.now }
    {
        is_crossed(self.buy, other.sell) || is_crossed(other.buy, self.sell)
    }
}

/// Whether the best prices of two banks cross, as the words of the banks' best buys and sells tell.
#[inline(always)]
pub(crate) fn words_meet(
    buys: &[u64; BankId::COUNT],
    sells: &[u64; BankId::COUNT],
    i: BankId,
    j: BankId,
) -> bool
    ensures { result ≡ words_meet buys.now sells.now i j }
{
    let i = i.index();
    let j = j.index();
    i < BankId::COUNT
        && j < BankId::COUNT
        && (ranks_meet(buys[i], sells[j]) || ranks_meet(buys[j], sells[i]))
}

/// Whether the price of a buy's word crosses that of a sell's word, as the ranks in the two tell.
#[inline(always)]
fn ranks_meet(buy: u64, sell: u64) -> bool
    ensures { result ≡ ranks_meet buy sell }
{
    (buy >> 34) + (sell >> 34) <= u64::from(Price::MOST)
}

/// Whether a best buy crosses a best sell, where there are both.
#[inline(always)]
pub(crate) fn is_crossed(buy: Option<Price>, sell: Option<Price>) -> bool
    ensures { result ≡ is_crossed buy sell }
{
    match (buy, sell) {
        (Some(buy), Some(sell)) => buy.crosses(sell, Side::Buy),
        _ => false,
    }
}

/// The best price of a bank's orders of a side, which the word of its best one tells; `None` where there is none.
#[inline(always)]
fn top_told(words: &[u64; BankId::COUNT], bank: BankId, side: Side) -> Option<Price>
    ensures top { (orders : List Resting) → AreBestWords side orders words.now → IsTop bank side orders result }
{
    let at = bank.index();
    if at >= BankId::COUNT {
        return None;
    }
    price_at(side, (words[at] >> 34) as u32)
}

/// The best price of all orders of a side; `None` where there is none. It is that of the bank whose best order has the least word. One step.
fn best_of<L: Ledger>(book: &PairBook, side: Side, steps: &mut Steps<L>) -> Option<Price>
    ensures best { (order : Resting) → Among order book.now.orders → order.side ≡ side → IsWithin side (Some order.price) result }
    ensures step { steps.new ≡ steps.old + 1 }
{
    let words = book.best_words(side, steps);
    top_told(words, least_of(words), side)
}

/// The bank of the least word.
fn least_of(words: &[u64; BankId::COUNT]) -> BankId
    ensures bank { result < 64 }
    ensures least { (bank : ℕ) → bank < 64 → (slice_index words.now result ≤ slice_index words.now bank) × (slice_index words.now bank < 2 ^ 64) }
{
    let mut first = 0;
    for bank in 0..BankId::COUNT {
        if words[bank] < words[first] {
            first = bank;
        }
    }
    BankId::at(first)
}
