ghost use Rattle.std.specs.Prelude.{◌≡◌, ◌+◌, ◌*◌, ◌≤◌, false, min, true};
ghost use Rattle.fx_amounts.specs.Price.{crosses};
ghost use Rattle.fx_amounts.specs.Side.{opposite};
ghost use Rattle.fx_rules.specs.Lists.{Each};
ghost use Rattle.global_book.specs.Book.{IsBook, RestsWithin};
ghost use Rattle.global_book.specs.Heads.{IsBegun};

use crate::book::PairBook;
use crate::side_heads::SideHeads;
use crate::side_ladders::rank_of;
use fx_amounts::{Price, Side};
use price_levels::Steps;
use std::sync::ledger::Ledger;

impl PairBook {
    /// Whether an order of a side is within a limit. It looks at the words of the best orders: one step for them all.
    #[inline(always)]
    pub fn has_within<L: Ledger>(&self, side: Side, limit: Price, steps: &mut Steps<L>) -> bool
        ensures none { result ≡ false → Each (λ order. order.side ≡ side → crosses (opposite side) limit order.price ≡ false) self.now.orders }
        ensures some { result ≡ true → RestsWithin side limit self.now.orders }
        ensures step { steps.new ≡ steps.old + 1 }
        ensures valid { IsBook self.now }
    {
        steps.tick();
        let heads = self.linked.heads(side);
        heads.best_within(rank_of(side, limit)).is_some()
    }

    /// A walk along the orders of a side, from the best one on, up to a limit, which has passed none. It looks at no order. It has `N` words, in
    /// `G` groups of eight, as many as the book has banks at least.
    #[inline(always)]
    pub fn heads<const N: usize, const G: usize>(
        &self,
        side: Side,
        limit: Price,
    ) -> SideHeads<'_, N, G>
        requires most { N ≤ 64 }
        requires groups { G * 8 ≡ N }
        requires banks { min self.now.banks 64 ≤ N }
        ensures begun { IsBegun self.now side limit N result }
        ensures valid { IsBook self.now }
    {
        SideHeads::new(&self.linked, side, limit)
    }
}
