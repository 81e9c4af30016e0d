ghost use Rattle.std.specs.Prelude.{ℕ, ◌≡◌, ◌+◌, ◌*◌, ◌<◌, ◌≤◌, None, Some, false, length, min, IfSome, IsSome, option_map};
ghost use Rattle.fx_amounts.specs.Price.{crosses};
ghost use Rattle.fx_amounts.specs.Side.{opposite};
ghost use Rattle.order_store.specs.Orders.{order_at};
ghost use Rattle.access_index.specs.Heads.{IsHead};
ghost use Rattle.global_book.specs.Heads.{IsLeast, IsNext, PassesHead, count_to_come, head_in, with_head};
ghost use Rattle.global_book.specs.Room.{rank_of};
ghost use Rattle.global_book.specs.inside.Bests.{IsBestOf, is_own_behind};

use crate::linked::LinkedOrders;
use crate::side_ladders::rank_of;
use access_index::{FirstHeads, Head, word_beyond};
use fx_amounts::{BankId, Price, Side};
use fx_rules::Resting;
use price_levels::Steps;
use std::marker::Model;
use std::sync::ledger::Ledger;

/// A walk along the orders of a side in a book of at most `N` banks, in `G` groups of eight, from the best order on, up to a limit. It comes to
/// each bank's orders in turn: a bank's head is the one that comes next.
#[derive(Drop)]
pub struct SideHeads<'a, const N: usize, const G: usize> {
    linked: &'a LinkedOrders,
    heads: FirstHeads<N, G>,
    /// The least word that is above those of all orders within the limit.
    beyond: u64,
    side: Side,
}

impl<'a, const N: usize, const G: usize> Model for SideHeads<'a, N, G> {
    ghost use Rattle.std.specs.Prelude.{map};
    ghost use Rattle.global_book.specs.Heads.{Heads};
    ghost use Rattle.global_book.specs.inside.Heads.{TellHeads, TellsLimit, limit_told, order_told};
    ghost use Rattle.global_book.specs.inside.Linked.{orders_in};

    ghost Value = { Heads };

    ghost view = { λ h. record {
      side = h.side;
      limit = limit_told h.side h.beyond;
      orders = orders_in h.linked.now;
      next = map (order_told h.linked.now.orders.slots) h.heads;
    } };

    ghost invariant = { λ h. TellHeads N h.linked.now h.side h.heads × TellsLimit h.side h.beyond };
}

impl<'a, const N: usize, const G: usize> SideHeads<'a, N, G> {
    ghost use Rattle.global_book.specs.inside.Linked.{AreKept, orders_in};

    /// A walk along a side of a book, which has passed no order.
    #[inline(always)]
    pub(crate) fn new(linked: &'a LinkedOrders, side: Side, limit: Price) -> SideHeads<'a, N, G>
        requires most { N ≤ 64 }
        requires groups { G * 8 ≡ N }
        requires kept { (banks : ℕ) × (min banks 64 ≤ N) × AreKept banks linked.now }
        ensures side { result.side ≡ side }
        ensures limit { result.limit ≡ limit }
        ensures orders { result.orders ≡ orders_in linked.now }
        ensures count { length result.next ≡ N }
        ensures best { (bank : ℕ) → IsNext side bank None (orders_in linked.now) (head_in result bank) }
    {
        SideHeads {
            linked,
            heads: linked.heads(side).first(),
            beyond: word_beyond(rank_of(side, limit)),
            side,
        }
    }

    /// The bank whose head is the best of all, where the limit allows the price of that; otherwise it allows none of the heads' prices, or
    /// there are no more. It looks at words alone, and at no order.
    #[inline(always)]
    pub fn least(&self) -> Option<BankId>
        ensures least { IfSome result (IsLeast self.now) }
        ensures none { result ≡ None → (bank : ℕ) → IfSome (head_in self.now bank) (λ head. crosses (opposite self.now.side) self.now.limit head.price ≡ false) }
        ensures count { length self.now.next ≡ N }
    {
        self.heads.best_below(self.beyond)
    }

    /// The head of a bank that has one. One step.
    #[inline(always)]
    pub fn head<L: Ledger>(&self, bank: BankId, steps: &mut Steps<L>) -> Resting
        requires bank { bank < N }
        requires head { IsSome (head_in self.now bank) }
        ensures head { head_in self.now bank ≡ Some result }
        ensures step { steps.new ≡ steps.old + 1 }
    {
        steps.tick();
        self.linked.order(self.heads.place(bank))
    }

    /// Passes the head of a bank: the next one is the bank's best order behind it, where there is one. One step.
    #[inline(never)]
    pub fn pass<L: Ledger>(&mut self, bank: BankId, steps: &mut Steps<L>)
        requires bank { bank < N }
        ensures passed { PassesHead self.old self.new bank }
        ensures fewer { IsSome (head_in self.old bank) → count_to_come self.new < count_to_come self.old }
        ensures step { steps.new ≡ steps.old + 1 }
    {
        steps.tick();
        let next = match self.heads.of(bank) {
            Some(head) => self.linked.head_behind(head.place, self.side),
            None => None,
        };
        self.heads.set(bank, next);
    }

    /// Passes all orders of a bank. It looks at none.
    #[inline(always)]
    pub fn shut(&mut self, bank: BankId)
        requires bank { bank < N }
        ensures shut { self.new ≡ with_head self.old bank None }
        ensures fewer { IsSome (head_in self.old bank) → count_to_come self.new < count_to_come self.old }
    {
        self.heads.set(bank, None);
    }
}

impl LinkedOrders {
    /// Where the best order of a bank and a side stands, of those behind the one at a place; `None` where there is none.
    #[inline(always)]
    fn head_behind(&self, place: u32, side: Side) -> Option<Head>
        requires live { IsSome (order_at self.now.orders place) }
        ensures behind { IfSome (order_at self.now.orders place) (λ order. IsBestOf self.now.orders.slots (is_own_behind order) order.side (option_map (λ head. head.place) result)) }
        ensures rank { IfSome result (λ head. IfSome (order_at self.now.orders head.place) (λ order. head.rank ≡ rank_of side order.price)) }
        ensures fits { IfSome result IsHead }
    {
        let place = self.behind(place)?;
        let rank = rank_of(side, self.order(place).price);
        Some(Head { rank, place })
    }
}
