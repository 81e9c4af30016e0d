ghost use Rattle.std.specs.Prelude.{ℕ, ◌≡◌, ◌≢◌, ◌+◌, ◌-◌, ◌/◌, ◌≤◌, ◌<◌, ◌^◌, ◌++◌, ◌∷◌, ◌&&◌, [], None, Some, true, filter, is_some, length, min, nat_eq, nat_lt, option_map, slice_index_or, slice_set, IfOk, IfSome, IsSome, IsSomeAnd, OnErr, OnOk};
ghost use Rattle.fx_amounts.specs.declared.side.Side.{Side as OneSide};
ghost use Rattle.order_store.specs.Orders.{IsOf, KeepsRoom, Lacks, TakesRoom, kept, order_at, room_for};
ghost use Rattle.order_store.specs.Linked.{AreListed, HasFrom, IsFirstFrom, IsInLevel};
ghost use Rattle.price_levels.specs.Rungs.{IsNextRank};
ghost use Rattle.price_levels.specs.Ticks.{with_order};
ghost use Rattle.fx_amounts.specs.Side.{opposite};
ghost use Rattle.access_index.specs.Heads.{IsHead};
ghost use Rattle.access_index.specs.Ranked.{AreHeadWords, IsHeadOf, bank_holds, bank_level, with_bank_level};
ghost use Rattle.global_book.specs.Room.{ladders_of, rank_of};
ghost use Rattle.std.specs.Map.{lookup};
ghost use Rattle.std.specs.Option.{option_copied};
ghost use Rattle.global_book.specs.Behind.{IsCursor};
ghost use Rattle.global_book.specs.inside.Linked.{AreLinked, IsPriced, orders_in};
ghost use Rattle.global_book.specs.inside.Owning.{AreOwnersOf};
ghost use Rattle.global_book.specs.inside.Bests.{IsBestOf, is_own_behind, is_own_from, is_past};

use crate::owner_list::OwnerList;
use crate::side_ladders::{SideLadders, rank_of};
use access_index::{Head, HeadWords};
use fx_amounts::{BankId, Lots, Memory, Price, Side};
use fx_rules::Resting;
use order_store::OrderList;
use price_levels::{Ladder, Level};
use std::alloc::Global;
use std::marker::Model;

/// So many places are kept though most of them may be empty: they take half a MiB, and a new list for them would be made too often.
const FEW_PLACES: usize = 16_384;

/// The orders of a pair in a list by arrival, linked within their levels, with the levels of each bank and side beside them.
#[derive(Drop)]
pub(crate) struct LinkedOrders {
    list: OrderList,
    ladders: SideLadders,
    /// The banks that have an order.
    owners: OwnerList,
}

impl Model for LinkedOrders {
    ghost use Rattle.global_book.specs.inside.Linked.{AreLinkedOrders, Linked};

    ghost Value = { Linked };

    ghost view = { λ l. record { orders = l.list; ladders = l.ladders } };

    ghost invariant = { λ l. AreLinkedOrders l.list l.ladders l.owners };
}

impl LinkedOrders {
    /// No orders of so many banks, 65 at most, and no room for any. `Memory` when out of memory.
    pub(crate) fn new(alloc: Global, banks: usize) -> Result<LinkedOrders, Memory>
        ensures empty { IfOk result (λ linked. linked.orders.slots ≡ []) }
        ensures banks { IfOk result (λ linked. length linked.orders.room ≡ min banks 65) }
    {
        Ok(LinkedOrders {
            list: OrderList::new(alloc, banks)?,
            ladders: SideLadders::new(alloc)?,
            owners: OwnerList::new(alloc)?,
        })
    }

    /// How many orders there are.
    pub(crate) fn len(&self) -> usize
        ensures count { result ≡ kept self.now.orders }
        ensures valid { AreListed self.now.orders }
    {
        self.list.len()
    }

    /// The banks that have an order, from the lowest number on.
    pub(crate) fn owners(&self) -> &[BankId]
        ensures owners { AreOwnersOf (orders_in self.now) result.now }
        ensures valid { AreListed self.now.orders }
    {
        self.owners.banks()
    }

    /// Whether more than half of the places are empty, and there are more of them than it would gain to save.
    pub(crate) fn is_sparse(&self) -> bool
        ensures { result ≡ (nat_lt 16384 (length self.now.orders.slots) && nat_lt (kept self.now.orders) (length self.now.orders.slots / 2)) }
    {
        let places = self.list.places();
        places > FEW_PLACES && places / 2 > self.list.len()
    }

    /// Moves the orders into a new list that has no empty place. All room may go. At `Memory` nothing has changed.
    #[inline(never)]
    pub(crate) fn pack(&mut self) -> Result<(), Memory>
        ensures slots { OnOk result (self.new.orders.slots ≡ filter is_some self.old.orders.slots) }
        ensures banks { OnOk result (length self.new.orders.room ≡ min (length self.old.orders.room) 65) }
        ensures memory { OnErr result (self.new ≡ self.old) }
        ensures valid { AreListed self.new.orders }
    {
        let list = self.list.packed()?;
        self.ladders = ladders_for(self.owners.allocator(), &list)?;
        self.list = list;
        Ok(())
    }

    /// Makes room for one order more of a bank and a side at a price. The room for the bank's orders of the side at other prices may go. At
    /// `Memory` there may be none.
    #[inline(always)]
    pub(crate) fn reserve(&mut self, bank: BankId, side: Side, price: Price) -> Result<(), Memory>
        requires bank { bank < length self.old.orders.room }
        ensures places { OnOk result (1 ≤ room_for self.new.orders bank) }
        ensures holds { OnOk result (bank_holds (ladders_of self.new.ladders side) bank (rank_of side price) ≡ true) }
        ensures room { KeepsRoom self.old.orders self.new.orders }
        ensures others { (one : OneSide) (other at : ℕ) → (one ≡ side → other ≢ bank) → bank_holds (ladders_of self.new.ladders one) other at ≡ bank_holds (ladders_of self.old.ladders one) other at }
        ensures slots { self.new.orders.slots ≡ self.old.orders.slots }
        ensures valid { AreListed self.new.orders }
    {
        self.list.reserve(bank)?;
        self.ladders.reserve(side, bank, rank_of(side, price))
    }

    /// An order comes to rest behind all others, where room was made for it. It takes no memory.
    #[inline(always)]
    pub(crate) fn rest(&mut self, order: Resting)
        requires bank { order.bank < 64 }
        requires room { 1 ≤ room_for self.old.orders order.bank }
        requires holds { bank_holds (ladders_of self.old.ladders order.side) order.bank (rank_of order.side order.price) ≡ true }
        requires absent { Lacks self.old.orders order.bank order.number }
        requires later { (place : ℕ) (other : _) → order_at self.old.orders place ≡ Some other → other.arrival < order.arrival }
        ensures slots { self.new.orders.slots ≡ self.old.orders.slots ++ Some order ∷ [] }
        ensures room { TakesRoom self.old.orders self.new.orders }
        ensures holds { (side : OneSide) (bank rank : ℕ) → bank_holds (ladders_of self.new.ladders side) bank rank ≡ bank_holds (ladders_of self.old.ladders side) bank rank }
        ensures valid { AreListed self.new.orders }
    {
        let Resting {
            bank,
            side,
            price,
            left,
            ..
        } = order;
        prove!(left.count() <= Lots::MOST);
        let place = self.list.places() as u32;
        let rank = rank_of(side, price);
        let owned = self.ladders.owns(bank);
        let before = self.ladders.insert(side, bank, rank, place, left);
        self.list.push(order, before);
        self.owners.list_new(bank, owned);
    }

    /// The place of the order of this bank and number; `None` where none rests.
    pub(crate) fn find(&self, bank: BankId, number: u32) -> Option<u32>
        ensures found { IfSome result (λ place. IsSomeAnd (order_at self.now.orders place) (IsOf bank number)) }
        ensures none { result ≡ None → Lacks self.now.orders bank number }
        ensures valid { AreListed self.now.orders }
    {
        self.list.find(bank, number)
    }

    /// The place of the order of this bank and number; `None` where none rests. Nothing is searched where it is its bank's best order of a side.
    pub(crate) fn find_first(&self, bank: BankId, number: u32) -> Option<u32>
        ensures found { IfSome result (λ place. IsSomeAnd (order_at self.now.orders place) (IsOf bank number)) }
        ensures none { result ≡ None → Lacks self.now.orders bank number }
    {
        if let Some(place) = self.first_under(bank, Side::Buy, number) {
            return Some(place);
        }
        if let Some(place) = self.first_under(bank, Side::Sell, number) {
            return Some(place);
        }
        self.find(bank, number)
    }

    /// The place of the best order of a bank and a side, where it has this number; else `None`.
    fn first_under(&self, bank: BankId, side: Side, number: u32) -> Option<u32>
        ensures { IfSome result (λ place. IsSomeAnd (order_at self.now.orders place) (IsOf bank number)) }
    {
        if bank.index() >= BankId::COUNT {
            return None;
        }
        let place = self.first_of(bank, side)?;
        let order = self.order(place);
        if order.number == number {
            Some(place)
        } else {
            None
        }
    }

    /// The order at a place.
    pub(crate) fn order(&self, place: u32) -> Resting
        requires live { IsSome (order_at self.now.orders place) }
        ensures value { order_at self.now.orders place ≡ Some result }
        ensures valid { AreListed self.now.orders }
    {
        self.list.order(place)
    }

    /// The order at a place has so many lots left from now on, fewer than it had.
    pub(crate) fn lower(&mut self, place: u32, left: Lots)
        requires less { IsSomeAnd (order_at self.old.orders place) (λ order. left < order.left) }
        ensures slots { IfSome (order_at self.old.orders place) (λ order. self.new.orders.slots ≡ slice_set self.old.orders.slots place (Some (record order { left = left }))) }
        ensures room { self.new.orders.room ≡ self.old.orders.room }
        ensures holds { (side : OneSide) (bank rank : ℕ) → bank_holds (ladders_of self.new.ladders side) bank rank ≡ bank_holds (ladders_of self.old.ladders side) bank rank }
        ensures valid { AreListed self.new.orders }
    {
        let order = self.list.order(place);
        let gone = Lots::new(order.left.count() - left.count()).unwrap();
        let rank = rank_of(order.side, order.price);
        self.ladders.lower(order.side, order.bank, rank, gone);
        self.list.lower(place, left);
    }

    /// The order at a place goes.
    pub(crate) fn remove(&mut self, place: u32)
        requires live { IsSome (order_at self.old.orders place) }
        ensures slots { self.new.orders.slots ≡ slice_set self.old.orders.slots place None }
        ensures room { self.new.orders.room ≡ self.old.orders.room }
        ensures holds { (side : OneSide) (bank rank : ℕ) → bank_holds (ladders_of self.new.ladders side) bank rank ≡ bank_holds (ladders_of self.old.ladders side) bank rank }
        ensures valid { AreListed self.new.orders }
    {
        let order = self.list.order(place);
        let before = self.list.before(place);
        let behind = self.list.behind(place);
        let rank = rank_of(order.side, order.price);
        self.ladders
            .remove(order.side, order.bank, rank, order.left, before, behind);
        self.list.remove(place);
        let owns = self.ladders.owns(order.bank);
        self.owners.unlist_gone(order.bank, owns);
    }

    /// The level of a bank and a side at a rank; one without orders where they have none there.
    pub(crate) fn level(&self, bank: BankId, side: Side, rank: u32) -> Level
        ensures level { result ≡ bank_level (ladders_of self.now.ladders side) bank rank }
        ensures linked { AreLinked self.now.orders.slots self.now.ladders }
        ensures valid { AreListed self.now.orders }
    {
        self.ladders.level(side, bank, rank)
    }

    /// The level of a bank and a side at a rank, and the first rank behind it with orders of theirs; `None` where there is none.
    pub(crate) fn level_and_next(&self, bank: BankId, side: Side, rank: u32) -> (Level, Option<u32>)
        requires rank { rank ≤ 10 ^ 9 }
        ensures level { result.0 ≡ bank_level (ladders_of self.now.ladders side) bank rank }
        ensures found { IfSome result.1 (IsNextRank (bank_level (ladders_of self.now.ladders side) bank) (rank + 1)) }
        ensures none { result.1 ≡ None → (other : ℕ) → rank < other → (bank_level (ladders_of self.now.ladders side) bank other).lots ≡ 0 }
        ensures linked { AreLinked self.now.orders.slots self.now.ladders }
        ensures valid { AreListed self.now.orders }
    {
        self.ladders.level_and_next(side, bank, rank)
    }

    /// The levels of a bank and a side, by rank; `None` where they never had an order.
    pub(crate) fn ladder(&self, bank: BankId, side: Side) -> Option<&Ladder>
        ensures ladder { option_copied result ≡ lookup (nat_eq bank) (ladders_of self.now.ladders side) }
        ensures linked { AreLinked self.now.orders.slots self.now.ladders }
        ensures valid { AreListed self.now.orders }
    {
        self.ladders.ladder(side, bank)
    }

    /// For each bank the word of its best order of a side.
    pub(crate) fn words(&self, side: Side) -> &[u64; BankId::COUNT]
        ensures words { AreHeadWords (bank_level (ladders_of self.now.ladders side)) result.now }
        ensures linked { AreLinked self.now.orders.slots self.now.ladders }
        ensures valid { AreListed self.now.orders }
    {
        self.ladders.words(side)
    }

    /// Where the best order of each bank of a side stands.
    pub(crate) fn heads(&self, side: Side) -> &HeadWords
        ensures heads { (bank : ℕ) → bank < 64 → IsHeadOf (bank_level (ladders_of self.now.ladders side) bank) (slice_index_or result.now bank None) × IfSome (slice_index_or result.now bank None) IsHead }
        ensures linked { AreLinked self.now.orders.slots self.now.ladders }
        ensures valid { AreListed self.now.orders }
    {
        self.ladders.heads(side)
    }

    /// The place of the best order of a bank and a side, as the bank's word tells it; `None` where there is none.
    fn first_of(&self, bank: BankId, side: Side) -> Option<u32>
        requires bank { bank < 64 }
        ensures { IsBestOf self.now.orders.slots (is_own_from bank side 0) side result }
    {
        let head = self.heads(side).of(bank)?;
        Some(head.place)
    }

    /// The place of the best order of a bank and a side, of those from a rank on; `None` where there is none. From the first rank on it is told
    /// by the bank's word, with no search.
    pub(crate) fn first_from(&self, bank: BankId, side: Side, from: u32) -> Option<u32>
        ensures { IsBestOf self.now.orders.slots (is_own_from bank side from) side result }
    {
        if from == 0 && bank.index() < BankId::COUNT {
            return self.first_of(bank, side);
        }
        let head = self.head_from(bank, side, from)?;
        Some(head.place)
    }

    /// The rank and the place of the best order of a bank and a side, of those from a rank on; `None` where there is none.
    pub(crate) fn head_from(&self, bank: BankId, side: Side, from: u32) -> Option<Head>
        ensures best { IsBestOf self.now.orders.slots (is_own_from bank side from) side (option_map (λ head. head.place) result) }
        ensures rank { IfSome result (λ head. IfSome (order_at self.now.orders head.place) (λ order. rank_of side order.price ≡ head.rank)) }
        ensures linked { AreLinked self.now.orders.slots self.now.ladders }
        ensures valid { AreListed self.now.orders }
    {
        let rank = self.ladders.next(side, bank, from)?;
        let place = self.ladders.level(side, bank, rank).first;
        Some(Head { rank, place })
    }

    /// The place of the order behind that at a place, in its level; `None` where it is the last.
    pub(crate) fn behind_in_level(&self, place: u32) -> Option<u32>
        requires live { IsSome (order_at self.now.orders place) }
        ensures behind { IfSome (order_at self.now.orders place) (λ order. IsFirstFrom (IsInLevel (order_at self.now.orders) order) (place + 1) result) }
        ensures valid { AreListed self.now.orders }
    {
        self.list.behind(place)
    }

    /// The place of the best order of a bank and a side, of those behind the one at a place; `None` where there is none.
    pub(crate) fn behind(&self, place: u32) -> Option<u32>
        requires live { IsSome (order_at self.now.orders place) }
        ensures { IfSome (order_at self.now.orders place) (λ order. IsBestOf self.now.orders.slots (is_own_behind order) order.side result) }
    {
        match self.list.behind(place) {
            Some(next) => Some(next),
            None => {
                let order = self.list.order(place);
                let rank = rank_of(order.side, order.price);
                self.first_from(order.bank, order.side, rank + 1)
            }
        }
    }

    /// The place of the best order of a bank and a side, of those behind an order of theirs that rests, where there is such; `None` where
    /// there is none.
    pub(crate) fn best_behind(
        &self,
        bank: BankId,
        side: Side,
        past: Option<&Resting>,
    ) -> Option<u32>
        requires past { IfSome (option_copied past) (IsCursor (orders_in self.now) bank side) }
        ensures { IsBestOf self.now.orders.slots (is_past bank side (option_copied past.entry)) side result }
    {
        match past {
            Some(last) => {
                let place = self.list.find(last.bank, last.number).unwrap();
                self.behind(place)
            }
            None => self.first_from(bank, side, 0),
        }
    }

    /// The place of the first of a bank's orders that arrived at or after this; `None` where there is none. It looks at one place after the other.
    pub(crate) fn next_of(&self, bank: BankId, after: u64) -> Option<u32>
        ensures first { IsFirstFrom (HasFrom (order_at self.now.orders) bank after) 0 result }
        ensures valid { AreListed self.now.orders }
    {
        self.list.next_of(bank, after)
    }
}

/// The levels of the orders of a list without empty places.
fn ladders_for(alloc: Global, list: &OrderList) -> Result<SideLadders, Memory>
    requires full { (place : ℕ) → place < length list.now.slots → IsSome (order_at list.now place) }
    requires priced { (place : ℕ) (order : _) → order_at list.now place ≡ Some order → IsPriced order }
    ensures linked { IfOk result (AreLinked list.now.slots) }
    ensures valid { AreListed list.now }
{
    let places = list.places();
    let mut ladders = SideLadders::new(alloc)?;
    for place in 0..places {
        let order = list.order(place as u32);
        rest_on(&mut ladders, &order, place as u32)?;
    }
    Ok(ladders)
}

/// An order at a place of a list comes to rest on its ladder, behind all others there.
fn rest_on(ladders: &mut SideLadders, order: &Resting, place: u32) -> Result<(), Memory>
    requires bank { order.now.bank < 64 }
    requires place { place < 2 ^ 28 }
    requires fits { (bank_level (ladders_of ladders.old order.now.side) order.now.bank (rank_of order.now.side order.now.price)).lots + order.now.left < 2 ^ 64 }
    ensures levels { OnOk result ((other at : ℕ) → bank_level (ladders_of ladders.new order.now.side) other at ≡ with_bank_level (bank_level (ladders_of ladders.old order.now.side)) order.now.bank (rank_of order.now.side order.now.price) (with_order (bank_level (ladders_of ladders.old order.now.side) order.now.bank (rank_of order.now.side order.now.price)) place order.now.left) other at) }
    ensures other_side { OnOk result (ladders_of ladders.new (opposite order.now.side) ≡ ladders_of ladders.old (opposite order.now.side)) }
{
    let Resting {
        bank,
        side,
        price,
        left,
        ..
    } = *order;
    let rank = rank_of(side, price);
    ladders.reserve(side, bank, rank)?;
    ladders.insert(side, bank, rank, place, left);
    Ok(())
}
