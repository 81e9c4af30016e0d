ghost use Rattle.std.specs.Prelude.{ℕ, ◌≡◌, ◌↔◌, ◌+◌, ◌<◌, ◌≤◌, ◌^◌, ◌∷◌, ◌++◌, [], Some, None, true, filter, is_some, length, min, slice_set, IfOk, OnOk, IfSome, IsSome, IsSomeAnd};
ghost use Rattle.order_store.specs.inside.Chains.{slots_of};
ghost use Rattle.order_store.specs.inside.Packed.{IsPacked, moved};
ghost use Rattle.order_store.specs.inside.Rows.{is_under};
ghost use Rattle.order_store.specs.Linked.{AreListed, HasFrom, IsFirstFrom, IsInLevel, IsLastBelow};
ghost use Rattle.order_store.specs.Orders.{IsOf, KeepsRoom, Lacks, TakesRoom, kept, order_at, room_for};

use crate::nodes::Nodes;
use crate::row::{NumberRow, bare_rows};
use fx_amounts::{BankId, Lots, Memory};
use fx_rules::Resting;
use std::alloc::Global;
use std::marker::Model;

/// The orders that rest in a book, in a list by arrival, so that the lower of two places has the order that arrived first. Each one is
/// linked with its neighbours in its level, which are the orders of its bank and side at its price. An order that is gone leaves its
/// place empty.
#[derive(Drop)]
pub struct OrderList {
    nodes: Nodes,
    /// For each bank the places of its orders, by number.
    rows: Vec<NumberRow>,
    /// How many orders there are.
    count: usize,
}

impl Model for OrderList {
    ghost use Rattle.std.specs.Prelude.{map};
    ghost use Rattle.order_store.specs.Orders.{Orders};
    ghost use Rattle.order_store.specs.inside.Chains.{IsKept, slots_of};
    ghost use Rattle.order_store.specs.inside.Rows.{room_with};

    ghost Value = { Orders };

    ghost view = { λ l. record { slots = slots_of l.nodes.nodes; room = map (room_with l.nodes.room) l.rows.items } };

    ghost invariant = { λ l. IsKept l.nodes.nodes l.count l.rows.items };
}

impl OrderList {
    /// No orders of so many senders, 65 at most, and no room for any. `Memory` when out of memory.
    pub fn new(alloc: Global, banks: usize) -> Result<OrderList, Memory>
        ensures empty { IfOk result (λ list. list.slots ≡ []) }
        ensures banks { IfOk result (λ list. length list.room ≡ min banks 65) }
    {
        let rows = bare_rows(alloc, banks.min(BankId::SENDERS))?;
        Ok(OrderList {
            nodes: Nodes::new(alloc),
            rows,
            count: 0,
        })
    }

    /// How many orders there are.
    pub fn len(&self) -> usize
        ensures count { result ≡ kept self.now }
        ensures valid { AreListed self.now }
    {
        self.count
    }

    /// How many places there are, with those that are empty.
    pub fn places(&self) -> usize
        ensures count { result ≡ length self.now.slots }
        ensures few { (bank : ℕ) → 1 ≤ room_for self.now bank → length self.now.slots < 2 ^ 28 }
        ensures valid { AreListed self.now }
    {
        self.nodes.len()
    }

    /// Makes room for one order more of a bank. At `Memory` there may be none.
    #[inline(always)]
    pub fn reserve(&mut self, bank: BankId) -> Result<(), Memory>
        requires bank { bank < length self.old.room }
        ensures has_room { OnOk result (1 ≤ room_for self.new bank) }
        ensures room { KeepsRoom self.old self.new }
        ensures slots { self.new.slots ≡ self.old.slots }
        ensures valid { AreListed self.new }
    {
        self.nodes.reserve()?;
        let row = &mut self.rows[bank.index()];
        row.widen()
    }

    /// An order comes behind all others, and `before` is the place of the last one of its level. It takes one of the places that there
    /// is room for, moves no order and takes no memory.
    #[inline(always)]
    pub fn push(&mut self, order: Resting, before: Option<u32>) -> u32
        requires room { 1 ≤ room_for self.old order.bank }
        requires absent { Lacks self.old order.bank order.number }
        requires later { (place : ℕ) (other : _) → order_at self.old place ≡ Some other → other.arrival < order.arrival }
        requires before { IsLastBelow (IsInLevel (order_at self.old) order) (length self.old.slots) before }
        ensures place { result ≡ length self.old.slots }
        ensures slots { self.new.slots ≡ self.old.slots ++ Some order ∷ [] }
        ensures room { TakesRoom self.old self.new }
        ensures valid { AreListed self.new }
    {
        let Resting { bank, number, .. } = order;
        prove!(order.left.count() >= Lots::LEAST);
        let place = self.nodes.len();
        self.nodes.push(order, before);
        self.nodes.set_behind(before, Some(place as u32));
        self.count += 1;
        let row = &mut self.rows[bank.index()];
        row.add(number, place as u32);
        place as u32
    }

    /// The order at a place.
    pub fn order(&self, place: u32) -> Resting
        requires live { IsSome (order_at self.now place) }
        ensures value { order_at self.now place ≡ Some result }
        ensures valid { AreListed self.now }
    {
        self.nodes.order(place as usize).unwrap()
    }

    /// The place of the order before that at a place, in its level; `None` where it is the first.
    pub fn before(&self, place: u32) -> Option<u32>
        requires live { IsSome (order_at self.now place) }
        ensures before { IfSome (order_at self.now place) (λ order. IsLastBelow (IsInLevel (order_at self.now) order) place result) }
        ensures valid { AreListed self.now }
    {
        self.nodes.before(place as usize)
    }

    /// The place of the order behind that at a place, in its level; `None` where it is the last.
    pub fn behind(&self, place: u32) -> Option<u32>
        requires live { IsSome (order_at self.now place) }
        ensures behind { IfSome (order_at self.now place) (λ order. IsFirstFrom (IsInLevel (order_at self.now) order) (place + 1) result) }
        ensures valid { AreListed self.now }
    {
        self.nodes.behind(place as usize)
    }

    /// The order at a place has so many lots left from now on.
    pub fn lower(&mut self, place: u32, left: Lots)
        requires live { IsSome (order_at self.old place) }
        ensures slots { IfSome (order_at self.old place) (λ order. self.new.slots ≡ slice_set self.old.slots place (Some (record order { left = left }))) }
        ensures room { self.new.room ≡ self.old.room }
        ensures valid { AreListed self.new }
    {
        prove!(left.count() >= Lots::LEAST);
        self.nodes.lower(place as usize, left);
    }

    /// The order at a place goes; its neighbours are linked with each other.
    pub fn remove(&mut self, place: u32)
        requires live { IsSome (order_at self.old place) }
        ensures slots { self.new.slots ≡ slice_set self.old.slots place None }
        ensures room { self.new.room ≡ self.old.room }
        ensures valid { AreListed self.new }
    {
        let place = place as usize;
        let before = self.nodes.before(place);
        let behind = self.nodes.behind(place);
        self.nodes.set_behind(before, behind);
        self.nodes.set_before(behind, before);
        self.nodes.clear(place);
        self.count -= 1;
    }

    /// The place of the order of this bank and number; `None` where none rests.
    pub fn find(&self, bank: BankId, number: u32) -> Option<u32>
        ensures found { IfSome result (λ place. IsSomeAnd (order_at self.now place) (IsOf bank number)) }
        ensures none { result ≡ None → Lacks self.now bank number }
        ensures valid { AreListed self.now }
    {
        let row = self.rows.get(bank.index())?;
        let place = row.key_of(number)?;
        if is_under(&self.nodes, place as usize, bank, number) {
            Some(place)
        } else {
            None
        }
    }

    /// The place of the first of a bank's orders that arrived at or after this; `None` where there is none. It looks at one place after the other.
    pub fn next_of(&self, bank: BankId, after: u64) -> Option<u32>
        ensures { IsFirstFrom (HasFrom (order_at self.now) bank after) 0 result }
    {
        for place in 0..self.nodes.len() {
            if self.is_from(place, bank, after) {
                return Some(place as u32);
            }
        }
        None
    }

    /// Whether an order of a bank that arrived at or after this is at a place.
    fn is_from(&self, place: usize, bank: BankId, after: u64) -> bool
        ensures { (result ≡ true) ↔ HasFrom (order_at self.now) bank after place }
    {
        match self.nodes.order(place) {
            Some(order) => order.bank == bank && after <= order.arrival,
            None => false,
        }
    }

    /// The same orders in a new list that has no empty place, each at as many places less as there were empty ones before it. This list
    /// stays as it is. `Memory` when out of memory.
    pub fn packed(&self) -> Result<OrderList, Memory>
        ensures slots { IfOk result (λ list. list.slots ≡ filter is_some self.now.slots) }
        ensures banks { IfOk result (λ list. length list.room ≡ min (length self.now.room) 65) }
    {
        let alloc = *self.rows.allocator();
        let mut list = OrderList::new(alloc, self.rows.len())?;
        let mut places = Vec::new(alloc);
        for place in 0..self.nodes.len() {
            let moved = self.carry_over(place, &places, &mut list)?;
            places.push(moved)?;
        }
        Ok(list)
    }

    /// Lets the order at a place come to a new list, where there is one, and answers its place there. `places` tells where the orders before
    /// it have gone.
    fn carry_over(&self, place: usize, places: &[u32], list: &mut OrderList) -> Result<u32, Memory>
        requires within { place < length self.now.slots }
        requires packed { IsPacked self.now.slots place places.now list.old (length self.now.room) }
        ensures packed { IfOk result (λ moved. IsPacked self.now.slots (place + 1) (places.now ++ moved ∷ []) list.new (length self.now.room)) }
    {
        match self.nodes.order(place) {
            Some(order) => {
                let before = moved(self.before(place as u32), places);
                list.reserve(order.bank)?;
                Ok(list.push(order, before))
            }
            None => Ok(0),
        }
    }
}

/// Where the order of a link has gone.
fn moved(link: Option<u32>, places: &[u32]) -> Option<u32>
    requires within { IfSome link (λ place. place < length places.now) }
    ensures { result ≡ moved places.now link }
{
    match link {
        Some(place) => Some(places[place as usize]),
        None => None,
    }
}

/// Whether the order of this bank and number is at a place.
fn is_under(nodes: &Nodes, place: usize, bank: BankId, number: u32) -> bool
    ensures { result ≡ is_under (slots_of nodes.now.nodes) place bank number }
{
    match nodes.order(place) {
        Some(order) => order.bank == bank && order.number == number,
        None => false,
    }
}
