ghost use Rattle.std.specs.Prelude.{◌≡◌, ◌+◌, ◌≤◌, ◌<◌, ◌^◌, ◌∷◌, ◌++◌, [], None, Some, length, slice_set, IfSome, IsSome, OnOk};
ghost use Rattle.order_store.specs.inside.Chains.{in_node, link_of, link_to, no_node, node_at, order_of, with_before, with_behind};

use fx_amounts::{Lots, Memory, room_for};
use fx_rules::Resting;
use std::alloc::Global;
use std::marker::Model;

/// How many places a list can have: as many as a word of a best order has bits for.
const PLACES: usize = 1 << 28;

/// How many orders a list has capacity for from the first one on: so many take 131,072 bytes, for which the allocator maps pages of their own. Such a
/// list is not copied as it grows, and capacity that was not written to yet takes addresses, and hardly any memory.
const FIRST: usize = 4_096;

/// The link of an order that has no neighbour on a side.
const NO_LINK: u32 = u32::MAX;

/// The link behind an order that is gone.
const GONE: u32 = u32::MAX - 1;

/// An order and the places of its neighbours in its level. It has 32 bytes.
#[derive(Clone, Copy, Debug)]
pub(crate) struct Node {
    order: Resting,
    before: u32,
    behind: u32,
}

/// Orders by arrival, each with the places of its neighbours. One that is gone leaves its place behind.
#[derive(Drop)]
pub(crate) struct Nodes {
    items: Vec<Node>,
}

impl Model for Nodes {
    ghost use Rattle.std.specs.Prelude.{◌-◌, ◌^◌, ◌≤◌, map, min, vec_capacity, vec_len};
    ghost use Rattle.order_store.specs.inside.Chains.{Listed, linked_of};

    ghost Value = { Listed };

    ghost view = { λ n. record { nodes = map linked_of n.items.items; room = min (vec_capacity n.items) (2 ^ 28) - vec_len n.items } };

    ghost invariant = { λ n. vec_len n.items ≤ 2 ^ 28 };
}

impl Nodes {
    /// No orders, and no room for any. It takes no memory.
    pub(crate) fn new(alloc: Global) -> Self
        ensures empty { result.nodes ≡ [] }
    {
        Nodes {
            items: Vec::new(alloc),
        }
    }

    /// How many places there are.
    pub(crate) fn len(&self) -> usize
        ensures count { result ≡ length self.now.nodes }
        ensures most { result ≤ 2 ^ 28 }
        ensures room { self.now.room + length self.now.nodes ≤ 2 ^ 28 }
    {
        self.items.len()
    }

    /// Makes room for one order more. At `Memory` there may be none; there are 2^28 places at most.
    #[inline(always)]
    pub(crate) fn reserve(&mut self) -> Result<(), Memory>
        ensures room { OnOk result (1 ≤ self.new.room) }
        ensures kept_room { self.old.room ≤ self.new.room }
        ensures nodes { self.new.nodes ≡ self.old.nodes }
    {
        if self.items.len() >= PLACES {
            return room_for(usize::MAX, 1).map(|_| ());
        }
        if self.items.len() == self.items.capacity() {
            self.items.reserve_exact(self.items.len().max(FIRST))?;
        }
        Ok(())
    }

    /// The order at a place; `None` where it is gone or there is no such place.
    pub(crate) fn order(&self, place: usize) -> Option<Resting>
        ensures order { result ≡ in_node self.now.nodes place }
    {
        order_of(self.items.get(place)?)
    }

    /// The place of the order before that at a place, in its level.
    pub(crate) fn before(&self, place: usize) -> Option<u32>
        ensures link { result ≡ (node_at self.now.nodes place).before }
    {
        link_of(self.items.get(place)?.before)
    }

    /// The place of the order behind that at a place, in its level.
    pub(crate) fn behind(&self, place: usize) -> Option<u32>
        ensures link { result ≡ (node_at self.now.nodes place).behind }
    {
        link_of(self.items.get(place)?.behind)
    }

    /// Puts an order at the end, behind the one at a place of its level, where there is one.
    pub(crate) fn push(&mut self, order: Resting, before: Option<u32>)
        requires room { 1 ≤ self.old.room }
        requires before { IfSome before (λ place. place < length self.old.nodes) }
        ensures few { length self.old.nodes < 2 ^ 28 }
        ensures nodes { self.new.nodes ≡ self.old.nodes ++ (record { order = Some order; before = before; behind = None }) ∷ [] }
        ensures room { self.old.room ≤ self.new.room + 1 }
    {
        self.items.push_reserved(Node {
            order,
            before: link_to(before),
            behind: NO_LINK,
        });
    }

    /// Writes down which order is behind that at a place, where there is one.
    pub(crate) fn set_behind(&mut self, place: Option<u32>, behind: Option<u32>)
        requires live { IfSome place (λ at. IsSome (in_node self.old.nodes at)) }
        requires fits { IfSome behind (λ at. at < 2 ^ 28) }
        ensures nodes { self.new.nodes ≡ with_behind self.old.nodes place behind }
        ensures room { self.new.room ≡ self.old.room }
    {
        let Some(place) = place else {
            return;
        };
        self.items[place as usize].behind = link_to(behind);
    }

    /// Writes down which order is before that at a place, where there is one.
    pub(crate) fn set_before(&mut self, place: Option<u32>, before: Option<u32>)
        requires live { IfSome place (λ at. IsSome (in_node self.old.nodes at)) }
        requires fits { IfSome before (λ at. at < 2 ^ 28) }
        ensures nodes { self.new.nodes ≡ with_before self.old.nodes place before }
        ensures room { self.new.room ≡ self.old.room }
    {
        let Some(place) = place else {
            return;
        };
        self.items[place as usize].before = link_to(before);
    }

    /// The order at a place has so many lots left from now on.
    pub(crate) fn lower(&mut self, place: usize, left: Lots)
        requires live { IsSome (in_node self.old.nodes place) }
        ensures nodes { IfSome (in_node self.old.nodes place) (λ order. self.new.nodes ≡ slice_set self.old.nodes place (record (node_at self.old.nodes place) { order = Some (record order { left = left }) })) }
        ensures room { self.new.room ≡ self.old.room }
    {
        self.items[place].order.left = left;
    }

    /// The order at a place is gone.
    pub(crate) fn clear(&mut self, place: usize)
        requires within { place < length self.old.nodes }
        ensures nodes { self.new.nodes ≡ slice_set self.old.nodes place no_node }
        ensures room { self.new.room ≡ self.old.room }
    {
        self.items[place] = Node {
            order: self.items[place].order,
            before: NO_LINK,
            behind: GONE,
        };
    }
}

/// The order of a node; `None` where it is gone.
fn order_of(node: &Node) -> Option<Resting>
    ensures { result ≡ order_of node.now }
{
    if node.behind == GONE {
        None
    } else {
        Some(node.order)
    }
}

/// The place that a link tells; `None` where it tells of none.
fn link_of(link: u32) -> Option<u32>
    ensures { result ≡ link_of link }
{
    if (link as usize) < PLACES {
        Some(link)
    } else {
        None
    }
}

/// The link that tells a place, or none.
fn link_to(place: Option<u32>) -> u32
    ensures { result ≡ link_to place }
{
    match place {
        Some(place) => place,
        None => NO_LINK,
    }
}
