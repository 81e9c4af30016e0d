ghost use Rattle.std.specs.Prelude.{◌≡◌, ◌+◌, ◌++◌, All, IsPermutation, IsSome, List, length, IfOk, OnErr, OnOk};
ghost use Rattle.fx_rules.specs.declared.orders.Resting.{Resting};
ghost use Rattle.order_store.specs.Linked.{AreListed};
ghost use Rattle.order_store.specs.Orders.{order_at};
ghost use Rattle.global_book.specs.Book.{crossing};
ghost use Rattle.global_book.specs.inside.Crossing.{levels_from};
ghost use Rattle.global_book.specs.inside.Linked.{orders_in};

use crate::linked::LinkedOrders;
use crate::side_ladders::rank_of;
use fx_amounts::{BankId, Memory, Price, Side};
use fx_rules::Resting;
use price_levels::Steps;
use std::alloc::Global;
use std::sync::ledger::Ledger;

impl LinkedOrders {
    /// Puts a bank's orders of a side that cross `top`, a price of the other side, behind those that `orders` has: the first ones of all levels,
    /// then the second ones, and so on, so that no look at an order waits for the one before it. One step, and one for each order that it
    /// puts there. At `Memory` `orders` may have some of them.
    pub(crate) fn gather_crossing<L: Ledger>(
        &self,
        bank: BankId,
        side: Side,
        top: Price,
        orders: &mut Vec<Resting>,
        steps: &mut Steps<L>,
    ) -> Result<(), Memory>
        ensures gathered { OnOk result ((gathered : List Resting) × (orders.new.items ≡ orders.old.items ++ gathered) × IsPermutation (crossing bank side top (orders_in self.now)) gathered) }
        ensures steps { OnOk result (steps.new + length orders.old.items ≡ steps.old + 1 + length orders.new.items) }
        ensures memory { OnErr result ((more : List Resting) × (orders.new.items ≡ orders.old.items ++ more)) }
    {
        steps.tick();
        let mut places = self.crossing_levels(*orders.allocator(), bank, side, top)?;
        let mut at = 0;
        while at < places.len() {
            let place = places[at];
            orders.push(self.order(place))?;
            if let Some(next) = self.behind_in_level(place) {
                places.push(next)?;
            }
            steps.tick();
            at += 1;
        }
        Ok(())
    }

    /// The places of the first orders of a bank's levels of a side that cross `top`, a price of the other side. `Memory` when out of memory.
    fn crossing_levels(
        &self,
        alloc: Global,
        bank: BankId,
        side: Side,
        top: Price,
    ) -> Result<Vec<u32>, Memory>
        ensures levels { IfOk result (λ places. IsPermutation (crossing bank side top (orders_in self.now)) (levels_from self.now.orders.slots places.items)) }
        ensures live { IfOk result (λ places. All (λ place. IsSome (order_at self.now.orders place)) places.items) }
        ensures valid { AreListed self.now.orders }
    {
        let limit = rank_of(side, top);
        let mut places = Vec::new(alloc);
        let mut from = 0;
        while let Some(head) = self.head_from(bank, side, from) {
            if head.rank > limit {
                return Ok(places);
            }
            places.push(head.place)?;
            from = head.rank + 1;
        }
        Ok(places)
    }
}
