ghost use Rattle.std.specs.Prelude.{ℕ, ◌≡◌, ◌≤◌, [], ◌∷◌, ◌++◌, Some, slice_index, slice_set, OnOk, OnErr};
ghost use Rattle.client_desk.specs.declared.rows.Slot.{Slot};
ghost use Rattle.client_desk.specs.inside.Books.{empty_row, slot_numbered, slot_rests};
ghost use Rattle.client_desk.specs.inside.Changes.{left_at, lowered_row, owner_numbered};

use crate::client::ClientId;
use fx_amounts::{Memory, PairId};
use std::alloc::Global;
use std::marker::Model;

/// What is kept of a command: its owner, where it has one, and of an owner's order its pair and the lots that rest of it, 0 to
/// 10^6; 0 where none do.
#[derive(Clone, Copy, Debug)]
pub(crate) struct Slot {
    pub owner: Option<ClientId>,
    pub pair: PairId,
    pub left: u32,
}

impl Slot {
    /// Whether an order of this client rests in this pair.
    pub(crate) fn rests_for(&self, client: ClientId, pair: PairId) -> bool
        ensures value { result ≡ slot_rests self.now client pair }
    {
        self.owner == Some(client) && self.pair == pair && self.left > 0
    }
}

/// A sender's commands, in the order of their numbers: that of number 1 stands at the first place.
#[derive(Debug, Drop)]
pub(crate) struct SlotRow {
    slots: Vec<Slot>,
    /// By pair: so many commands, from the first on, have no lots left in it.
    swept: [u32; PairId::COUNT],
}

impl Model for SlotRow {
    ghost use Rattle.client_desk.specs.Standing.{Row};

    ghost Value = { Row };

    ghost view = { λ r. record { slots = r.slots.items; swept = r.swept } };
}

impl SlotRow {
    /// No commands. It takes no memory.
    pub(crate) fn new(alloc: Global) -> SlotRow
        ensures empty { result ≡ empty_row }
    {
        SlotRow {
            slots: Vec::new(alloc),
            swept: [0; PairId::COUNT],
        }
    }

    /// What is kept of the command of a number; `None` where there is no such command.
    pub(crate) fn slot(&self, number: u32) -> Option<Slot>
        ensures value { result ≡ slot_numbered self.now.slots number }
    {
        let place = number.checked_sub(1)?;
        self.slots.get(place as usize).copied()
    }

    /// Adds a command behind the others. `Memory` when out of memory; then the row is as it was.
    pub(crate) fn push(
        &mut self,
        owner: Option<ClientId>,
        pair: PairId,
        left: u32,
    ) -> Result<(), Memory>
        ensures pushed { OnOk result (self.new ≡ record self.old { slots = self.old.slots ++ (record { owner = owner; pair = pair; left = left }) ∷ [] }) }
        ensures memory { OnErr result (self.new ≡ self.old) }
    {
        self.slots.reserve(1)?;
        self.slots.push_reserved(Slot { owner, pair, left });
        Ok(())
    }

    /// Takes lots from what an order has left, where its command has an owner, and tells the owner.
    pub(crate) fn lower(&mut self, number: u32, lots: u32) -> Option<ClientId>
        requires left { (slot : Slot) (c : ℕ) → slot_numbered self.old.slots number ≡ Some slot → slot.owner ≡ Some c → lots ≤ slot.left }
        ensures owner { result ≡ owner_numbered self.old.slots number }
        ensures lowered { self.new ≡ lowered_row self.old number lots }
    {
        let slot = self.slot(number)?;
        let owner = slot.owner?;
        self.slots[number as usize - 1] = Slot {
            owner: slot.owner,
            pair: slot.pair,
            left: slot.left - lots,
        };
        Some(owner)
    }

    /// The lots that are kept of the order of a number in a pair; 0 where there is no such command.
    pub(crate) fn left(&self, number: u32, pair: PairId) -> u32
        ensures value { result ≡ left_at (slot_numbered self.now.slots number) pair }
    {
        match self.slot(number) {
            Some(slot) if slot.pair == pair => slot.left,
            _ => 0,
        }
    }

    /// So many commands, from the first on, have no lots left in a pair.
    pub(crate) fn swept(&self, pair: PairId) -> u32
        ensures value { result ≡ slice_index self.now.swept pair }
    {
        self.swept[pair.index()]
    }

    /// So many commands, from the first on, have no lots left in a pair now.
    pub(crate) fn sweep(&mut self, pair: PairId, count: u32)
        ensures value { self.new ≡ record self.old { swept = slice_set self.old.swept pair count } }
    {
        self.swept[pair.index()] = count;
    }
}
