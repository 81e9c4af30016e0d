ghost use Rattle.std.specs.Prelude.{◌≡◌, ◌≤◌, ◌<◌, ◌==◌, [], false, filter, if◌then◌else◌, length, nat_lt, not, vec_capacity, vec_len, IfOk};
ghost use Rattle.std.specs.List.Sorted.{IsPartitionedBy};
ghost use Rattle.global_book.specs.inside.Owning.{with_bank};

use fx_amounts::{BankId, Memory};
use std::alloc::Global;
use std::marker::Model;

/// Banks, each once, from the lowest number on. It has capacity for all of them.
#[derive(Drop)]
pub(crate) struct OwnerList {
    banks: Vec<BankId>,
}

impl Model for OwnerList {
    ghost use Rattle.std.specs.Prelude.{ℕ, ◌≤◌, List, vec_capacity};

    ghost Value = { List ℕ };

    ghost view = { λ l. l.banks.items };

    ghost invariant = { λ l. 64 ≤ vec_capacity l.banks };
}

impl OwnerList {
    /// No banks. `Memory` when out of memory.
    pub(crate) fn new(alloc: Global) -> Result<OwnerList, Memory>
        ensures { IfOk result (λ list. list ≡ []) }
    {
        let mut banks = Vec::new(alloc);
        banks.reserve(BankId::COUNT)?;
        Ok(OwnerList { banks })
    }

    /// The allocator that it has its bytes of.
    pub(crate) fn allocator(&self) -> Global {
        *self.banks.allocator()
    }

    /// The banks.
    pub(crate) fn banks(&self) -> &[BankId]
        ensures { result.now ≡ self.now }
    {
        self.banks.as_slice()
    }

    /// Puts a bank among the others, in the order of their numbers, unless it is among them.
    #[inline(always)]
    pub(crate) fn list_new(&mut self, bank: BankId, is_listed: bool)
        requires room { is_listed ≡ false → length self.old < 64 }
        requires in_order { IsPartitionedBy (λ other. nat_lt other bank) self.old }
        ensures { self.new ≡ (if is_listed then self.old else with_bank bank self.old) }
    {
        if !is_listed {
            list(&mut self.banks, bank);
        }
    }

    /// Takes a bank out, unless it still has an order.
    pub(crate) fn unlist_gone(&mut self, bank: BankId, owns: bool)
        ensures { self.new ≡ (if owns then self.old else filter (λ other. not (other == bank)) self.old) }
    {
        if !owns {
            unlist(&mut self.banks, bank);
        }
    }
}

/// Puts a bank among others, in the order of their numbers, where there is room.
fn list(banks: &mut Vec<BankId>, bank: BankId)
    requires room { vec_len banks.old < vec_capacity banks.old }
    requires in_order { IsPartitionedBy (λ other. nat_lt other bank) banks.old.items }
    ensures banks { banks.new.items ≡ with_bank bank banks.old.items }
    ensures room { vec_capacity banks.old ≤ vec_capacity banks.new }
{
    let at = banks.partition_point(|other| *other < bank);
    banks.insert(at, bank).unwrap();
}

/// Takes a bank out, and leaves its room.
fn unlist(banks: &mut Vec<BankId>, bank: BankId)
    ensures banks { banks.new.items ≡ filter (λ other. not (other == bank)) banks.old.items }
    ensures room { vec_capacity banks.new ≡ vec_capacity banks.old }
{
    banks.retain(|other| *other != bank);
}
