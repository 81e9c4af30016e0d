ghost use Rattle.std.specs.Prelude.{ℕ, ◌≡◌, ◌≤◌, ◌<◌, ◌==◌, ◌^◌, ◌↔◌, [], None, Some, true, if◌then◌else◌, is_some, IfSome, IsSome, OnOk};
ghost use Rattle.price_levels.specs.Rungs.{IsNextRank, kept_at};
ghost use Rattle.price_levels.specs.inside.Far.{IsNextKept, far_level};

use crate::level::Level;
use fx_amounts::Memory;
use std::alloc::Global;
use std::collections::BTreeMap;
use std::marker::Model;

/// The levels at ranks far from the window of a ladder, by rank. One that is kept may be without orders, so that an order that comes to
/// rest there takes no memory. All ranks are below 2^31.
#[derive(Drop)]
pub(crate) struct FarLevels {
    levels: BTreeMap<u32, Level>,
}

impl Model for FarLevels {
    ghost use Rattle.std.specs.Prelude.{ℕ, List};
    ghost use Rattle.price_levels.specs.declared.level.Level.{Level};
    ghost use Rattle.price_levels.specs.inside.Far.{AreLow};

    ghost Value = { List (ℕ × Level) };

    ghost view = { λ f. f.levels.entries };

    ghost invariant = { λ f. AreLow f.levels.entries };
}

impl FarLevels {
    /// No levels. It takes no memory.
    pub(crate) fn new(alloc: Global) -> Self
        ensures { (rank : ℕ) → kept_at result rank ≡ None }
    {
        FarLevels {
            levels: BTreeMap::new(alloc),
        }
    }

    /// The level of a rank; `None` where it is not kept here.
    pub(crate) fn level(&self, rank: u32) -> Option<Level>
        ensures { result ≡ kept_at self.now rank }
    {
        self.levels.get(&rank).copied()
    }

    /// Whether no rank is kept here.
    pub(crate) fn is_empty(&self) -> bool
        ensures none { result ≡ true → (rank : ℕ) → kept_at self.now rank ≡ None }
        ensures empty { (result ≡ true) ↔ (self.now ≡ []) }
    {
        self.levels.is_empty()
    }

    /// Sees to it that a rank is kept; it has no orders where it was not kept before. At `Memory` all is as it was.
    pub(crate) fn keep(&mut self, rank: u32) -> Result<(), Memory>
        requires low { rank < 2 ^ 31 }
        ensures kept { OnOk result (IsSome (kept_at self.new rank)) }
        ensures levels { (other : ℕ) → far_level self.new other ≡ far_level self.old other }
        ensures others { (other : ℕ) → (other ≡ rank → ⊥) → kept_at self.new other ≡ kept_at self.old other }
    {
        if self.levels.contains_key(&rank) {
            return Ok(());
        }
        self.levels.insert(rank, Level::NONE)?;
        Ok(())
    }

    /// Keeps a rank no longer, if it has no orders.
    pub(crate) fn take_empty(&mut self, rank: u32)
        ensures levels { (other : ℕ) → far_level self.new other ≡ far_level self.old other }
        ensures others { (other : ℕ) → (other ≡ rank → ⊥) → kept_at self.new other ≡ kept_at self.old other }
        ensures no_others { (other : ℕ) → kept_at self.old other ≡ None → kept_at self.new other ≡ None }
    {
        if self.level(rank) == Some(Level::NONE) {
            self.levels.remove(&rank);
        }
    }

    /// Writes down the level of a rank that is kept here.
    pub(crate) fn set(&mut self, rank: u32, level: Level)
        requires kept { IsSome (kept_at self.old rank) }
        ensures { (other : ℕ) → kept_at self.new other ≡ (if other == rank then Some level else kept_at self.old other) }
    {
        let kept = self.levels.get_mut(&rank).unwrap();
        *kept = level;
    }

    /// Takes the level of a rank out.
    pub(crate) fn take(&mut self, rank: u32) -> Option<Level>
        ensures level { result ≡ kept_at self.old rank }
        ensures levels { (other : ℕ) → kept_at self.new other ≡ (if other == rank then None else kept_at self.old other) }
    {
        self.levels.remove(&rank)
    }

    /// The first rank that is kept here from a rank on, with its level; `None` where there is none.
    pub(crate) fn first_from(&self, from: u32) -> Option<(u32, Level)>
        ensures found { IfSome result (λ entry. IsNextKept self.now from entry.0 entry.1) }
        ensures none { result ≡ None → (rank : ℕ) → from ≤ rank → kept_at self.now rank ≡ None }
    {
        let (rank, level) = self.levels.range(from..).next()?;
        Some((*rank, *level))
    }

    /// The first rank with orders from a rank on; `None` where there is none. It passes the ranks that are kept without orders.
    pub(crate) fn next(&self, from: u32) -> Option<u32>
        ensures found { IfSome result (IsNextRank (far_level self.now) from) }
        ensures none { result ≡ None → (rank : ℕ) → from ≤ rank → (far_level self.now rank).lots ≡ 0 }
    {
        if self.levels.is_empty() {
            return None;
        }
        let mut start = from;
        while let Some((rank, level)) = self.first_from(start) {
            if level.lots != 0 {
                return Some(rank);
            }
            start = rank + 1;
        }
        None
    }
}
