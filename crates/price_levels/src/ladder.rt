ghost use Rattle.std.specs.Prelude.{ℕ, ◌≡◌, ◌+◌, ◌-◌, ◌≤◌, ◌<◌, ◌^◌, ◌↔◌, [], None, false, true, length, max, min, slice_index, IfSome, IsSome, OnOk};
ghost use Rattle.price_levels.specs.Rungs.{AreMarks, IsNextRank, covers, holds, level_at, lots_below, either_level, most_ranks, with_level_at};
ghost use Rattle.price_levels.specs.Ticks.{last_of_level, no_level, with_order, without_order};
ghost use Rattle.price_levels.specs.inside.Far.{AreApart, has_rank};

use crate::far_levels::FarLevels;
use crate::level::Level;
use crate::window::{RANKS, Window};
use fx_amounts::{Lots, Memory};
use std::alloc::Global;
use std::marker::Model;

/// How many ranks a window may have in any case.
const ALWAYS: usize = 4_096;

/// How many ranks a window may have for each level in it with orders.
const FOR_EACH: usize = 16;

/// How many ranks a window may have at most, so that a search of its row of bits reads 1,024 words at most.
const AT_MOST: usize = 65_536;

/// The levels of one owner and side. Those near one another lie in a window of ranks, and those far from it in a sorted map. The lower a
/// rank, the better its price, so the best level is the first one.
#[derive(Drop)]
pub struct Ladder {
    near: Window,
    far: FarLevels,
    /// The far rank that was made ready last. It is kept also without orders.
    ready: Option<u32>,
}

impl Model for Ladder {
    ghost use Rattle.price_levels.specs.Rungs.{Rungs};
    ghost use Rattle.price_levels.specs.inside.Far.{AreApart};

    ghost Value = { Rungs };

    ghost view = { λ l. record { near = l.near; far = l.far; ready = l.ready } };

    ghost invariant = { λ l. AreApart l.near l.far };
}

impl Ladder {
    /// No levels. It takes no memory.
    pub fn new(alloc: Global) -> Self
        ensures { (rank : ℕ) → level_at result rank ≡ no_level }
    {
        Ladder {
            near: Window::new(alloc),
            far: FarLevels::new(alloc),
            ready: None,
        }
    }

    /// The level of a rank; one without orders where none has come to rest there.
    #[inline(always)]
    pub fn level(&self, rank: u32) -> Level
        ensures { result ≡ level_at self.now rank }
    {
        if self.near.covers(rank) {
            return self.near.level(rank);
        }
        self.far.level(rank).unwrap_or(Level::NONE)
    }

    /// Sees to it that an order can come to rest at a rank below 2^31 without taking memory, until this is asked for another rank. The
    /// window is widened to the rank where it then has at most 4,096 ranks, or 16 for each of its levels with orders, and never more than
    /// 65,536; else the rank is kept by itself, and takes the place of the one that was made ready so before. At `Memory` each level is as it
    /// was.
    #[inline(always)]
    pub fn reserve(&mut self, rank: u32) -> Result<(), Memory>
        requires rank { rank < 2 ^ 31 }
        ensures holds { OnOk result (holds self.new rank ≡ true) }
        ensures levels { (other : ℕ) → level_at self.new other ≡ level_at self.old other }
        ensures size { length self.new.near.levels ≤ max (length self.old.near.levels) (most_ranks self.old.near) }
    {
        if self.near.covers(rank) {
            return Ok(());
        }
        if self.near.span(rank) > self.most() {
            return self.make_ready(rank);
        }
        self.near.reserve(rank)?;
        draw_near(&mut self.near, &mut self.far);
        Ok(())
    }

    /// Makes a rank that is not in the window ready for an order, in place of the one that was made ready before.
    fn make_ready(&mut self, rank: u32) -> Result<(), Memory>
        requires far { covers self.old.near rank ≡ false }
        requires low { rank < 2 ^ 31 }
        ensures holds { OnOk result (holds self.new rank ≡ true) }
        ensures levels { (other : ℕ) → level_at self.new other ≡ level_at self.old other }
        ensures near { self.new.near ≡ self.old.near }
    {
        self.far.keep(rank)?;
        if let Some(ready) = self.ready {
            if ready != rank {
                self.far.take_empty(ready);
            }
        }
        self.ready = Some(rank);
        Ok(())
    }

    /// How many ranks the window may have.
    fn most(&self) -> usize
        ensures { result ≡ most_ranks self.now.near }
    {
        (self.near.used() * FOR_EACH).max(ALWAYS).min(AT_MOST)
    }

    /// An order of so many lots comes to rest at a rank that was made ready for it, behind all others there. It answers the place of the
    /// last of these, where there is one.
    #[inline(always)]
    pub fn insert(&mut self, rank: u32, place: u32, lots: Lots) -> Option<u32>
        requires holds { holds self.old rank ≡ true }
        requires fits { (level_at self.old rank).lots + lots < 2 ^ 64 }
        ensures before { result ≡ last_of_level (level_at self.old rank) }
        ensures levels { (other : ℕ) → level_at self.new other ≡ with_level_at (level_at self.old) rank (with_order (level_at self.old rank) place lots) other }
        ensures holds { (other : ℕ) → holds self.new other ≡ holds self.old other }
    {
        let level = self.level(rank);
        self.set(rank, level.with(place, lots));
        if level.lots == 0 {
            return None;
        }
        Some(level.last)
    }

    /// One of the orders of a rank has so many lots less, and some left.
    pub fn lower(&mut self, rank: u32, lots: Lots)
        requires above { lots < (level_at self.old rank).lots }
        ensures levels { (other : ℕ) → level_at self.new other ≡ with_level_at (level_at self.old) rank (record (level_at self.old rank) { lots = (level_at self.old rank).lots - lots }) other }
        ensures holds { (other : ℕ) → holds self.new other ≡ holds self.old other }
    {
        let level = self.level(rank);
        self.set(rank, level.lowered(lots));
    }

    /// An order of a rank goes, which had so many lots left and stood between two others of the rank, where there are such.
    pub fn remove(&mut self, rank: u32, lots: Lots, before: Option<u32>, behind: Option<u32>)
        requires has { lots ≤ (level_at self.old rank).lots }
        ensures levels { (other : ℕ) → level_at self.new other ≡ with_level_at (level_at self.old) rank (without_order (level_at self.old rank) lots before behind) other }
        ensures holds { (other : ℕ) → holds self.new other ≡ holds self.old other }
    {
        prove!(lots.count() > 0);
        let level = self.level(rank).without(lots, before, behind);
        if level.lots == 0 {
            self.clear(rank);
        } else {
            self.set(rank, level);
        }
    }

    /// Writes down the level of a rank that is in the window or kept by itself.
    #[inline(always)]
    fn set(&mut self, rank: u32, level: Level)
        requires has { has_rank self.old rank ≡ true }
        ensures levels { (other : ℕ) → level_at self.new other ≡ with_level_at (level_at self.old) rank level other }
        ensures holds { (other : ℕ) → holds self.new other ≡ holds self.old other }
    {
        if self.near.covers(rank) {
            self.near.set(rank, level);
        } else {
            self.far.set(rank, level);
        }
    }

    /// A rank has no orders any longer.
    fn clear(&mut self, rank: u32)
        requires has { has_rank self.old rank ≡ true }
        ensures levels { (other : ℕ) → level_at self.new other ≡ with_level_at (level_at self.old) rank no_level other }
        ensures holds { (other : ℕ) → holds self.new other ≡ holds self.old other }
    {
        if self.near.covers(rank) {
            self.near.set(rank, Level::NONE);
        } else if self.ready == Some(rank) {
            self.far.set(rank, Level::NONE);
        } else {
            self.far.take(rank);
        }
    }

    /// The level of a rank, and the first rank behind it with orders; `None` where there is none.
    pub fn level_and_next(&self, rank: u32) -> (Level, Option<u32>)
        requires rank { rank < 2 ^ 32 - 1 }
        ensures level { result.0 ≡ level_at self.now rank }
        ensures found { IfSome result.1 (IsNextRank (level_at self.now) (rank + 1)) }
        ensures none { result.1 ≡ None → (other : ℕ) → rank < other → (level_at self.now other).lots ≡ 0 }
    {
        if self.far.is_empty() {
            return (self.near.level(rank), self.near.next(rank + 1));
        }
        (self.level(rank), self.next(rank + 1))
    }

    /// Which of the 64 ranks from one on have orders: the k-th bit is that of rank `from + k`. `None` where a rank far from the window is kept.
    #[inline(always)]
    pub fn marks(&self, from: u32) -> Option<u64>
        ensures marks { IfSome result (AreMarks (level_at self.now) from) }
        ensures none { IsSome result ↔ (self.now.far ≡ []) }
    {
        if self.far.is_empty() {
            return Some(self.near.marks(from));
        }
        None
    }

    /// Adds the lots at each of the ranks from one on up to `from + last` to its number in a list. No rank far from the window is kept, and
    /// `marks` tells which of the ranks have orders. It answers the sum of all that it adds; `None` where a rank has 2^32 lots or more, and then
    /// some may be added and others not.
    #[inline(always)]
    pub fn add_lots(&self, from: u32, marks: u64, last: u32, lots: &mut [u64; RANKS]) -> Option<u64>
        requires low { from ≤ 2 ^ 30 }
        requires last { last < 64 }
        requires near { self.now.far ≡ [] }
        requires marks { AreMarks (level_at self.now) from marks }
        requires room { (k : ℕ) → slice_index lots.old k < 2 ^ 63 }
        ensures sum { IfSome result (λ sum. sum ≡ lots_below (level_at self.now) from (last + 1)) }
        ensures small { IsSome result → (k : ℕ) → k ≤ last → (level_at self.now (from + k)).lots < 2 ^ 32 }
        ensures large { result ≡ None → (k : ℕ) × (k ≤ last) × (2 ^ 32 ≤ (level_at self.now (from + k)).lots) }
        ensures added { IsSome result → (k : ℕ) → k ≤ last → slice_index lots.new k ≡ slice_index lots.old k + (level_at self.now (from + k)).lots }
        ensures others { (k : ℕ) → last < k → slice_index lots.new k ≡ slice_index lots.old k }
    {
        self.near.add_lots(from, marks, last, lots)
    }

    /// The first rank with orders from a rank on; `None` where there is none.
    pub fn next(&self, from: u32) -> Option<u32>
        ensures found { IfSome result (IsNextRank (level_at self.now) from) }
        ensures none { result ≡ None → (rank : ℕ) → from ≤ rank → (level_at self.now rank).lots ≡ 0 }
    {
        match (self.near.next(from), self.far.next(from)) {
            (Some(near), Some(far)) => Some(near.min(far)),
            (Some(near), None) => Some(near),
            (None, far) => far,
        }
    }
}

/// Moves the far levels at ranks of the window into it.
fn draw_near(near: &mut Window, far: &mut FarLevels)
    ensures levels { (rank : ℕ) → either_level near.new far.new rank ≡ either_level near.old far.old rank }
    ensures covers { (rank : ℕ) → covers near.new rank ≡ covers near.old rank }
    ensures size { length near.new.levels ≡ length near.old.levels }
    ensures apart { AreApart near.new far.new }
{
    let mut from = near.base();
    while let Some((rank, level)) = far.first_from(from) {
        if !near.covers(rank) {
            return;
        }
        far.take(rank);
        near.set(rank, level);
        from = rank + 1;
    }
}
