ghost use Rattle.std.specs.Prelude.{ℕ, ◌≡◌, ◌+◌, ◌-◌, ◌*◌, ◌^◌, ◌≤◌, ◌<◌, None, [], length, max, slice_index, slice_set, IfOk, IfSome, IsSome, OnErr, OnOk};
ghost use Rattle.std.specs.Int.{bit_at};
ghost use Rattle.std.specs.List.{sum_by};
ghost use Rattle.price_levels.specs.Rungs.{AreMarks, IsNextRank, covers, lots_below};
ghost use Rattle.price_levels.specs.Ticks.{Covers, last_of_level, level_of, mark_of, no_level, span_of, used_of, with_level, with_order, without_order};
ghost use Rattle.price_levels.specs.inside.Marked.{padded};

use crate::bit_row::{WORD, first_mark, mark, unmark};
use crate::level::Level;
use fx_amounts::{Lots, Memory, room_for};
use std::alloc::Global;
use std::marker::Model;

/// How many ranks are looked at together.
pub const RANKS: usize = 64;

/// The levels of one owner and side in a window of ranks, one for each tick of the price, under a row of bits that tells which ranks
/// have orders. The lower a rank, the better its price, so the best level is the first one.
///
/// It is a part of an owner's ladder.
#[derive(Debug, Drop)]
pub struct Window {
    /// The first rank.
    base: u32,
    levels: Vec<Level>,
    /// A word for each 64 levels.
    words: Vec<u64>,
    /// How many levels have orders.
    used: usize,
}

impl Model for Window {
    ghost use Rattle.price_levels.specs.Ticks.{Ticks};
    ghost use Rattle.price_levels.specs.inside.Marked.{AreMarked};

    ghost Value = { Ticks };

    ghost view = { λ w. record { base = w.base; levels = w.levels.items } };

    ghost invariant = { λ w. AreMarked w.base w.levels.items w.words.items w.used };
}

impl Window {
    /// A window of no ranks. It takes no memory.
    pub fn new(alloc: Global) -> Self
        ensures { result.levels ≡ [] }
    {
        Window {
            base: 0,
            levels: Vec::new(alloc),
            words: Vec::new(alloc),
            used: 0,
        }
    }

    /// The first rank of the window.
    pub(crate) fn base(&self) -> u32
        ensures { result ≡ self.now.base }
    {
        self.base
    }

    /// Whether a rank is in the window.
    pub(crate) fn covers(&self, rank: u32) -> bool
        ensures { result ≡ covers self.now rank }
    {
        rank >= self.base && ((rank - self.base) as usize) < self.levels.len()
    }

    /// How many ranks of the window have orders.
    pub(crate) fn used(&self) -> usize
        ensures used { result ≡ used_of self.now }
        ensures few { result ≤ 2 ^ 32 }
    {
        self.used
    }

    /// How many ranks the window has at most once it covers a rank too.
    pub(crate) fn span(&self, rank: u32) -> usize
        ensures { result ≡ span_of self.now rank }
    {
        let block = rank as usize / WORD;
        let first = self.base as usize / WORD;
        let count = self.words.len();
        if count == 0 {
            return WORD;
        }
        let blocks = (first + count).max(block + 1) - first.min(block);
        (blocks + blocks / 4) * WORD
    }

    /// The level of a rank; one without orders where the rank is outside of the window.
    pub fn level(&self, rank: u32) -> Level
        ensures { result ≡ level_of self.now rank }
    {
        if rank < self.base {
            return Level::NONE;
        }
        let at = (rank - self.base) as usize;
        match self.levels.get(at) {
            Some(level) => *level,
            None => Level::NONE,
        }
    }

    /// An order of so many lots comes to rest at a rank of the window, behind all others there. It answers the place of the last of
    /// these, where there is one.
    pub fn insert(&mut self, rank: u32, place: u32, lots: Lots) -> Option<u32>
        requires covered { Covers self.old rank }
        requires fits { (level_of self.old rank).lots + lots < 2 ^ 64 }
        ensures before { result ≡ last_of_level (level_of self.old rank) }
        ensures levels { self.new ≡ with_level self.old rank (with_order (level_of self.old rank) place lots) }
    {
        let level = self.level(rank);
        self.set(rank, level.with(place, lots));
        if level.lots == 0 {
            return None;
        }
        Some(level.last)
    }

    /// One of the orders of a rank has so many lots less, and some left.
    pub fn lower(&mut self, rank: u32, lots: Lots)
        requires above { lots < (level_of self.old rank).lots }
        ensures { self.new ≡ with_level self.old rank (record (level_of self.old rank) { lots = (level_of self.old rank).lots - lots }) }
    {
        let level = self.level(rank);
        self.set(rank, level.lowered(lots));
    }

    /// An order of a rank goes, which had so many lots left and stood between two others of the rank, where there are such.
    pub fn remove(&mut self, rank: u32, lots: Lots, before: Option<u32>, behind: Option<u32>)
        requires has { lots ≤ (level_of self.old rank).lots }
        ensures { self.new ≡ with_level self.old rank (without_order (level_of self.old rank) lots before behind) }
    {
        let level = self.level(rank);
        self.set(rank, level.without(lots, before, behind));
    }

    /// Writes down the level of a rank of the window.
    #[inline(always)]
    pub(crate) fn set(&mut self, rank: u32, level: Level)
        requires covered { Covers self.old rank }
        ensures { self.new ≡ with_level self.old rank level }
    {
        let at = (rank - self.base) as usize;
        self.used = used_after(&self.levels, self.used, at, level);
        self.levels[at] = level;
        if level.lots == 0 {
            unmark(&mut self.words, at);
        } else {
            mark(&mut self.words, at);
        }
    }

    /// The first rank with orders from a rank on; `None` where there is none.
    pub fn next(&self, from: u32) -> Option<u32>
        ensures found { IfSome result (IsNextRank (level_of self.now) from) }
        ensures none { result ≡ None → (rank : ℕ) → from ≤ rank → (level_of self.now rank).lots ≡ 0 }
    {
        let start = from.saturating_sub(self.base) as usize;
        let at = first_mark(&self.words, start)?;
        Some(self.base + at as u32)
    }

    /// Which of the 64 ranks from one on have orders: the k-th bit is that of rank `from + k`.
    pub(crate) fn marks(&self, from: u32) -> u64
        ensures { AreMarks (level_of self.now) from result }
    {
        let (low, high) = self.two_words(from as usize / WORD);
        let both = (u128::from(high) << WORD) + u128::from(low);
        ((both >> (from as usize % WORD)) % (1 << WORD)) as u64
    }

    /// The marks of a block of 64 ranks, and of the block behind it. Mostly both are in the window; then each is looked for once.
    fn two_words(&self, block: usize) -> (u64, u64)
        requires low { block < 2 ^ 32 }
        ensures low { (k : ℕ) → k < 64 → bit_at result.0 k ≡ mark_of (level_of self.now (64 * block + k)) }
        ensures fits { (result.0 < 2 ^ 64) × (result.1 < 2 ^ 64) }
        ensures high { (k : ℕ) → k < 64 → bit_at result.1 k ≡ mark_of (level_of self.now (64 * (block + 1) + k)) }
    {
        let first = self.base as usize / WORD;
        if block >= first {
            let at = block - first;
            if at + 1 < self.words.len() {
                return (self.words[at], self.words[at + 1]);
            }
        }
        (self.word(block), self.word(block + 1))
    }

    /// The marks of a block of 64 ranks.
    fn word(&self, block: usize) -> u64
        ensures { (k : ℕ) → k < 64 → bit_at result k ≡ mark_of (level_of self.now (64 * block + k)) }
    {
        let first = self.base as usize / WORD;
        if block < first {
            return 0;
        }
        match self.words.get(block - first) {
            Some(word) => *word,
            None => 0,
        }
    }

    /// Adds the lots at each of the ranks from one on up to `from + last` to its number in a list; `marks` tells which of the ranks have orders.
    /// It answers the sum of all that it adds; `None` where a rank has 2^32 lots or more, and then some may be added and others not.
    #[inline(always)]
    pub(crate) fn add_lots(
        &self,
        from: u32,
        marks: u64,
        last: u32,
        lots: &mut [u64; RANKS],
    ) -> Option<u64>
        requires low { from ≤ 2 ^ 30 }
        requires last { last < 64 }
        requires marks { AreMarks (level_of self.now) from marks }
        requires room { (k : ℕ) → slice_index lots.old k < 2 ^ 63 }
        ensures sum { IfSome result (λ sum. sum ≡ lots_below (level_of self.now) from (last + 1)) }
        ensures small { IsSome result → (k : ℕ) → k ≤ last → (level_of self.now (from + k)).lots < 2 ^ 32 }
        ensures large { result ≡ None → (k : ℕ) × (k ≤ last) × (2 ^ 32 ≤ (level_of self.now (from + k)).lots) }
        ensures added { IsSome result → (k : ℕ) → k ≤ last → slice_index lots.new k ≡ slice_index lots.old k + (level_of self.now (from + k)).lots }
        ensures others { (k : ℕ) → last < k → slice_index lots.new k ≡ slice_index lots.old k }
    {
        let mut sum: u64 = 0;
        let mut left = marks & (u64::MAX >> (63 - last));
        while left != 0 {
            let at = left.trailing_zeros();
            left &= !(1 << at);
            let count = self.levels[(from + at - self.base) as usize].lots;
            if count > u64::from(u32::MAX) {
                return None;
            }
            sum += count;
            lots[at as usize] += count;
        }
        Some(sum)
    }

    /// Has the window cover a rank below 2^31. It grows by blocks of 64 ranks on the side where the rank lies, by a quarter more than is
    /// needed, so that this is seldom done. At `Memory` it is as it was.
    pub fn reserve(&mut self, rank: u32) -> Result<(), Memory>
        requires rank { rank < 2 ^ 31 }
        ensures covers { OnOk result (Covers self.new rank) }
        ensures levels { (other : ℕ) → level_of self.new other ≡ level_of self.old other }
        ensures size { length self.new.levels ≤ max (length self.old.levels) (span_of self.old rank) }
        ensures memory { OnErr result (self.new ≡ self.old) }
    {
        let block = rank as usize / WORD;
        let first = self.base as usize / WORD;
        let count = self.words.len();
        if count == 0 {
            return self.lay(block, 0, 1);
        }
        if block < first {
            let more = first - block;
            let spare = ((count + more) / 4).min(block);
            return self.lay(block - spare, more + spare, 0);
        }
        if block >= first + count {
            let more = block - first - count + 1;
            return self.lay(first, 0, more + (count + more) / 4);
        }
        Ok(())
    }

    /// Lays the levels out anew from a block of 64 ranks on, behind so many blocks without orders and in front of others. At `Memory` the
    /// window is as it was.
    fn lay(&mut self, first: usize, before: usize, after: usize) -> Result<(), Memory>
        requires more { 1 ≤ before + after }
        requires few { 64 * (first + before + after) + length self.old.levels ≤ 2 ^ 32 }
        ensures base { OnOk result (self.new.base ≡ 64 * first) }
        ensures levels { OnOk result (self.new.levels ≡ padded no_level self.old.levels (64 * before) (64 * after)) }
        ensures memory { OnErr result (self.new ≡ self.old) }
    {
        let alloc = *self.levels.allocator();
        let levels = padded_levels(alloc, &self.levels, before * WORD, after * WORD)?;
        let words = padded_words(alloc, &self.words, before, after)?;
        self.base = (first * WORD) as u32;
        self.levels = levels;
        self.words = words;
        Ok(())
    }
}

/// How many levels have orders, of which so many have, once one of them is another.
fn used_after(levels: &[Level], used: usize, at: usize, level: Level) -> usize
    requires used { used ≡ sum_by mark_of levels.now }
    requires few { length levels.now ≤ 2 ^ 32 }
    requires within { at < length levels.now }
    ensures { result ≡ sum_by mark_of (slice_set levels.now at level) }
{
    used + level.mark() - levels[at].mark()
}

/// The levels, behind so many without orders and in front of others.
fn padded_levels(
    alloc: Global,
    levels: &[Level],
    before: usize,
    after: usize,
) -> Result<Vec<Level>, Memory>
    ensures { IfOk result (λ all. all.items ≡ padded no_level levels.now before after) }
{
    let count = room_for(room_for(before, levels.len())?, after)?;
    let mut all = Vec::new(alloc);
    all.reserve_exact(count)?;
    all.resize(before, Level::NONE)?;
    all.extend_from_slice(levels)?;
    all.resize(count, Level::NONE)?;
    Ok(all)
}

/// The words, behind so many that mark nothing and in front of others.
fn padded_words(
    alloc: Global,
    words: &[u64],
    before: usize,
    after: usize,
) -> Result<Vec<u64>, Memory>
    ensures { IfOk result (λ all. all.items ≡ padded 0 words.now before after) }
{
    let count = room_for(room_for(before, words.len())?, after)?;
    let mut all = Vec::new(alloc);
    all.reserve_exact(count)?;
    all.resize(before, 0)?;
    all.extend_from_slice(words)?;
    all.resize(count, 0)?;
    Ok(all)
}
