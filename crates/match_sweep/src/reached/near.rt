//! The levels that a bank reaches, where they lie near each other: for each bank one word of bits tells which of 64 ranks it has orders at.
ghost use Rattle.std.specs.Prelude.{ℕ, ◌≡◌, ◌+◌, ◌*◌, ◌≤◌, ◌<◌, ◌^◌, true, false, [], List, length, replicate, slice_index, vec_capacity, IfSome, IsSome};
ghost use Rattle.fx_amounts.specs.Quantity.{IsWeight};
ghost use Rattle.fx_amounts.specs.Side.{opposite};
ghost use Rattle.global_book.specs.Book.{Book};
ghost use Rattle.global_book.specs.Ladders.{book_level};
ghost use Rattle.price_levels.specs.Rungs.{lots_below};
ghost use Rattle.match_sweep.specs.declared.reached.LevelWalk.{LevelWalk as Walk};
ghost use Rattle.match_sweep.specs.inside.Near.{ArePaid, AreSeen, AreShown, IsNear, IsSeen};
ghost use Rattle.match_sweep.specs.inside.Reaches.{AreReached, IsLowest};

use crate::reached::LevelWalk;
use fx_amounts::{BankId, Side};
use fx_rules::{Level, SHOWN_LEVELS};
use global_book::{PairBook, price_at};
use price_levels::{RANKS, Steps};
use std::sync::ledger::Ledger;

/// What a look at the 64 ranks from one on finds. It stays where it was made.
#[derive(Drop)]
struct Sight {
    /// Of each bank, in the order in which they are looked at, which of the ranks it has orders at.
    marks: [u64; BankId::COUNT],
    /// The lots at each rank.
    lots: [u64; RANKS],
}

impl LevelWalk {
    /// Puts the levels of what is reached of these banks down, up to so many lots in all, where the first ten lie within 64 ranks from the lowest
    /// one on, and the line with each bank pays for all of its lots there. Else it answers no, puts none down, and the walk has to go on from
    /// price to price. It takes one step for each bank; to read the lots at a rank is none.
    pub(crate) fn show_near<L: Ledger>(
        &self,
        book: &PairBook,
        banks: &[BankId],
        from: u32,
        most: u64,
        levels: &mut Vec<Level>,
        steps: &mut Steps<L>,
    ) -> bool
        requires reached { AreReached book.now self.now banks.now }
        requires few { length banks.now ≤ 64 }
        requires weight { IsWeight self.now.weight }
        requires lowest { IsLowest self.now banks.now from }
        requires bare { levels.old.items ≡ [] }
        requires room { 10 ≤ vec_capacity levels.old }
        ensures shown { result ≡ true → AreShown book.now self.now most levels.new.items }
        ensures bare { result ≡ false → levels.new.items ≡ [] }
        ensures steps { steps.new ≤ steps.old + length banks.now }
    {
        let mut sight = Sight {
            marks: [0; BankId::COUNT],
            lots: [0; RANKS],
        };
        let Some(all) = self.read_marks(book, banks, from, &mut sight.marks, steps) else {
            return false;
        };
        let Some(last) = tenth_mark(all) else {
            return false;
        };
        if !self.read_lots(book, banks, from, last, &sight.marks, &mut sight.lots) {
            return false;
        }
        show_marked(
            self.taker.opposite(),
            from,
            all,
            last,
            &sight.lots,
            most,
            levels,
        )
    }

    /// Which of the 64 ranks from one on each of these banks has orders at, and which any of them has. `None` where one of them has a rank far from
    /// its others. One step for each bank.
    fn read_marks<L: Ledger>(
        &self,
        book: &PairBook,
        banks: &[BankId],
        from: u32,
        marks: &mut [u64; BankId::COUNT],
        steps: &mut Steps<L>,
    ) -> Option<u64>
        requires few { length banks.now ≤ 64 }
        ensures seen { IfSome result (AreSeen book.now (opposite self.now.taker) from banks.now marks.new (length banks.now)) }
        ensures steps { steps.new ≤ steps.old + length banks.now }
    {
        let side = self.taker.opposite();
        let mut all = 0;
        for at in 0..banks.len() {
            steps.tick();
            let word = marks_of(book, banks[at], side, from)?;
            marks[at] = word;
            all |= word;
        }
        Some(all)
    }

    /// Adds up the lots that these banks have at each rank from one on up to `from + last`. It answers whether the line with each of them pays for
    /// all of these.
    fn read_lots(
        &self,
        book: &PairBook,
        banks: &[BankId],
        from: u32,
        last: u32,
        marks: &[u64; BankId::COUNT],
        lots: &mut [u64; RANKS],
    ) -> bool
        requires few { length banks.now ≤ 64 }
        requires low { from ≤ 2 ^ 30 }
        requires last { last < 64 }
        requires weight { IsWeight self.now.weight }
        requires seen { (i : ℕ) → i < length banks.now → IsSeen book.now (opposite self.now.taker) from (slice_index banks.now i) (slice_index marks.now i) }
        requires bare { lots.old ≡ replicate 64 0 }
        ensures paid { result ≡ true → ArePaid book.now self.now from last banks.now lots.new }
    {
        let side = self.taker.opposite();
        let weight = u64::from(self.weight);
        for at in 0..banks.len() {
            let bank = banks[at];
            let Some(sum) = add_lots_of(book, bank, side, from, marks[at], last, lots) else {
                return false;
            };
            if sum * weight > self.lines[bank.index()] {
                return false;
            }
        }
        true
    }
}

/// Which of the 64 ranks from one on a bank has orders of a side at. `None` where it has a rank far from its others.
fn marks_of(book: &PairBook, bank: BankId, side: Side, from: u32) -> Option<u64>
    ensures { IfSome result (IsSeen book.now side from bank) }
{
    match book.ladder(bank, side) {
        Some(ladder) => ladder.marks(from),
        None => Some(0),
    }
}

/// Adds the lots of a bank and a side at each rank from one on up to `from + last` to its number in a list, and answers their sum. `None` where a rank
/// has 2^32 lots or more.
fn add_lots_of(
    book: &PairBook,
    bank: BankId,
    side: Side,
    from: u32,
    marks: u64,
    last: u32,
    lots: &mut [u64; RANKS],
) -> Option<u64>
    requires seen { IsSeen book.now side from bank marks }
    requires low { from ≤ 2 ^ 30 }
    requires last { last < 64 }
    requires room { (k : ℕ) → slice_index lots.old k < 2 ^ 63 }
    ensures sum { IfSome result (λ sum. sum ≡ lots_below (book_level book.now side bank) from (last + 1)) }
    ensures small { IsSome result → (k : ℕ) → k ≤ last → (book_level book.now side bank (from + k)).lots < 2 ^ 32 }
    ensures added { IsSome result → (k : ℕ) → k ≤ last → slice_index lots.new k ≡ slice_index lots.old k + (book_level book.now side bank (from + k)).lots }
    ensures others { (k : ℕ) → last < k → slice_index lots.new k ≡ slice_index lots.old k }
{
    match book.ladder(bank, side) {
        Some(ladder) => ladder.add_lots(from, marks, last, lots),
        None => Some(0),
    }
}

/// Where the tenth of the marks is, from the lowest on; `None` where there are fewer. It says how far lots are read, and no more: a walk over the marks
/// counts its levels itself.
fn tenth_mark(all: u64) -> Option<u32>
    ensures { IfSome result (λ last. last < 64) }
{
    let mut left = all;
    for _ in 1..SHOWN_LEVELS {
        if left == 0 {
            return None;
        }
        left &= left - 1;
    }
    if left == 0 {
        return None;
    }
    Some(left.trailing_zeros())
}

/// Puts the levels of the marked ranks down, up to so many lots in all, from the lowest on, until there are ten. Where the marks up to the last rank
/// are fewer it answers no, and puts none down.
fn show_marked(
    side: Side,
    from: u32,
    all: u64,
    last: u32,
    lots: &[u64; RANKS],
    total: u64,
    levels: &mut Vec<Level>,
) -> bool
    requires low { from ≤ 2 ^ 30 }
    requires last { last < 64 }
    requires bare { levels.old.items ≡ [] }
    requires room { 10 ≤ vec_capacity levels.old }
    ensures shown { result ≡ true → (book : Book) (walk : Walk) (banks : List ℕ) → side ≡ opposite walk.taker → IsNear book walk banks from last all lots.now → AreShown book walk total levels.new.items }
    ensures bare { result ≡ false → levels.new.items ≡ [] }
{
    let mut left = all;
    let mut most = total;
    while levels.len() < SHOWN_LEVELS && most > 0 {
        let at = left.trailing_zeros();
        if at > last {
            levels.clear();
            return false;
        }
        left &= !(1 << at);
        let Some(price) = price_at(side, from + at) else {
            levels.clear();
            return false;
        };
        let taken = lots[at as usize].min(most);
        most -= taken;
        levels.push_reserved(Level { price, lots: taken });
    }
    true
}
