mod near;

ghost use Rattle.std.specs.Prelude.{Some, take, ◌≡◌, ◌≢◌, ◌+◌, length, ◌≤◌, ◌<◌, ◌*◌, ◌/◌, ◌^◌, min, slice_index, IfOk};
ghost use Rattle.fx_amounts.specs.Price.{IsPrice};
ghost use Rattle.fx_amounts.specs.Quantity.{IsWeight};
ghost use Rattle.fx_rules.specs.Lists.{total};
ghost use Rattle.credit_lines.specs.Credit.{room_in};
ghost use Rattle.match_sweep.specs.Reaches.{IsReached};
ghost use Rattle.match_sweep.specs.inside.Reaches.{AreRanked, AreReached, AreTakenOf, BeginsAt, HasRank, IsBareLevel, IsLowest, IsMost, OpensLevel, Puts, TakesOf, price_for, price_of};

use credit_lines::CreditLines;
use fx_amounts::{BankId, Memory, Side};
use fx_rules::{Level, LevelList, SHOWN_LEVELS};
use global_book::{PairBook, price_at};
use price_levels::Steps;
use std::alloc::Global;
use std::sync::ledger::Ledger;

/// The first ten levels of what a bank reaches with an order of this side, at any price and for as many lots as there are, by
/// its lines and its total, where a lot costs `weight` credit units, 1 to 10^6. Where these levels lie near each other it reads the lots of each bank
/// there at once; else it walks from price to price over what each bank has at it, and not from order to order, until the total pays for no more
/// lots. It changes nothing but the counter of its steps, of which it takes one for each bank at most as it begins, and as many for each level; to
/// read the lots at a known price is none. The book was made for as many banks as the lines have, and the bank is one of them. At `Memory` there
/// was none for the levels.
pub fn levels_in_reach<L: Ledger>(
    alloc: Global,
    book: &PairBook,
    lines: &CreditLines,
    weight: u32,
    bank: BankId,
    side: Side,
    steps: &mut Steps<L>,
) -> Result<LevelList, Memory>
    requires banks { book.now.banks ≡ lines.now.banks }
    requires bank { bank < lines.now.banks }
    requires weight { IsWeight weight }
    ensures levels { IfOk result (IsReached book.now lines.now weight bank side) }
    ensures steps { IfOk result (λ levels. steps.new ≤ steps.old + (length levels + 1) * book.now.banks) }
{
    let mut walk = LevelWalk {
        lines: [0; BankId::SENDERS],
        ranks: [NO_RANK; BankId::SENDERS],
        weight,
        taker: side,
    };
    let mut most = lots_by_total(lines, bank, weight);
    let mut reached = [BankId::HOST; BankId::COUNT];
    let (count, lowest) = walk.open_banks(book, lines, bank, &mut reached, steps);
    let banks = &reached[..count];
    let mut rank = lowest;
    let mut levels = Vec::new(alloc);
    levels.reserve_exact(SHOWN_LEVELS)?;
    if walk.show_near(book, banks, rank, most, &mut levels, steps) {
        return Ok(LevelList::from_vec(levels));
    }
    while levels.len() < SHOWN_LEVELS && most > 0 {
        let Some(price) = price_at(side.opposite(), rank) else {
            break;
        };
        let (taken, behind) = walk.take_level(book, banks, rank, steps);
        rank = behind;
        let lots = taken.min(most);
        most -= lots;
        levels.push(Level { price, lots })?;
    }
    Ok(LevelList::from_vec(levels))
}

/// The lots that a bank's total pays for, where it has one; else as many as no lines allow.
fn lots_by_total(lines: &CreditLines, bank: BankId, weight: u32) -> u64
    requires bank { bank < lines.now.banks }
    requires weight { IsWeight weight }
    ensures most { IsMost (room_in lines.now bank) weight result }
    ensures few { lines.now.banks ≤ 64 }
{
    match lines.room(bank) {
        Some(room) => room / u64::from(weight),
        None => u64::MAX,
    }
}

/// The rank of a bank of which nothing can be taken. All others are lower: the better a price, the lower its rank.
const NO_RANK: u32 = (1 << 30) - 1;

/// A walk from price to price over what a bank can reach. It changes no book. It is large, and stays where it was made; its tables
/// have less than 2,048 bytes, up to which they are cleared fast, and stand first, since a gap of the layout before them would have them cleared
/// once more.
#[derive(Drop)]
pub(crate) struct LevelWalk {
    /// What is left of the lines with each bank that has an order, in credit units; nothing with the bank's own.
    lines: [u64; BankId::SENDERS],
    /// Of each bank with which the line pays for a lot, the rank of its best price behind the last one for the taker; `NO_RANK` where it has
    /// none, or the line pays for no lot.
    ranks: [u32; BankId::SENDERS],
    /// What a lot costs, in credit units.
    weight: u32,
    /// The side of the orders that would take.
    taker: Side,
}

impl LevelWalk {
    /// Finds the lines of a bank with all others that have an order, and their first prices. It lists those of which something can be taken, and
    /// answers how many they are and the rank of the best of their prices, `NO_RANK` where there are none. The walk has found none so far. One step.
    fn open_banks<L: Ledger>(
        &mut self,
        book: &PairBook,
        lines: &CreditLines,
        bank: BankId,
        reached: &mut [BankId; BankId::COUNT],
        steps: &mut Steps<L>,
    ) -> (usize, u32)
        requires bare { IsBareLevel self.old }
        requires banks { book.now.banks ≡ lines.now.banks }
        requires bank { bank < lines.now.banks }
        requires few { lines.now.banks ≤ 64 }
        requires weight { IsWeight self.old.weight }
        ensures begins { BeginsAt book.now lines.now self.old.weight bank self.old.taker self.new }
        ensures ranked { AreRanked self.new }
        ensures reached { AreReached book.now self.new (take result.0 reached.new) }
        ensures fewer { length (take result.0 reached.new) + 1 ≤ book.now.banks }
        ensures lowest { IsLowest self.new (take result.0 reached.new) result.1 }
        ensures within { result.0 ≤ 64 }
        ensures step { steps.new ≡ steps.old + 1 }
    {
        prove!(bank.index() < BankId::SENDERS);
        let words = book.best_words(self.taker.opposite(), steps);
        let owners = book.owners();
        let mut count = 0;
        let mut lowest = NO_RANK;
        for owner in owners {
            if *owner != bank {
                let rank = self.open_bank(lines, bank, *owner, words[owner.index()]);
                if rank != NO_RANK {
                    reached[count] = *owner;
                    count += 1;
                    lowest = lowest.min(rank);
                }
            }
        }
        (count, lowest)
    }

    /// Finds the line of a bank with another, and the rank in the word of the other's best order. It answers the rank that is written down.
    fn open_bank(&mut self, lines: &CreditLines, bank: BankId, other: BankId, word: u64) -> u32
        requires bank { bank < lines.now.banks }
        requires other { other < lines.now.banks }
        requires differ { bank ≢ other }
        requires weight { IsWeight self.old.weight }
        requires rank { HasRank self.old.taker (word / 2 ^ 34) }
        ensures opens { OpensLevel lines.now self.old self.new bank other (word / 2 ^ 34) }
        ensures number { other < 65 }
        ensures rank { result ≡ slice_index self.new.ranks other }
        ensures ranked { AreRanked self.old → AreRanked self.new }
    {
        let line = lines.eff(bank, other).get();
        self.put(other.index(), line, (word >> 34) as u32)
    }

    /// Writes down what is left of the line with the bank of this number, and the rank of its next price. Where the line pays for no lot it
    /// has none. It answers the rank that is written down.
    fn put(&mut self, number: usize, line: u64, rank: u32) -> u32
        requires number { number < 65 }
        requires rank { HasRank self.old.taker rank }
        ensures puts { Puts self.old self.new number line rank }
        ensures rank { result ≡ slice_index self.new.ranks number }
        ensures ranked { AreRanked self.old → AreRanked self.new }
    {
        let next = if line < u64::from(self.weight) {
            NO_RANK
        } else {
            rank
        };
        self.lines[number] = line;
        self.ranks[number] = next;
        next
    }

    /// Takes of each of these banks what the line with it pays for of its lots at the price of a rank: how many they are in all, and the rank
    /// of the best price that is left of those of the banks with which the line pays for a lot; `NO_RANK` where there is none. The banks are
    /// those of which something can be taken.
    fn take_level<L: Ledger>(
        &mut self,
        book: &PairBook,
        banks: &[BankId],
        rank: u32,
        steps: &mut Steps<L>,
    ) -> (u64, u32)
        requires reached { AreReached book.now self.old banks.now }
        requires weight { IsWeight self.old.weight }
        requires most { total (λ line. line) self.old.lines ≤ 65 * 10 ^ 15 }
        requires ranked { AreRanked self.old }
        requires price { IsPrice (price_for self.old.taker rank) }
        ensures taken { AreTakenOf book.now self.old self.new (price_for self.old.taker rank) banks.now result.0 }
        ensures lowest { IsLowest self.new banks.now result.1 }
        ensures ranked { AreRanked self.new }
        ensures steps { steps.new ≤ steps.old + book.now.banks }
    {
        let mut lots = 0;
        let mut lowest = NO_RANK;
        for bank in banks {
            if self.ranks[bank.index()] == rank {
                lots += self.take_of(book, *bank, rank, steps);
            }
            lowest = lowest.min(self.ranks[bank.index()]);
        }
        (lots, lowest)
    }

    /// Takes what one bank has at its next price, which is that of this rank, as far as its line allows, and goes on to the price behind it.
    fn take_of<L: Ledger>(
        &mut self,
        book: &PairBook,
        bank: BankId,
        rank: u32,
        steps: &mut Steps<L>,
    ) -> u64
        requires weight { IsWeight self.old.weight }
        requires ranked { AreRanked self.old }
        requires price { IsPrice (price_for self.old.taker rank) }
        requires asked { price_of self.old bank ≡ Some (price_for self.old.taker rank) }
        ensures taken { TakesOf book.now self.old self.new bank (price_for self.old.taker rank) result }
        ensures ranked { AreRanked self.new }
        ensures step { steps.new ≡ steps.old + 1 }
    {
        let at = bank.index();
        let (lots, next) = book.level_and_next(bank, self.taker.opposite(), rank, steps);
        let weight = u64::from(self.weight);
        let line = self.lines[at];
        let taken = lots_by_line(lots, line, weight);
        self.put(at, line - taken * weight, next.unwrap_or(NO_RANK));
        taken
    }
}

/// How many of so many lots a line pays for. Most lines pay for all; then nothing is divided.
fn lots_by_line(lots: u64, line: u64, weight: u64) -> u64
    requires { IsWeight weight }
    ensures value { result ≡ min lots (line / weight) }
{
    if lots <= u64::from(u32::MAX) {
        if lots * weight <= line {
            return lots;
        }
    }
    lots.min(line / weight)
}
