ghost use Rattle.std.specs.Prelude.{◌≡◌, ◌<◌, IfOk};
ghost use Rattle.fx_amounts.specs.Quantity.{IsWeight};
ghost use Rattle.local_view.specs.LocalBook.{IsLegalLocalBook, IsLocalBook};

use credit_lines::CreditLines;
use fx_amounts::{BankId, Memory, Side};
use fx_rules::Outcome;
use global_book::PairBook;
use match_sweep::levels_in_reach;
use price_levels::Steps;
use std::alloc::Global;
use std::marker::Brand;
use std::sync::ledger::{Blank, Ledger};

/// The local book of a bank in a pair: `Depth` with, for bids, what an order of it would sell now at any price and, for
/// asks, what one would buy, each capped by the bank's lines and its total, summed by price and cut to ten levels. Both sides are of
/// the book and the lines as they stand: they are the market's in the state of every legal history that the two are of
/// (`depth`), and in every other sound state before the 2^64th command (`sound`), as those in the midst of a command are.
///
/// A lot costs `weight` credit units, 1 to 10^6; the book was made for as many banks as the lines have, and the viewer is
/// one of them. At `Memory` there was none for the levels.
pub fn depth(
    alloc: Global,
    book: &PairBook,
    lines: &CreditLines,
    weight: u32,
    viewer: BankId,
) -> Result<Outcome, Memory>
    requires banks { book.now.banks ≡ lines.now.banks }
    requires bank { viewer < lines.now.banks }
    requires weight { IsWeight weight }
    ensures depth { IfOk result (IsLegalLocalBook book.now lines.now weight viewer) }
    ensures sound { IfOk result (IsLocalBook book.now lines.now weight viewer) }
{
    depth_counted::<Brand>(alloc, book, lines, weight, viewer, Blank::new(1))
}

/// The local book of a bank, with a ledger for the steps of its walks.
fn depth_counted<L: Ledger>(
    alloc: Global,
    book: &PairBook,
    lines: &CreditLines,
    weight: u32,
    viewer: BankId,
    blank: Blank,
) -> Result<Outcome, Memory>
    requires name { blank.name ≡ L.name }
    requires parts { blank.parts ≡ L.parts }
    requires some { 0 < blank.parts }
    requires banks { book.now.banks ≡ lines.now.banks }
    requires bank { viewer < lines.now.banks }
    requires weight { IsWeight weight }
    ensures depth { IfOk result (IsLegalLocalBook book.now lines.now weight viewer) }
    ensures sound { IfOk result (IsLocalBook book.now lines.now weight viewer) }
{
    let mut steps = Steps::<L>::new(blank);
    let bids = levels_in_reach(alloc, book, lines, weight, viewer, Side::Sell, &mut steps)?;
    let asks = levels_in_reach(alloc, book, lines, weight, viewer, Side::Buy, &mut steps)?;
    Ok(Outcome::Depth { bids, asks })
}
