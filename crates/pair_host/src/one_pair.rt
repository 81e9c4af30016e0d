ghost use Rattle.std.specs.Prelude.{◌≡◌, Some, IfOk, OnOk, OnErr};
ghost use Rattle.fx_rules.specs.Session.{bank_count};
ghost use Rattle.fx_rules.specs.Sending.{pair_of};
ghost use Rattle.pair_host.specs.inside.OnePair.{FollowsEach, IsFollowed, MayServe, ServesEach};

use crate::answering::answer;
use crate::carrying::{carry_out, reserve};
use credit_lines::CreditTable;
use fx_amounts::{BankId, Memory};
use fx_rules::{Command, Entry, Outcome};
use global_book::PairBook;
use std::alloc::Global;

/// Carries out a bank's next command in the book's pair. At `Memory` the book's orders and the table are as they were.
#[inline(always)]
pub(crate) fn serve_in_pair(
    alloc: Global,
    book: &mut PairBook,
    table: &mut CreditTable,
    bank: BankId,
    command: &Command,
) -> Result<Outcome, Memory>
    requires may_serve { MayServe book.old table.old bank command.now }
    requires banks { book.old.banks ≡ bank_count table.old.session }
    requires pair { pair_of command.now ≡ Some book.old.pair }
    ensures serves { IfOk result (ServesEach book.old book.new table.old table.new bank command.now) }
    ensures pair { book.new.pair ≡ book.old.pair }
    ensures banks { book.new.banks ≡ book.old.banks }
    ensures session { table.new.session ≡ table.old.session }
    ensures orders { OnErr result (book.new.orders ≡ book.old.orders) }
    ensures table { OnErr result (table.new ≡ table.old) }
{
    let sender = table.sender(bank);
    let weight = table.weight(book.pair());
    reserve(book, sender.bank, command)?;
    let outcome = answer(alloc, book, table.lines(), weight, &sender, command)?;
    let entry = Entry {
        bank,
        number: sender.number,
        command: *command,
        outcome,
    };
    table.follow(&entry);
    carry_out(book, &sender, command, &entry.outcome);
    Ok(entry.outcome)
}

/// Makes what a recorded entry tells of the book's pair, whose command is about that pair. At `Memory` the book's orders and
/// the table are as they were.
pub(crate) fn follow_in_pair(
    book: &mut PairBook,
    table: &mut CreditTable,
    entry: &Entry,
) -> Result<(), Memory>
    requires is_next { IsFollowed book.old table.old entry.now }
    requires banks { book.old.banks ≡ bank_count table.old.session }
    requires pair { pair_of entry.now.command ≡ Some book.old.pair }
    ensures follows { OnOk result (FollowsEach book.old book.new table.old table.new entry.now) }
    ensures pair { book.new.pair ≡ book.old.pair }
    ensures banks { book.new.banks ≡ book.old.banks }
    ensures session { table.new.session ≡ table.old.session }
    ensures orders { OnErr result (book.new.orders ≡ book.old.orders) }
    ensures table { OnErr result (table.new ≡ table.old) }
{
    let sender = table.sender(entry.bank);
    reserve(book, sender.bank, &entry.command)?;
    table.follow(entry);
    carry_out(book, &sender, &entry.command, &entry.outcome);
    Ok(())
}
