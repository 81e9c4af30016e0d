ghost use Rattle.std.specs.Prelude.{◌≡◌, true, length, Some, None, IfOk, OnOk, OnErr};
ghost use Rattle.fx_rules.specs.Session.{Header};
ghost use Rattle.fx_rules.specs.State.{State, opening};
ghost use Rattle.fx_rules.specs.Sound.{IsSound};
ghost use Rattle.fx_rules.specs.Market.{GoesOn, HasSent, InEach, InSome, IsDepthOf, MayAsk, MaySend};
ghost use Rattle.credit_raise.specs.UnderWay.{is_change};
ghost use Rattle.credit_lines.specs.Table.{Stands, is_of_no_pair};
ghost use Rattle.fx_rules.specs.Sending.{pair_of};
ghost use Rattle.pair_host.specs.Standing.{AreBooksOf, AreOfOneState, FollowsOn, IsNextOf, StandsFor, stands};

use crate::ahead::lots_ahead;
use crate::every_pair::{all_resting, carry_all_recorded, carry_turns, empty_books, plan_turns};
use crate::one_pair::{follow_in_pair, serve_in_pair};
use credit_lines::CreditTable;
use credit_raise::{CreditChange, is_change};
use fx_amounts::{BankId, Memory, PairId};
use fx_rules::{Command, Entry, Outcome, Sent, Session};
use global_book::PairBook;
use local_view::depth;
use std::alloc::Global;
use std::marker::Model;

/// The market on one thread. Contracts see the orders of each pair, in the order of the header, and the credit table.
#[derive(Drop)]
pub struct PairHost {
    /// In the order of the header.
    books: Vec<PairBook>,
    table: CreditTable,
    /// What was read ahead last. It is kept so that the reads are made, and nothing depends on it.
    ahead: u64,
}

impl Model for PairHost {
    ghost use Rattle.pair_host.specs.Standing.{HostState};
    ghost use Rattle.pair_host.specs.inside.Books.{AreHosted, host_of};

    ghost Value = { HostState };

    ghost view = { λ host. host_of host.books.items host.table };

    ghost invariant = { λ host. AreHosted host.books.items host.table };
}

impl PairHost {
    /// The host as a session's day opens: no orders rest, nothing is used, and the limits are the opening ones.
    pub fn open(alloc: Global, session: &Session) -> Result<PairHost, Memory>
        ensures opens { IfOk result (StandsFor session.now (opening session.now)) }
    {
        Ok(PairHost {
            books: empty_books(alloc, session)?,
            table: CreditTable::open(alloc, session)?,
            ahead: 0,
        })
    }

    /// The host of the pairs' books, in the order of the header, and the credit table of one state. It takes no memory, and neither
    /// searches nor changes a book.
    pub fn from_parts(books: Vec<PairBook>, table: CreditTable) -> PairHost
        requires of_one_state { AreOfOneState books.items table }
        ensures stands { (h : Header) (S : State) → AreBooksOf h S books.items → Stands h S table → StandsFor h S result }
    {
        PairHost {
            books,
            table,
            ahead: 0,
        }
    }

    /// The session whose market it is.
    pub fn session(&self) -> &Session
        ensures value { result.now ≡ self.now.table.session }
    {
        self.table.session()
    }

    /// How many commands a bank of the session has sent; 0 for any other bank. It takes no memory.
    pub fn count(&self, bank: BankId) -> u32
        ensures count { InEach (stands self.now) (HasSent bank result) }
    {
        self.table.count(bank)
    }

    /// Carries out a bank's next command, which the session of the host lets it send, with a number below 2^32. The entry of
    /// that command and the outcome goes on each legal history that led here. All memory is taken before anything changes:
    /// after `Memory` the host is as it was.
    pub fn apply(&mut self, bank: BankId, command: &Command) -> Result<Outcome, Memory>
        requires may_send { InSome (stands self.old) (MaySend bank command.now) }
        ensures goes_on { IfOk result (GoesOn (stands self.old) (stands self.new) bank command.now) }
        ensures memory { OnErr result (self.new ≡ self.old) }
    {
        // An order and a cancel have ways of their own, each with a copy of the command, on which nothing asks again what is carried out.
        match *command {
            Command::Order { pair, .. } => {
                let order = *command;
                self.serve_in(pair, bank, &order)
            }
            Command::Cancel { pair, .. } => {
                let cancel = *command;
                self.serve_in(pair, bank, &cancel)
            }
            _ => {
                let other = *command;
                self.serve_other(bank, &other)
            }
        }
    }

    /// A command by what it is about.
    #[inline(always)]
    fn serve_other(&mut self, bank: BankId, command: &Command) -> Result<Outcome, Memory>
        requires may_send { InSome (stands self.old) (MaySend bank command.now) }
        ensures goes_on { IfOk result (GoesOn (stands self.old) (stands self.new) bank command.now) }
        ensures memory { OnErr result (self.new ≡ self.old) }
    {
        match command.pair() {
            Some(pair) => self.serve_in(pair, bank, command),
            None if is_change(command) => self.change(bank, command),
            None => Ok(self.tell(bank, command)),
        }
    }

    /// A command in one pair.
    #[inline(always)]
    fn serve_in(&mut self, pair: PairId, bank: BankId, command: &Command) -> Result<Outcome, Memory>
        requires may_send { InSome (stands self.old) (MaySend bank command.now) }
        requires pair { pair_of command.now ≡ Some pair }
        ensures goes_on { IfOk result (GoesOn (stands self.old) (stands self.new) bank command.now) }
        ensures memory { OnErr result (self.new ≡ self.old) }
    {
        let alloc = *self.books.allocator();
        let book = &mut self.books[pair.index()];
        serve_in_pair(alloc, book, &mut self.table, bank, command)
    }

    /// A sender's credit change: each pair's turn is planned, and then all is made.
    fn change(&mut self, bank: BankId, command: &Command) -> Result<Outcome, Memory>
        requires may_send { InSome (stands self.old) (MaySend bank command.now) }
        requires change { is_change command.now ≡ true }
        ensures goes_on { IfOk result (GoesOn (stands self.old) (stands self.new) bank command.now) }
        ensures memory { OnErr result (self.new ≡ self.old) }
    {
        let alloc = *self.books.allocator();
        let mut change = CreditChange::open(alloc, self.table.lines(), bank, command)?;
        plan_turns(alloc, &self.books, &self.table, &mut change)?;
        let outcome = change.outcome(alloc)?;
        let entry = Entry {
            bank,
            number: self.table.sender(bank).number,
            command: *command,
            outcome,
        };
        self.table.follow(&entry);
        carry_turns(&mut self.books, &change);
        Ok(entry.outcome)
    }

    /// A command in no pair, which is answered by the table alone.
    fn tell(&mut self, bank: BankId, command: &Command) -> Outcome
        requires may_send { InSome (stands self.old) (MaySend bank command.now) }
        requires no_pair { is_of_no_pair command.now ≡ true }
        ensures goes_on { GoesOn (stands self.old) (stands self.new) bank command.now result }
    {
        let entry = Entry {
            bank,
            number: self.table.sender(bank).number,
            command: *command,
            outcome: self.table.answer(bank, command),
        };
        self.table.follow(&entry);
        entry.outcome
    }

    /// A bank's local book of a pair: what it could take now, by price. At `Memory` there was none for its levels.
    pub fn depth(&self, bank: BankId, pair: PairId) -> Result<Outcome, Memory>
        requires may_ask { InSome (stands self.now) (MayAsk bank pair) }
        ensures depth { IfOk result (λ outcome. InEach (stands self.now) (IsDepthOf bank pair outcome)) }
    {
        let book = &self.books[pair.index()];
        let weight = self.table.weight(pair);
        depth(
            *self.books.allocator(),
            book,
            self.table.lines(),
            weight,
            bank,
        )
    }

    /// Reads the levels at which the Day orders among these commands would come to rest, so that the processor fetches them side by side
    /// before the first of these commands is carried out. Nothing changes. It takes no memory.
    pub fn read_ahead(&mut self, sent: &[Sent])
        ensures same { self.new ≡ self.old }
    {
        self.ahead = lots_ahead(&self.books, sent);
    }

    /// How many orders rest, in all pairs. It walks them all, and takes no memory.
    pub fn resting(&self) -> u64
        ensures resting { (h : Header) (S : State) → IsSound h S → StandsFor h S self.now → result ≡ length S.orders }
    {
        // The lines tell that the session is valid: it has at most 32 pairs and 64 banks.
        let _lines = self.table.lines();
        all_resting(&self.books)
    }

    /// Carries out what was recorded, with no search: the entry is the next step of a sound state that the host stands for, as
    /// the state of a legal history is. It takes memory for a Day order's room alone; after `Memory` the host is as it was.
    pub fn follow(&mut self, entry: &Entry) -> Result<(), Memory>
        requires is_next { IsNextOf self.old entry.now }
        ensures follows { OnOk result (FollowsOn self.old self.new entry.now) }
        ensures memory { OnErr result (self.new ≡ self.old) }
    {
        match entry.command.pair() {
            Some(pair) => self.follow_in(pair, entry),
            None => {
                self.follow_all(entry);
                Ok(())
            }
        }
    }

    /// An entry whose command is about one pair.
    fn follow_in(&mut self, pair: PairId, entry: &Entry) -> Result<(), Memory>
        requires is_next { IsNextOf self.old entry.now }
        requires pair { pair_of entry.now.command ≡ Some pair }
        ensures follows { OnOk result (FollowsOn self.old self.new entry.now) }
        ensures memory { OnErr result (self.new ≡ self.old) }
    {
        let own = &mut self.books[pair.index()];
        follow_in_pair(own, &mut self.table, entry)
    }

    /// An entry whose command is about all pairs, or about none.
    fn follow_all(&mut self, entry: &Entry)
        requires is_next { IsNextOf self.old entry.now }
        requires all { pair_of entry.now.command ≡ None }
        ensures follows { FollowsOn self.old self.new entry.now }
    {
        carry_all_recorded(&mut self.books, entry.outcome.fills());
        self.table.follow(entry);
    }
}
