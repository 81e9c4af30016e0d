ghost use Rattle.std.specs.Prelude.{◌≡◌, ◌<◌, ◌+◌, ◌-◌, ◌^◌, [], true, Some, length, IfOk, OnOk, OnErr};
ghost use Rattle.std.specs.Sync.Mutex.{mutex_guard_value};
ghost use Rattle.fx_rules.specs.Session.{bank_count, pair_count};
ghost use Rattle.fx_rules.specs.Keyed.{pair_key};
ghost use Rattle.fx_rules.specs.Step.{IsCommand, IsOutcome};
ghost use Rattle.fx_rules.specs.History.{own, state};
ghost use Rattle.fx_chronicle.specs.Touching.{pends};
ghost use Rattle.fx_chronicle.specs.Faces.{witness};
ghost use Rattle.fx_rules.specs.Sending.{IsNextIn, pair_of};
ghost use Rattle.pair_host.specs.Carries.{HasRoomFor};
ghost use Rattle.credit_raise.specs.UnderWay.{IsUnderWay};
ghost use Rattle.credit_book.specs.Recorded.{IsCreditBook, signed_by};
ghost use Rattle.credit_book.specs.Serving.{IsServed};
ghost use Rattle.pair_shards.specs.Shards.{AreOfLast, IsShard};
ghost use Rattle.pair_shards.specs.inside.Shards.{IsPrepared};

use credit_book::{CreditBook, Pass, SignedBook};
use credit_raise::CreditChange;
use fx_amounts::{BankId, Memory, PairId};
use fx_chronicle::{Front, Naming};
use fx_rules::{Command, Entry, Outcome, Plan, Sender, Session};
use global_book::PairBook;
use std::alloc::Global;
use std::marker::Model;
use std::sync::MutexGuard;

/// A pair's book, and the front of the pair's key. Contracts see both. The book is the pair's in the state after the entries that the
/// front has seen.
#[derive(Drop)]
pub struct Shard<N: Naming> {
    book: PairBook,
    front: Front<N, Entry>,
}

impl<N: Naming> Model for Shard<N> {
    ghost use Rattle.pair_shards.specs.Shards.{PairState, IsShard};

    ghost Value = { PairState };

    ghost view = { λ s. record { book = s.book; front = s.front } };

    ghost invariant = { λ s. IsShard N.session (record { book = s.book; front = s.front }) };
}

/// A command in a pair with its answer. Nothing is made of it yet.
struct Prepared {
    sender: Sender,
    /// Its entry.
    entry: Entry,
    /// What its bank is told.
    outcome: Outcome,
}

impl<N: Naming> Shard<N> {
    /// The shard of a pair of the session as its day opens, over the front of its key, which has seen nothing yet. `Memory` for want of
    /// memory; then the front is gone.
    pub fn open(
        alloc: Global,
        session: &Session,
        pair: PairId,
        front: Front<N, Entry>,
    ) -> Result<Shard<N>, Memory>
        requires session { session.now ≡ N.session }
        requires pair { pair < pair_count N.session }
        requires front { front ≡ witness (pair_key pair) [] }
        ensures pair { IfOk result (λ shard. shard.book.pair ≡ pair) }
        ensures front { IfOk result (λ shard. shard.front ≡ front) }
    {
        let banks = session.banks().len();
        let book = PairBook::new(alloc, pair, banks)?;
        Ok(Shard { book, front })
    }

    /// Its pair.
    pub fn pair(&self) -> PairId
        ensures value { result ≡ self.now.book.pair }
        ensures kept { IsShard N.session self.now }
    {
        self.book.pair()
    }

    /// Its book.
    pub fn book(&self) -> &PairBook
        ensures value { result.now ≡ self.now.book }
        ensures kept { IsShard N.session self.now }
    {
        &self.book
    }

    /// Sees all entries. None that it had not met is about its pair, so its book is right for all of them as it is.
    pub fn catch_up(&mut self, credit: &mut CreditBook<N>)
        requires signed { credit.old.history.pending ≡ [] }
        ensures front { self.new.front ≡ witness self.old.front.key credit.old.history.entries }
        ensures book { self.new.book ≡ self.old.book }
        ensures same { credit.new ≡ credit.old }
        ensures kept { IsShard N.session self.new }
    {
        credit.catch_up(&mut self.front);
    }

    /// Makes room in the book for what may come to rest of a bank's command. The book's orders stay as they are. At `Memory` there
    /// may be none.
    pub fn make_room(&mut self, bank: BankId, command: &Command) -> Result<(), Memory>
        requires bank { bank < bank_count N.session }
        ensures has_room { OnOk result (HasRoomFor self.new.book bank command.now) }
        ensures orders { self.new.book.orders ≡ self.old.book.orders }
        ensures pair { self.new.book.pair ≡ self.old.book.pair }
        ensures front { self.new.front ≡ self.old.front }
        ensures kept { IsShard N.session self.new }
    {
        pair_host::reserve(&mut self.book, bank, command)
    }

    /// Serves a bank's command in its pair: an order, a cancel, a reduction, a pull or a local book. It catches up first; then all
    /// memory is taken before anything changes, so that after `Memory` the book's orders, the credit book and the pass are as they were.
    /// Room was made in the book before. The credit lock is given back once the command's entry is recorded and signed, and the book is
    /// changed without it.
    pub fn serve_under(
        &mut self,
        alloc: Global,
        mut credit: MutexGuard<'_, SignedBook<N>>,
        pass: &mut Pass<N>,
        command: &Command,
    ) -> Result<Outcome, Memory>
        requires command { IsCommand N.session pass.old.key command.now }
        requires pair { pair_of command.now ≡ Some self.old.book.pair }
        requires few { length (own pass.old.key pass.old.met) < 2 ^ 32 - 1 }
        requires room { HasRoomFor self.old.book pass.old.key command.now }
        ensures served { IfOk result (IsServed N.session (mutex_guard_value credit.entry).book.history.entries pass.old command.now pass.new.seen pass.new) }
        ensures front { OnOk result (self.new.front ≡ witness self.old.front.key pass.new.seen) }
        ensures pair { self.new.book.pair ≡ self.old.book.pair }
        ensures pass_memory { OnErr result (pass.new ≡ pass.old) }
        ensures book_memory { OnErr result (self.new.book.orders ≡ self.old.book.orders) }
    {
        let credit_book = &mut credit.book;
        self.catch_up(credit_book);
        let Prepared {
            sender,
            entry,
            outcome,
        } = self.prepare(alloc, credit_book, pass, command)?;
        credit_book.enter(pass, entry);
        credit_book.sign(&mut self.front);
        drop(credit);
        pair_host::carry_out(&mut self.book, &sender, command, &outcome);
        Ok(outcome)
    }

    /// The entry of a command in its pair, once it has caught up, and what its bank is told. It takes the memory for both, and the
    /// history's room. Nothing changes.
    fn prepare(
        &self,
        alloc: Global,
        credit: &mut CreditBook<N>,
        pass: &mut Pass<N>,
        command: &Command,
    ) -> Result<Prepared, Memory>
        requires signed { credit.old.history.pending ≡ [] }
        requires caught_up { self.now.front.seen ≡ credit.old.history.entries }
        requires command { IsCommand N.session pass.old.key command.now }
        requires pair { pair_of command.now ≡ Some self.now.book.pair }
        requires few { length (own pass.old.key pass.old.met) < 2 ^ 32 - 1 }
        ensures prepared { IfOk result (λ prepared. IsPrepared N.session credit.old.history.entries pass.old.key command.now prepared.sender prepared.entry prepared.outcome) }
        ensures value { credit.new ≡ record credit.old { history = record credit.old.history { room = credit.new.history.room } } }
        ensures room { OnOk result (0 < credit.new.history.room) }
        ensures memory { OnErr result (credit.new ≡ credit.old) }
        ensures pass { pass.new ≡ pass.old }
        ensures kept { IsCreditBook N.session credit.new }
    {
        let sender = credit.sender(pass);
        let outcome = self.answer(alloc, credit, &sender, command)?;
        let entry = Entry {
            bank: sender.bank,
            number: sender.number,
            command: *command,
            outcome: outcome.copy()?,
        };
        credit.reserve()?;
        Ok(Prepared {
            sender,
            entry,
            outcome,
        })
    }

    /// The market's answer to a command in its pair, once it has caught up. Nothing changes.
    fn answer(
        &self,
        alloc: Global,
        credit: &CreditBook<N>,
        sender: &Sender,
        command: &Command,
    ) -> Result<Outcome, Memory>
        requires caught_up { self.now.front.seen ≡ credit.now.history.entries }
        requires pair { pair_of command.now ≡ Some self.now.book.pair }
        requires sender { sender.now.bank < bank_count N.session }
        requires next { IsNextIn (state N.session credit.now.history.entries) sender.now }
        ensures answers { IfOk result (IsOutcome N.session (state N.session credit.now.history.entries) sender.now.bank command.now) }
    {
        let weight = credit.weight(self.book.pair());
        pair_host::answer(alloc, &self.book, credit.lines(), weight, sender, command)
    }

    /// Has its turn in a credit change under way, as the next pair: it catches up, and what the change makes in its book is planned. The
    /// book stays as it is. After `Memory` the command is as before.
    pub fn turn(
        &mut self,
        alloc: Global,
        credit: &mut CreditBook<N>,
        change: &mut CreditChange,
    ) -> Result<(), Memory>
        requires signed { credit.old.history.pending ≡ [] }
        requires under_way { IsUnderWay N.session (state N.session credit.old.history.entries) change.old }
        requires next { self.old.book.pair ≡ length change.old.plans }
        ensures goes_on { OnOk result (IsUnderWay N.session (state N.session credit.old.history.entries) change.new) }
        ensures turns { OnOk result (length change.new.plans ≡ length change.old.plans + 1) }
        ensures command { change.new.command ≡ change.old.command }
        ensures sender { change.new.sender ≡ change.old.sender }
        ensures memory { OnErr result (change.new ≡ change.old) }
        ensures front { self.new.front ≡ witness self.old.front.key credit.old.history.entries }
        ensures book { self.new.book ≡ self.old.book }
        ensures same { credit.new ≡ credit.old }
        ensures kept { IsShard N.session self.new }
    {
        self.catch_up(credit);
        let weight = credit.weight(self.pair());
        change.pair(alloc, self.book(), weight)
    }

    /// Signs the entry of a command over all pairs, the last one, and makes in the book what it makes there: `plan` has the entry's fills
    /// in its pair. It takes no memory.
    pub fn carry(&mut self, credit: &mut CreditBook<N>, plan: &Plan)
        requires pends { pends credit.old.history.pending self.old.front.key ≡ true }
        requires last { AreOfLast N.session credit.old.history.entries self.old.book.pair plan.now.fills }
        ensures front { self.new.front ≡ witness self.old.front.key credit.old.history.entries }
        ensures pair { self.new.book.pair ≡ self.old.book.pair }
        ensures value { credit.new ≡ signed_by self.old.front.key credit.old }
        ensures kept { IsShard N.session self.new }
    {
        credit.sign(&mut self.front);
        match_sweep::carry(&mut self.book, plan);
    }

    /// Its book.
    pub fn into_book(self) -> PairBook
        ensures value { result ≡ self.book }
        ensures kept { IsShard N.session self }
    {
        self.book
    }
}
