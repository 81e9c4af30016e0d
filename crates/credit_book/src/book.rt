ghost use Rattle.std.specs.Prelude.{◌≡◌, ◌<◌, ◌≤◌, ◌-◌, ◌+◌, ◌^◌, ◌++◌, [], ◌∷◌, true, length, IfOk, OnOk, OnErr};
ghost use mathlib.Core.List.{IsPrefix};
ghost use Rattle.fx_amounts.specs.Quantity.{IsWeight};
ghost use Rattle.fx_rules.specs.Session.{pair_count, sender_places, weight_of};
ghost use Rattle.fx_rules.specs.State.{count_of};
ghost use Rattle.fx_rules.specs.Keyed.{touches_key};
ghost use Rattle.fx_rules.specs.Step.{IsCommand};
ghost use Rattle.fx_rules.specs.History.{IsLegal, own, state};
ghost use Rattle.fx_chronicle.specs.Touching.{Untouched, but_last, pends};
ghost use Rattle.fx_chronicle.specs.Faces.{witness};
ghost use Rattle.fx_rules.specs.Sending.{IsNextIn};
ghost use Rattle.credit_lines.specs.Table.{Stands, is_of_no_pair, next_sender};
ghost use Rattle.credit_book.specs.Recorded.{IsCreditBook, key_count, recorded, signed_by};
ghost use Rattle.credit_book.specs.Serving.{IsServed};

use credit_lines::{CreditLines, CreditTable};
use fx_amounts::{BankId, Memory, PairId};
use fx_chronicle::{Front, Naming, Pass, Writer};
use fx_rules::{Command, Entry, Outcome, Sender, Session};
use std::alloc::Global;
use std::marker::Model;

/// The lines, the counts of commands, and the history, which is a legal one and led them to where they stand. Contracts see
/// the credit table and the history.
#[derive(Drop)]
pub struct CreditBook<N: Naming> {
    table: CreditTable,
    writer: Writer<N, Entry>,
}

impl<N: Naming> Model for CreditBook<N> {
    ghost use Rattle.credit_book.specs.Recorded.{Recorded, IsCreditBook};

    ghost Value = { Recorded };

    ghost view = { λ b. record { table = b.table; history = b.writer } };

    ghost invariant = { λ b. IsCreditBook N.session (record { table = b.table; history = b.writer }) };
}

impl<N: Naming> CreditBook<N> {
    /// The credit book as the session's day opens, over a writer with no entries. `Memory` when out of memory; then the writer is
    /// gone.
    pub fn open(
        alloc: Global,
        session: &Session,
        writer: Writer<N, Entry>,
    ) -> Result<CreditBook<N>, Memory>
        requires session { session.now ≡ N.session }
        requires entries { writer.entries ≡ [] }
        requires signed { writer.pending ≡ [] }
        requires keys { writer.keys ≡ key_count N.session }
        ensures history { IfOk result (λ book. book.history ≡ writer) }
    {
        let table = CreditTable::open(alloc, session)?;
        Ok(CreditBook { table, writer })
    }

    /// The lines between the banks.
    pub fn lines(&self) -> &CreditLines
        ensures value { result.now ≡ self.now.table.lines }
        ensures kept { IsCreditBook N.session self.now }
    {
        self.table.lines()
    }

    /// What a lot of a pair costs, 1 to 10^6 credit units.
    pub fn weight(&self, pair: PairId) -> u32
        requires pair { pair < pair_count N.session }
        ensures value { result ≡ weight_of N.session pair }
        ensures weight { IsWeight result }
        ensures kept { IsCreditBook N.session self.now }
    {
        self.table.weight(pair)
    }

    /// How many commands a bank has sent.
    pub fn count(&self, bank: BankId) -> u32
        ensures value { result ≡ count_of (state N.session self.now.history.entries) bank }
        ensures kept { IsCreditBook N.session self.now }
    {
        self.table.count(bank)
    }

    /// All entries, in order: a legal history of the session.
    pub fn entries(&self) -> &[Entry]
        ensures value { result.now ≡ self.now.history.entries }
        ensures kept { IsCreditBook N.session self.now }
    {
        self.writer.entries()
    }

    /// The next command of a pass's bank, of which the pass has submitted fewer than 2^32 - 1. Nothing changes.
    pub fn sender(&mut self, pass: &mut Pass<N>) -> Sender
        requires signed { self.old.history.pending ≡ [] }
        requires few { length (own pass.old.key pass.old.met) < 2 ^ 32 - 1 }
        ensures value { result ≡ next_sender self.old.table pass.old.key }
        ensures next { IsNextIn (state N.session self.old.history.entries) result }
        ensures sender { result.bank < sender_places N.session }
        ensures bank { result.bank ≡ pass.old.key }
        ensures number { result.number < 2 ^ 32 }
        ensures same { self.new ≡ self.old }
        ensures pass { pass.new ≡ pass.old }
        ensures kept { IsCreditBook N.session self.new }
    {
        let CreditBook { table, writer } = self;
        let bank = pass.bank();
        if table.count(bank) == u32::MAX {
            // The pass's commands are all of its bank's, and they are fewer.
            pass.catch_up(writer);
            unreachable!();
        }
        table.sender(bank)
    }

    /// Makes room for one entry. At `Memory` all is as before.
    pub fn reserve(&mut self) -> Result<(), Memory>
        ensures value { self.new ≡ record self.old { history = record self.old.history { room = self.new.history.room } } }
        ensures room { OnOk result (0 < self.new.history.room) }
        ensures grows { self.old.history.room ≤ self.new.history.room }
        ensures memory { OnErr result (self.new ≡ self.old) }
    {
        self.writer.reserve()
    }

    /// Records the next entry: the table follows it, and it goes behind the history. Here its command happens. The keys that
    /// it touches have to sign before the next one.
    pub fn record(&mut self, entry: Entry)
        requires room { 0 < self.old.history.room }
        requires signed { self.old.history.pending ≡ [] }
        requires legal { IsLegal N.session (self.old.history.entries ++ entry ∷ []) }
        ensures value { self.new ≡ recorded self.old entry }
    {
        self.table.follow(&entry);
        self.writer.commit(entry);
    }

    /// The front has then seen all entries. None behind those that it had met touches its key.
    pub fn catch_up(&mut self, front: &mut Front<N, Entry>)
        requires signed { self.old.history.pending ≡ [] }
        ensures front { front.new ≡ witness front.old.key self.old.history.entries }
        ensures seen { IsPrefix front.old.seen self.old.history.entries }
        ensures missed { Untouched touches_key front.old.key front.old.met self.old.history.entries }
        ensures same { self.new ≡ self.old }
        ensures kept { IsCreditBook N.session self.new }
    {
        self.writer.catch_up(front);
    }

    /// The front signs the last entry, which touches its key, and has then seen all entries. Of those before the last, none
    /// behind those that it had met touches its key.
    pub fn sign(&mut self, front: &mut Front<N, Entry>)
        requires pends { pends self.old.history.pending front.old.key ≡ true }
        ensures front { front.new ≡ witness front.old.key self.old.history.entries }
        ensures seen { IsPrefix front.old.seen self.old.history.entries }
        ensures missed { Untouched touches_key front.old.key front.old.met (but_last self.old.history.entries) }
        ensures value { self.new ≡ signed_by front.old.key self.old }
        ensures kept { IsCreditBook N.session self.new }
    {
        self.writer.sign(front);
    }

    /// The pass sees all entries. Those of its bank are the ones that it had met.
    pub fn catch_up_pass(&mut self, pass: &mut Pass<N>)
        requires signed { self.old.history.pending ≡ [] }
        ensures pass { pass.new ≡ witness pass.old.key self.old.history.entries }
        ensures seen { IsPrefix pass.old.seen self.old.history.entries }
        ensures own { own pass.old.key self.old.history.entries ≡ own pass.old.key pass.old.met }
        ensures same { self.new ≡ self.old }
        ensures kept { IsCreditBook N.session self.new }
    {
        pass.catch_up(&mut self.writer);
    }

    /// The pass signs the last entry, which touches its bank, and sees all. Those of its bank before the last are the ones that
    /// it had met.
    pub fn sign_pass(&mut self, pass: &mut Pass<N>)
        requires pends { pends self.old.history.pending pass.old.key ≡ true }
        ensures pass { pass.new ≡ witness pass.old.key self.old.history.entries }
        ensures seen { IsPrefix pass.old.seen self.old.history.entries }
        ensures own { own pass.old.key (but_last self.old.history.entries) ≡ own pass.old.key pass.old.met }
        ensures value { self.new ≡ signed_by pass.old.key self.old }
        ensures kept { IsCreditBook N.session self.new }
    {
        pass.sign(&mut self.writer);
    }

    /// Enters the next command of a pass's bank into the history: the pass catches up, the entry is recorded, and the pass signs
    /// it. The keys of the pairs that it is about have still to sign. It takes no memory.
    pub fn enter(&mut self, pass: &mut Pass<N>, entry: Entry)
        requires room { 0 < self.old.history.room }
        requires signed { self.old.history.pending ≡ [] }
        requires sender { entry.bank ≡ pass.old.key }
        requires legal { IsLegal N.session (self.old.history.entries ++ entry ∷ []) }
        ensures value { self.new ≡ signed_by pass.old.key (recorded self.old entry) }
        ensures pass { pass.new ≡ witness pass.old.key (self.old.history.entries ++ entry ∷ []) }
        ensures seen { IsPrefix pass.old.seen self.old.history.entries }
        ensures own { own pass.old.key self.old.history.entries ≡ own pass.old.key pass.old.met }
    {
        self.catch_up_pass(pass);
        self.record(entry);
        self.sign_pass(pass);
    }

    /// Serves a bank's command that is about no pair: a show command, or a line that could not be read. All its memory is taken
    /// before anything changes; after `Memory` all is as it was.
    pub fn serve(&mut self, pass: &mut Pass<N>, command: &Command) -> Result<Outcome, Memory>
        requires signed { self.old.history.pending ≡ [] }
        requires command { IsCommand N.session pass.old.key command.now }
        requires no_pair { is_of_no_pair command.now ≡ true }
        requires few { length (own pass.old.key pass.old.met) < 2 ^ 32 - 1 }
        ensures served { IfOk result (IsServed N.session self.old.history.entries pass.old command.now self.new.history.entries pass.new) }
        ensures signed { self.new.history.pending ≡ [] }
        ensures memory { OnErr result (self.new ≡ self.old) }
        ensures pass_memory { OnErr result (pass.new ≡ pass.old) }
    {
        let sender = self.sender(pass);
        let outcome = self.table.answer(sender.bank, command);
        let entry = Entry {
            bank: sender.bank,
            number: sender.number,
            command: *command,
            outcome: outcome.copy()?,
        };
        self.reserve()?;
        self.enter(pass, entry);
        Ok(outcome)
    }

    /// The credit table and the writer of the history. The table stands for the state after the entries.
    pub fn into_parts(self) -> (CreditTable, Writer<N, Entry>)
        ensures history { result.1 ≡ self.history }
        ensures legal { IsLegal N.session result.1.entries }
        ensures stands { Stands N.session (state N.session result.1.entries) result.0 }
    {
        (self.table, self.writer)
    }
}
