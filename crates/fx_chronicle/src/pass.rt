ghost use Rattle.std.specs.Prelude.{◌≡◌, ◌<◌, [], true, length, IfOk};
ghost use mathlib.Core.List.{IsPrefix};
ghost use Rattle.fx_rules.specs.Session.{IsSession, sender_places};
ghost use Rattle.fx_rules.specs.History.{IsLegal, own};
ghost use Rattle.fx_chronicle.specs.Touching.{pends, without, but_last};
ghost use Rattle.fx_chronicle.specs.Faces.{AreNew, witness, longer};
ghost use Rattle.fx_chronicle.specs.Passes.{new_passes, place_among};

use crate::history::Writer;
use crate::names::Naming;
use crate::tokens::{Front, Slip};
use fx_amounts::{BankId, Memory};
use fx_rules::{Entry, Session};
use std::alloc::Global;
use std::marker::Model;

/// What a bank holds at a desk: the front of its key. Contracts see its bank as the key, the entries that it has seen, which
/// are a legal history of the session, and those that it had met when it last submitted. No call of it takes memory.
#[derive(Drop)]
pub struct Pass<N: Naming> {
    bank: BankId,
    front: Front<N, Entry>,
}

impl<N: Naming> Model for Pass<N> {
    ghost use Rattle.fx_rules.specs.declared.outcome.Entry.{Entry};
    ghost use Rattle.fx_chronicle.specs.Faces.{Witness};
    ghost use Rattle.fx_chronicle.specs.inside.Passing.{IsPass};

    ghost Value = { Witness Entry };

    ghost view = { λ p. p.front };

    ghost invariant = { λ p. IsPass N.session p.bank p.front };
}

impl<N: Naming> Pass<N> {
    /// The pass of a sender of the session, over the front of its key, which has seen nothing yet.
    pub fn open(bank: BankId, front: Front<N, Entry>) -> Pass<N>
        requires session { IsSession N.session }
        requires sender { bank < sender_places N.session }
        requires front { front ≡ witness bank [] }
        ensures pass { result ≡ witness bank [] }
    {
        Pass { bank, front }
    }

    /// Its bank.
    pub fn bank(&self) -> BankId
        ensures value { result ≡ self.now.key }
        ensures sender { result < sender_places N.session }
    {
        self.bank
    }

    /// How many entries it has seen.
    pub fn seen(&self) -> u64
        ensures count { result ≡ length self.now.seen }
    {
        self.front.seen()
    }

    /// Sees all entries. Those of its bank are the ones that it had met.
    pub fn catch_up(&mut self, writer: &mut Writer<N, Entry>)
        requires signed { writer.old.pending ≡ [] }
        requires legal { IsLegal N.session writer.old.entries }
        ensures pass { self.new ≡ witness self.old.key writer.old.entries }
        ensures seen { IsPrefix self.old.seen writer.old.entries }
        ensures own { own self.old.key writer.old.entries ≡ own self.old.key self.old.met }
        ensures same { writer.new ≡ writer.old }
    {
        writer.catch_up(&mut self.front);
    }

    /// Signs the last entry, which touches its bank, and sees all. Those of its bank before the last are the ones that it
    /// had met.
    pub fn sign(&mut self, writer: &mut Writer<N, Entry>)
        requires pends { pends writer.old.pending self.old.key ≡ true }
        requires legal { IsLegal N.session writer.old.entries }
        ensures pass { self.new ≡ witness self.old.key writer.old.entries }
        ensures seen { IsPrefix self.old.seen writer.old.entries }
        ensures own { own self.old.key (but_last writer.old.entries) ≡ own self.old.key self.old.met }
        ensures writer { writer.new ≡ record writer.old { pending = without self.old.key writer.old.pending } }
    {
        writer.sign(&mut self.front);
    }

    /// A note of what it has seen.
    pub fn note(&mut self) -> Note<N>
        ensures note { result ≡ self.old.seen }
        ensures same { self.new ≡ self.old }
    {
        Note {
            slip: self.front.slip(),
        }
    }

    /// Sees what the note tells: it has then seen the longer of the two, and both are beginnings of it.
    pub fn learn(&mut self, note: Note<N>)
        ensures pass { self.new ≡ record self.old { seen = longer self.old.seen note } }
        ensures own { IsPrefix self.old.seen self.new.seen }
        ensures told { IsPrefix note self.new.seen }
        ensures legal { IsLegal N.session self.new.seen }
    {
        self.front.learn(note.slip);
    }
}

/// What a pass had seen when it gave the note: a legal history of the session. Contracts see it as these entries.
#[derive(Drop)]
pub struct Note<N: Naming> {
    slip: Slip<N, Entry>,
}

impl<N: Naming> Model for Note<N> {
    ghost use Rattle.std.specs.Prelude.{List};
    ghost use Rattle.fx_rules.specs.declared.outcome.Entry.{Entry};
    ghost use Rattle.fx_rules.specs.History.{IsLegal};

    ghost Value = { List Entry };

    ghost view = { λ n. n.slip };

    ghost invariant = { λ n. IsLegal N.session n.slip };
}

/// One new pass for each sender of the session, in order, over the fronts of their keys. The other fronts are dropped.
pub fn open_passes<N: Naming>(
    alloc: Global,
    session: &Session,
    fronts: Vec<Front<N, Entry>>,
) -> Result<Vec<Pass<N>>, Memory>
    requires session { session.now ≡ N.session }
    requires fronts { AreNew 65 fronts.items }
    ensures passes { IfOk result (λ passes. passes.items ≡ new_passes N.session) }
    ensures valid { IsSession N.session }
{
    let banks = session.banks().len();
    let has_operator = session.version() == 2;
    let mut passes = Vec::new(alloc);
    for front in fronts {
        let sender = BankId::at(front.key() as usize);
        if sender.index() < banks || (has_operator && sender == BankId::HOST) {
            passes.push(Pass::open(sender, front))?;
        }
    }
    Ok(passes)
}

/// The place of a sender's pass among those of all senders of a session, who are so many and at least 1.
pub fn place_among(senders: usize, sender: BankId) -> usize
    requires some { 0 < senders }
    ensures place { result ≡ place_among senders sender }
    ensures within { result < senders }
{
    // The operator's, which has the highest number, is the last.
    sender.index().min(senders - 1)
}
