ghost use Rattle.std.specs.Prelude.{◌≡◌, ◌≤◌, ◌<◌, ◌-◌, ◌^◌, Some, drop, length, IfOk, OnOk, OnErr, vec_len, vec_capacity};
ghost use Rattle.std.proofs.Props.{props};
ghost use mathlib.Core.List.{IsPrefix};
ghost use Rattle.fx_rules.specs.Session.{IsSession, pair_count};
ghost use Rattle.fx_rules.specs.Step.{IsCommand};
ghost use Rattle.fx_rules.specs.History.{IsLegal, own};
ghost use Rattle.fx_chronicle.specs.Submitting.{Submitted};
ghost use Rattle.fx_rules.specs.Sending.{pair_of};

use crate::change::change_all;
use crate::credit_lock::{CreditAlone, CreditLock};
use crate::locks::tell_all;
use crate::pair_locks::PairLocks;
use crate::turn::{Turn, WholeTurn};
use credit_raise::is_change;
use fx_amounts::{Memory, PairId};
use fx_chronicle::{Desk, Naming, Note, Pass};
use fx_rules::{Command, EntryList, Gate, Outcome};
use pair_shards::Shard;
use std::alloc::Global;
use std::sync::{Mutex, Wait};

/// A desk over the pairs' books, each behind a lock of its own, and the credit book behind another. After a submit that was
/// refused because memory ran out, a shard may have seen more of the history, with its book as before.
#[derive(Drop)]
pub struct Host<N: Naming> {
    pub(crate) alloc: Global,
    /// A credit change has it alone, and all commands in pairs share it.
    pub(crate) turn: Turn,
    pub(crate) pairs: PairLocks<N>,
    pub(crate) credit: CreditLock<N>,
    /// For the shards at the close.
    pub(crate) closed: Mutex<ShardRoom<N>>,

    ghost session: { IsSession N.session } by { Prim.hlevel props },
}

/// Room for the shards of all pairs, with none in it yet. It lies behind a lock only so that threads may share the host: a front is
/// used by one of them at a time.
#[derive(Drop)]
pub(crate) struct ShardRoom<N: Naming> {
    pub(crate) shards: Vec<Shard<N>>,

    ghost none: { vec_len shards ≡ 0 },

    ghost room: { pair_count N.session ≤ vec_capacity shards },
}

impl<N: Naming> Host<N> {
    /// A command in one pair: it has the pair's lock, and beside it the credit lock until its entry is recorded.
    fn serve_in<R: Wait, G: Gate>(
        &self,
        rt: &R,
        gate: &G,
        pair: PairId,
        pass: &mut Pass<N>,
        command: &Command,
    ) -> Result<Outcome, Memory>
        requires command { IsCommand N.session pass.old.key command.now }
        requires pair { pair_of command.now ≡ Some pair }
        requires few { length (own pass.old.key pass.old.met) < 2 ^ 32 - 1 }
        ensures bank { pass.new.key ≡ pass.old.key }
        ensures submitted { IfOk result (Submitted N.session pass.old.key pass.old.seen (own pass.old.key pass.old.met) command.now pass.new.seen (own pass.new.key pass.new.met)) }
        ensures memory { OnErr result (pass.new ≡ pass.old) }
    {
        let turn = self.turn.share(rt);
        let mut shard = self.pairs.lock_in_turn(rt, &turn, pair);
        gate.inside(rt, pair);
        shard.make_room(pass.bank(), command)?;
        let credit = self.credit.lock_beside(rt, &shard);
        shard.serve_under(self.alloc, credit, pass, command)
    }

    /// All that a credit change needs, for one who keeps the commands in pairs out: the credit lock, and with it the leave to ask for
    /// each pair's lock as the pair's turn comes.
    fn lock_all<'a, R: Wait, G: Gate>(
        &'a self,
        rt: &R,
        gate: &G,
        turn: &'a WholeTurn<'_>,
    ) -> CreditAlone<'a, N> {
        tell_all(rt, gate, self.pairs.count());
        self.credit.lock_alone(rt, self.pairs.alone(turn))
    }

    /// Lets the pass see the whole history so far: a legal one, which begins with all that the pass had seen and has of its bank just
    /// the commands that the pass submitted. It may wait, and takes no memory.
    pub fn catch_up<R: Wait>(&self, rt: &R, pass: &mut Pass<N>)
        ensures begins { IsPrefix pass.old.seen pass.new.seen }
        ensures legal { IsLegal N.session pass.new.seen }
        ensures own { own pass.new.key pass.new.seen ≡ own pass.old.key pass.old.met }
        ensures mine { own pass.new.key pass.new.met ≡ own pass.old.key pass.old.met }
        ensures bank { pass.new.key ≡ pass.old.key }
    {
        self.credit.catch_up(rt, pass);
    }

    /// The entries from position `start` on of a legal history that begins with all that the pass had seen; none where `start`
    /// is past its end. The pass has then seen that history. It may wait. After `Memory` the pass is as it was.
    pub fn entries_from<R: Wait>(
        &self,
        rt: &R,
        pass: &mut Pass<N>,
        start: u64,
    ) -> Result<EntryList, Memory>
        ensures entries { IfOk result (λ entries. entries ≡ drop start pass.new.seen) }
        ensures begins { OnOk result (IsPrefix pass.old.seen pass.new.seen) }
        ensures legal { OnOk result (IsLegal N.session pass.new.seen) }
        ensures own { OnOk result (own pass.new.key pass.new.seen ≡ own pass.old.key pass.old.met) }
        ensures mine { own pass.new.key pass.new.met ≡ own pass.old.key pass.old.met }
        ensures bank { pass.new.key ≡ pass.old.key }
        ensures memory { OnErr result (pass.new ≡ pass.old) }
    {
        let entries = self.credit.entries_from(rt, self.alloc, pass, start)?;
        Ok(EntryList::from_vec(entries))
    }
}

impl<N: Naming + Send> Desk for Host<N> {
    type Pass = Pass<N>;

    type Note = Note<N>;

    ghost session = { N.session };

    ghost bank = { λ pass. pass.key };

    ghost seen = { λ pass. pass.seen };

    ghost mine = { λ pass. own pass.key pass.met };

    ghost known = { λ note. note };

    fn submit<R: Wait, G: Gate>(
        &self,
        rt: &R,
        gate: &G,
        pass: &mut Pass<N>,
        command: &Command,
    ) -> Result<Outcome, Memory> {
        match command.pair() {
            Some(pair) => self.serve_in(rt, gate, pair, pass, command),
            None if is_change(command) => {
                let turn = self.turn.take(rt);
                let alone = self.lock_all(rt, gate, &turn);
                change_all(rt, self.alloc, alone, pass, command)
            }
            None => self.credit.serve(rt, pass, command),
        }
    }

    fn note(&self, pass: &mut Pass<N>) -> Note<N> {
        pass.note()
    }

    fn learn(&self, pass: &mut Pass<N>, note: Note<N>) {
        pass.learn(note);
    }
}
