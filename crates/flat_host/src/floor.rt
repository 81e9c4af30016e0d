ghost use Rattle.std.specs.Prelude.{◌≡◌, ◌<◌, ◌-◌, ◌^◌, ◌++◌, [], ◌∷◌, length, List, IfOk, OnOk, OnErr};
ghost use mathlib.Core.List.{IsPrefix};
ghost use Rattle.fx_rules.specs.declared.outcome.Entry.{Entry};
ghost use Rattle.fx_rules.specs.Session.{IsSession};
ghost use Rattle.fx_rules.specs.State.{opening};
ghost use Rattle.fx_rules.specs.Step.{IsCommand};
ghost use Rattle.fx_rules.specs.History.{IsLegal, own};
ghost use Rattle.fx_rules.specs.Lists.{Among};
ghost use Rattle.fx_chronicle.specs.Faces.{Witness, witness};
ghost use Rattle.flat_host.specs.FlatState.{StandsFor};
ghost use Rattle.fx_chronicle.specs.Submitting.{next_own, IsWholeOf};

use crate::host::FlatHost;
use fx_amounts::Memory;
use fx_chronicle::{Naming, Pass, Writer, close};
use fx_rules::{Command, Entry, Outcome};
use std::marker::Model;

/// What lies under the lock: the plain host, and the history that led it to where it stands. Contracts see the history,
/// which is a legal one; every key has signed it.
#[derive(Drop)]
pub(crate) struct Floor<N: Naming> {
    host: FlatHost,
    writer: Writer<N, Entry>,
}

impl<N: Naming> Model for Floor<N> {
    ghost use Rattle.std.specs.Prelude.{List};
    ghost use Rattle.fx_rules.specs.declared.outcome.Entry.{Entry};
    ghost use Rattle.flat_host.specs.inside.Floor.{IsFloor};

    ghost Value = { List Entry };

    ghost view = { λ f. f.writer.entries };

    ghost invariant = { λ f. IsFloor N.session f.host f.writer };
}

impl<N: Naming> Floor<N> {
    /// The floor as the day opens, over a host and a writer that have seen nothing yet.
    pub(crate) fn open(host: FlatHost, writer: Writer<N, Entry>) -> Floor<N>
        requires session { IsSession N.session }
        requires host { StandsFor N.session (opening N.session) host }
        requires entries { writer.entries ≡ [] }
        requires signed { writer.pending ≡ [] }
        requires keys { writer.keys ≡ 65 }
        ensures entries { result ≡ [] }
    {
        Floor { host, writer }
    }

    /// Carries out the next command of the pass's bank. All its memory is taken before anything changes.
    pub(crate) fn serve(&mut self, pass: &mut Pass<N>, command: &Command) -> Result<Outcome, Memory>
        requires command { IsCommand N.session pass.old.key command.now }
        requires few { length (own pass.old.key pass.old.met) < 2 ^ 32 - 1 }
        ensures entries { IfOk result (λ outcome. self.new ≡ self.old ++ next_own pass.old.key (own pass.old.key pass.old.met) command.now outcome ∷ []) }
        ensures pass { OnOk result (pass.new ≡ witness pass.old.key self.new) }
        ensures seen { OnOk result (IsPrefix pass.old.seen self.old) }
        ensures own { OnOk result (own pass.old.key self.old ≡ own pass.old.key pass.old.met) }
        ensures legal { OnOk result (IsLegal N.session self.new) }
        ensures memory { OnErr result (self.new ≡ self.old) }
        ensures pass_memory { OnErr result (pass.new ≡ pass.old) }
    {
        let Floor { host, writer } = self;
        let bank = pass.bank();
        let count = host.count(bank);
        if count == u32::MAX {
            // The pass's commands are all of its bank's, and they are fewer.
            pass.catch_up(writer);
            unreachable!();
        }
        let outcome = host.answer(bank, command)?;
        let entry = Entry {
            bank,
            number: count + 1,
            command: *command,
            outcome: outcome.copy()?,
        };
        writer.reserve()?;
        host.follow(&entry)?;
        pass.catch_up(writer);
        writer.commit(entry);
        pass.sign(writer);
        Ok(outcome)
    }

    /// The whole history. What each of these passes had seen is a beginning of it, and of their banks it has just their
    /// commands.
    pub(crate) fn close(self, passes: Vec<Pass<N>>) -> Vec<Entry>
        ensures entries { result.items ≡ self }
        ensures passes { (pass : Witness Entry) → Among pass passes.items → IsWholeOf pass.key pass.seen (own pass.key pass.met) self }
    {
        let Floor {
            host: _,
            mut writer,
        } = self;
        for mut pass in passes {
            pass.catch_up(&mut writer);
        }
        close(writer)
    }
}
