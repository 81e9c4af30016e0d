ghost use Rattle.std.specs.Prelude.{◌≡◌, map, IfOk};
ghost use Rattle.fx_rules.specs.declared.outcome.Entry.{Entry};
ghost use Rattle.fx_rules.specs.Session.{senders};
ghost use Rattle.fx_rules.specs.Lists.{Among};
ghost use Rattle.fx_rules.specs.History.{IsLegal, own};
ghost use Rattle.fx_chronicle.specs.Faces.{Witness};
ghost use Rattle.fx_chronicle.specs.Passes.{new_passes};
ghost use Rattle.fx_chronicle.specs.Submitting.{IsWholeOf};

use crate::floor::Floor;
use crate::host::FlatHost;
use fx_amounts::Memory;
use fx_chronicle::{Blank, Desk, Naming, Note, Pass, open, open_passes};
use fx_rules::{Command, Entry, Gate, Outcome, Session};
use std::alloc::Global;
use std::sync::{Mutex, Wait};

/// What a bank holds at the host behind one lock.
pub type OnePass<N> = Pass<N>;

/// A desk over the plain host, behind one lock.
#[derive(Drop)]
pub struct OneLockHost<N: Naming> {
    floor: Mutex<Floor<N>>,
}

/// Opens a host for a day of the session, with one new pass for each of its senders, in order. The blank is for 65 keys.
/// At `Memory` the blank is gone.
pub fn open_one<N: Naming>(
    alloc: Global,
    blank: Blank<Entry>,
    session: &Session,
) -> Result<(OneLockHost<N>, Vec<OnePass<N>>), Memory>
    requires table { blank.table ≡ N.table }
    requires keys { blank.keys ≡ 65 }
    requires session { session.now ≡ N.session }
    ensures passes { IfOk result (λ opened. opened.1.items ≡ new_passes N.session) }
    ensures senders { IfOk result (λ opened. map (λ pass. pass.key) opened.1.items ≡ senders N.session) }
{
    let (writer, fronts) = open::<N, Entry>(alloc, blank)?;
    let passes = open_passes(alloc, session, fronts)?;
    let floor = Floor::open(FlatHost::open(alloc, session)?, writer);
    Ok((
        OneLockHost {
            floor: Mutex::new(floor),
        },
        passes,
    ))
}

/// Closes a host: the whole history. What each of these passes had seen is a beginning of it, and of their banks it has just
/// their commands. It takes no memory.
pub fn close_one<N: Naming>(host: OneLockHost<N>, passes: Vec<OnePass<N>>) -> Vec<Entry>
    ensures legal { IsLegal N.session result.items }
    ensures passes { (pass : Witness Entry) → Among pass passes.items → IsWholeOf pass.key pass.seen (own pass.key pass.met) result.items }
{
    host.floor.into_inner().close(passes)
}

impl<N: Naming + Send> Desk for OneLockHost<N> {
    type Pass = OnePass<N>;

    type Note = Note<N>;

    ghost session = { N.session };

    ghost bank = { λ pass. pass.key };

    ghost seen = { λ pass. pass.seen };

    ghost mine = { λ pass. own pass.key pass.met };

    ghost known = { λ note. note };

    fn submit<R: Wait, G: Gate>(
        &self,
        rt: &R,
        _gate: &G,
        pass: &mut OnePass<N>,
        command: &Command,
    ) -> Result<Outcome, Memory> {
        self.floor.lock(rt).serve(pass, command)
    }

    fn note(&self, pass: &mut OnePass<N>) -> Note<N> {
        pass.note()
    }

    fn learn(&self, pass: &mut OnePass<N>, note: Note<N>) {
        pass.learn(note);
    }
}
