ghost use Rattle.std.specs.Prelude.{◌≡◌, ◌<◌, ◌++◌, ◌∷◌, [], List, drop as behind, IfOk, OnOk, OnErr};
ghost use Rattle.std.specs.Arc.{arc_value};
ghost use mathlib.Core.List.{IsPrefix};
ghost use Rattle.fx_rules.specs.declared.outcome.Entry.{Entry as LogEntry};
ghost use Rattle.fx_rules.specs.Session.{bank_count, pair_count};
ghost use Rattle.fx_rules.specs.History.{IsLegal, state};
ghost use Rattle.fx_rules.specs.Market.{IsDepthOf};
ghost use Rattle.view_feed.specs.inside.Shown.{IsShown};

use crate::fault::FeedFault;
use crate::operation::Operation;
use crate::rule::{OneFeed, View};
use crate::tape::Front;
use fx_amounts::{BankId, Memory, PairId};
use fx_rules::{Entry, Outcome, Session, is_command};
use left_right::Absorb;
use left_right::writer::Writer;
use pair_host::PairHost;
use std::alloc::{AllocError, Global};
use std::marker::Model;
use std::sync::Arc;

/// The two copies, to the one that changes them.
pub(crate) type Copies = Writer<Shown, Operation, View, OneFeed>;

/// One copy of the market that readers are shown. Contracts see its session, the entries that it took in, and the stretch of the
/// tape that was marked last.
#[derive(Drop)]
pub(crate) struct Shown {
    pub(crate) host: PairHost,
    /// Both copies share each entry.
    pub(crate) entries: Vec<Arc<Entry, Global>>,
    pub(crate) front: Front,
}

impl Model for Shown {
    ghost use Rattle.std.specs.Prelude.{map};
    ghost use Rattle.std.specs.Arc.{arc_value};
    ghost use Rattle.view_feed.specs.inside.Shown.{Exhibit, IsShown};

    ghost Value = { Exhibit };

    ghost view = { λ s. record { session = s.host.table.session; entries = map arc_value s.entries.items; tape = s.front.tape; marked = s.front.entries } };

    ghost invariant = { λ s. IsShown s.host.table.session (map arc_value s.entries.items) s.host };
}

impl Shown {
    /// The market as a session opens.
    pub(crate) fn open(alloc: Global, session: &Session, front: Front) -> Result<Shown, Memory>
        ensures opens { IfOk result (λ shown. shown ≡ record { session = session.now; entries = []; tape = front.tape; marked = front.entries }) }
    {
        // It tells that the session is valid.
        let _banks = session.banks();
        Ok(Shown {
            host: PairHost::open(alloc, session)?,
            entries: Vec::new(alloc),
            front,
        })
    }

    /// A bank's local book of a pair behind the entries that are shown, and their front. They go on from those that are known.
    pub(crate) fn book(
        &self,
        known: &Front,
        bank: BankId,
        pair: PairId,
    ) -> Result<(Front, Outcome), FeedFault>
        requires tape { known.now.tape ≡ self.now.tape }
        requires marked { self.now.marked ≡ self.now.entries }
        requires legal { IsLegal self.now.session self.now.entries }
        requires bank { bank < bank_count self.now.session }
        requires pair { pair < pair_count self.now.session }
        ensures front { IfOk result (λ found. found.0 ≡ record { tape = known.now.tape; entries = self.now.entries }) }
        ensures known { OnOk result (IsPrefix known.now.entries self.now.entries) }
        ensures depth { IfOk result (λ found. IsDepthOf bank pair found.1 self.now.session (state self.now.session self.now.entries)) }
    {
        if !known.begins(&self.front) {
            return Err(FeedFault::Behind);
        }
        let depth = self.host.depth(bank, pair)?;
        Ok((self.front.again(), depth))
    }
}

impl Absorb<Operation> for Shown {
    ghost use Rattle.view_feed.specs.inside.Shown.{with_operation};

    // What the two copies have in common is all that contracts see of them.
    type State = Shown;

    ghost state = { λ s. s };

    ghost applied = { with_operation };

    fn absorb_first(&mut self, operation: &Operation, _other: &Shown) -> Result<(), AllocError> {
        match operation {
            Operation::Add(entry) => self.add(entry),
            Operation::Mark(front) => {
                self.front = front.again();
                Ok(())
            }
        }
    }
}

impl Shown {
    /// Takes an entry in. All memory is taken before anything changes.
    fn add(&mut self, entry: &Arc<Entry, Global>) -> Result<(), AllocError>
        ensures added { OnOk result (self.new ≡ record self.old { entries = self.old.entries ++ arc_value entry.now ∷ [] }) }
        ensures memory { OnErr result (self.new ≡ self.old) }
    {
        let entry = Arc::try_clone(entry)?;
        self.entries.reserve(1)?;
        if take_in(&mut self.host, &entry).is_err() {
            return Err(AllocError);
        }
        self.entries.push_reserved(entry);
        Ok(())
    }
}

/// Has a host go on by an entry, where its session lets the entry's sender send the command. The outcome is the entry's, where the
/// entry is the next of a legal history; else no one rests on it.
pub(crate) fn take_in(host: &mut PairHost, entry: &Entry) -> Result<(), Memory>
    requires shown { (entries : List LogEntry) × IsShown host.old.table.session entries host.old }
    ensures session { host.new.table.session ≡ host.old.table.session }
    ensures goes_on { OnOk result ((entries : List LogEntry) → IsShown host.old.table.session entries host.old → IsShown host.old.table.session (entries ++ entry.now ∷ []) host.new) }
    ensures memory { OnErr result (host.new ≡ host.old) }
{
    if !is_command(host.session(), entry.bank, &entry.command) {
        return Ok(());
    }
    if host.count(entry.bank) == u32::MAX {
        return Ok(());
    }
    let _outcome = host.apply(entry.bank, &entry.command)?;
    Ok(())
}

/// Has both copies wait for an operation. At `Memory` nothing waits that did not before.
pub(crate) fn queue(copies: &mut Copies, operation: Operation) -> Result<(), Memory>
    ensures desk { copies.new.desk ≡ copies.old.desk }
    ensures queued { OnOk result (behind copies.new.behind copies.new.log.items ≡ behind copies.old.behind copies.old.log.items ++ operation ∷ []) }
    ensures memory { OnErr result (behind copies.new.behind copies.new.log.items ≡ behind copies.old.behind copies.old.log.items) }
{
    match copies.append(operation) {
        Ok(()) => Ok(()),
        Err(_) => Err(Memory::from(AllocError)),
    }
}
