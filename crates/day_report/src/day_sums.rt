ghost use Rattle.std.specs.Prelude.{List, [], ◌∷◌, ◌≡◌, ◌++◌, IfOk};
ghost use Rattle.fx_rules.specs.State.{State, opening};
ghost use Rattle.fx_rules.specs.History.{IsLegal, state};
ghost use Rattle.fx_rules.specs.declared.outcome.Entry.{Entry};
ghost use Rattle.day_report.specs.Report.{IsReportOf};
ghost use Rattle.day_report.specs.Sums.{AreSumsOf};
ghost use Rattle.day_report.specs.inside.Parts.{HasFills};
ghost use Rattle.day_report.specs.inside.Trades.{Adds};
ghost use Rattle.day_report.specs.inside.Day.{CanAddAll};

use crate::amounts::amounts_of;
use crate::flows::Flows;
use crate::rows::{NetList, Report, UseList, Volume, VolumeList};
use crate::uses::uses;
use crate::volumes::{add_volume, no_volumes};
use credit_lines::CreditLines;
use fx_amounts::Memory;
use fx_rules::{Entry, Fill, Session};
use std::alloc::Global;

/// The sums of a day so far, to which entry after entry of its history is added, and of which its report is made at the end.
#[derive(Debug, Drop)]
pub struct DaySums {
    lines: CreditLines,
    /// By pair.
    volumes: Vec<Volume>,
    flows: Flows,
}

impl DaySums {
    /// The sums of a session's opening state. `Memory` when out of memory.
    pub fn open(alloc: Global, session: &Session) -> Result<DaySums, Memory>
        ensures sums { IfOk result (AreSumsOf session.now (opening session.now)) }
    {
        // The credit is that of the opening state of a valid session, as each is.
        let _banks = session.banks();
        Ok(DaySums {
            lines: CreditLines::open(alloc, session)?,
            volumes: no_volumes(alloc, session)?,
            flows: Flows::open(alloc, session)?,
        })
    }

    /// Follows the next entry of a legal history: the limit or the total that it set or the units that it gave back, and
    /// then its fills. It takes no memory.
    #[inline(always)]
    pub fn follow(&mut self, session: &Session, entry: &Entry)
        requires next { (entries : List Entry) × IsLegal session.now (entries ++ entry.now ∷ []) × AreSumsOf session.now (state session.now entries) self.old }
        ensures follows { (entries : List Entry) → IsLegal session.now (entries ++ entry.now ∷ []) → AreSumsOf session.now (state session.now entries) self.old → AreSumsOf session.now (state session.now (entries ++ entry.now ∷ [])) self.new }
    {
        self.lines.follow(session, entry);
        self.add_all(session, entry.outcome.fills());
    }

    /// Adds fills to the volumes and the flows.
    #[inline(always)]
    fn add_all(&mut self, session: &Session, fills: &[Fill])
        requires { CanAddAll session.now self.old fills.now }
        ensures lines { self.new.lines ≡ self.old.lines }
        ensures adds { Adds (λ before. HasFills session.now before self.old) (λ all. HasFills session.now all self.new) fills.now }
    {
        for fill in fills {
            let amounts = amounts_of(session, fill);
            add_volume(session, fill, &amounts, &mut self.volumes);
            self.flows.add(session, fill, &amounts);
        }
    }

    /// The report of the state after a legal history, of which these are the sums. `Memory` when out of memory.
    pub fn into_report(self, alloc: Global, session: &Session) -> Result<Report, Memory>
        requires sums { (entries : List Entry) × IsLegal session.now entries × AreSumsOf session.now (state session.now entries) self }
        ensures reports { IfOk result (λ report. (S : State) → AreSumsOf session.now S self → IsReportOf session.now S report) }
    {
        let DaySums {
            lines,
            volumes,
            flows,
        } = self;
        let banks = session.banks().len();
        Ok(Report {
            volumes: VolumeList::from_vec(volumes),
            uses: UseList::from_vec(uses(alloc, &lines, banks)?),
            nets: NetList::from_vec(flows.nets(alloc, banks)?),
        })
    }
}
