ghost use Rattle.std.specs.Prelude.{◌≡◌, List, [], ◌∷◌, ◌++◌, IfOk, OnOk};
ghost use Rattle.fx_rules.specs.declared.outcome.Entry.{Entry};
ghost use Rattle.fx_rules.specs.History.{IsLegal, state};
ghost use Rattle.day_report.specs.Sums.{AreSumsOf};
ghost use Rattle.reply_lines.specs.Desks.{AreDesksOf, DeskSoFar, HaveGot};
ghost use Rattle.reply_lines.specs.Notices.{notices_in};
ghost use Rattle.reply_lines.specs.Day.{AreNoticesOf};
ghost use Rattle.reply_lines.specs.inside.Day.{AreFindingsOf};

use crate::desk::{NoticeDesk, add_entry, no_desks};
use crate::notice_writer::NoticeWriter;
use day_report::{DaySums, Report};
use fx_amounts::Memory;
use fx_rules::{Entry, Session};
use market_run::Observer;
use std::alloc::Global;

/// What the entries of a day so far give notice of: to each sender on its desk, and by the sums to all. It is told each entry and
/// keeps none.
#[derive(Drop)]
pub struct DayNotices {
    /// By sender.
    pub desks: Vec<NoticeDesk>,
    sums: DaySums,
    /// It makes the lines of the desks.
    pub writer: NoticeWriter,
}

/// What is found of a history once it has ended.
#[derive(Drop)]
pub(crate) struct Findings {
    /// The sums of its fills.
    pub report: Report,
    /// The desks of the senders.
    pub desks: Vec<NoticeDesk>,
}

impl DayNotices {
    /// Those of a session before its first command. `Memory` when out of memory.
    pub fn open(alloc: Global, session: &Session) -> Result<DayNotices, Memory>
        ensures opens { IfOk result (AreNoticesOf session.now []) }
    {
        Ok(DayNotices {
            desks: no_desks(alloc, session)?,
            sums: DaySums::open(alloc, session)?,
            writer: NoticeWriter::new(),
        })
    }

    /// Adds those of the next entry of a legal history. After `Memory` they must not be used any more: some of the entry's notices may stand at
    /// their desks, and others not.
    #[inline(always)]
    pub fn add(&mut self, session: &Session, entry: &Entry) -> Result<(), Memory>
        requires next { (entries : List Entry) × IsLegal session.now (entries ++ entry.now ∷ []) × AreNoticesOf session.now entries self.old }
        ensures added { OnOk result ((entries : List Entry) →
            IsLegal session.now (entries ++ entry.now ∷ []) → AreNoticesOf session.now entries self.old →
            AreNoticesOf session.now (entries ++ entry.now ∷ []) self.new) }
    {
        add_entry(session, entry, &mut self.desks, &mut self.writer)?;
        self.follow(session, entry);
        Ok(())
    }

    /// Follows the next entry of a legal history, of which the desks got the notices already. It takes no memory.
    #[inline(always)]
    pub fn follow(&mut self, session: &Session, entry: &Entry)
        requires next { (entries : List Entry) × IsLegal session.now (entries ++ entry.now ∷ []) × AreSumsOf session.now (state session.now entries) self.old.sums }
        ensures follows { (entries : List Entry) (before : List DeskSoFar) →
            IsLegal session.now (entries ++ entry.now ∷ []) → AreSumsOf session.now (state session.now entries) self.old.sums →
            AreDesksOf session.now entries before → HaveGot session.now (λ sender. notices_in sender entry.now) before self.old.desks.items →
            AreNoticesOf session.now (entries ++ entry.now ∷ []) self.new }
    {
        self.sums.follow(session, entry);
    }

    /// What is found of the history once it has ended.
    pub(crate) fn into_findings(self, alloc: Global, session: &Session) -> Result<Findings, Memory>
        requires told { (entries : List Entry) × IsLegal session.now entries × AreNoticesOf session.now entries self }
        ensures found { IfOk result (λ found. (entries : List Entry) → AreNoticesOf session.now entries self → AreFindingsOf session.now entries found) }
    {
        Ok(Findings {
            report: self.sums.into_report(alloc, session)?,
            desks: self.desks,
        })
    }
}

/// Each entry is told while it lies in the cache, and left whole. Where memory runs out some of its notices may stand.
impl Observer for DayNotices {
    type Left = Entry;

    ghost told = { AreNoticesOf };

    ghost is_ready = { λ _. Unit {0} };

    ghost leaves = { λ left entry. left ≡ entry };

    ghost may_break = { Unit {0} };

    fn make_ready(&mut self) -> Result<(), Memory> {
        Ok(())
    }

    #[inline(always)]
    fn tell(&mut self, session: &Session, entry: Entry) -> Result<Entry, Memory> {
        self.add(session, &entry)?;
        Ok(entry)
    }

    #[inline(always)]
    fn hear(&mut self, session: &Session, entry: Entry) -> Result<(), Memory> {
        self.add(session, &entry)
    }
}
