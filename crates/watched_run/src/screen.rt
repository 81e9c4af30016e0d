ghost use Rattle.std.specs.Prelude.{◌≡◌, ◌<◌, ◌^◌, ◌%◌, ◌+◌, ◌∷◌, [], OnOk};
ghost use Rattle.fx_rules.specs.Session.{bank_count, pair_count};
ghost use Rattle.watched_run.specs.Looks.{due_at, pair_due, bank_due, all_due};
ghost use Rattle.watched_run.specs.inside.Watching.{IsOfFeed, ShowsMore, ShowsWhole, SeesWhole};

use crate::look::{look, look_behind, push_look};
use fx_amounts::{BankId, Memory, PairId};
use fx_rules::Session;
use std::sync::Wait;
use view_feed::FeedReader;

/// A reader that watches a session, and what it shows.
#[derive(Drop)]
pub(crate) struct Screen {
    pub reader: FeedReader,
    /// A line for each look.
    pub lines: Vec<u8>,
    /// After how many rounds it looked.
    pub rounds: u64,
}

impl Screen {
    /// Looks at each bank's local book in the pair whose turn it is after a round, in header order. After `Memory` its lines are of no use
    /// any more.
    pub(crate) fn show_round<R: Wait>(&mut self, rt: &R, session: &Session) -> Result<(), Memory>
        requires session { session.now ≡ self.old.reader.session }
        requires few { self.old.rounds < 2 ^ 32 }
        ensures feed { IsOfFeed self.old.reader self.new.reader }
        ensures shows { OnOk result (ShowsMore session.now (λ known. pair_due session.now known (self.old.rounds % pair_count session.now)) self.old self.new) }
        ensures rounds { OnOk result (self.new.rounds ≡ self.old.rounds + 1) }
    {
        let pair = PairId::at((self.rounds % session.pairs().len() as u64) as usize);
        self.show_pair(rt, session, pair)?;
        self.rounds += 1;
        Ok(())
    }

    /// Looks at each bank's local book of a pair, in header order.
    fn show_pair<R: Wait>(&mut self, rt: &R, session: &Session, pair: PairId) -> Result<(), Memory>
        requires session { session.now ≡ self.old.reader.session }
        requires pair { pair < pair_count session.now }
        ensures feed { IsOfFeed self.old.reader self.new.reader }
        ensures shows { OnOk result (ShowsMore session.now (λ known. pair_due session.now known pair) self.old self.new) }
        ensures rounds { self.new.rounds ≡ self.old.rounds }
    {
        for place in 0..session.banks().len() {
            let bank = BankId::at(place);
            let (count, book) = look(rt, &mut self.reader, bank, pair)?;
            push_look(session, count, bank, pair, &book, &mut self.lines)?;
        }
        Ok(())
    }

    /// Looks at every bank's local book in every pair, in the order in which the output has them, behind so many entries: all of the
    /// history, of which the reader was told. After `Memory` its lines are of no use any more.
    pub(crate) fn show_all<R: Wait>(
        &mut self,
        rt: &R,
        session: &Session,
        all: u64,
    ) -> Result<(), Memory>
        requires session { session.now ≡ self.old.reader.session }
        ensures feed { IsOfFeed self.old.reader self.new.reader }
        ensures shows { OnOk result (ShowsWhole session.now all (all_due session.now all) self.old self.new) }
        ensures seen { OnOk result (SeesWhole all self.old self.new) }
        ensures rounds { self.new.rounds ≡ self.old.rounds }
    {
        for place in 0..session.banks().len() {
            self.show_bank(rt, session, BankId::at(place), all)?;
        }
        Ok(())
    }

    /// Looks at a bank's local book in every pair, behind so many entries.
    fn show_bank<R: Wait>(
        &mut self,
        rt: &R,
        session: &Session,
        bank: BankId,
        all: u64,
    ) -> Result<(), Memory>
        requires session { session.now ≡ self.old.reader.session }
        requires bank { bank < bank_count session.now }
        ensures feed { IsOfFeed self.old.reader self.new.reader }
        ensures shows { OnOk result (ShowsWhole session.now all (bank_due session.now all bank) self.old self.new) }
        ensures seen { OnOk result (SeesWhole all self.old self.new) }
        ensures rounds { self.new.rounds ≡ self.old.rounds }
    {
        for place in 0..session.pairs().len() {
            self.show_behind(rt, session, bank, PairId::at(place), all)?;
        }
        Ok(())
    }

    /// Looks at a bank's local book of a pair, behind so many entries.
    fn show_behind<R: Wait>(
        &mut self,
        rt: &R,
        session: &Session,
        bank: BankId,
        pair: PairId,
        all: u64,
    ) -> Result<(), Memory>
        requires session { session.now ≡ self.old.reader.session }
        requires bank { bank < bank_count session.now }
        requires pair { pair < pair_count session.now }
        ensures feed { IsOfFeed self.old.reader self.new.reader }
        ensures shows { OnOk result (ShowsWhole session.now all (due_at all pair bank ∷ []) self.old self.new) }
        ensures seen { OnOk result (SeesWhole all self.old self.new) }
        ensures rounds { self.new.rounds ≡ self.old.rounds }
    {
        let book = look_behind(rt, &mut self.reader, bank, pair, all)?;
        push_look(session, all, bank, pair, &book, &mut self.lines)
    }
}
