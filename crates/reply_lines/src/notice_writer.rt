ghost use Rattle.std.specs.Prelude.{◌≡◌, ◌<◌, ◌^◌, ◌++◌, length, OnOk, OnErr};
ghost use Rattle.reply_lines.specs.Fills.{AreTextsOf, notice_to};
ghost use Rattle.reply_lines.specs.Notices.{notice_line};
ghost use Rattle.reply_lines.specs.Notices.Notice.{Replied};
ghost use Rattle.reply_lines.specs.Prints.{IsAnswerOf, IsFillOf};

use crate::notices::{FillPart, FillTexts, Party, booked_pair};
use crate::sheet::NoticeSheet;
use fx_amounts::Memory;
use fx_rules::{Entry, Fill, Outcome, Session};
use std::marker::Model;

/// Makes the lines of notices, one at a time, for whoever tells them: a desk that keeps them, or a text that has them in the
/// order of the history. Each line is appended to a sheet, with the number that the notice has among those of its desk.
/// Contracts see what the two notices of the last fill have in common.
#[derive(Drop)]
pub struct NoticeWriter {
    texts: FillTexts,
}

impl Model for NoticeWriter {
    ghost use Rattle.reply_lines.specs.declared.notices.FillTexts.{FillTexts};

    ghost Value = { FillTexts };

    ghost view = { λ w. w.texts };
}

impl NoticeWriter {
    /// One that has made no line yet. It takes no memory.
    pub fn new() -> NoticeWriter {
        NoticeWriter {
            texts: FillTexts::new(),
        }
    }

    /// Appends the line of the reply to an entry. Without memory for it the sheet stays. A fill that was begun stays so.
    #[inline(always)]
    pub fn reply(
        &mut self,
        session: &Session,
        number: u128,
        entry: &Entry,
        out: &mut NoticeSheet,
    ) -> Result<(), Memory>
        requires answer { IsAnswerOf session.now entry.now.command entry.now.outcome }
        ensures ok { OnOk result (out.new ≡ out.old ++ notice_line session.now number (Replied entry.now)) }
        ensures longer { OnOk result (length out.old < length out.new) }
        ensures few { OnOk result (length out.new < 2 ^ 63) }
        ensures memory { OnErr result (out.new ≡ out.old) }
        ensures begun { self.new ≡ self.old }
    {
        match &entry.outcome {
            Outcome::Depth { bids, asks } => {
                let pair = booked_pair(&entry.command);
                let (bids, asks) = (bids.as_slice(), asks.as_slice());
                out.push_book_reply(session, number, entry.number, pair, bids, asks)
            }
            outcome => out.push_reply(number, entry.number, outcome),
        }
    }

    /// Makes what the two notices of a fill have in common, so that `fill` can be asked for each of them.
    #[inline(always)]
    pub fn begin_fill(&mut self, session: &Session, fill: &Fill)
        requires fill { IsFillOf session.now fill.now }
        ensures texts { AreTextsOf session.now fill.now self.new }
    {
        self.texts.make(session, fill);
    }

    /// Appends the line of the fill that was begun, as the bank with this part in it gets it. Without memory for it the sheet
    /// stays.
    pub fn fill(
        &mut self,
        session: &Session,
        number: u128,
        part: FillPart,
        fill: &Fill,
        out: &mut NoticeSheet,
    ) -> Result<(), Memory>
        requires fill { IsFillOf session.now fill.now }
        requires begun { AreTextsOf session.now fill.now self.old }
        ensures ok { OnOk result (out.new ≡ out.old ++ notice_line session.now number (notice_to part fill.now)) }
        ensures longer { OnOk result (length out.old < length out.new) }
        ensures few { OnOk result (length out.new < 2 ^ 63) }
        ensures memory { OnErr result (out.new ≡ out.old) }
        ensures begun { self.new ≡ self.old }
    {
        out.push_fill(session, number, &Party::of(part, fill), &self.texts)
    }
}
