ghost use Rattle.std.specs.Prelude.{◌≡◌, ℕ, ◌+◌, ◌≤◌, ◌<◌, ◌^◌, ◌∷◌, ◌++◌, [], codes, drop, length, take, vec_len, OnOk, OnErr};
ghost use Rattle.fx_amounts.specs.Numeral.{numeral};
ghost use Rattle.fx_rules.specs.Session.{bank_count, pair_count};
ghost use Rattle.reply_lines.specs.Fills.{AreShort};
ghost use Rattle.reply_lines.specs.Notices.{book_fields};
ghost use Rattle.reply_lines.specs.Rows.{row};
ghost use Rattle.reply_lines.specs.inside.Fills.{fill_line};
ghost use Rattle.reply_lines.specs.inside.Replies.{plain_fields};

use crate::notices::{FillTexts, LINE, Party, book_room, put_book_reply, put_fill, put_reply};
use crate::room::make_room;
use fx_amounts::{Memory, PairId};
use fx_rules::{Level, Outcome, Session};
use fx_text::{WIDE_DIGITS, put_text, put_wide};
use std::alloc::Global;
use std::marker::Model;

/// Lines of notices one behind the other, with room behind them, so that the next one is written where it stays.
#[derive(Debug, Drop)]
pub struct NoticeSheet {
    bytes: Vec<u8>,
    len: usize,
}

impl Model for NoticeSheet {
    ghost use Rattle.std.specs.Prelude.{List, ℕ, ◌≤◌, take, vec_len};

    ghost Value = { List ℕ };

    ghost view = { λ sheet. take sheet.len sheet.bytes.items };

    ghost invariant = { λ sheet. sheet.len ≤ vec_len sheet.bytes };
}

impl NoticeSheet {
    /// A sheet without a line. It takes no memory.
    pub fn new(alloc: Global) -> NoticeSheet
        ensures { result ≡ [] }
    {
        NoticeSheet {
            bytes: Vec::new(alloc),
            len: 0,
        }
    }

    /// The bytes of the lines.
    pub fn as_slice(&self) -> &[u8]
        ensures { result.now ≡ self.now }
    {
        self.bytes.split_at(self.len).0
    }

    /// The lines as a list of their own. It takes no memory.
    pub fn into_lines(mut self) -> Vec<u8>
        ensures { result.items ≡ self }
    {
        self.bytes.truncate(self.len);
        self.bytes
    }

    /// The bytes from one of them on.
    pub(crate) fn since(&self, from: usize) -> &[u8]
        requires { from ≤ length self.now }
        ensures { result.now ≡ drop from self.now }
    {
        self.as_slice().split_at(from).1
    }

    /// How many bytes the lines have.
    pub(crate) fn len(&self) -> usize
        ensures { result ≡ length self.now }
    {
        self.len
    }

    /// Keeps the first bytes alone.
    pub(crate) fn truncate(&mut self, len: usize)
        ensures { self.new ≡ take len self.old }
    {
        self.len = self.len.min(len);
    }

    /// Appends a text. Without memory for it the sheet stays.
    pub(crate) fn push(&mut self, text: &[u8]) -> Result<(), Memory>
        ensures ok { OnOk result (self.new ≡ self.old ++ text.now) }
        ensures memory { OnErr result (self.new ≡ self.old) }
        ensures few { length self.new < 2 ^ 63 }
    {
        make_room(&mut self.bytes, self.len, text.len())?;
        let end = put_text(text, &mut self.bytes, self.len);
        self.len = end;
        Ok(())
    }

    /// Appends a number and a text behind it. Without memory for them the sheet stays.
    #[inline(always)]
    pub(crate) fn push_numbered(&mut self, number: u128, behind: &[u8]) -> Result<(), Memory>
        ensures ok { OnOk result (self.new ≡ self.old ++ (numeral number ++ behind.now)) }
        ensures memory { OnErr result (self.new ≡ self.old) }
        ensures few { length self.new < 2 ^ 63 }
    {
        make_room(&mut self.bytes, self.len, WIDE_DIGITS + behind.len())?;
        let end = put_wide(number, &mut self.bytes, self.len);
        let end = put_text(behind, &mut self.bytes, end);
        self.len = end;
        Ok(())
    }

    /// Appends the line of the reply to a bank's command `number`, with its number `notice` on the desk, where the reply shows no
    /// local book. Without memory for it the sheet stays.
    #[inline(always)]
    pub(crate) fn push_reply(
        &mut self,
        notice: u128,
        number: u32,
        outcome: &Outcome,
    ) -> Result<(), Memory>
        ensures ok { OnOk result (self.new ≡ self.old ++ row (numeral notice) (codes "REPLY" ∷ numeral number ∷ plain_fields outcome.now)) }
        ensures memory { OnErr result (self.new ≡ self.old) }
        ensures few { length self.new < 2 ^ 63 }
    {
        make_room(&mut self.bytes, self.len, LINE)?;
        let end = put_reply(notice, number, outcome, &mut self.bytes, self.len);
        self.len = end;
        Ok(())
    }

    /// Appends the line of the reply to a bank's command `number` for the local book of a pair, with its number `notice` on the desk.
    /// Without memory for it the sheet stays.
    pub(crate) fn push_book_reply(
        &mut self,
        session: &Session,
        notice: u128,
        number: u32,
        pair: PairId,
        bids: &[Level],
        asks: &[Level],
    ) -> Result<(), Memory>
        requires { pair < pair_count session.now }
        ensures ok { OnOk result (self.new ≡ self.old ++ row (numeral notice)
            (codes "REPLY" ∷ numeral number ∷ codes "BOOK" ∷ book_fields session.now pair bids.now asks.now)) }
        ensures memory { OnErr result (self.new ≡ self.old) }
        ensures few { length self.new < 2 ^ 63 }
    {
        make_room(&mut self.bytes, self.len, book_room(bids, asks))?;
        let (room, at) = (&mut self.bytes, self.len);
        let end = put_book_reply(session, notice, number, pair, bids, asks, room, at);
        self.len = end;
        Ok(())
    }

    /// Appends the line of a fill as one of its banks sees it, with its number on the desk. Without memory for it the sheet stays.
    #[inline(always)]
    pub(crate) fn push_fill(
        &mut self,
        session: &Session,
        number: u128,
        party: &Party,
        texts: &FillTexts,
    ) -> Result<(), Memory>
        requires other { party.now.other < bank_count session.now }
        requires short { AreShort texts.now }
        ensures ok { OnOk result (self.new ≡ self.old ++ fill_line session.now number party.now texts.now) }
        ensures memory { OnErr result (self.new ≡ self.old) }
        ensures few { length self.new < 2 ^ 63 }
    {
        make_room(&mut self.bytes, self.len, LINE)?;
        let end = put_fill(session, number, party, texts, &mut self.bytes, self.len);
        self.len = end;
        Ok(())
    }
}
