ghost use Rattle.std.specs.Prelude.{ℕ, ◌≡◌, ◌==◌, if◌then◌else◌, List, [], ◌∷◌, ◌<◌, ◌≤◌, ◌+◌, ◌++◌, length, replicate, IfOk, OnOk, OnErr};
ghost use Rattle.std.specs.List.{flat_map};
ghost use Rattle.fx_amounts.specs.Numeral.{numeral};
ghost use Rattle.fx_edges.specs.Gathered.{Gathered};
ghost use Rattle.fx_rules.specs.declared.outcome.Entry.{Entry};
ghost use Rattle.fx_rules.specs.Lists.{Each};
ghost use Rattle.fx_rules.specs.Session.{Header, IsSender, bank_count, sender_places};
ghost use Rattle.reply_lines.specs.Desks.{desk_with, nothing_yet, with_notice, AreDesksOf, HaveGot};
ghost use Rattle.reply_lines.specs.Fills.{AreTextsOf, notice_to};
ghost use Rattle.reply_lines.specs.inside.Desks.{bank_desks, host_desk};
ghost use Rattle.reply_lines.specs.Notices.{Notice, fill_notices, notice_line, notices_in, desk_line, desk_text};
ghost use Rattle.reply_lines.specs.Notices.Notice.{Replied};
ghost use Rattle.reply_lines.specs.Output.{desks_text};
ghost use Rattle.reply_lines.specs.Prints.{IsAnswerOf, IsFillOf};
ghost use Rattle.reply_lines.specs.inside.Prints.{IsEntryOf};

use crate::notice_writer::NoticeWriter;
use crate::notices::{FillPart, make_desk};
use crate::sheet::NoticeSheet;
use fx_amounts::{BankId, Memory};
use fx_edges::{Pieces, Sink, SinkFault};
use fx_rules::{Entry, Fill, Session};
use fx_text::LineText;
use std::alloc::Global;
use std::marker::Model;

/// A desk so far: how many notices it has, and their lines, in which they are numbered from 1.
#[derive(Debug, Drop)]
pub struct NoticeDesk {
    count: usize,
    lines: NoticeSheet,
}

impl Model for NoticeDesk {
    ghost use Rattle.std.specs.Prelude.{◌≤◌, length};
    ghost use Rattle.reply_lines.specs.Desks.{DeskSoFar, desk_with};

    ghost Value = { DeskSoFar };

    ghost view = { λ d. desk_with d.count d.lines };

    // each notice has a line
    ghost invariant = { λ d. d.count ≤ length d.lines };
}

impl NoticeDesk {
    /// A desk without a notice. It takes no memory.
    pub fn new(alloc: Global) -> NoticeDesk
        ensures { result ≡ nothing_yet }
    {
        NoticeDesk {
            count: 0,
            lines: NoticeSheet::new(alloc),
        }
    }

    /// How many notices it has.
    pub fn count(&self) -> usize
        ensures { result ≡ self.now.count }
    {
        self.count
    }

    /// The lines of its notices.
    pub fn lines(&self) -> &[u8]
        ensures { result.now ≡ self.now.lines }
    {
        self.lines.as_slice()
    }

    /// The number of the notice that is added next.
    pub fn next_number(&self) -> u128
        ensures { result ≡ self.now.count + 1 }
    {
        self.count as u128 + 1
    }

    /// Adds the reply to an entry. Without memory for it the desk stays.
    #[inline(always)]
    pub fn reply(
        &mut self,
        session: &Session,
        entry: &Entry,
        writer: &mut NoticeWriter,
    ) -> Result<(), Memory>
        requires answer { IsAnswerOf session.now entry.now.command entry.now.outcome }
        ensures ok { OnOk result (self.new ≡ with_notice session.now self.old (Replied entry.now)) }
        ensures memory { OnErr result (self.new ≡ self.old) }
        ensures begun { writer.new ≡ writer.old }
    {
        let number = self.next_number();
        writer.reply(session, number, entry, &mut self.lines)?;
        self.count += 1;
        Ok(())
    }

    /// Adds the notice of the fill that the writer has begun, as the bank with this part in it gets it. Without memory for it
    /// the desk stays.
    pub fn fill(
        &mut self,
        session: &Session,
        part: FillPart,
        fill: &Fill,
        writer: &mut NoticeWriter,
    ) -> Result<(), Memory>
        requires fill { IsFillOf session.now fill.now }
        requires begun { AreTextsOf session.now fill.now writer.old }
        ensures ok { OnOk result (self.new ≡ with_notice session.now self.old (notice_to part fill.now)) }
        ensures memory { OnErr result (self.new ≡ self.old) }
        ensures begun { writer.new ≡ writer.old }
    {
        let number = self.next_number();
        writer.fill(session, number, part, fill, &mut self.lines)?;
        self.count += 1;
        Ok(())
    }

    /// Adds the reply to an entry, as `reply` does, and the same to another desk, with the number that it has there. After `Memory` the
    /// other desk is as it was, and this one may have the reply.
    #[inline(always)]
    pub fn reply_to_both(
        &mut self,
        session: &Session,
        entry: &Entry,
        writer: &mut NoticeWriter,
        other: &mut NoticeDesk,
    ) -> Result<(), Memory>
        requires answer { IsAnswerOf session.now entry.now.command entry.now.outcome }
        ensures ok { OnOk result (self.new ≡ with_notice session.now self.old (Replied entry.now)) }
        ensures other { OnOk result (other.new ≡ with_notice session.now other.old (Replied entry.now)) }
        ensures begun { writer.new ≡ writer.old }
    {
        let from = self.lines.len();
        self.reply(session, entry, writer)?;
        other.copy(self.lines.since(from))
    }

    /// Adds the notice of the fill that the writer has begun, as `fill` does, and the same to another desk, with the number that it has
    /// there. After `Memory` the other desk is as it was, and this one may have the notice.
    pub fn fill_to_both(
        &mut self,
        session: &Session,
        part: FillPart,
        fill: &Fill,
        writer: &mut NoticeWriter,
        other: &mut NoticeDesk,
    ) -> Result<(), Memory>
        requires fill { IsFillOf session.now fill.now }
        requires begun { AreTextsOf session.now fill.now writer.old }
        ensures ok { OnOk result (self.new ≡ with_notice session.now self.old (notice_to part fill.now)) }
        ensures other { OnOk result (other.new ≡ with_notice session.now other.old (notice_to part fill.now)) }
        ensures begun { writer.new ≡ writer.old }
    {
        let from = self.lines.len();
        self.fill(session, part, fill, writer)?;
        other.copy(self.lines.since(from))
    }

    /// Adds a notice whose line stands on another desk, under another number. Without memory for it the desk stays.
    #[inline(always)]
    fn copy(&mut self, line: &[u8]) -> Result<(), Memory>
        requires line { (h : Header) × (number : ℕ) × (notice : Notice) × (line.now ≡ notice_line h number notice) }
        ensures ok { OnOk result ((h : Header) (number : ℕ) (notice : Notice) → line.now ≡ notice_line h number notice → self.new ≡ with_notice h self.old notice) }
        ensures memory { OnErr result (self.new ≡ self.old) }
    {
        let number = self.next_number();
        self.lines.push_numbered(number, behind_number(line))?;
        self.count += 1;
        Ok(())
    }

    /// Adds a line of another kind, which is not empty. Without memory for it the desk stays.
    pub fn push(&mut self, line: &LineText) -> Result<(), Memory>
        requires some { 1 ≤ length line.now }
        ensures ok { OnOk result (self.new ≡ desk_with (self.old.count + 1) (self.old.lines ++ line.now)) }
        ensures memory { OnErr result (self.new ≡ self.old) }
    {
        self.lines.push(line.as_slice())?;
        self.count += 1;
        Ok(())
    }
}

/// What a line of fields has behind its number.
#[inline(always)]
fn behind_number(line: &[u8]) -> &[u8]
    requires line { (number : ℕ) × (rest : List ℕ) × (line.now ≡ numeral number ++ 32 ∷ rest) }
    ensures behind { (number : ℕ) (rest : List ℕ) → line.now ≡ numeral number ++ 32 ∷ rest → result.now ≡ 32 ∷ rest }
{
    let mut at = 0;
    while line[at] != b' ' {
        at += 1;
    }
    line.split_at(at).1
}

/// The desks of a session's senders, without a notice yet. Each stands at its sender's number.
pub(crate) fn no_desks(alloc: Global, session: &Session) -> Result<Vec<NoticeDesk>, Memory>
    ensures none { IfOk result (λ desks. desks.items ≡ replicate (sender_places session.now) nothing_yet) }
{
    let mut desks = Vec::new(alloc);
    for _place in 0..session.sender_places() {
        desks.push(NoticeDesk::new(alloc))?;
    }
    Ok(desks)
}

/// Adds the notices of an entry: the reply to its sender, and then those of its fills.
#[inline(always)]
pub(crate) fn add_entry(
    session: &Session,
    entry: &Entry,
    desks: &mut Vec<NoticeDesk>,
    writer: &mut NoticeWriter,
) -> Result<(), Memory>
    requires entry { IsEntryOf session.now entry.now }
    requires sender { entry.now.bank < length desks.old.items }
    requires banks { bank_count session.now ≤ length desks.old.items }
    ensures ok { OnOk result (HaveGot session.now (λ sender. notices_in sender entry.now) desks.old.items desks.new.items) }
{
    add_reply(session, entry, desks, writer)?;
    add_fills(session, entry.outcome.fills(), desks, writer)
}

/// Adds the reply to an entry to its sender's desk.
#[inline(always)]
fn add_reply(
    session: &Session,
    entry: &Entry,
    desks: &mut Vec<NoticeDesk>,
    writer: &mut NoticeWriter,
) -> Result<(), Memory>
    requires answer { IsAnswerOf session.now entry.now.command entry.now.outcome }
    requires sender { entry.now.bank < length desks.old.items }
    ensures ok { OnOk result (HaveGot session.now (λ sender. if entry.now.bank == sender then Replied entry.now ∷ [] else []) desks.old.items desks.new.items) }
{
    desks[entry.bank.index()].reply(session, entry, writer)
}

/// Adds the notices of fills, in order.
#[inline(always)]
fn add_fills(
    session: &Session,
    fills: &[Fill],
    desks: &mut Vec<NoticeDesk>,
    writer: &mut NoticeWriter,
) -> Result<(), Memory>
    requires fills { Each (IsFillOf session.now) fills.now }
    requires banks { bank_count session.now ≤ length desks.old.items }
    ensures ok { OnOk result (HaveGot session.now (λ bank. flat_map (fill_notices bank) fills.now) desks.old.items desks.new.items) }
{
    for fill in fills {
        add_fill(session, fill, desks, writer)?;
    }
    Ok(())
}

/// Adds a fill to its taker's desk and to its maker's.
fn add_fill(
    session: &Session,
    fill: &Fill,
    desks: &mut Vec<NoticeDesk>,
    writer: &mut NoticeWriter,
) -> Result<(), Memory>
    requires fill { IsFillOf session.now fill.now }
    requires banks { bank_count session.now ≤ length desks.old.items }
    ensures ok { OnOk result (HaveGot session.now (λ bank. fill_notices bank fill.now) desks.old.items desks.new.items) }
{
    writer.begin_fill(session, fill);
    desks[fill.taker.index()].fill(session, FillPart::Taker, fill, writer)?;
    desks[fill.maker.index()].fill(session, FillPart::Maker, fill, writer)
}

/// Writes the desks of all senders.
#[tactic(auto, unfolding(crate::specs::Output::desks_text))]
pub(crate) fn write_desks<K: Sink>(
    session: &Session,
    desks: &[NoticeDesk],
    pieces: &mut Pieces,
    out: &mut K,
) -> Result<(), SinkFault>
    requires desks { length desks.now ≡ sender_places session.now }
    ensures wrote { (entries : List Entry) → AreDesksOf session.now entries desks.now →
        Gathered K.written K.faults pieces.old out.old pieces.new out.new (desks_text session.now entries) result }
{
    write_bank_desks(session, desks, pieces, out)?;
    write_host_desk(session, desks, pieces, out)
}

/// Writes the desks of the banks.
fn write_bank_desks<K: Sink>(
    session: &Session,
    desks: &[NoticeDesk],
    pieces: &mut Pieces,
    out: &mut K,
) -> Result<(), SinkFault>
    requires desks { length desks.now ≡ sender_places session.now }
    ensures wrote { (entries : List Entry) → AreDesksOf session.now entries desks.now →
        Gathered K.written K.faults pieces.old out.old pieces.new out.new (bank_desks session.now entries) result }
{
    for place in 0..session.banks().len() {
        write_sender(session, BankId::at(place), desks, pieces, out)?;
    }
    Ok(())
}

/// Writes the operator's desk, where the session has one.
fn write_host_desk<K: Sink>(
    session: &Session,
    desks: &[NoticeDesk],
    pieces: &mut Pieces,
    out: &mut K,
) -> Result<(), SinkFault>
    requires desks { length desks.now ≡ sender_places session.now }
    ensures wrote { (entries : List Entry) → AreDesksOf session.now entries desks.now →
        Gathered K.written K.faults pieces.old out.old pieces.new out.new (host_desk session.now entries) result }
{
    if session.version() == 2 {
        write_sender(session, BankId::HOST, desks, pieces, out)
    } else {
        Ok(())
    }
}

/// Writes the desk of one of the senders.
fn write_sender<K: Sink>(
    session: &Session,
    sender: BankId,
    desks: &[NoticeDesk],
    pieces: &mut Pieces,
    out: &mut K,
) -> Result<(), SinkFault>
    requires sender { IsSender session.now sender }
    requires place { sender < length desks.now }
    ensures wrote { (entries : List Entry) → AreDesksOf session.now entries desks.now →
        Gathered K.written K.faults pieces.old out.old pieces.new out.new (desk_text session.now entries sender) result }
{
    let desk = &desks[sender.index()];
    write_desk(session, sender, desk.count(), desk.lines(), pieces, out)
}

/// Writes a sender's desk: how many notices it has, and their lines.
fn write_desk<K: Sink>(
    session: &Session,
    sender: BankId,
    count: usize,
    lines: &[u8],
    pieces: &mut Pieces,
    out: &mut K,
) -> Result<(), SinkFault>
    requires sender { IsSender session.now sender }
    ensures wrote { Gathered K.written K.faults pieces.old out.old pieces.new out.new (desk_line session.now sender count ++ lines.now) result }
{
    let mut line = LineText::new();
    make_desk(session, sender, count as u128, &mut line);
    pieces.put(line.as_slice(), out)?;
    pieces.put(lines, out)
}
