//! What an entry tells its senders and the clients: its sender the reply, and its client too, where it has one; and the banks of its
//! fills each of these, and the owners of their orders too.
ghost use Rattle.std.specs.Prelude.{ℕ, ◌≡◌, ◌<◌, ◌≤◌, ◌++◌, ◌∷◌, [], List, Some, length, OnOk};
ghost use Rattle.std.specs.List.{flat_map};
ghost use Rattle.fx_rules.specs.Lists.{Each};
ghost use Rattle.fx_rules.specs.declared.outcome.Entry.{Entry as HistoryEntry};
ghost use Rattle.fx_rules.specs.History.{IsLegal};
ghost use Rattle.fx_rules.specs.Session.{Header, bank_count};
ghost use Rattle.fx_rules.specs.Step.{fills_of};
ghost use Rattle.client_desk.specs.Clients.{Tagged, owner_in};
ghost use Rattle.client_desk.specs.Standing.{StandsFor};
ghost use Rattle.reply_lines.specs.Fills.{AreTextsOf, notice_to};
ghost use Rattle.reply_lines.specs.Day.{AreNoticesOf};
ghost use Rattle.reply_lines.specs.Desks.{HaveGot, with_notice};
ghost use Rattle.reply_lines.specs.Notices.{fill_notices};
ghost use Rattle.reply_lines.specs.Notices.Notice.{Replied};
ghost use Rattle.reply_lines.specs.Prints.{IsAnswerOf, IsFillOf};
ghost use Rattle.client_day.specs.inside.Desks.{HaveNoted};
ghost use Rattle.client_day.specs.Notes.{fill_notes, note_for};
ghost use Rattle.client_day.specs.Notes.Note.{Told};

use client_desk::{ClientBook, ClientId};
use fx_amounts::Memory;
use fx_rules::{Entry, Fill, Session};
use reply_lines::{DayNotices, FillPart, NoticeDesk, NoticeWriter};

/// Tells an entry to its senders, and to the clients, of which the book knows already. After `Memory` some of its notices may stand.
pub(crate) fn note_entry(
    session: &Session,
    book: &ClientBook,
    who: &Option<ClientId>,
    entry: &Entry,
    notices: &mut DayNotices,
    desks: &mut Vec<NoticeDesk>,
) -> Result<(), Memory>
    requires next { (entries : List HistoryEntry) × IsLegal session.now (entries ++ entry.now ∷ []) × AreNoticesOf session.now entries notices.old }
    requires known { (h : Header) × (tagged : List Tagged) × StandsFor h tagged book.now }
    requires who { (c : ℕ) → who.now ≡ Some c → c < length desks.old.items }
    requires desks { length desks.old.items ≡ length book.now.clients }
    ensures told { OnOk result ((entries : List HistoryEntry) → IsLegal session.now (entries ++ entry.now ∷ []) → AreNoticesOf session.now entries notices.old →
        AreNoticesOf session.now (entries ++ entry.now ∷ []) notices.new) }
    ensures noted { OnOk result ((h : Header) (tagged : List Tagged) → StandsFor h tagged book.now →
        HaveNoted session.now (λ c. note_for who.now c (Told (Replied entry.now)) ++ flat_map (fill_notes (owner_in tagged) c) (fills_of entry.now.outcome)) desks.old.items desks.new.items) }
{
    let senders = &mut notices.desks;
    let writer = &mut notices.writer;
    note_reply(
        session,
        who,
        entry,
        &mut senders[entry.bank.index()],
        desks,
        writer,
    )?;
    note_fills(session, book, entry.outcome.fills(), senders, desks, writer)?;
    notices.follow(session, entry);
    Ok(())
}

/// Adds the reply to an entry to its sender's desk, and to its client's, where it has one.
fn note_reply(
    session: &Session,
    who: &Option<ClientId>,
    entry: &Entry,
    sender: &mut NoticeDesk,
    desks: &mut Vec<NoticeDesk>,
    writer: &mut NoticeWriter,
) -> Result<(), Memory>
    requires answer { IsAnswerOf session.now entry.now.command entry.now.outcome }
    requires who { (c : ℕ) → who.now ≡ Some c → c < length desks.old.items }
    ensures got { OnOk result (sender.new ≡ with_notice session.now sender.old (Replied entry.now)) }
    ensures noted { OnOk result (HaveNoted session.now (λ c. note_for who.now c (Told (Replied entry.now))) desks.old.items desks.new.items) }
{
    match *who {
        Some(client) => sender.reply_to_both(session, entry, writer, &mut desks[client.index()]),
        None => sender.reply(session, entry, writer),
    }
}

/// Adds fills, in order.
fn note_fills(
    session: &Session,
    book: &ClientBook,
    fills: &[Fill],
    senders: &mut Vec<NoticeDesk>,
    desks: &mut Vec<NoticeDesk>,
    writer: &mut NoticeWriter,
) -> Result<(), Memory>
    requires fills { Each (IsFillOf session.now) fills.now }
    requires banks { bank_count session.now ≤ length senders.old.items }
    requires known { (h : Header) × (tagged : List Tagged) × StandsFor h tagged book.now }
    requires desks { length desks.old.items ≡ length book.now.clients }
    ensures got { OnOk result (HaveGot session.now (λ bank. flat_map (fill_notices bank) fills.now) senders.old.items senders.new.items) }
    ensures noted { OnOk result ((h : Header) (tagged : List Tagged) → StandsFor h tagged book.now →
        HaveNoted session.now (λ c. flat_map (fill_notes (owner_in tagged) c) fills.now) desks.old.items desks.new.items) }
{
    for fill in fills {
        note_fill(session, book, fill, senders, desks, writer)?;
    }
    Ok(())
}

/// Adds a fill to the desks of its two banks, and of the owners of its two orders, where they have one.
fn note_fill(
    session: &Session,
    book: &ClientBook,
    fill: &Fill,
    senders: &mut Vec<NoticeDesk>,
    desks: &mut Vec<NoticeDesk>,
    writer: &mut NoticeWriter,
) -> Result<(), Memory>
    requires fill { IsFillOf session.now fill.now }
    requires banks { bank_count session.now ≤ length senders.old.items }
    requires known { (h : Header) × (tagged : List Tagged) × StandsFor h tagged book.now }
    requires desks { length desks.old.items ≡ length book.now.clients }
    ensures got { OnOk result (HaveGot session.now (λ bank. fill_notices bank fill.now) senders.old.items senders.new.items) }
    ensures noted { OnOk result ((h : Header) (tagged : List Tagged) → StandsFor h tagged book.now →
        HaveNoted session.now (λ c. fill_notes (owner_in tagged) c fill.now) desks.old.items desks.new.items) }
{
    let taker = book.owner(fill.taker, fill.taker_number);
    let maker = book.owner(fill.maker, fill.maker_number);
    writer.begin_fill(session, fill);
    let sender = &mut senders[fill.taker.index()];
    note_part(
        session,
        &taker,
        FillPart::Taker,
        fill,
        sender,
        desks,
        writer,
    )?;
    let sender = &mut senders[fill.maker.index()];
    note_part(
        session,
        &maker,
        FillPart::Maker,
        fill,
        sender,
        desks,
        writer,
    )
}

/// Adds the fill that the writer has begun to the desk of its bank with this part, and to a client's, where there is a client.
fn note_part(
    session: &Session,
    who: &Option<ClientId>,
    part: FillPart,
    fill: &Fill,
    sender: &mut NoticeDesk,
    desks: &mut Vec<NoticeDesk>,
    writer: &mut NoticeWriter,
) -> Result<(), Memory>
    requires fill { IsFillOf session.now fill.now }
    requires begun { AreTextsOf session.now fill.now writer.old }
    requires who { (c : ℕ) → who.now ≡ Some c → c < length desks.old.items }
    ensures got { OnOk result (sender.new ≡ with_notice session.now sender.old (notice_to part fill.now)) }
    ensures noted { OnOk result (HaveNoted session.now (λ c. note_for who.now c (Told (notice_to part fill.now))) desks.old.items desks.new.items) }
    ensures begun { writer.new ≡ writer.old }
{
    match *who {
        Some(client) => sender.fill_to_both(
            session,
            part,
            fill,
            writer,
            &mut desks[client.index()],
        ),
        None => sender.fill(session, part, fill, writer),
    }
}
