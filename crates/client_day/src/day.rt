ghost use Rattle.std.specs.Prelude.{ℕ, ◌≡◌, ◌<◌, ◌+◌, ◌^◌, ◌==◌, [], ◌∷◌, ◌++◌, List, true, if◌then◌else◌, None, Some, drop, length, take, IfOk, OnOk};
ghost use Rattle.fx_rules.specs.Lists.{Each};
ghost use Rattle.fx_rules.specs.Sending.{IsSentOf};
ghost use Rattle.fx_rules.specs.Session.{Header};
ghost use Rattle.fx_rules.specs.Step.{IsCommand};
ghost use Rattle.client_desk.specs.Clients.{AreClients, IsTagged, Tagged, ask_of, bank_of_client, tag};
ghost use Rattle.client_desk.specs.Lines.{client_line_of};
ghost use Rattle.client_desk.specs.Standing.{StandsFor};
ghost use Rattle.client_desk.specs.declared.ask.Ask.TheVariants.{Pass};
ghost use Rattle.client_desk.specs.declared.line.ClientLine.TheVariants.{Declares};
ghost use Rattle.fx_text.specs.declared.line.Line.{Line as TextLine};
ghost use Rattle.order_lines.specs.Spelling.{command_text_of};
ghost use Rattle.fx_text.specs.Lines.{line_seen};
ghost use Rattle.session_script.specs.Heard.{IsHeardOf};
ghost use Rattle.session_script.specs.Heard.{Heard as HeardLine};
ghost use Rattle.session_script.specs.Heard.Heard.{Stray as HeardStray};
ghost use Rattle.client_day.specs.Days.{IsBehind, IsDayOf};
ghost use Rattle.client_day.specs.inside.Days.{HasRoom, IsClientOf, TakesAsked};
ghost use Rattle.client_day.specs.inside.Desks.{HaveNoted};
ghost use Rattle.client_day.specs.Events.{Event as DayEvent};
ghost use Rattle.client_day.specs.Notes.{refusal_notes};
ghost use Rattle.client_day.specs.Script.{asked_for};

use crate::desk::tell_refusal;
use crate::handing::HandsBack;
use crate::notes::note_entry;
use client_desk::{Ask, Client, ClientBook, ClientId, ClientLine, client_line_with};
use fx_amounts::Memory;
use fx_rules::{Command, Entry, Sent, Session};
use fx_text::{LineText, LineView};
use market_run::Run;
use order_lines::make_command;
use pair_host::PairHost;
use reply_lines::{DayNotices, JournalText, NoticeDesk};
use session_script::{HeardLines, HeardView};
use std::alloc::Global;

/// A session with clients as it is served: the market with what its output tells, the clients' book, and what each client is told.
#[derive(Drop)]
pub struct ClientDay {
    pub(crate) run: Run<PairHost, HandsBack>,
    pub(crate) journal: JournalText,
    pub(crate) notices: DayNotices,
    pub(crate) book: ClientBook,
    /// By client.
    pub(crate) desks: Vec<NoticeDesk>,
    /// How many lines were strays so far.
    pub(crate) strays: u64,
    /// Whether a command was asked for, so that no client is declared any more.
    pub(crate) trading: bool,
}

impl ClientDay {
    /// The day of a session before its first line. `Memory` when out of memory.
    pub(crate) fn open(alloc: Global, session: &Session) -> Result<ClientDay, Memory>
        ensures opens { IfOk result (IsDayOf session.now []) }
    {
        let host = PairHost::open(alloc, session)?;
        let notices = DayNotices::open(alloc, session)?;
        let book = ClientBook::open(session, Vec::new(alloc))?;
        Ok(ClientDay {
            run: Run::open(session, host, HandsBack),
            journal: JournalText::new(alloc),
            notices,
            book,
            desks: Vec::new(alloc),
            strays: 0,
            trading: false,
        })
    }

    /// Serves what is heard next, in order. After `Memory` the day must not be used any more.
    pub(crate) fn take_all(&mut self, session: &Session, heard: &HeardLines) -> Result<(), Memory>
        requires next { (before : List HeardLine) × IsDayOf session.now before self.old × (length before + length heard.now < 2 ^ 32) }
        requires valid { Each (IsHeardOf session.now) heard.now }
        ensures taken { OnOk result ((before : List HeardLine) → IsDayOf session.now before self.old → IsDayOf session.now (before ++ heard.now) self.new) }
    {
        let mut line = LineText::new();
        for place in 0..heard.len() {
            self.take(session, heard, place, &mut line)?;
        }
        Ok(())
    }

    /// Serves the command, or reads the line that is a stray without clients, that was heard at a place. In `journal` the line of a
    /// command is made. After `Memory` the day must not be used any more.
    fn take(
        &mut self,
        session: &Session,
        heard: &HeardLines,
        place: usize,
        journal: &mut LineText,
    ) -> Result<(), Memory>
        requires place { place < length heard.now }
        requires next { (before : List HeardLine) × IsDayOf session.now before self.old × (length before + 1 < 2 ^ 32) }
        requires valid { Each (IsHeardOf session.now) (drop place heard.now) }
        ensures taken { OnOk result ((before : List HeardLine) → IsDayOf session.now (before ++ take place heard.now) self.old → IsDayOf session.now (before ++ take (place + 1) heard.now) self.new) }
    {
        match heard.at(place) {
            HeardView::Command(sent) => self.take_command(session, sent, journal),
            HeardView::Stray(line) => self.take_line(session, &line, journal),
        }
    }

    /// Serves a bank's command. After `Memory` the day must not be used any more.
    fn take_command(
        &mut self,
        session: &Session,
        sent: Sent,
        journal: &mut LineText,
    ) -> Result<(), Memory>
        requires next { (events : List DayEvent) × IsBehind session.now events self.old × HasRoom events }
        requires sent { IsSentOf session.now sent }
        ensures taken { OnOk result (TakesAsked session.now (asked_for None sent.bank sent.command) self.old self.new) }
    {
        make_command(session, sent.bank, &sent.command, journal);
        self.serve(session, &None, sent, journal.as_slice())
    }

    /// Reads a line that is a stray without clients.
    fn take_line(
        &mut self,
        session: &Session,
        line: &LineView<'_>,
        journal: &mut LineText,
    ) -> Result<(), Memory>
        requires next { (before : List HeardLine) × IsDayOf session.now before self.old × (length before + 1 < 2 ^ 32) }
        ensures taken { OnOk result ((before : List HeardLine) → IsDayOf session.now before self.old → IsDayOf session.now (before ++ HeardStray (line_seen line.now) ∷ []) self.new) }
    {
        match client_line_with(session, self.book.named_clients(), line, journal) {
            ClientLine::Declares(client) => self.declare(client),
            ClientLine::Of(client, command) => {
                self.ask(session, client, command, journal.as_slice())
            }
            ClientLine::Plain(_) => {
                self.strays += 1;
                Ok(())
            }
        }
    }

    /// Adds a client; behind the first command that is asked for, its line is a stray.
    fn declare(&mut self, client: Client) -> Result<(), Memory>
        requires next { (h : Header) × (before : List HeardLine) × IsDayOf h before self.old × (length before + 1 < 2 ^ 32) × AreClients h (self.old.book.clients ++ client ∷ []) }
        ensures taken { OnOk result ((h : Header) (before : List HeardLine) (line : TextLine) → IsDayOf h before self.old → AreClients h (self.old.book.clients ++ client ∷ []) → client_line_of h self.old.book.clients line ≡ Declares client → IsDayOf h (before ++ HeardStray line ∷ []) self.new) }
    {
        if self.trading {
            self.strays += 1;
            return Ok(());
        }
        let desk = NoticeDesk::new(*self.desks.allocator());
        self.desks.reserve(1)?;
        self.book.declare(client)?;
        self.desks.push_reserved(desk);
        Ok(())
    }

    /// Serves a client's command, whose line in the journal this is, where it passes, and else refuses it.
    fn ask(
        &mut self,
        session: &Session,
        client: ClientId,
        command: Command,
        line: &[u8],
    ) -> Result<(), Memory>
        requires next { (events : List DayEvent) × IsBehind session.now events self.old × HasRoom events }
        requires client { client < length self.old.book.clients }
        requires command { IsCommand session.now (bank_of_client self.old.book.clients client) command }
        requires line { line.now ≡ command_text_of session.now (bank_of_client self.old.book.clients client) command ++ 10 ∷ [] }
        ensures taken { OnOk result (TakesAsked session.now (asked_for (Some client) (bank_of_client self.old.book.clients client) command) self.old self.new) }
    {
        match self.book.ask(client, &command) {
            Ask::Pass => {
                let bank = self.book.clients()[client.index()].bank;
                self.serve(session, &Some(client), Sent { bank, command }, line)
            }
            Ask::Short { free } => self.refuse(client, Ask::Short { free }),
            Ask::Barred => self.refuse(client, Ask::Barred),
        }
    }

    /// Tells a client that its command is refused.
    fn refuse(&mut self, client: ClientId, answer: Ask) -> Result<(), Memory>
        requires client { client < length self.old.desks.items }
        ensures rest { (self.new.run ≡ self.old.run) × (self.new.journal ≡ self.old.journal) × (self.new.notices ≡ self.old.notices) × (self.new.book ≡ self.old.book) × (self.new.strays ≡ self.old.strays) }
        ensures trades { self.new.trading ≡ true }
        ensures noted { OnOk result ((h : Header) → HaveNoted h (λ c. if client == c then refusal_notes answer else []) self.old.desks.items self.new.desks.items) }
    {
        self.trading = true;
        tell_refusal(&mut self.desks[client.index()], answer)
    }

    /// Serves a command, of this client where it has one, whose line in the journal this is, and tells the clients what came of it.
    fn serve(
        &mut self,
        session: &Session,
        who: &Option<ClientId>,
        sent: Sent,
        line: &[u8],
    ) -> Result<(), Memory>
        requires next { (events : List DayEvent) × IsBehind session.now events self.old × HasRoom events }
        requires client { IsClientOf self.old who.now sent.bank }
        requires sent { IsSentOf session.now sent }
        requires line { line.now ≡ command_text_of session.now sent.bank sent.command ++ 10 ∷ [] }
        requires passed { (tagged : List Tagged) → StandsFor session.now tagged self.old.book → (c : ℕ) → who.now ≡ Some c → ask_of session.now self.old.book.clients tagged c sent.command ≡ Pass }
        ensures taken { OnOk result (TakesAsked session.now (asked_for who.now sent.bank sent.command) self.old self.new) }
    {
        self.trading = true;
        let entry = self.run.serve_entry(session, sent)?;
        self.journal.add_lines(1, line)?;
        record(&mut self.book, who, &entry)?;
        note_entry(
            session,
            &self.book,
            who,
            &entry,
            &mut self.notices,
            &mut self.desks,
        )
    }
}

/// Has the book follow an entry, of this client where it has one.
fn record(book: &mut ClientBook, who: &Option<ClientId>, entry: &Entry) -> Result<(), Memory>
    requires next { (h : Header) × (tagged : List Tagged) × StandsFor h tagged book.old × IsTagged h book.old.clients (tagged ++ tag who.now entry.now ∷ []) }
    ensures recorded { OnOk result ((h : Header) (tagged : List Tagged) → StandsFor h tagged book.old → IsTagged h book.old.clients (tagged ++ tag who.now entry.now ∷ []) → StandsFor h (tagged ++ tag who.now entry.now ∷ []) book.new) }
    ensures clients { OnOk result (book.new.clients ≡ book.old.clients) }
{
    match *who {
        Some(client) => book.record(Some(client), entry),
        None => book.record(None, entry),
    }
}
