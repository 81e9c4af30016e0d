//! Days of clients, played at the plain host: the clients' book is asked before each command of a client, and told of each entry.
ghost use Rattle.std.specs.Prelude.{ℕ, ◌≡◌, ◌<◌, List, length, Some, IfOk, OnOk};
ghost use Rattle.fx_rules.specs.Sending.{IsSentOf};
ghost use Rattle.fx_rules.specs.Session.{Header};
ghost use Rattle.client_desk.specs.declared.ask.Ask.TheVariants.{Pass};
ghost use Rattle.client_desk.specs.Clients.{AreClients, Tagged, ask_of};
ghost use Rattle.client_desk.specs.Standing.{NamesPair, StandsFor};
ghost use Rattle.output_trials.specs.inside.ClientDays.{IsClientDay, IsClientOf};

use crate::clients::read;
use crate::fixture::TRADING;
use client_desk::{Ask, ClientBook, ClientId, ClientLine, Clients, client_line_with};
use flat_host::FlatHost;
use fx_amounts::{BankId, Memory};
use fx_rules::{Command, Entry, Market, Sent, Session, is_command};
use fx_text::{Bytes, Line, LineText, push_number};
use order_lines::Spoken;
use std::alloc::Global;
use std::test::Fail;
use trial_days::{ALFA, BETA, GAMA, session_of, tell};

/// A worked day of clients.
#[derive(Clone, Copy)]
struct ClientDay {
    name: &'static str,
    header: &'static [u8],
    /// The lines that declare the clients.
    clients: &'static [&'static [u8]],
    /// Each line behind them, and what has to come of it: what is answered, and then of each client what it has filled, reserved
    /// and free.
    rows: &'static [(&'static str, &'static str)],
    /// Banks, numbers of commands, and the client that each command is of.
    owners: &'static [(u8, u32, Option<usize>)],
}

/// Three banks and EUR/USD. ALFA and BETA have a line of 1000; ALFA alone has a limit for GAMA.
const HALF_OPEN: &[u8] = b"FXBOOK 1
BANK ALFA
BANK BETA
BANK GAMA
PAIR EUR/USD 5 1000000 100
LINE ALFA BETA 1000
LINE ALFA GAMA 500
LINE BETA ALFA 1000
START
";

const DAYS: [ClientDay; 3] = [
    ClientDay {
        name: "an order that costs more than is free is short",
        header: TRADING,
        clients: &[b"CLIENT: ALFA ANN 250"],
        rows: &[
            ("BETA SELL EUR/USD 1.08420 3 DAY", "ORDERED 0 3|0 0 250"),
            ("ALFA:ANN BUY EUR/USD 1.08420 3 DAY", "SHORT 250|0 0 250"),
            (
                "ALFA:ANN BUY EUR/USD 1.08425 2 DAY",
                "ORDERED 2 0, ALFA 1 BUY EUR/USD 2 1.08420 BETA 1|200 0 50",
            ),
        ],
        owners: &[(ALFA, 1, Some(0)), (ALFA, 2, None), (BETA, 1, None)],
    },
    ClientDay {
        name: "a client has no say in the order of another, and a pull gives back what is reserved",
        header: TRADING,
        clients: &[b"CLIENT: ALFA ANN 250", b"CLIENT: ALFA BOB 250"],
        rows: &[
            (
                "ALFA:ANN BUY EUR/USD 1.08000 2 DAY",
                "ORDERED 0 2|0 200 50|0 0 250",
            ),
            ("ALFA:BOB CANCEL EUR/USD 1", "BARRED|0 200 50|0 0 250"),
            ("ALFA PULL EUR/USD", "PULLED 1|0 0 250|0 0 250"),
        ],
        owners: &[(ALFA, 1, Some(0)), (ALFA, 2, None)],
    },
    ClientDay {
        name: "a credit change fills the resting orders of two clients",
        header: HALF_OPEN,
        clients: &[b"CLIENT: ALFA ANN 600", b"CLIENT: GAMA KITE 400"],
        rows: &[
            (
                "BETA SELL EUR/USD 1.08420 3 DAY",
                "ORDERED 0 3|0 0 600|0 0 400",
            ),
            (
                "ALFA:ANN BUY EUR/USD 1.08425 4 DAY",
                "ORDERED 3 1, ALFA 1 BUY EUR/USD 3 1.08420 BETA 1|300 100 200|0 0 400",
            ),
            // Too late for a declaration.
            ("CLIENT: BETA LATE 100", "STRAY|300 100 200|0 0 400"),
            // It costs just what is free.
            (
                "ALFA:ANN SELL EUR/USD 1.08440 2 DAY",
                "ORDERED 0 2|300 300 0|0 0 400",
            ),
            // It rests crossed, since GAMA has no limit for ALFA yet.
            (
                "GAMA:KITE BUY EUR/USD 1.08440 1 DAY",
                "ORDERED 0 1|300 300 0|0 100 300",
            ),
            // The order that came later takes the other, and what each trades was reserved and is filled.
            (
                "GAMA LINE ALFA 500",
                "LIMIT 500, GAMA 1 BUY EUR/USD 1 1.08440 ALFA 2|400 200 0|100 0 300",
            ),
            (
                "ALFA:ANN BUY EUR/USD 1.08400 1 DAY",
                "SHORT 0|400 200 0|100 0 300",
            ),
            ("ALFA PULL EUR/USD", "PULLED 2|400 0 200|100 0 300"),
            // Its order is gone.
            ("ALFA:ANN CANCEL EUR/USD 1", "BARRED|400 0 200|100 0 300"),
            (
                "ALFA:ANN BUY EUR/USD 1.08300 2 DAY",
                "ORDERED 0 2|400 200 0|100 0 300",
            ),
        ],
        owners: &[
            (ALFA, 1, Some(0)),
            (ALFA, 2, Some(0)),
            (ALFA, 3, None),
            (ALFA, 4, Some(0)),
            (ALFA, 5, None),
            (BETA, 1, None),
            (GAMA, 1, Some(1)),
            (GAMA, 2, None),
        ],
    },
];

/// What a command is answered before it is sent; one without a client always passes.
fn asked(book: &ClientBook, who: &Option<ClientId>, command: &Command) -> Ask
    requires client { (c : ℕ) → who.now ≡ Some c → c < length book.now.clients }
    requires pair { NamesPair (length book.now.weights) command.now }
    ensures answers { (h : Header) (tagged : List Tagged) → StandsFor h tagged book.now → (c : ℕ) → who.now ≡ Some c → ask_of h book.now.clients tagged c command.now ≡ result }
{
    match *who {
        Some(client) => book.ask(client, command),
        None => Ask::Pass,
    }
}

/// Has a command that passed carried out, and tells the book of its entry.
fn carry_out<M: Market>(
    session: &Session,
    market: &mut M,
    book: &mut ClientBook,
    who: Option<ClientId>,
    sent: Sent,
) -> Result<Entry, Fail>
    requires day { IsClientDay M.stands session.now market.old book.old }
    requires sent { IsSentOf session.now sent }
    requires client { IsClientOf book.old who sent.bank }
    requires passed { (h : Header) (tagged : List Tagged) → StandsFor h tagged book.old → (c : ℕ) → who ≡ Some c → ask_of h book.old.clients tagged c sent.command ≡ Pass }
    ensures day { OnOk result (IsClientDay M.stands session.now market.new book.new) }
{
    let before = market.count(sent.bank);
    if before == u32::MAX {
        return Err("no number is left".into());
    }
    let outcome = market.apply(sent.bank, &sent.command)?;
    let entry = Entry {
        bank: sent.bank,
        number: before + 1,
        command: sent.command,
        outcome,
    };
    book.record(who, &entry)?;
    Ok(entry)
}

/// Sends a command, of this client where it has one, and adds what it is answered.
fn send<M: Market>(
    session: &Session,
    market: &mut M,
    book: &mut ClientBook,
    who: Option<ClientId>,
    sent: Sent,
    text: &mut Vec<u8>,
) -> Result<(), Fail>
    requires day { IsClientDay M.stands session.now market.old book.old }
    requires client { IsClientOf book.old who sent.bank }
    ensures day { OnOk result (IsClientDay M.stands session.now market.new book.new) }
{
    if !is_command(session, sent.bank, &sent.command) {
        return Err("a command that its sender may not send".into());
    }
    match asked(book, &who, &sent.command) {
        Ask::Pass => {
            let entry = carry_out(session, market, book, who, sent)?;
            tell(session, &entry.outcome, text)?;
        }
        Ask::Short { free } => {
            text.extend_from_slice(b"SHORT ")?;
            push_number(u128::from(free.get()), text)?;
        }
        Ask::Barred => text.extend_from_slice(b"BARRED")?,
    }
    Ok(())
}

/// Sends a client's command in its bank's name.
fn send_of<M: Market>(
    session: &Session,
    market: &mut M,
    book: &mut ClientBook,
    client: ClientId,
    command: Command,
    text: &mut Vec<u8>,
) -> Result<(), Fail>
    requires day { IsClientDay M.stands session.now market.old book.old }
    ensures day { OnOk result (IsClientDay M.stands session.now market.new book.new) }
{
    let place = client.index();
    if place >= book.clients().len() {
        return Err("a client that the book does not have".into());
    }
    let bank = book.clients()[place].bank;
    send(
        session,
        market,
        book,
        Some(client),
        Sent { bank, command },
        text,
    )
}

/// Adds what a line behind the declarations is answered.
fn answer<M: Market>(
    session: &Session,
    market: &mut M,
    book: &mut ClientBook,
    said: &ClientLine,
    text: &mut Vec<u8>,
) -> Result<(), Fail>
    requires day { IsClientDay M.stands session.now market.old book.old }
    ensures day { OnOk result (IsClientDay M.stands session.now market.new book.new) }
{
    match *said {
        ClientLine::Of(client, command) => {
            send_of(session, market, book, client, command, text)?;
        }
        ClientLine::Plain(Spoken::Of(bank, command)) => {
            send(session, market, book, None, Sent { bank, command }, text)?;
        }
        _ => text.extend_from_slice(b"STRAY")?,
    }
    Ok(())
}

/// Plays a line behind the declarations: what it is answered, and then of each client what it has filled, reserved and free.
fn played<M: Market>(
    alloc: Global,
    session: &Session,
    clients: &Clients,
    market: &mut M,
    book: &mut ClientBook,
    line: &[u8],
) -> Result<Vec<u8>, Fail>
    requires clients { AreClients session.now clients.now }
    requires day { IsClientDay M.stands session.now market.old book.old }
    ensures day { OnOk result (IsClientDay M.stands session.now market.new book.new) }
{
    let line = Line::Whole(Bytes::from_vec(Vec::from_slice(alloc, line)?));
    let said = client_line_with(session, clients, &line.view(), &mut LineText::new());
    let mut text = Vec::new(alloc);
    answer(session, market, book, &said, &mut text)?;
    push_sums(alloc, book, &mut text)?;
    Ok(text)
}

/// Adds what each client has filled, reserved and free.
fn push_sums(alloc: Global, book: &ClientBook, text: &mut Vec<u8>) -> Result<(), Memory> {
    for place in 0..book.clients().len() {
        if place < ClientId::COUNT {
            let client = ClientId::at(place);
            let (filled, reserved) = (book.filled(client).get(), book.reserved(client).get());
            let free = book.free(client).get();
            text.extend_from_slice(format!(in alloc; "|{filled} {reserved} {free}")?.as_bytes())?;
        }
    }
    Ok(())
}

/// The clients that lines declare.
fn declared(alloc: Global, session: &Session, lines: &[&[u8]]) -> Result<Clients, Memory>
    ensures clients { IfOk result (AreClients session.now) }
{
    let mut clients = Clients::new(alloc);
    for line in lines {
        read(alloc, session, &mut clients, line)?;
    }
    Ok(clients)
}

/// The first line of a day of which another thing comes, and what.
fn first_answer<M: Market>(
    alloc: Global,
    session: &Session,
    day: &ClientDay,
    market: &mut M,
    book: &mut ClientBook,
) -> Result<Option<String>, Fail>
    requires day { IsClientDay M.stands session.now market.old book.old }
{
    let clients = declared(alloc, session, day.clients)?;
    for (line, want) in day.rows {
        let text = played(alloc, session, &clients, market, book, line.as_bytes())?;
        if text.as_slice() != want.as_bytes() {
            let got = str::from_utf8(&text).unwrap_or_default();
            return Ok(Some(format!(in alloc; "{line}: {got}")?));
        }
    }
    Ok(None)
}

/// The first command that is of another client than worked, and of which.
fn first_owner(alloc: Global, day: &ClientDay, book: &ClientBook) -> Result<Option<String>, Fail> {
    for (bank, number, want) in day.owners {
        let Some(sender) = BankId::new(*bank) else {
            return Err("no bank".into());
        };
        let owner = book.owner(sender, *number).map(ClientId::index);
        if owner != *want {
            return Ok(Some(format!(in alloc; "command {number} of {bank}: {owner:?}")?));
        }
    }
    Ok(None)
}

/// The first thing of a day that is otherwise than worked.
fn first_wrong(alloc: Global, day: &ClientDay) -> Result<Option<String>, Fail> {
    let session = session_of(alloc, day.header)?;
    let mut host = FlatHost::open(alloc, &session)?;
    let clients = declared(alloc, &session, day.clients)?;
    let mut book = ClientBook::open(&session, Vec::from_slice(alloc, clients.as_slice())?)?;
    let wrong = first_answer(alloc, &session, day, &mut host, &mut book)?;
    if wrong.is_some() {
        return Ok(wrong);
    }
    first_owner(alloc, day, &book)
}

#[test]
fn clients_trade_within_their_limits(rt: HostRuntime) -> Result<(), Fail> {
    for day in DAYS {
        let wrong = first_wrong(rt.alloc(), &day)?;
        assert!(rt; wrong.is_none(), "{}: {wrong:?}", day.name);
    }
    Ok(())
}
