ghost use Rattle.client_desk.specs.Clients.{AreClients};

use crate::fixture::TRADING;
use client_desk::{ClientBook, ClientLine, Clients, client_line};
use fx_amounts::Memory;
use fx_rules::{Command, Session};
use fx_text::{Bytes, Line};
use order_lines::Spoken;
use std::alloc::Global;
use std::test::Fail;
use trial_days::session_of;

/// Lines, one behind another, and what each says where the clients that are declared above it stand.
const LINES: [(&[u8], &str); 20] = [
    (b"ALFA:ANN BUY EUR/USD 1.08425 2 DAY", "stray"),
    (b"CLIENT: ALFA ANN 250", "declares 0 ANN 250"),
    (b"CLIENT: ALFA ANN 300", "stray"),
    (b"CLIENT: BETA ANN 0", "declares 1 ANN 0"),
    (
        b"CLIENT: GAMA KITE 1000000000000000",
        "declares 2 KITE 1000000000000000",
    ),
    (b"CLIENT: GAMA BOB 1000000000000001", "stray"),
    (b"CLIENT: GAMA BOB 01", "stray"),
    (b"CLIENT: DELT BOB 250", "stray"),
    (b"CLIENT: ALFA BO 250", "stray"),
    (b"CLIENT: ALFA HOST 250", "stray"),
    (b"CLIENT: ALFA BOB", "stray"),
    (b"CLIENT: ALFA BOB 250 DAY", "stray"),
    (b"CLIENT ALFA BOB 250", "stray"),
    (b"  GAMA:KITE  BUY EUR/USD 1.08425 2 DAY", "client 2"),
    (b"ALFA:ANN BUY", "client 0 bad 2"),
    (b"ALFA:KITE BUY EUR/USD 1.08425 2 DAY", "stray"),
    (b"ALFA:ANN: BOOK EUR/USD", "stray"),
    (b"ALFA BUY EUR/USD 1.08425 2 DAY", "bank 0"),
    (b"# CLIENT: ALFA BOB 250", "passed"),
    (b"END", "end"),
];

/// What a line says, in words.
fn said(alloc: Global, line: &ClientLine) -> Result<String, Memory> {
    match line {
        ClientLine::Declares(client) => {
            let name = str::from_utf8(client.name.as_bytes()).unwrap_or_default();
            let (bank, limit) = (client.bank.index(), client.limit.get());
            Ok(format!(in alloc; "declares {bank} {name} {limit}")?)
        }
        ClientLine::Of(client, Command::Bad { reason }) => {
            let (client, reason) = (client.index(), reason.code());
            Ok(format!(in alloc; "client {client} bad {reason}")?)
        }
        ClientLine::Of(client, _) => {
            let client = client.index();
            Ok(format!(in alloc; "client {client}")?)
        }
        ClientLine::Plain(Spoken::Of(bank, _)) => {
            let bank = bank.index();
            Ok(format!(in alloc; "bank {bank}")?)
        }
        ClientLine::Plain(Spoken::Stray) => Ok(format!(in alloc; "stray")?),
        ClientLine::Plain(Spoken::End) => Ok(format!(in alloc; "end")?),
        ClientLine::Plain(Spoken::Passed) => Ok(format!(in alloc; "passed")?),
    }
}

/// Reads a line where these clients were declared. One that it declares stands behind them then.
pub(crate) fn read(
    alloc: Global,
    session: &Session,
    clients: &mut Clients,
    text: &[u8],
) -> Result<String, Memory>
    requires clients { AreClients session.now clients.old }
    ensures clients { AreClients session.now clients.new }
{
    let line = Line::Whole(Bytes::from_vec(Vec::from_slice(alloc, text)?));
    let what = client_line(session, clients, &line.view());
    if let ClientLine::Declares(client) = &what {
        clients.push(*client)?;
    }
    said(alloc, &what)
}

/// The first line that says another thing, counted from 0, and what it says.
fn first_wrong(alloc: Global, session: &Session) -> Result<Option<String>, Memory> {
    let mut clients = Clients::new(alloc);
    for (at, (line, want)) in LINES.iter().enumerate() {
        let got = read(alloc, session, &mut clients, line)?;
        if got.as_str() != *want {
            return Ok(Some(format!(in alloc; "line {at}: {got}")?));
        }
    }
    Ok(None)
}

#[test]
fn lines_speak_of_clients(rt: HostRuntime) -> Result<(), Fail> {
    let session = session_of(rt.alloc(), TRADING)?;
    let wrong = first_wrong(rt.alloc(), &session)?;
    assert!(rt; wrong.is_none(), "{wrong:?}");
    Ok(())
}

#[test]
fn a_book_opens_with_all_limits_free(rt: HostRuntime) -> Result<(), Fail> {
    let alloc = rt.alloc();
    let session = session_of(alloc, TRADING)?;
    let mut clients = Clients::new(alloc);
    let _ann = read(alloc, &session, &mut clients, b"CLIENT: ALFA ANN 250")?;
    let book = ClientBook::open(&session, Vec::from_slice(alloc, clients.as_slice())?)?;
    assert!(rt; book.clients().len() == 1);
    Ok(())
}
