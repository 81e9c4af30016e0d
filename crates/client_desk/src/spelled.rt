//! A client's command in its one spelling.
ghost use Rattle.std.specs.Prelude.{◌≡◌, ◌<◌, ◌≤◌, ◌∷◌, ◌++◌, [], drop, length, slice_index, IfSome};
ghost use Rattle.fx_text.specs.declared.line.Line.TheVariants.{Whole as WholeLine};
ghost use Rattle.fx_rules.specs.Session.{bank_count, bank_name};
ghost use Rattle.fx_rules.specs.Step.{IsCommand};
ghost use Rattle.order_lines.specs.Spelling.{command_text_of};
ghost use Rattle.client_desk.specs.Clients.{AreClients, bank_of_client};
ghost use Rattle.client_desk.specs.Lines.{client_line_of};
ghost use Rattle.client_desk.specs.inside.Fronts.{BeginsWithClient};
ghost use Rattle.client_desk.specs.declared.line.ClientLine.TheVariants.{Of};

use crate::client::ClientId;
use crate::clients::Clients;
use fx_amounts::BankId;
use fx_rules::{Command, Session};
use fx_text::LineText;
use order_lines::spelled_command;

/// The longest line that is read here, in bytes: longer ones are not in the one spelling of a command.
const LONGEST: usize = 200;

/// The bytes of a bank's or a client's name.
const SHORTEST_NAME: usize = 3;

const LONGEST_NAME: usize = 8;

/// The client and its command, where a line is one in its one spelling, as its bank's line is but for the client's name behind the
/// bank's. `journal` has then the bank's line of it, with its line feed, and else any bytes. Takes no memory.
pub(crate) fn spelled_client(
    session: &Session,
    clients: &Clients,
    text: &[u8],
    journal: &mut LineText,
) -> Option<(ClientId, Command)>
    requires clients { AreClients session.now clients.now }
    ensures reads { IfSome result (λ found. client_line_of session.now clients.now (WholeLine text.now) ≡ Of found.0 found.1) }
    ensures client { IfSome result (λ found. found.0 < length clients.now) }
    ensures range { IfSome result (λ found. IsCommand session.now (bank_of_client clients.now found.0) found.1) }
    ensures journal { IfSome result (λ found. journal.new ≡ command_text_of session.now (bank_of_client clients.now found.0) found.1 ++ 10 ∷ []) }
{
    // What a bank's line says rests on a valid session, as each is.
    let _banks = session.banks();
    let (client, at) = client_before(session, clients, text)?;
    let (_, rest) = text.split_at(at);
    if rest.len() > LONGEST {
        return None;
    }
    let bank = clients.bank_of(client);
    make_line(session, bank, rest, journal);
    match spelled_command(session, journal.as_slice()) {
        Some((sent, behind)) if sent.bank == bank && behind.is_empty() => {
            Some((client, sent.command))
        }
        _ => None,
    }
}

/// The client that a line begins with, named by its bank's name, a colon and its own name, and the place behind the space that ends
/// its name. `None` where the line begins otherwise; its first field may name a client then too. Takes no memory.
fn client_before(session: &Session, clients: &Clients, text: &[u8]) -> Option<(ClientId, usize)>
    requires clients { AreClients session.now clients.now }
    ensures client { IfSome result (λ found. found.0 < length clients.now) }
    ensures within { IfSome result (λ found. found.1 ≤ length text.now) }
    ensures front { IfSome result (λ found. BeginsWithClient session.now clients.now found.0 text.now (drop found.1 text.now)) }
{
    // That no name has a colon or a blank rests on a valid session, as each is.
    let _banks = session.banks();
    let colon = name_end(text, b':')?;
    let bank = session.bank_in_front(text, colon)?;
    let (_, behind) = text.split_at(colon + 1);
    let end = name_end(behind, b' ')?;
    let place = clients.place_in_front(bank, behind, end)?;
    let _name = clients.as_slice()[place].name.as_bytes();
    Some((ClientId::at(place), colon + 1 + end + 1))
}

/// The first place of a byte in a text where a name that the text begins with can end.
fn name_end(text: &[u8], byte: u8) -> Option<usize>
    ensures { IfSome result (λ at. (at < length text.now) × (slice_index text.now at ≡ byte)) }
{
    let most = text.len().min(LONGEST_NAME + 1);
    for at in SHORTEST_NAME..most {
        if text[at] == byte {
            return Some(at);
        }
    }
    None
}

/// Makes a bank's line of fields that stand behind its name, with its line feed.
fn make_line(session: &Session, bank: BankId, rest: &[u8], line: &mut LineText)
    requires bank { bank < bank_count session.now }
    requires few { length rest.now ≤ 200 }
    ensures value { line.new ≡ (bank_name session.now bank ++ 32 ∷ rest.now) ++ 10 ∷ [] }
{
    line.clear();
    line.push(session.name(bank));
    line.push_field(rest);
    line.push_byte(b'\n');
}
