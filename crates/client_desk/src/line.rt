ghost use Rattle.std.specs.Prelude.{◌≡◌, ◌<◌, ◌==◌, ◌&&◌, [], ◌∷◌, ◌++◌, IfSome, length, position};
ghost use Rattle.fx_text.specs.Lines.{line_seen};
ghost use Rattle.fx_rules.specs.Session.{bank_count};
ghost use Rattle.fx_rules.specs.Step.{IsCommand};
ghost use Rattle.order_lines.specs.Grammar.{IfSent};
ghost use Rattle.order_lines.specs.Spelling.{command_text_of};
ghost use Rattle.order_lines.specs.declared.spoken.Spoken.TheVariants.{Stray};
ghost use Rattle.client_desk.specs.Clients.{AreClients, bank_of_client};
ghost use Rattle.client_desk.specs.Lines.{IfDeclares, IfOf, IfPlain, client_line_of, client_named, client_said, declared, is_new};

use crate::client::{Client, ClientId};
use crate::clients::Clients;
use crate::spelled::spelled_client;
use fx_amounts::Units;
use fx_rules::{Command, Name, Reject, Session};
use fx_text::{Fields, LineText, LineView, fields, number};
use order_lines::{Spoken, command_by, command_in, make_command};

/// What a line after `START` says of clients.
#[derive(Clone, Copy, Debug, PartialEq, Eq)]
pub enum ClientLine {
    /// It declares a client.
    Declares(Client),
    /// A command of a declared client, which may be bad.
    Of(ClientId, Command),
    /// It is no line of a client: what it is without clients.
    Plain(Spoken),
}

/// What a line after `START` says where these clients were declared. A line whose first field is `CLIENT:` declares a client by
/// its bank's name, its own name and its limit; where that is wrong, repeated or surplus it is a stray. A line whose first field
/// is a bank's name, a colon and a declared client's name is that client's command, and its other fields are read as a bank's.
/// Any other is what `command_in` says. Whether a command came before a declaration is not known here. Takes no memory.
#[tactic(auto, unfolding(crate::specs::Lines::client_line_of))]
pub fn client_line(session: &Session, clients: &Clients, line: &LineView<'_>) -> ClientLine
    requires clients { AreClients session.now clients.now }
    ensures reads { result ≡ client_line_of session.now clients.now (line_seen line.now) }

    // A client that is declared can stand behind the others.
    ensures declares { IfDeclares result (λ client. AreClients session.now (clients.now ++ client ∷ [])) }

    // What a client or a bank asks for is in range.
    ensures client { IfOf result (λ client command. client < length clients.now) }
    ensures range { IfOf result (λ client command. IsCommand session.now (bank_of_client clients.now client) command) }
    ensures plain { IfPlain result (λ spoken. IfSent spoken (IsCommand session.now)) }
{
    match *line {
        LineView::Whole(text) => {
            let fields = fields(text);
            if fields.first() == CLIENT {
                return declaration(session, clients, &fields);
            }
            match client_named(session, clients, fields.first()) {
                Some(client) => {
                    let bank = clients.bank_of(client);
                    ClientLine::Of(client, command_by(session, bank, &fields))
                }
                None => ClientLine::Plain(command_in(session, line)),
            }
        }
        LineView::Long(first) => {
            if first == CLIENT {
                return ClientLine::Plain(Spoken::Stray);
            }
            match client_named(session, clients, first) {
                Some(client) => ClientLine::Of(
                    client,
                    Command::Bad {
                        reason: Reject::Long,
                    },
                ),
                None => ClientLine::Plain(command_in(session, line)),
            }
        }
    }
}

/// As `client_line`, and in `journal` the line that a journal has of a client's command, with its line feed. Of any other line
/// `journal` has any bytes. Takes no memory.
pub fn client_line_with(
    session: &Session,
    clients: &Clients,
    line: &LineView<'_>,
    journal: &mut LineText,
) -> ClientLine
    requires clients { AreClients session.now clients.now }
    ensures reads { result ≡ client_line_of session.now clients.now (line_seen line.now) }
    ensures declares { IfDeclares result (λ client. AreClients session.now (clients.now ++ client ∷ [])) }
    ensures client { IfOf result (λ client command. client < length clients.now) }
    ensures range { IfOf result (λ client command. IsCommand session.now (bank_of_client clients.now client) command) }
    ensures plain { IfPlain result (λ spoken. IfSent spoken (IsCommand session.now)) }
    ensures journal { IfOf result (λ client command. journal.new ≡ command_text_of session.now (bank_of_client clients.now client) command ++ 10 ∷ []) }
{
    if let LineView::Whole(text) = *line {
        if let Some((client, command)) = spelled_client(session, clients, text, journal) {
            return ClientLine::Of(client, command);
        }
    }
    match client_line(session, clients, line) {
        ClientLine::Of(client, command) => {
            make_command(session, clients.bank_of(client), &command, journal);
            ClientLine::Of(client, command)
        }
        said => said,
    }
}

/// The first field of a declaration.
const CLIENT: &[u8] = b"CLIENT:";

/// What a declaration says.
fn declaration(session: &Session, clients: &Clients, fields: &Fields<'_>) -> ClientLine
    requires clients { AreClients session.now clients.now }
    ensures declares { IfDeclares result (λ client. AreClients session.now (clients.now ++ client ∷ [])) }
    ensures none { IfOf result (λ _ _. ⊥) }
    ensures stray { IfPlain result (λ spoken. spoken ≡ Stray) }
    ensures value { result ≡ declared clients.now (client_said session.now fields.now) }
{
    match declared_client(session, fields) {
        Some(client) if is_new(clients, &client) => ClientLine::Declares(client),
        _ => ClientLine::Plain(Spoken::Stray),
    }
}

/// The client that the fields of a declaration say; `None` where one of them is wrong.
fn declared_client(session: &Session, fields: &Fields<'_>) -> Option<Client>
    ensures value { result ≡ client_said session.now fields.now }
    ensures bank { IfSome result (λ client. client.bank < bank_count session.now) }
{
    if fields.count() != 4 {
        return None;
    }
    let bank = session.bank_named(fields.field(1))?;
    let limit = number(fields.field(3), 0, Units::MOST)?;
    let name = Name::from_bytes(fields.field(2))?;
    Some(Client {
        bank,
        name,
        limit: Units::new(limit).unwrap(),
    })
}

/// Whether there is room for a client more, and it is not among them.
fn is_new(clients: &Clients, client: &Client) -> bool
    ensures value { result ≡ is_new clients.now client.now }
{
    clients.as_slice().len() < ClientId::COUNT
        && clients
            .place_of(client.bank, client.name.as_bytes())
            .is_none()
}

/// The client that a field `bank:name` names. Takes no memory.
fn client_named(session: &Session, clients: &Clients, field: &[u8]) -> Option<ClientId>
    requires clients { AreClients session.now clients.now }
    ensures value { result ≡ client_named session.now clients.now field.now }
    ensures within { IfSome result (λ client. client < length clients.now) }
{
    // That a bank's name has no colon rests on a valid session, as each is.
    let _banks = session.banks();
    let at = place_of_colon(field)?;
    let (front, _) = field.split_at(at);
    let (_, name) = field.split_at(at + 1);
    let bank = session.bank_named(front)?;
    let place = clients.place_of(bank, name)?;
    Some(ClientId::at(place))
}

/// The place of the first colon of a text.
fn place_of_colon(text: &[u8]) -> Option<usize>
    ensures value { result ≡ position (λ byte. byte == 58) text.now }
    ensures within { IfSome result (λ at. at < length text.now) }
{
    text.iter().position(|byte| *byte == b':')
}
