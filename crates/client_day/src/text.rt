ghost use Rattle.std.specs.Prelude.{◌≡◌, ◌<◌, List, length};
ghost use Rattle.std.specs.List.{flat_map};
ghost use Rattle.fx_edges.specs.Gathered.{Gathered};
ghost use Rattle.fx_edges.specs.Writing.{Wrote};
ghost use Rattle.fx_rules.specs.Lists.{below};
ghost use Rattle.client_desk.specs.Clients.{AreClients, Tagged};
ghost use Rattle.client_desk.specs.Standing.{StandsFor};
ghost use Rattle.reply_lines.specs.Faults.{WroteOutput};
ghost use Rattle.session_script.specs.Heard.{Heard as HeardLine};
ghost use Rattle.client_day.specs.Days.{IsDayOf};
ghost use Rattle.client_day.specs.inside.Days.{AreToldOf, IsToldOf};
ghost use Rattle.client_day.specs.Events.{Event as DayEvent};
ghost use Rattle.client_day.specs.Text.{IsClientsText, client_part, client_row, clients_text};

use crate::day::ClientDay;
use client_desk::{ClientBook, ClientId};
use fx_edges::{Pieces, Sink, SinkFault};
use fx_rules::Session;
use fx_text::LineText;
use reply_lines::{DayText, Ending, NoticeDesk, OutFault, write_count};
use std::alloc::Global;

/// Writes the output of a session with clients, with this ending, and behind it how many clients there are, and of each what it has
/// and was told. After a fault a prefix of the text was appended; the fault is `Write` only where the sink's count of faults rose.
pub fn write_clients<K: Sink>(
    alloc: Global,
    session: &Session,
    day: ClientDay,
    ending: Ending,
    out: &mut K,
) -> Result<(), OutFault>
    requires day { (heard : List HeardLine) × IsDayOf session.now heard day }
    ensures wrote { (heard : List HeardLine) → IsDayOf session.now heard day → WroteOutput K.written K.faults out.old out.new (IsClientsText session.now heard ending) result }
{
    let ClientDay {
        run,
        journal,
        notices,
        book,
        desks,
        strays,
        ..
    } = day;
    let (market, _) = run.into_parts();
    DayText::of(journal, notices).write(alloc, session, &market, strays, ending, out)?;
    match write_part(alloc, session, &book, &desks, out) {
        Ok(()) => Ok(()),
        Err(fault) => Err(OutFault::from(fault)),
    }
}

/// Writes what each client has and was told.
fn write_part<K: Sink>(
    alloc: Global,
    session: &Session,
    book: &ClientBook,
    desks: &[NoticeDesk],
    out: &mut K,
) -> Result<(), SinkFault>
    requires told { (events : List DayEvent) × AreToldOf session.now events book.now desks.now }
    ensures wrote { (events : List DayEvent) → AreToldOf session.now events book.now desks.now → Wrote K.written K.faults out.old out.new (clients_text session.now book.now.clients events) result }
{
    let mut pieces = Pieces::new(alloc);
    write_lines(session, book, desks, &mut pieces, out)?;
    pieces.hand_on(out)
}

/// Writes it, but for the last piece, which is not yet handed on.
#[tactic(auto, unfolding(crate::specs::Text::clients_text))]
fn write_lines<K: Sink>(
    session: &Session,
    book: &ClientBook,
    desks: &[NoticeDesk],
    pieces: &mut Pieces,
    out: &mut K,
) -> Result<(), SinkFault>
    requires told { (events : List DayEvent) × AreToldOf session.now events book.now desks.now }
    ensures wrote { (events : List DayEvent) → AreToldOf session.now events book.now desks.now → Gathered K.written K.faults pieces.old out.old pieces.new out.new (clients_text session.now book.now.clients events) result }
{
    write_count(b"CLIENTS", desks.len() as u128, pieces, out)?;
    write_all_clients(session, book, desks, pieces, out)
}

/// Writes each client's part.
fn write_all_clients<K: Sink>(
    session: &Session,
    book: &ClientBook,
    desks: &[NoticeDesk],
    pieces: &mut Pieces,
    out: &mut K,
) -> Result<(), SinkFault>
    requires told { (events : List DayEvent) × AreToldOf session.now events book.now desks.now }
    ensures wrote { (events : List DayEvent) → AreToldOf session.now events book.now desks.now → Gathered K.written K.faults pieces.old out.old pieces.new out.new (flat_map (client_part session.now book.now.clients events) (below (length book.now.clients))) result }
{
    for place in 0..desks.len() {
        write_client(session, book, place, &desks[place], pieces, out)?;
    }
    Ok(())
}

/// Writes a client's part: its line, and those of what it was told.
fn write_client<K: Sink>(
    session: &Session,
    book: &ClientBook,
    place: usize,
    desk: &NoticeDesk,
    pieces: &mut Pieces,
    out: &mut K,
) -> Result<(), SinkFault>
    requires client { place < length book.now.clients }
    requires told { (events : List DayEvent) × IsToldOf session.now events book.now place desk.now }
    ensures wrote { (events : List DayEvent) → IsToldOf session.now events book.now place desk.now → Gathered K.written K.faults pieces.old out.old pieces.new out.new (client_part session.now book.now.clients events place) result }
{
    let mut line = LineText::new();
    make_client(session, book, ClientId::at(place), desk.count(), &mut line);
    pieces.put(line.as_slice(), out)?;
    pieces.put(desk.lines(), out)
}

/// Makes the line of a client.
#[tactic(auto, unfolding(crate::specs::Text::client_row))]
fn make_client(
    session: &Session,
    book: &ClientBook,
    client: ClientId,
    count: usize,
    line: &mut LineText,
)
    requires client { client < length book.now.clients }
    requires clients { AreClients session.now book.now.clients }
    ensures made { (tagged : List Tagged) → StandsFor session.now tagged book.now → line.new ≡ client_row session.now book.now.clients tagged client count }
{
    let kept = book.clients()[client.index()];
    line.clear();
    line.push(b"CLIENT");
    line.push_field(session.name(kept.bank));
    line.push_field(kept.name.as_bytes());
    line.push_number_field(kept.limit.get());
    line.push_number_field(book.filled(client).get());
    line.push_number_field(book.reserved(client).get());
    line.push_number_field(count as u64);
    line.push_byte(b'\n');
}
