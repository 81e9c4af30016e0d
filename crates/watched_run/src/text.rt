//! The text of a session that was watched.
ghost use Rattle.std.specs.Prelude.{◌≡◌, ◌∷◌, ◌++◌, [], List, codes};
ghost use Rattle.fx_amounts.specs.Numeral.{numeral};
ghost use Rattle.fx_edges.specs.Writing.{Wrote};
ghost use Rattle.fx_edges.specs.Gathered.{Gathered};
ghost use Rattle.fx_rules.specs.declared.command.Sent.{Sent as SentCommand};
ghost use Rattle.fx_rules.specs.History.{IsLegal, state};
ghost use Rattle.pair_host.specs.Standing.{stands};
ghost use Rattle.reply_lines.specs.Faults.{WroteOutput};
ghost use Rattle.reply_lines.specs.Rows.{row};
ghost use Rattle.watched_run.specs.Watched.{HasWatched, IsWatchedOutput, look_count};

use crate::watching::Watched;
use fx_edges::{Pieces, Sink, SinkFault};
use fx_rules::Session;
use reply_lines::{Ending, OutFault, write_count, write_output_from};
use std::alloc::Global;

/// Writes the output of a session that was watched, with so many strays and this ending, and behind it what the reader saw: how many looks
/// there are, and a line for each. After a fault a prefix of the text was appended; the fault is `Write` only where the sink's count of
/// faults rose.
pub fn write_watched<K: Sink>(
    alloc: Global,
    session: &Session,
    watched: &Watched,
    strays: u64,
    ending: Ending,
    out: &mut K,
) -> Result<(), OutFault>
    requires legal { IsLegal session.now watched.now.history.items }
    requires market { stands watched.now.market session.now (state session.now watched.now.history.items) }
    ensures wrote { (sent : List SentCommand) → HasWatched session.now sent watched.now.history.items watched.now.rounds watched.now.lines.items →
        WroteOutput K.written K.faults out.old out.new (IsWatchedOutput session.now sent watched.now.history.items strays ending) result }
{
    write_output_from(
        alloc,
        session,
        &watched.history,
        &watched.market,
        strays,
        ending,
        out,
    )?;
    match write_looks(alloc, session, watched.rounds, &watched.lines, out) {
        Ok(()) => Ok(()),
        Err(fault) => Err(OutFault::from(fault)),
    }
}

/// Writes the looks of so many rounds, and of the end.
fn write_looks<K: Sink>(
    alloc: Global,
    session: &Session,
    rounds: u64,
    lines: &[u8],
    out: &mut K,
) -> Result<(), SinkFault>
    ensures wrote { Wrote K.written K.faults out.old out.new (row (codes "WATCHED") (numeral (look_count session.now rounds) ∷ []) ++ lines.now) result }
{
    let mut pieces = Pieces::new(alloc);
    write_lines(session, rounds, lines, &mut pieces, out)?;
    pieces.hand_on(out)
}

/// Writes the looks, of which the last piece is not yet handed on.
fn write_lines<K: Sink>(
    session: &Session,
    rounds: u64,
    lines: &[u8],
    pieces: &mut Pieces,
    out: &mut K,
) -> Result<(), SinkFault>
    ensures wrote { Gathered K.written K.faults pieces.old out.old pieces.new out.new (row (codes "WATCHED") (numeral (look_count session.now rounds) ∷ []) ++ lines.now) result }
{
    write_count(b"WATCHED", look_count(session, rounds), pieces, out)?;
    pieces.put(lines, out)
}

/// How many looks there are: after each of so many rounds one at each bank's local book in one pair, and at the end one in every pair.
fn look_count(session: &Session, rounds: u64) -> u128
    ensures count { result ≡ look_count session.now rounds }
{
    let banks = session.banks().len() as u128;
    let pairs = session.pairs().len() as u128;
    banks * u128::from(rounds) + banks * pairs
}
