//! What several trials start from: sessions, histories that were run in them, and texts that are compared.
ghost use Rattle.std.specs.Prelude.{IfOk};
ghost use Rattle.fx_rules.specs.History.{IsLegal};

use flat_host::FlatHost;
use fx_rules::{Entry, Session};
use market_run::run_in_order;
use std::alloc::Global;
use std::test::Fail;
use trial_days::day_of;

/// Three banks without credit, and EUR/USD. 66 bytes up to START, 72 with it.
pub(crate) const QUIET: &[u8] =
    b"FXBOOK 1\nBANK ALFA\nBANK BETA\nBANK GAMA\nPAIR EUR/USD 5 1000000 100\nSTART\n";

/// Three banks with a limit of 1000 between ALFA and BETA and no other, and EUR/USD.
pub(crate) const TRADING: &[u8] =
    b"FXBOOK 1\nBANK ALFA\nBANK BETA\nBANK GAMA\nPAIR EUR/USD 5 1000000 100\nLINE ALFA BETA 1000\nLINE BETA ALFA 1000\nSTART\n";

/// ALFA takes 2 lots of BETA; a line of GAMA's cannot be read.
pub(crate) const TRADES: &[u8] =
    b"BETA SELL EUR/USD 1.08420 2 DAY\nALFA BUY EUR/USD 1.08425 3 DAY\nGAMA PULL EUR/XXX\n";

/// The session of a header, and the history of the commands behind it, served one after another.
pub(crate) fn played(
    alloc: Global,
    header: &[u8],
    commands: &[u8],
) -> Result<(Session, Vec<Entry>), Fail>
    ensures legal { IfOk result (λ day. IsLegal day.0 day.1.items) }
{
    let mut text = header.to_vec(alloc)?;
    text.extend_from_slice(commands)?;
    let (session, sent) = day_of(alloc, &text)?;
    let host = FlatHost::open(alloc, &session)?;
    let (entries, _host) = run_in_order(alloc, &session, host, &sent)?;
    Ok((session, entries))
}

/// In how many bytes two texts agree from their front on.
pub(crate) fn agreeing(text: &[u8], other: &[u8]) -> usize {
    for (at, byte) in text.iter().enumerate() {
        if other.get(at) != Some(byte) {
            return at;
        }
    }
    text.len()
}

/// Whether a piece stands somewhere in a text.
pub(crate) fn holds(text: &[u8], piece: &[u8]) -> bool {
    (0..text.len()).any(|at| text.split_at(at).1.starts_with(piece))
}
