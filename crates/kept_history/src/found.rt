ghost use Rattle.std.specs.Prelude.{◌≡◌, ◌<◌, ℕ, List, length, Ok, IfOk};
ghost use Rattle.fx_rules.specs.Lists.{Each};
ghost use Rattle.fx_rules.specs.Sending.{IsSentOf};
ghost use Rattle.kept_history.specs.Blocks.{kept_in};
ghost use Rattle.kept_history.specs.Found.{IsFound};

use crate::blocks::{Kept, read_blocks};
use crate::stop::Stop;
use fx_amounts::Memory;
use fx_rules::{EntryList, Session};
use fx_text::Bytes;
use market_run::run_in_order;
use pair_host::PairHost;
use std::alloc::Global;

/// The most commands of a journal that a session goes on from, 2^24.
const MOST_COMMANDS: usize = 16_777_216;

/// What the blocks of a journal hold.
#[derive(Drop)]
pub enum Found {
    /// A session and its history.
    Whole {
        session: Session,
        /// The only legal history with the commands of the blocks, in their order; at most 2^24 entries.
        entries: EntryList,
    },
    /// A block is not what it has to be.
    Damaged {
        /// The first such block, counted from 0: the first is a header up to START, each other is lines of a journal.
        block: u64,
    },
    /// No block is damaged, and there are more commands in them than a session goes on from.
    Full {
        /// How many commands there are, more than 2^24.
        commands: u64,
    },
}

/// The session and the only legal history whose commands the blocks of a journal hold, or why there is none to go on from. All
/// blocks are read before a command is served, and none is served where one is damaged or there are too many commands. There
/// has to be a block.
pub fn history(alloc: Global, bodies: &[Bytes]) -> Result<Found, Memory>
    requires some { 0 < length bodies.now }
    ensures found { IfOk result (IsFound bodies.now) }
{
    match read_blocks(alloc, bodies) {
        Ok(kept) => history_of(alloc, kept),
        Err(Stop::Damaged { block }) => Ok(Found::Damaged { block }),
        Err(Stop::Memory(memory)) => Err(memory),
    }
}

/// Serves the commands of whole blocks, where they are not too many.
fn history_of(alloc: Global, kept: Kept) -> Result<Found, Memory>
    requires valid { Each (IsSentOf kept.session) kept.sent.items }
    ensures found { IfOk result (λ found. (bodies : List (List ℕ)) →
        kept_in bodies ≡ Ok (record { session = kept.session; commands = kept.sent.items }) → IsFound bodies found) }
{
    let Kept { session, sent } = kept;
    if sent.len() > MOST_COMMANDS {
        return Ok(Found::Full {
            commands: sent.len() as u64,
        });
    }
    let host = PairHost::open(alloc, &session)?;
    let (entries, _host) = run_in_order(alloc, &session, host, &sent)?;
    Ok(Found::Whole {
        session,
        entries: EntryList::from_vec(entries),
    })
}
