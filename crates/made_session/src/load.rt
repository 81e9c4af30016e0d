ghost use Rattle.std.specs.Prelude.{◌≡◌, ◌≤◌, IfOk, length};
ghost use Rattle.fx_rules.specs.Lists.{Each};
ghost use Rattle.fx_rules.specs.Sending.{IsSentOf};
ghost use Rattle.fx_rules.specs.Session.{IsSession};
ghost use Rattle.made_session.specs.Session.{made_header};
ghost use Rattle.made_session.specs.Commands.{made_commands};

use crate::banks::{bank_names, draw_limits, pair_rules};
use crate::commands::draw_commands;
use crate::draws::Draws;
use fx_amounts::Memory;
use fx_rules::{Sent, Session};
use std::alloc::Global;

/// Makes a session from a number, and the commands of its day: 2 to 64 banks, 1 to 32 pairs, 1 to 20,000 commands. The same
/// numbers make the same ones.
///
/// The limit of each bank on each other one is 1000 to 20000 credit units. Three commands of four are orders that rest,
/// the others orders that don't, limits and local books, all in about equal parts. Each command is one that its
/// sender may send. At `Memory` there is neither.
pub fn load_session(
    alloc: Global,
    seed: u64,
    banks: u8,
    pairs: u8,
    commands: u32,
) -> Result<(Session, Vec<Sent>), Memory>
    requires banks { (2 ≤ banks) × (banks ≤ 64) }
    requires pairs { (1 ≤ pairs) × (pairs ≤ 32) }
    requires commands { (1 ≤ commands) × (commands ≤ 20000) }
    ensures session { IfOk result (λ made. made.0 ≡ made_header seed banks pairs) }
    ensures commands { IfOk result (λ made. made.1.items ≡ made_commands seed banks pairs commands) }

    // They can be served.
    ensures valid { IfOk result (λ made. IsSession made.0) }
    ensures allowed { IfOk result (λ made. Each (IsSentOf made.0) made.1.items) }
    ensures count { IfOk result (λ made. length made.1.items ≡ commands) }
{
    let mut draws = Draws::new(seed);
    let names = bank_names(alloc, banks)?;
    let rules = pair_rules(alloc, pairs)?;
    let limits = draw_limits(alloc, banks, &mut draws)?;
    let session = Session::build(names, rules, limits).unwrap();
    let sent = draw_commands(alloc, banks, pairs, commands, &mut draws)?;
    Ok((session, sent))
}
