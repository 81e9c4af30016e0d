//! The history of a run, gathered between its rounds.
ghost use Rattle.std.specs.Prelude.{◌≡◌, ◌<◌, drop, length, List, IfOk, OnErr};
ghost use mathlib.Core.List.{IsPrefix};
ghost use Rattle.fx_rules.specs.declared.outcome.Entry.{Entry as HistoryEntry};
ghost use Rattle.fx_rules.specs.Lists.{Each};
ghost use Rattle.gateway_workers.specs.inside.Gathering.{AreEach, AreGathered, IsStill, IsTold};

use crate::lane::Lane;
use fx_amounts::Memory;
use fx_chronicle::{Naming, Pass};
use fx_host::Host;
use fx_rules::EntryList;
use std::sync::Wait;

/// Has each lane's pass see all of the history, and answers its entries from position `start` on, and how many it has. The first
/// lane's pass learns a note of each other's, and sees the history; then each other learns a note of the first one's, and sees it
/// too. After `Memory` the passes have submitted what they had.
pub(crate) fn gather_lanes<N: Naming + Send, R: Wait>(
    rt: &R,
    host: &Host<N>,
    lanes: &mut [Lane<Pass<N>>],
    start: u64,
) -> Result<(EntryList, u64), Memory>
    requires some { 0 < length lanes.old }
    ensures gathered { IfOk result (λ gathered. (history : List HistoryEntry) × (gathered.0 ≡ drop start history) × (gathered.1 ≡ length history)
        × AreGathered N.session history lanes.old lanes.new) }
    ensures memory { OnErr result (AreEach IsStill lanes.old lanes.new) }
{
    let (first, others) = lanes.split_first_mut().unwrap();
    hear_all(&mut first.pass, others);
    let entries = host.entries_from(rt, &mut first.pass, start)?;
    tell_all(rt, host, &mut first.pass, others);
    Ok((entries, first.pass.seen()))
}

/// The pass learns a note of each lane's.
fn hear_all<N: Naming>(pass: &mut Pass<N>, lanes: &mut [Lane<Pass<N>>])
    ensures pass { pass.new ≡ record pass.old { seen = pass.new.seen } }
    ensures begins { IsPrefix pass.old.seen pass.new.seen }
    ensures told { Each (λ lane. IsPrefix lane.pass.seen pass.new.seen) lanes.old }
    ensures same { lanes.new ≡ lanes.old }
{
    for lane in lanes.iter_mut() {
        pass.learn(lane.pass.note());
    }
}

/// Each lane's pass learns a note of this one, and then sees all of the history.
fn tell_all<N: Naming + Send, R: Wait>(
    rt: &R,
    host: &Host<N>,
    pass: &mut Pass<N>,
    lanes: &mut [Lane<Pass<N>>],
)
    ensures same { pass.new ≡ pass.old }
    ensures told { AreEach (IsTold pass.old.seen) lanes.old lanes.new }
{
    for lane in lanes.iter_mut() {
        lane.pass.learn(pass.note());
        host.catch_up(rt, &mut lane.pass);
    }
}
