//! Entries that are kept, submitted again.
ghost use Rattle.std.specs.Prelude.{◌≡◌, ◌+◌, ◌-◌, ◌^◌, ◌<◌, [], length, List, IfOk, OnOk};
ghost use Rattle.fx_rules.specs.declared.outcome.Entry.{Entry as HistoryEntry};
ghost use Rattle.fx_rules.specs.Step.{IsCommand};
ghost use Rattle.fx_rules.specs.History.{IsLegal, own};
ghost use Rattle.gateway_workers.specs.SenderLanes.{HaveServed};
ghost use Rattle.gateway_workers.specs.Gathering.{HaveGathered};
ghost use Rattle.gateway_workers.specs.inside.Gathering.{AreResubmitted, HasSubmitted};

use crate::lane::Lane;
use fx_amounts::Memory;
use fx_chronicle::{Desk, Naming, Note, Pass, place_among};
use fx_host::Host;
use fx_rules::{Command, Entry, OpenGate};
use std::sync::Wait;

/// Submits the commands of entries in their order, each in its sender's lane, whose pass first learns a note of the pass before. The
/// lanes have served nothing. After `Memory` the first so many are submitted.
pub(crate) fn submit_again<N: Naming + Send, R: Wait>(
    rt: &R,
    host: &Host<N>,
    lanes: &mut [Lane<Pass<N>>],
    entries: &[Entry],
) -> Result<(), Memory>
    requires served { HaveServed N.session [] lanes.old }
    requires gathered { HaveGathered [] 0 lanes.old }
    requires legal { IsLegal N.session entries.now }
    requires few { length entries.now < 2 ^ 32 }
    ensures submitted { OnOk result ((note : List HistoryEntry) × AreResubmitted N.session entries.now note lanes.new) }
{
    let mut note = lanes[0].pass.note();
    for entry in entries {
        let place = place_among(lanes.len(), entry.bank);
        let lane = &mut lanes[place];
        note = submit_behind(rt, host, lane, note, &entry.command)?;
    }
    Ok(())
}

/// Submits the next command of the lane's sender, behind what the note tells and all that the pass had seen, and answers a note of
/// what the pass has then seen.
fn submit_behind<N: Naming + Send, R: Wait>(
    rt: &R,
    host: &Host<N>,
    lane: &mut Lane<Pass<N>>,
    note: Note<N>,
    command: &Command,
) -> Result<Note<N>, Memory>
    requires command { IsCommand N.session lane.old.pass.key command.now }
    requires counted { lane.old.sent + lane.old.done ≡ length (own lane.old.pass.key lane.old.pass.met) }
    requires few { length (own lane.old.pass.key lane.old.pass.met) < 2 ^ 32 - 1 }
    ensures submitted { OnOk result (HasSubmitted note command.now lane.old lane.new) }
    ensures note { IfOk result (λ told. told ≡ lane.new.pass.seen) }
{
    lane.pass.learn(note);
    host.submit(rt, &OpenGate, &mut lane.pass, command)?;
    lane.done += 1;
    Ok(lane.pass.note())
}
