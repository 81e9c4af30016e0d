ghost use Rattle.std.specs.Prelude.{◌≡◌, [], map, length, IfOk, OnOk, OnErr};
ghost use Rattle.fx_rules.specs.Lists.{Each};
ghost use Rattle.fx_rules.specs.Session.{IsSession, senders};
ghost use Rattle.fx_rules.specs.Sending.{IsSentOf};
ghost use Rattle.fx_chronicle.specs.Passes.{new_passes};
ghost use Rattle.gateway_workers.specs.SenderLanes.{CanServe, HaveServed};
ghost use Rattle.gateway_workers.specs.Gathering.{HaveGathered};
ghost use Rattle.gateway_workers.specs.inside.SenderLanes.{AreFilled, AreStreams};

use crate::lane::Lane;
use fx_amounts::Memory;
use fx_chronicle::{Naming, Pass, place_among};
use fx_rules::{Command, CommandList, Sent};
use std::alloc::Global;

/// A lane for each pass, in which nothing is sent yet.
pub(crate) fn lanes_of<N: Naming>(
    alloc: Global,
    passes: Vec<Pass<N>>,
) -> Result<Vec<Lane<Pass<N>>>, Memory>
    requires passes { passes.items ≡ new_passes N.session }
    requires session { IsSession N.session }
    ensures lanes { IfOk result (λ lanes. HaveServed N.session [] lanes.items) }
    ensures gathered { IfOk result (λ lanes. HaveGathered [] 0 lanes.items) }
{
    let mut lanes = Vec::new(alloc);
    for pass in passes {
        lanes.push(Lane {
            bank: pass.bank(),
            pass,
            sent: 0,
            stream: CommandList::from_vec(Vec::new(alloc)),
            done: 0,
            stopped: None,
        })?;
    }
    Ok(lanes)
}

/// Gives each lane what its sender sends in the next round.
pub(crate) fn fill_lanes<N: Naming>(
    alloc: Global,
    lanes: &mut [Lane<Pass<N>>],
    sent: &[Sent],
) -> Result<(), Memory>
    requires can_serve { CanServe N.session lanes.old sent.now }
    ensures filled { OnOk result (AreFilled N.session sent.now lanes.old lanes.new) }
    ensures memory { OnErr result (lanes.new ≡ lanes.old) }
{
    let mut streams = streams_of::<N>(alloc, lanes.len(), sent)?.into_iter();
    for lane in lanes.iter_mut() {
        let stream = streams.next().unwrap();
        lane.next_round(CommandList::from_vec(stream));
    }
    Ok(())
}

/// What each sender of the session sends, in its order. They are so many.
fn streams_of<N: Naming>(
    alloc: Global,
    count: usize,
    sent: &[Sent],
) -> Result<Vec<Vec<Command>>, Memory>
    requires session { IsSession N.session }
    requires count { count ≡ length (senders N.session) }
    requires valid { Each (IsSentOf N.session) sent.now }
    ensures streams { IfOk result (λ streams. AreStreams N.session count sent.now streams.items) }
{
    let mut streams = Vec::new(alloc);
    for _sender in 0..count {
        streams.push(Vec::new(alloc))?;
    }
    for next in sent {
        let stream = &mut streams[place_among(count, next.bank)];
        stream.push(next.command)?;
    }
    Ok(streams)
}

/// The passes of lanes.
pub(crate) fn passes_of<N: Naming>(
    alloc: Global,
    lanes: Vec<Lane<Pass<N>>>,
) -> Result<Vec<Pass<N>>, Memory>
    ensures passes { IfOk result (λ passes. passes.items ≡ map (λ lane. lane.pass) lanes.items) }
{
    let mut passes = Vec::new(alloc);
    for lane in lanes {
        passes.push(lane.pass)?;
    }
    Ok(passes)
}
