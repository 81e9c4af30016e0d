ghost use Rattle.std.specs.Prelude.{◌≡◌, ◌<◌, ◌≤◌, ◌*◌, ◌-◌, ◌+◌, length, All, Any, Some, None, OnOk, OnErr, MatchResult};
ghost use Rattle.std.specs.List.{AllZip};
ghost use Rattle.gateway_workers.specs.Lanes.{IsReadyLane, LaneRan, IsDone, IsBehind, StoppedWhereBehind, first_stop};
ghost use Rattle.gateway_workers.specs.inside.Serving.{IsUnderWay, HasTurned, RunsOn, AllRunOn, AllLanesRan};

use crate::lane::Lane;
use fx_amounts::Memory;
use fx_chronicle::Desk;
use fx_rules::Gate;
use std::sync::Wait;
use std::thread;
use std::thread::Threads;

/// Has the lanes' streams submitted at the desk, in at most `workers` threads (1 or more). Each worker has a run of lanes, and
/// serves one command of each in turn until all are done. It calls the gate before and after each command. Where a thread
/// cannot be started, the caller does its work.
///
/// Ok: each stream is done. `Memory`: some lane's submit was refused because memory ran out. That lane stopped there, keeps what it was
/// answered, and its `done` tells how far it came; the others went on. The round answers what the first of such lanes keeps.
///
/// That the passes are the desk's is a matter of their type, and that no two lanes have one pass, of ownership.
pub fn run_round<R: Threads + Wait + Sync, D: Desk + Sync, G: Gate + Sync>(
    rt: &R,
    desk: &D,
    gate: &G,
    workers: u32,
    lanes: &mut [Lane<D::Pass>],
) -> Result<(), Memory>
    requires lanes { 0 < length lanes.old }
    requires workers { 1 ≤ workers }
    requires ready { All (IsReadyLane D.session D.bank D.mine) lanes.old }
    ensures ran { AllZip (LaneRan D.session D.bank D.seen D.mine) lanes.old lanes.new }
    ensures done { OnOk result (All IsDone lanes.new) }
    ensures behind { OnErr result (Any IsBehind lanes.new) }
    ensures stopped { All StoppedWhereBehind lanes.new }
    ensures answer { MatchResult result (λ _. first_stop lanes.new ≡ None) (λ memory. first_stop lanes.new ≡ Some memory) }
{
    serve_in_threads(rt, desk, gate, workers, lanes);
    match first_stop(lanes) {
        None => Ok(()),
        Some(memory) => Err(memory),
    }
}

/// Serves the lanes in threads: in order, the same number of them in each, but for the last thread that may have fewer.
fn serve_in_threads<R: Threads + Wait + Sync, D: Desk + Sync, G: Gate + Sync>(
    rt: &R,
    desk: &D,
    gate: &G,
    workers: u32,
    lanes: &mut [Lane<D::Pass>],
)
    requires lanes { 0 < length lanes.old }
    requires workers { 1 ≤ workers }
    requires ready { All (IsReadyLane D.session D.bank D.mine) lanes.old }
    ensures ran { AllLanesRan D.session D.bank D.seen D.mine lanes.old lanes.new }
    ensures stopped { All StoppedWhereBehind lanes.new }
{
    let size = lanes_of_each(lanes.len(), workers);
    thread::for_each_chunk_mut(
        rt,
        lanes,
        size,
        &|_, part|
            requires { All (IsReadyLane D.session D.bank D.mine) part.now }
        { serve_all(rt, desk, gate, part) },
    );
}

/// How many lanes a thread serves, so that at most `workers` threads (1 or more) serve so many lanes, and no fewer than that takes.
fn lanes_of_each(lanes: usize, workers: u32) -> usize
    requires lanes { 0 < lanes }
    requires workers { 1 ≤ workers }
    ensures some { 0 < result }
    ensures enough { lanes ≤ result * workers }
    ensures fewest { (result - 1) * workers < lanes }
{
    lanes.div_ceil(workers as usize)
}

/// What stopped the first of these lanes that stopped.
fn first_stop<P>(lanes: &[Lane<P>]) -> Option<Memory>
    ensures value { result ≡ first_stop lanes.now }
{
    for lane in lanes {
        if lane.stopped.is_some() {
            return lane.stopped;
        }
    }
    None
}

/// Serves one command of each lane in turn, until all are done or have stopped.
fn serve_all<R: Wait, D: Desk, G: Gate>(rt: &R, desk: &D, gate: &G, lanes: &mut [Lane<D::Pass>])
    requires { All (IsReadyLane D.session D.bank D.mine) lanes.old }
    ensures ran { AllLanesRan D.session D.bank D.seen D.mine lanes.old lanes.new }
    ensures stopped { All StoppedWhereBehind lanes.new }
{
    for turn in 0..longest(lanes) {
        serve_turn(rt, desk, gate, turn, lanes);
    }
}

/// The length of the longest stream.
fn longest<P>(lanes: &[Lane<P>]) -> usize
    ensures { All (λ lane. length lane.stream ≤ result) lanes.now }
{
    let mut most = 0;
    for lane in lanes {
        most = lane.stream.as_slice().len().max(most);
    }
    most
}

/// Serves command `turn` of each lane.
fn serve_turn<R: Wait, D: Desk, G: Gate>(
    rt: &R,
    desk: &D,
    gate: &G,
    turn: usize,
    lanes: &mut [Lane<D::Pass>],
)
    requires under_way { All (IsUnderWay D.session D.bank D.seen D.mine) lanes.old }
    requires turned { All (HasTurned turn) lanes.old }
    ensures run_on { AllRunOn D.session D.bank D.seen D.mine lanes.old lanes.new }
    ensures turned { All (HasTurned (turn + 1)) lanes.new }
{
    for lane in lanes.iter_mut() {
        serve_command(rt, desk, gate, turn, lane);
    }
}

/// Serves command `turn` of the lane, unless it has none or stopped before. It stops where its submit is refused.
fn serve_command<R: Wait, D: Desk, G: Gate>(
    rt: &R,
    desk: &D,
    gate: &G,
    turn: usize,
    lane: &mut Lane<D::Pass>,
)
    requires under_way { IsUnderWay D.session D.bank D.seen D.mine lane.old }
    requires turned { HasTurned turn lane.old }
    ensures runs_on { RunsOn D.session D.bank D.seen D.mine lane.old lane.new }
    ensures turned { HasTurned (turn + 1) lane.new }
{
    if lane.stopped.is_some() {
        return;
    }
    let Some(command) = lane.stream.as_slice().get(turn) else {
        return;
    };
    let number = lane.sent + turn as u32 + 1;
    gate.before(rt, lane.bank, number);
    let answer = desk.submit(rt, gate, &mut lane.pass, command);
    gate.after(rt, lane.bank, number);
    match answer {
        Ok(_) => lane.done += 1,
        Err(memory) => lane.stopped = Some(memory),
    }
}
