//! A desk that is out of memory at one submit: the lane of that submit stops, the others go on, and the submit may be made
//! again.
ghost use Rattle.std.specs.Prelude.{◌≡◌, ◌≢◌, ◌<◌, ◌^◌, [], ◌∷◌, All, IfOk, OnOk, length};
ghost use Rattle.fx_rules.specs.Lists.{Each};
ghost use Rattle.fx_rules.specs.Session.{Header, IsSession, bank_count};
ghost use Rattle.fx_rules.specs.History.{own};
ghost use Rattle.fx_rules.specs.Sending.{IsSentOf};
ghost use Rattle.fx_chronicle.specs.Faces.{witness};
ghost use Rattle.gateway_workers.specs.Lanes.{IsReadyLane};
ghost use Rattle.gateway_workers.specs.inside.Serving.{IsUnderWay};

use flat_host::{FlatHost, OneLockHost, OnePass, close_one, open_one};
use fx_amounts::{BankId, Memory};
use fx_chronicle::{Blank, Desk, Naming};
use fx_edges::SteadySource;
use fx_rules::{Command, CommandList, Entry, Gate, OpenGate, Outcome, Sent, Session};
use gateway_workers::{Lane, run_round};
use market_run::run_in_order;
use session_script::Reading;
use std::alloc::{AllocError, AllocGlobal, Global};
use std::marker::Brand;
use std::process::Abort;
use std::sync::Wait;
use std::sync::atomic::AtomicU64;
use std::sync::atomic::Ordering::SeqCst;
use std::test::Fail;
use std::thread::Threads;

// The submit that is refused, counted from 1.
const REFUSED: u64 = 4;

// A desk of whose submits one is refused before it comes to the desk.
#[derive(Drop)]
struct RefusingDesk<D> {
    desk: D,
    submits: AtomicU64,
}

impl<D: Desk> Desk for RefusingDesk<D> {
    type Pass = D::Pass;

    type Note = D::Note;

    ghost session = { D.session };

    ghost bank = { D.bank };

    ghost seen = { D.seen };

    ghost mine = { D.mine };

    ghost known = { D.known };

    fn submit<R: Wait, G: Gate>(
        &self,
        rt: &R,
        gate: &G,
        pass: &mut D::Pass,
        command: &Command,
    ) -> Result<Outcome, Memory> {
        if self.submits.fetch_add(1, SeqCst) == REFUSED - 1 {
            return Err(Memory::from(AllocError));
        }
        self.desk.submit(rt, gate, pass, command)
    }

    fn note(&self, pass: &mut D::Pass) -> D::Note {
        self.desk.note(pass)
    }

    fn learn(&self, pass: &mut D::Pass, note: D::Note) {
        self.desk.learn(pass, note);
    }
}

// ALFA and BETA, with a limit of either on the other.
const DAY: &[u8] = b"FXBOOK 1
BANK ALFA
BANK BETA
PAIR EUR/USD 5 1000000 100
LINE ALFA BETA 500
LINE BETA ALFA 300
START
END
";

// A bank of the two asks for its line with the other.
fn show(bank: u8, other: u8) -> Sent
    requires bank { bank < 2 }
    requires other { other < 2 }
    requires differ { other ≢ bank }
    ensures bank { result.bank ≡ bank }
    ensures sent { (h : Header) → bank_count h ≡ 2 → IsSentOf h result }
{
    Sent {
        bank: BankId::new(bank).unwrap(),
        command: Command::Show {
            bank: BankId::new(other).unwrap(),
        },
    }
}

// A lane of a new pass, which sends the command three times.
fn lane_of<N: Naming>(
    alloc: Global,
    pass: OnePass<N>,
    sent: Sent,
) -> Result<Lane<OnePass<N>>, Memory>
    requires new { pass ≡ witness sent.bank [] }
    requires sent { IsSentOf N.session sent }
    ensures ready { IfOk result (IsReadyLane N.session (λ p. p.key) (λ p. own p.key p.met)) }
{
    let mut stream = Vec::new(alloc);
    stream.extend_from_slice(&[sent.command, sent.command, sent.command])?;
    Ok(Lane {
        pass,
        bank: sent.bank,
        sent: 0,
        stream: CommandList::from_vec(stream),
        done: 0,
        stopped: None,
    })
}

// The lanes of the two banks.
fn lanes_of<N: Naming>(
    alloc: Global,
    passes: Vec<OnePass<N>>,
) -> Result<Vec<Lane<OnePass<N>>>, Memory>
    requires passes { passes.items ≡ witness 0 [] ∷ witness 1 [] ∷ [] }
    requires banks { bank_count N.session ≡ 2 }
    ensures two { IfOk result (λ lanes. length lanes.items ≡ 2) }
    ensures ready { IfOk result (λ lanes. All (IsReadyLane N.session (λ p. p.key) (λ p. own p.key p.met)) lanes.items) }
{
    let mut passes = passes.into_iter();
    let alfa = passes.next().unwrap();
    let beta = passes.next().unwrap();
    let mut lanes = Vec::new(alloc);
    lanes.push(lane_of(alloc, alfa, show(0, 1))?)?;
    lanes.push(lane_of(alloc, beta, show(1, 0))?)?;
    Ok(lanes)
}

// Has each lane go on with the rest of its stream.
fn go_on<N: Naming>(alloc: Global, lanes: &mut [Lane<OnePass<N>>]) -> Result<(), Memory>
    requires ran { All (IsUnderWay N.session (λ p. p.key) (λ p. p.seen) (λ p. own p.key p.met)) lanes.old }
    ensures ready { OnOk result (All (IsReadyLane N.session (λ p. p.key) (λ p. own p.key p.met)) lanes.new) }
{
    for lane in lanes.iter_mut() {
        let rest = lane.stream.as_slice()[lane.done..].to_vec(alloc)?;
        lane.next_round(CommandList::from_vec(rest));
    }
    Ok(())
}

// Runs a round of which BETA's second submit is refused, and then a round of what is left.
fn refuse_and_go_on<N: Naming + Send + Sync, R: AllocGlobal + Threads + Wait + Sync + Abort>(
    rt: &R,
    desk: &RefusingDesk<OneLockHost<N>>,
    lanes: &mut [Lane<OnePass<N>>],
) -> Result<(), Fail>
    requires two { length lanes.old ≡ 2 }
    requires ready { All (IsReadyLane N.session (λ p. p.key) (λ p. own p.key p.met)) lanes.old }
{
    let first = run_round(rt, desk, &OpenGate, 1, lanes);
    assert!(rt; first == Err(Memory::from(AllocError)));
    assert!(rt; lanes[0].done == 3 && lanes[1].done == 1);
    go_on(rt.alloc(), lanes)?;
    let second = run_round(rt, desk, &OpenGate, 1, lanes);
    assert!(rt; second == Ok(()));
    assert!(rt; lanes[0].sent == 3 && lanes[0].done == 0);
    assert!(rt; lanes[1].sent == 1 && lanes[1].done == 2);
    Ok(())
}

// The history of the two banks at a desk of this blank that refuses one submit.
fn refused_history<N: Naming + Send + Sync, R: AllocGlobal + Threads + Wait + Sync + Abort>(
    rt: &R,
    blank: Blank<Entry>,
    session: &Session,
) -> Result<Vec<Entry>, Fail>
    requires table { blank.table ≡ N.table }
    requires keys { blank.keys ≡ 65 }
    requires session { session.now ≡ N.session }
    requires valid { IsSession session.now }
    requires version { session.now.version ≡ 1 }
    requires banks { bank_count session.now ≡ 2 }
{
    let alloc = rt.alloc();
    let (host, passes) = open_one::<N>(alloc, blank, session)?;
    let submits = AtomicU64::new(0);
    let desk = RefusingDesk {
        desk: host,
        submits,
    };
    let mut lanes = lanes_of(alloc, passes)?;
    refuse_and_go_on(rt, &desk, &mut lanes)?;
    let mut passes = Vec::new(alloc);
    for lane in lanes {
        passes.push(lane.pass)?;
    }
    Ok(close_one(desk.desk, passes))
}

// The history of these commands at the plain host.
fn history_of(alloc: Global, session: &Session, sent: &[Sent]) -> Result<Vec<Entry>, Memory>
    requires valid { Each (IsSentOf session.now) sent.now }
    requires few { length sent.now < 2 ^ 32 }
{
    let host = FlatHost::open(alloc, session)?;
    let (entries, _host) = run_in_order(alloc, session, host, sent)?;
    Ok(entries)
}

// The history of the same commands at the plain host: each bank's first, then ALFA's others, then BETA's.
fn plain_history(alloc: Global, session: &Session) -> Result<Vec<Entry>, Memory>
    requires banks { bank_count session.now ≡ 2 }
{
    let sent = [
        show(0, 1),
        show(1, 0),
        show(0, 1),
        show(0, 1),
        show(1, 0),
        show(1, 0),
    ];
    history_of(alloc, session, &sent)
}

#[test]
fn a_refused_submit_may_be_made_again(rt: HostRuntime) -> Result<(), Fail> {
    let alloc = rt.alloc();
    let mut source = SteadySource::new(DAY.to_vec(alloc)?);
    let Ok(reading) = Reading::begin(alloc, &mut source) else {
        return Err("no session".into());
    };
    let session = &reading.script().session;
    assert!(&rt; session.version() == 1 && session.banks().len() == 2);
    let blank = Blank::new(alloc, 65)?;
    let history = refused_history::<Brand, _>(&rt, blank, session)?;
    let plain = plain_history(alloc, session)?;
    let text = format!(in alloc; "{:?}", history.as_slice())?;
    let plain_text = format!(in alloc; "{:?}", plain.as_slice())?;
    assert!(&rt; text == plain_text, "{text}");
    assert!(&rt; history.len() == 6);
    Ok(())
}
