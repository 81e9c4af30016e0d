//! Sessions that are kept, by the words `keep` and `restart`.

use crate::fx_top;
use crate::tests::{owned, samples};
use fx_amounts::Memory;
use fx_disk::{Disk, MemoryDisk, SteadyDisk};
use fx_edges::{MemorySink, SteadySink, SteadySource};
use fx_rules::OpenGate;
use program_calls::Status;
use std::alloc::Global;
use std::process::Abort;
use std::sync::Wait;
use std::test::Fail;
use std::thread::Threads;

const HEADER: &[u8] = b"FXBOOK 1
BANK ALFA
BANK BETA
BANK GAMA
PAIR EUR/USD 5 1000000 100
LINE ALFA BETA 1000
LINE BETA ALFA 1000
START
";

const SELL: &[u8] = b"BETA SELL EUR/USD 1.08420 2 DAY\n";

const BUY: &[u8] = b"ALFA BUY EUR/USD 1.08425 3 DAY\n";

/// What is told of the sell, and the output behind it.
const SOLD: &[u8] = b"BETA 1 REPLY 1 ORDERED 0 2
BOOKS
ALFA EUR/USD BIDS ASKS 1.08420 2
BETA EUR/USD BIDS ASKS
GAMA EUR/USD BIDS ASKS
REPORT
VOLUME EUR/USD 0 0 0 0
USE ALFA BETA 1000 1000 0 1000
USE ALFA GAMA 0 0 0 0
USE BETA GAMA 0 0 0 0
NET ALFA EUR 0
NET ALFA USD 0
NET BETA EUR 0
NET BETA USD 0
NET GAMA EUR 0
NET GAMA USD 0
STRAYS 0
END
";

/// What is told of the buy behind the sell.
const BOUGHT: &[u8] = b"ALFA 1 REPLY 1 ORDERED 2 1
ALFA 2 FILL 1 BUY EUR/USD 2 1.08420 BETA 2000000 2168400
BETA 2 FILL 1 SELL EUR/USD 2 1.08420 ALFA 2000000 2168400
";

/// And of the buy alone.
const ALONE: &[u8] = b"ALFA 1 REPLY 1 ORDERED 0 3
";

/// How a call ended.
#[derive(Drop)]
struct Called {
    status: Status,
    out: Vec<u8>,
    err: Vec<u8>,
}

fn joined(alloc: Global, pieces: &[&[u8]]) -> Result<Vec<u8>, Memory> {
    let mut all = Vec::new(alloc);
    for piece in pieces {
        all.extend_from_slice(piece)?;
    }
    Ok(all)
}

/// The file of blocks with these bodies.
fn file_of(alloc: Global, bodies: &[&[u8]]) -> Result<Vec<u8>, Memory> {
    let mut file = Vec::new(alloc);
    for body in bodies {
        file.push(1)?;
        file.extend_from_slice(&(body.len() as u64).to_be_bytes())?;
        file.extend_from_slice(body)?;
    }
    file.push(0)?;
    Ok(file)
}

/// What this word comes to with these lines, over a disk, a source that does not fail, and an output that fails at these calls.
fn call<R: AllocGlobal + Threads + Wait + Sync, D: Disk>(
    rt: &R,
    word: &str,
    lines: &[&[u8]],
    fails: &[u64],
    disk: &mut D,
) -> Result<Called, Fail> {
    let alloc = rt.alloc();
    let words = owned(alloc, &[word])?;
    let mut source = SteadySource::new(joined(alloc, lines)?);
    let mut out = MemorySink::new(4096, fails.to_vec(alloc)?);
    let mut err = SteadySink::new(alloc);
    let status = fx_top(rt, &words, &mut source, &mut out, &mut err, &OpenGate, disk);
    Ok(Called {
        status,
        out: out.written().to_vec(alloc)?,
        err: err.written().to_vec(alloc)?,
    })
}

/// A call over a disk, and what it comes to: its status, what is told first, its line on standard error, and the bodies of the blocks that
/// the file then has, with its length.
#[derive(Clone, Copy)]
struct Step {
    word: &'static str,
    lines: &'static [&'static [u8]],
    code: u8,
    told: &'static [u8],
    err: &'static [u8],
    kept: &'static [&'static [u8]],
    bytes: usize,
}

const KEPT: Step = Step {
    word: "keep",
    lines: &[HEADER, SELL, b"END\n"],
    code: 0,
    told: SOLD,
    err: b"",
    kept: &[HEADER, SELL],
    bytes: 163,
};

const KEPT_AGAIN: Step = Step {
    code: 12,
    told: b"",
    err: b"journal exists\n",
    ..KEPT
};

const GONE_ON: Step = Step {
    word: "restart",
    lines: &[BUY, b"END\n"],
    told: BOUGHT,
    kept: &[HEADER, SELL, BUY],
    bytes: 203,
    ..KEPT
};

/// Makes the call of a step. Answers what is told behind that which is told first.
fn take_step<R: Abort + AllocGlobal + Threads + Wait + Sync>(
    rt: &R,
    step: &Step,
    disk: &mut SteadyDisk,
) -> Result<Vec<u8>, Fail> {
    let alloc = rt.alloc();
    let called = call(rt, step.word, step.lines, &[], disk)?;
    let file = file_of(alloc, step.kept)?;
    assert!(rt;
        called.status.code() == step.code && called.err.as_slice() == step.err,
        "{}",
        step.word
    );
    assert!(rt;
        disk.bytes() == file.as_slice() && file.len() == step.bytes,
        "{}",
        step.word
    );
    let rest = called.out.strip_prefix(step.told).ok_or("it told others")?;
    Ok(rest.to_vec(alloc)?)
}

#[test]
fn a_session_is_kept_and_goes_on(rt: HostRuntime) -> Result<(), Fail> {
    let mut disk = SteadyDisk::new(Vec::new(rt.alloc()));
    for step in [KEPT, KEPT_AGAIN] {
        let rest = take_step(&rt, &step, &mut disk)?;
        assert!(rt; rest.is_empty(), "{}", step.word);
    }
    // Behind the notices stands the output of both commands from its line `BOOKS` on.
    let rest = take_step(&rt, &GONE_ON, &mut disk)?;
    assert!(rt; rest.starts_with(b"BOOKS\n") && samples::ONE_SELL_ONE_BUY.output.ends_with(&rest));
    Ok(())
}

/// A byte of the file of the sell that is changed, and how `restart` with the buy ends then: its status, what it tells first, and the line
/// on standard error.
type Changed = (usize, u8, (u8, &'static [u8], &'static [u8]));

const CHANGED: [Changed; 3] = [
    (121, 7, (0, ALONE, b"")),
    (9, b'G', (10, b"", b"journal block 0 damaged\n")),
    (0, 0, (13, b"", b"journal empty\n")),
];

#[test]
fn a_damaged_file_is_refused(rt: HostRuntime) -> Result<(), Fail> {
    let alloc = rt.alloc();
    for (at, byte, (code, told, line)) in CHANGED {
        let mut file = file_of(alloc, &[HEADER, SELL])?;
        *file.get_mut(at).ok_or("no such byte")? = byte;
        let mut disk = SteadyDisk::new(file);
        let ended = call(&rt, "restart", &[BUY, b"END\n"], &[], &mut disk)?;
        assert!(rt; ended.status.code() == code, "{at}");
        assert!(rt; ended.out.starts_with(told), "{at}");
        assert!(rt; ended.out.is_empty() == told.is_empty(), "{at}");
        assert!(rt; ended.err.as_slice() == line, "{at}");
    }
    Ok(())
}

/// Keeps the sell over a disk that fails at one call and an output that fails at another (0 for none), and then goes on with what
/// the disk reads. Answers the status of the first call.
fn fail_and_go_on<R: Abort + AllocGlobal + Threads + Wait + Sync>(
    rt: &R,
    disk_call: u64,
    out_call: u64,
) -> Result<u8, Fail> {
    let alloc = rt.alloc();
    let mut disk = MemoryDisk::new(Vec::new(alloc), [disk_call].to_vec(alloc)?);
    let ended = call(
        rt,
        "keep",
        &[HEADER, SELL, b"END\n"],
        &[out_call],
        &mut disk,
    )?;
    let left = disk.bytes().to_vec(alloc)?;
    // A byte is told of the sell only where its block is kept.
    let whole = file_of(alloc, &[HEADER, SELL])?;
    assert!(rt;
        ended.out.is_empty() || left == whole,
        "{disk_call} {out_call}"
    );
    let mut after = SteadyDisk::new(left);
    let gone_on = call(rt, "restart", &[b"END\n"], &[], &mut after)?;
    let code = gone_on.status.code();
    assert!(rt;
        code == 0 || code == 13 && ended.out.is_empty(),
        "{disk_call} {out_call}"
    );
    Ok(ended.status.code())
}

/// How many calls of the disk, or else of the output, a kept sell has: the call ends with this status where one of them fails, and with 0 where
/// none does.
fn calls_that_fail<R: Abort + AllocGlobal + Threads + Wait + Sync>(
    rt: &R,
    of_disk: bool,
    code: u8,
) -> Result<u64, Fail> {
    let mut failed = 0;
    for at in 1..100 {
        let (disk_call, out_call) = if of_disk { (at, 0) } else { (0, at) };
        let ended = fail_and_go_on(rt, disk_call, out_call)?;
        if ended != code {
            assert!(rt; ended == 0, "{at}");
            break;
        }
        failed = at;
    }
    Ok(failed)
}

#[test]
fn a_disk_or_an_output_fails_at_each_call(rt: HostRuntime) -> Result<(), Fail> {
    assert!(rt; calls_that_fail(&rt, true, 11)? > 10);
    assert!(rt; calls_that_fail(&rt, false, 5)? == 2);
    Ok(())
}
