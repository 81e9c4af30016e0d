//! Sessions that a reader watches.
use super::{
    Ending, Fails, MemorySink, MemorySource, NONE, done, expect, owned, refusal, samples,
    with_ending,
};
use crate::fx_main;
use fx_rules::OpenGate;
use std::alloc::{AllocGlobal, Global};
use std::process::Abort;
use std::sync::Wait;
use std::test::Fail;
use std::thread::Threads;

/// What is seen of one sell: while it is published, of which some looks may come before, and at the end.
const ONE_SELL_SEEN: [&[u8]; 4] = [
    b"WATCHED 6
0 ALFA EUR/USD BIDS ASKS
0 BETA EUR/USD BIDS ASKS
0 GAMA EUR/USD BIDS ASKS
1 ALFA EUR/USD BIDS ASKS 1.08420 2
1 BETA EUR/USD BIDS ASKS
1 GAMA EUR/USD BIDS ASKS
",
    b"WATCHED 6
0 ALFA EUR/USD BIDS ASKS
0 BETA EUR/USD BIDS ASKS
1 GAMA EUR/USD BIDS ASKS
1 ALFA EUR/USD BIDS ASKS 1.08420 2
1 BETA EUR/USD BIDS ASKS
1 GAMA EUR/USD BIDS ASKS
",
    b"WATCHED 6
0 ALFA EUR/USD BIDS ASKS
1 BETA EUR/USD BIDS ASKS
1 GAMA EUR/USD BIDS ASKS
1 ALFA EUR/USD BIDS ASKS 1.08420 2
1 BETA EUR/USD BIDS ASKS
1 GAMA EUR/USD BIDS ASKS
",
    b"WATCHED 6
1 ALFA EUR/USD BIDS ASKS 1.08420 2
1 BETA EUR/USD BIDS ASKS
1 GAMA EUR/USD BIDS ASKS
1 ALFA EUR/USD BIDS ASKS 1.08420 2
1 BETA EUR/USD BIDS ASKS
1 GAMA EUR/USD BIDS ASKS
",
];

/// What is seen of a session without commands.
const NOTHING_SEEN: &[u8] = b"WATCHED 3
0 ALFA EUR/USD BIDS ASKS
0 BETA EUR/USD BIDS ASKS
0 GAMA EUR/USD BIDS ASKS
";

// What is written of a session that is watched.
fn watched<R: Abort + AllocGlobal + Threads + Wait + Sync>(
    rt: &R,
    input: &[u8],
) -> Result<Vec<u8>, Fail> {
    let alloc = rt.alloc();
    let words = owned(alloc, &["watch"])?;
    let mut source = MemorySource::new(input.to_vec(alloc)?, 4096, Vec::new(alloc));
    let mut out = MemorySink::new(4096, Vec::new(alloc));
    let mut err = MemorySink::new(128, Vec::new(alloc));
    let status = fx_main(rt, &words, &mut source, &mut out, &mut err, &OpenGate);
    assert!(rt; status.code() == 0);
    Ok(out.written().to_vec(alloc)?)
}

// This text, and then what was seen.
fn behind(alloc: Global, output: &[u8], seen: &[u8]) -> Result<Vec<u8>, Fail> {
    let mut text = output.to_vec(alloc)?;
    text.extend_from_slice(seen)?;
    Ok(text)
}

// The looks of the round may come before the sell is published, or behind it, and the last ones come behind it.
#[test]
fn one_sell_is_watched(rt: HostRuntime) -> Result<(), Fail> {
    let text = watched(&rt, samples::ONE_SELL.input)?;
    let mut found = false;
    for seen in ONE_SELL_SEEN {
        found = found || text == behind(rt.alloc(), samples::ONE_SELL.output, seen)?;
    }
    assert!(&rt; found);
    Ok(())
}

#[test]
fn nothing_is_watched(rt: HostRuntime) -> Result<(), Fail> {
    let sample = samples::NO_COMMANDS;
    let text = behind(rt.alloc(), sample.output, NOTHING_SEEN)?;
    expect(&rt, &["watch"], sample.input, 64, &NONE, &done(&text))?;
    // Where the input ends before START, nothing is written; a sink that fails gets a part.
    let cut = refusal(3, b"input ended before END\n");
    expect(&rt, &["watch"], &sample.input[..20], 64, &NONE, &cut)?;
    let fails = Fails {
        out: &[400],
        ..NONE
    };
    let short = Ending {
        out: &text[..text.len().min(399)],
        ..refusal(5, b"write failed\n")
    };
    expect(&rt, &["watch"], sample.input, 64, &fails, &short)
}

// Where START ends in the session without commands.
const STARTED: usize = 72;

// Where the input ends behind START, or the third read fails there, what was seen follows the output too.
#[test]
fn a_session_that_ends_early_is_watched(rt: HostRuntime) -> Result<(), Fail> {
    let sample = samples::NO_COMMANDS;
    let started = &sample.input[..STARTED];
    let cut = refusal(3, b"input ended before END\n");
    let read_fault = refusal(4, b"read failed\n");
    let cases: [(u64, Ending, &[u8]); 2] = [(9, cut, b"CUT\n"), (3, read_fault, b"READ\n")];
    for (call, early, last) in cases {
        let output = with_ending(rt.alloc(), sample.output, last)?;
        let out = &behind(rt.alloc(), &output, NOTHING_SEEN)?;
        let source = &[call];
        let fails = Fails { source, ..NONE };
        let ending = Ending { out, ..early };
        expect(&rt, &["watch"], started, 64, &fails, &ending)?;
    }
    Ok(())
}
