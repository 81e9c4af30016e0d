ghost use Rattle.std.specs.Prelude.{◌≤◌, ◌<◌, length};

use crate::fx_main;
use crate::process::serve;
use fx_amounts::{BankId, PairId};
use fx_disk::SteadyDisk;
use fx_edges::{MemorySink, MemorySource};
use fx_rules::{Gate, OpenGate};
use program_calls::Status;
use samples::Sample;
use std::alloc::{AllocError, Global};
use std::env::Args;
use std::io::{self, ErrorKind};
use std::process::{Abort, ExitCode};
use std::sync::Wait;
use std::sync::atomic::AtomicU64;
use std::sync::atomic::Ordering::SeqCst;
use std::test::Fail;
use std::thread::Threads;

mod clients;
mod kept;
mod rounds;
mod samples;
mod threads;
mod watching;

const USAGE: &[u8] =
    b"usage: fx_cli run [--workers N] | serial | check | load SEED BANKS PAIRS COMMANDS [--workers N] | clients | payments bilateral | payments net | watch | keep | restart\n";

// The calls of an end that fail, counted from 1.
#[derive(Clone, Copy, Debug)]
struct Fails<'a> {
    source: &'a [u64],
    out: &'a [u64],
    err: &'a [u64],
}

const NONE: Fails<'static> = Fails {
    source: &[],
    out: &[],
    err: &[],
};

// How a run ends: the exit status, and what standard output and standard error hold then.
#[derive(Clone, Copy)]
struct Ending<'a> {
    code: u8,
    out: &'a [u8],
    err: &'a [u8],
}

// A refusal before anything is written.
fn refusal<'a>(code: u8, err: &'a [u8]) -> Ending<'a> {
    let out = b"";
    Ending { code, out, err }
}

fn done<'a>(out: &'a [u8]) -> Ending<'a> {
    let err = b"";
    Ending { code: 0, out, err }
}

// A gate that counts how often it is asked about a command, and how often inside a pair.
#[derive(Drop)]
struct CountingGate {
    asked: AtomicU64,
    inside: AtomicU64,
}

impl CountingGate {
    fn new() -> CountingGate {
        CountingGate {
            asked: AtomicU64::new(0),
            inside: AtomicU64::new(0),
        }
    }

    fn ask(&self) {
        self.asked.fetch_add(1, SeqCst);
    }

    // Whether it was asked of a command or of a pair.
    fn was_asked(&self) -> bool {
        self.asked.load(SeqCst) != 0 || self.inside.load(SeqCst) != 0
    }
}

impl Gate for CountingGate {
    fn before<R: Wait>(&self, _rt: &R, _bank: BankId, _number: u32) {
        self.ask();
    }

    fn after<R: Wait>(&self, _rt: &R, _bank: BankId, _number: u32) {
        self.ask();
    }

    fn inside<R: Wait>(&self, _rt: &R, _pair: PairId) {
        self.inside.fetch_add(1, SeqCst);
    }
}

// Texts of their own.
fn owned(alloc: Global, texts: &[&str]) -> Result<Vec<String>, AllocError> {
    let mut all = Vec::new(alloc);
    for text in texts {
        all.push(String::from_str(alloc, text)?)?;
    }
    Ok(all)
}

// What is other than this ending, if anything is.
fn other_than(
    ending: &Ending,
    status: &Status,
    out: &MemorySink,
    err: &MemorySink,
) -> Option<&'static str> {
    if status.code() != ending.code {
        return Some("the status");
    }
    if out.written() != ending.out {
        return Some("standard output");
    }
    if err.written() != ending.err {
        return Some("standard error");
    }
    None
}

// Runs over ends in memory, where the source gives at most `most` bytes at a call and standard output takes one, and
// wants this ending. The gate may be asked nothing.
fn expect<R: Abort + AllocGlobal + Threads + Wait + Sync>(
    rt: &R,
    words: &[&str],
    input: &[u8],
    most: usize,
    fails: &Fails,
    ending: &Ending,
) -> Result<(), Fail>
    requires { 1 ≤ most }
{
    let alloc = rt.alloc();
    let program_words = owned(alloc, words)?;
    let source_fails = fails.source.to_vec(alloc)?;
    let mut source = MemorySource::new(input.to_vec(alloc)?, most, source_fails);
    let mut out = MemorySink::new(1, fails.out.to_vec(alloc)?);
    let mut err = MemorySink::new(128, fails.err.to_vec(alloc)?);
    let gate = CountingGate::new();
    let status = fx_main(rt, &program_words, &mut source, &mut out, &mut err, &gate);
    let other = other_than(ending, &status, &out, &err);
    assert!(rt;
        other.is_none() && !gate.was_asked(),
        "{other:?} {words:?} {input:?} {fails:?}"
    );
    Ok(())
}

// Runs the process with these arguments and the session without commands, and wants this ending.
fn expect_exit<R: Abort + AllocGlobal + Threads + Wait + Sync>(
    rt: &R,
    arguments: io::Result<Args>,
    ending: &Ending,
) -> Result<(), Fail> {
    let alloc = rt.alloc();
    let input = samples::NO_COMMANDS.input.to_vec(alloc)?;
    let mut source = MemorySource::new(input, 64, Vec::new(alloc));
    let mut out = MemorySink::new(64, Vec::new(alloc));
    let mut err = MemorySink::new(64, Vec::new(alloc));
    let mut disk = SteadyDisk::new(Vec::new(alloc));
    let exit = serve(rt, arguments, &mut source, &mut out, &mut err, &mut disk);
    assert!(rt;
        exit == ExitCode::from(ending.code)
            && out.written() == ending.out
            && err.written() == ending.err
    );
    Ok(())
}

#[test]
fn the_exit_status_of_the_process(rt: HostRuntime) -> Result<(), Fail> {
    let alloc = rt.alloc();
    let whole = done(samples::NO_COMMANDS.output);
    let words = owned(alloc, &["fx_cli", "serial"])?;
    expect_exit(&rt, Ok(words.into_iter()), &whole)?;
    let words = owned(alloc, &["serial", "serial", "serial"])?;
    expect_exit(&rt, Ok(words.into_iter()), &refusal(1, USAGE))?;
    expect_exit(&rt, Ok(Vec::new(alloc).into_iter()), &refusal(1, USAGE))?;
    // Nothing is written where the arguments could not be read.
    let refused = io::Error::from(ErrorKind::OutOfMemory);
    expect_exit(&rt, Err(refused), &refusal(6, b""))?;
    let unreadable = io::Error::from(ErrorKind::InvalidData);
    expect_exit(&rt, Err(unreadable), &refusal(1, b""))
}

// Headers with a fault, and the line that standard error gets.
const FAULTS: [(&[u8], &[u8]); 13] = [
    (b"FXBOOK 9\n", b"header line 1 reason 1\n"),
    (b"FXBOOK 1\nBANC ALFA\n", b"header line 2 reason 2\n"),
    (
        b"FXBOOK 1\nBANK ALFA\nTOTAL ALFA 250\n",
        b"header line 3 reason 2\n",
    ),
    (b"FXBOOK 1\nBANK\n", b"header line 2 reason 3\n"),
    (b"FXBOOK 1\nBANK AB\n", b"header line 2 reason 4\n"),
    (
        b"FXBOOK 1\nPAIR EUR/EUR 5 1000000 100\n",
        b"header line 2 reason 5\n",
    ),
    (
        b"FXBOOK 1\nPAIR EUR/USD 7 10000000 100\n",
        b"header line 2 reason 6\n",
    ),
    (
        b"FXBOOK 1\nPAIR EUR/USD 5 1000 100\n",
        b"header line 2 reason 7\n",
    ),
    (
        b"FXBOOK 1\nPAIR EUR/USD 5 1000000 0\n",
        b"header line 2 reason 8\n",
    ),
    (b"FXBOOK 1\nLINE ALFA ALFA 5\n", b"header line 2 reason 9\n"),
    (
        b"FXBOOK 1\nBANK ALFA\nBANK BETA\nLINE ALFA BETA 05\n",
        b"header line 4 reason 10\n",
    ),
    (b"FXBOOK 1\nSTART\n", b"header line 2 reason 11\n"),
    (
        b"FXBOOK 1\nxxxxxxxxxxxxxxxxxxxxxxxxxxxxxxxxxxxxxxxxxxxxxxxxxxxxxxxxxxxxxxxxxxxxxxxxxxxxxxxxxxxxxxxxxxxxxxxxxxxxxxxxxxxxxxxxxxxxxxxxxxxxxxxxxxxxxxxxxxxxxxxxxxxxxxxxxxxxxxxxxxxxxxxxxxxxxxxxxxxxxxxxxxxxxxxxxxxxxxxxxxxxxxxxxxxxxxxxxxxxxxxxxxxxxxxxxxxxxxxxxxxxxxxxxxxxxxxxx\n",
        b"header line 2 reason 13\n",
    ),
];

// Runs each of the sessions in pieces of any size.
fn expect_samples<R: Abort + AllocGlobal + Threads + Wait + Sync>(
    rt: &R,
    samples: &[Sample],
) -> Result<(), Fail> {
    for sample in samples {
        for most in [1, 2, 3, 7, 10_000] {
            let ending = done(sample.output);
            expect(rt, &["serial"], sample.input, most, &NONE, &ending)?;
        }
    }
    Ok(())
}

#[test]
fn orders_in_pieces_of_any_size(rt: HostRuntime) -> Result<(), Fail> {
    expect_samples(&rt, &samples::ORDERS)
}

#[test]
fn changes_in_pieces_of_any_size(rt: HostRuntime) -> Result<(), Fail> {
    expect_samples(&rt, &samples::CHANGES)
}

#[test]
fn totals_in_pieces_of_any_size(rt: HostRuntime) -> Result<(), Fail> {
    expect_samples(&rt, &samples::TOTALS)
}

#[test]
fn books_in_pieces_of_any_size(rt: HostRuntime) -> Result<(), Fail> {
    expect_samples(&rt, &samples::BOOKS)
}

#[test]
fn faults_of_the_header(rt: HostRuntime) -> Result<(), Fail> {
    for (input, err) in FAULTS {
        for most in [1, 64] {
            expect(&rt, &["serial"], input, most, &NONE, &refusal(2, err))?;
        }
    }
    let input = many_banks(rt.alloc())?;
    let many = refusal(2, b"header line 66 reason 12\n");
    expect(&rt, &["serial"], &input, 64, &NONE, &many)
}

// The first line of a session, and 65 banks.
fn many_banks(alloc: Global) -> Result<Vec<u8>, Fail> {
    let mut input = b"FXBOOK 1\n".to_vec(alloc)?;
    for bank in 10..75 {
        let line = format!(in alloc; "BANK B{bank}\n")?;
        input.extend_from_slice(line.as_bytes())?;
    }
    Ok(input)
}

// The header of two banks and one pair.
const HEADER: &[u8] = b"FXBOOK 1\nBANK ALFA\nBANK BETA\nPAIR EUR/USD 5 1000000 100\nSTART\n";

// What is written for it without commands.
const NO_COMMANDS: &[u8] = b"FXBOOK 1
BANK ALFA
BANK BETA
PAIR EUR/USD 5 1000000 100
START
JOURNAL 0
DESK ALFA 0
DESK BETA 0
BOOKS
ALFA EUR/USD BIDS ASKS
BETA EUR/USD BIDS ASKS
REPORT
VOLUME EUR/USD 0 0 0 0
USE ALFA BETA 0 0 0 0
NET ALFA EUR 0
NET ALFA USD 0
NET BETA EUR 0
NET BETA USD 0
STRAYS 0
END
";

// What the header and these lines end with.
fn expect_lines<R: Abort + AllocGlobal + Threads + Wait + Sync>(
    rt: &R,
    lines: &[u8],
    ending: &Ending,
) -> Result<(), Fail> {
    let mut input = HEADER.to_vec(rt.alloc())?;
    input.extend_from_slice(lines)?;
    for most in [1, 4096] {
        expect(rt, &["serial"], &input, most, &NONE, ending)?;
    }
    Ok(())
}

// An output with this last line in the place of its END.
fn with_ending(alloc: Global, output: &[u8], last: &[u8]) -> Result<Vec<u8>, Fail> {
    let whole = output.strip_suffix(b"END\n").ok_or("no output")?;
    let mut text = whole.to_vec(alloc)?;
    text.extend_from_slice(last)?;
    Ok(text)
}

#[test]
fn inputs_without_their_end(rt: HostRuntime) -> Result<(), Fail> {
    let cut = refusal(3, b"input ended before END\n");
    for input in [&b""[..], b"\n# END\n", b"FXBOOK 1\nBANK ALFA\n"] {
        expect(&rt, &["serial"], input, 64, &NONE, &cut)?;
    }
    let out = with_ending(rt.alloc(), NO_COMMANDS, b"CUT\n")?;
    let written = Ending { out: &out, ..cut };
    for lines in [&b""[..], b"END now", b"# END\n", b"BETA SHOW AL", b"EN"] {
        expect_lines(&rt, lines, &written)?;
    }
    Ok(())
}

#[test]
fn other_words(rt: HostRuntime) -> Result<(), Fail> {
    let usage = refusal(1, USAGE);
    let input = samples::NO_COMMANDS.input;
    expect(&rt, &[], input, 64, &NONE, &usage)?;
    expect(&rt, &["serial", "now"], input, 64, &NONE, &usage)?;
    expect(&rt, &["check", "now"], input, 64, &NONE, &usage)?;
    for word in [
        "", "Serial", "seria", "serials", "serial ", "runs", "checks", "--help",
    ] {
        expect(&rt, &[word], input, 64, &NONE, &usage)?;
    }
    for workers in ["--workers=2", "--workers", "2"] {
        expect(&rt, &["run", workers], input, 64, &NONE, &usage)?;
    }
    for count in ["0", "65", "02", "+2", ""] {
        expect(&rt, &["run", "--workers", count], input, 64, &NONE, &usage)?;
    }
    for banks in ["1", "65"] {
        expect(
            &rt,
            &["load", "7", banks, "4", "10"],
            input,
            64,
            &NONE,
            &usage,
        )?;
    }
    for form in ["", "gross", "Net"] {
        expect(&rt, &["payments", form], input, 64, &NONE, &usage)?;
    }
    // Standard error that fails changes no status.
    let fails = Fails { err: &[1], ..NONE };
    expect(&rt, &["Serial"], input, 64, &fails, &refusal(1, b""))
}

// What is written of the whole lines among these bytes, with this last line.
fn written_of<R: Abort + AllocGlobal + Threads + Wait + Sync>(
    rt: &R,
    bytes: &[u8],
    last: &[u8],
) -> Result<Vec<u8>, Fail> {
    let alloc = rt.alloc();
    let whole = match bytes.iter().rposition(|byte| *byte == b'\n') {
        Some(at) => &bytes[..at + 1],
        None => b"",
    };
    let mut input = whole.to_vec(alloc)?;
    input.extend_from_slice(b"END\n")?;
    let words = owned(alloc, &["serial"])?;
    let mut source = MemorySource::new(input, 4096, Vec::new(alloc));
    let mut out = MemorySink::new(4096, Vec::new(alloc));
    let mut err = MemorySink::new(128, Vec::new(alloc));
    let status = fx_main(rt, &words, &mut source, &mut out, &mut err, &OpenGate);
    assert!(rt; status.code() == 0);
    with_ending(alloc, out.written(), last)
}

// One sell and one buy, where START ends at byte 112.
const STARTED: usize = 112;

// 50 bytes come at a call. Before START nothing is written, and the END line comes with the fourth.
#[test]
fn a_source_that_fails_at_each_call(rt: HostRuntime) -> Result<(), Fail> {
    let sample = samples::ONE_SELL_ONE_BUY;
    let read_fault = refusal(4, b"read failed\n");
    for call in [1, 2, 3, 4] {
        let fails = Fails {
            source: &[call],
            ..NONE
        };
        let taken = 50 * (call as usize - 1);
        let out = if taken < STARTED {
            Vec::new(rt.alloc())
        } else {
            written_of(
                &rt,
                &sample.input[..taken.min(sample.input.len())],
                b"READ\n",
            )?
        };
        let ending = Ending {
            out: &out,
            ..read_fault
        };
        expect(&rt, &["serial"], sample.input, 50, &fails, &ending)?;
    }
    let late = Fails {
        source: &[5],
        ..NONE
    };
    let whole = done(sample.output);
    expect(&rt, &["serial"], sample.input, 50, &late, &whole)
}

// Behind the last byte but one the rest is an END line without a line feed.
#[test]
fn an_input_cut_at_every_byte(rt: HostRuntime) -> Result<(), Fail> {
    let sample = samples::ONE_SELL_ONE_BUY;
    let cut = refusal(3, b"input ended before END\n");
    for taken in 0..sample.input.len() - 1 {
        let input = &sample.input[..taken];
        let out = if taken < STARTED {
            Vec::new(rt.alloc())
        } else {
            written_of(&rt, input, b"CUT\n")?
        };
        expect(
            &rt,
            &["serial"],
            input,
            64,
            &NONE,
            &Ending { out: &out, ..cut },
        )?;
    }
    let bare = &sample.input[..sample.input.len() - 1];
    expect(&rt, &["serial"], bare, 64, &NONE, &done(sample.output))
}

// Each byte of the output is one call.
#[test]
fn an_output_that_fails_at_each_call(rt: HostRuntime) -> Result<(), Fail> {
    let sample = samples::ONE_SELL_ONE_BUY;
    for written in 0..sample.output.len() {
        let write_fault = Ending {
            code: 5,
            out: &sample.output[..written],
            err: b"write failed\n",
        };
        let fails = Fails {
            out: &[written as u64 + 1],
            ..NONE
        };
        expect(&rt, &["serial"], sample.input, 64, &fails, &write_fault)?;
    }
    let late = Fails {
        out: &[sample.output.len() as u64 + 1],
        ..NONE
    };
    expect(
        &rt,
        &["serial"],
        sample.input,
        64,
        &late,
        &done(sample.output),
    )
}

// The header, 16,383 comments of 4,096 bytes and one of `last` bytes, and END.
fn long_input(alloc: Global, last: usize) -> Result<Vec<u8>, Fail>
    requires { last ≤ 4096 }
{
    let mut comment = [b'#'; 4096];
    comment[4095] = b'\n';
    let mut input = HEADER.to_vec(alloc)?;
    for _ in 0..16_383 {
        input.extend_from_slice(&comment)?;
    }
    input.extend_from_slice(&comment[4096 - last..])?;
    input.extend_from_slice(b"END\n")?;
    Ok(input)
}

// The line feed of the END line is the last byte that is taken.
#[test]
fn an_input_that_ends_at_the_limit(rt: HostRuntime) -> Result<(), Fail> {
    let input = long_input(rt.alloc(), 4030)?;
    assert!(&rt; input.len() == 1 << 26);
    expect(&rt, &["serial"], &input, 4096, &NONE, &done(NO_COMMANDS))
}

// It is the first that is not.
#[test]
fn an_input_that_passes_the_limit(rt: HostRuntime) -> Result<(), Fail> {
    let input = long_input(rt.alloc(), 4031)?;
    let out = with_ending(rt.alloc(), NO_COMMANDS, b"MUCH\n")?;
    let too_much = Ending {
        out: &out,
        ..refusal(7, b"too much input\n")
    };
    expect(&rt, &["serial"], &input, 4096, &NONE, &too_much)
}

// What the check of a text ends with.
fn expect_verdict<R: Abort + AllocGlobal + Threads + Wait + Sync>(
    rt: &R,
    text: &[u8],
    verdict: &[u8],
) -> Result<(), Fail> {
    let ending = match verdict {
        b"YES\n" => done(verdict),
        _ => Ending {
            code: 8,
            out: verdict,
            err: b"output differs\n",
        },
    };
    for most in [7, 4096] {
        expect(rt, &["check"], text, most, &NONE, &ending)?;
    }
    Ok(())
}

// The text with another byte at a place.
fn changed(alloc: Global, text: &[u8], at: usize, byte: u8) -> Result<Vec<u8>, Fail>
    requires { at < length text.now }
{
    let mut changed = text.to_vec(alloc)?;
    changed[at] = byte;
    Ok(changed)
}

#[test]
fn verdicts_on_an_output_and_on_others(rt: HostRuntime) -> Result<(), Fail> {
    let whole = samples::NO_COMMANDS.output;
    expect_verdict(&rt, whole, b"YES\n")?;
    expect_verdict(&rt, b"", b"NO 0\n")?;
    expect_verdict(&rt, &whole[..300], b"NO 300\n")?;
    let count = changed(rt.alloc(), whole, 92, b'1')?;
    expect_verdict(&rt, &count, b"NO 92\n")?;
    let mut longer = whole.to_vec(rt.alloc())?;
    longer.push(b'\n')?;
    expect_verdict(&rt, &longer, b"NO 392\n")
}

#[test]
fn the_check_of_each_sample(rt: HostRuntime) -> Result<(), Fail> {
    for sample in samples::ORDERS {
        expect_verdict(&rt, sample.output, b"YES\n")?;
    }
    for sample in samples::CHANGES {
        expect_verdict(&rt, sample.output, b"YES\n")?;
    }
    for sample in samples::TOTALS {
        expect_verdict(&rt, sample.output, b"YES\n")?;
    }
    for sample in samples::BOOKS {
        expect_verdict(&rt, sample.output, b"YES\n")?;
    }
    Ok(())
}

#[test]
fn a_check_whose_streams_fail(rt: HostRuntime) -> Result<(), Fail> {
    let text = samples::NO_COMMANDS.output;
    let read_fault = refusal(4, b"read failed\n");
    // Seven pieces of 64 bytes, and the read that meets the end.
    for call in 1..9 {
        let fails = Fails {
            source: &[call],
            ..NONE
        };
        expect(&rt, &["check"], text, 64, &fails, &read_fault)?;
    }
    for written in 0..4 {
        let write_fault = Ending {
            code: 5,
            out: &b"YES\n"[..written],
            err: b"write failed\n",
        };
        let fails = Fails {
            out: &[written as u64 + 1],
            ..NONE
        };
        expect(&rt, &["check"], text, 64, &fails, &write_fault)?;
    }
    Ok(())
}

// What the banks pay by the output of a session, in one of the two ways.
const PAYMENTS: [(&str, Sample, &[u8]); 2] = [
    (
        "bilateral",
        samples::ONE_SELL_ONE_BUY,
        b"PAY BETA ALFA EUR 2000000
PAY ALFA BETA USD 2168400
PAYMENTS 2
",
    ),
    (
        "net",
        samples::MORNING,
        b"PAY GAMA ALFA EUR 1000000
PAY DELT ALFA EUR 1000000
PAY DELT BETA EUR 5000000
PAY ALFA GAMA USD 1168100
PAY BETA GAMA USD 2916000
PAY BETA DELT USD 6504100
PAY ALFA BETA JPY 149300000
PAY GAMA BETA JPY 447750000
PAYMENTS 8
",
    ),
];

#[test]
fn payments_of_an_output_and_of_other_texts(rt: HostRuntime) -> Result<(), Fail> {
    let differs = Ending {
        out: b"NO 0\n",
        ..refusal(8, b"output differs\n")
    };
    for (form, sample, text) in PAYMENTS {
        let words = ["payments", form];
        for most in [7, 4096] {
            expect(&rt, &words, sample.output, most, &NONE, &done(text))?;
        }
        expect(&rt, &words, b"JOURNAL\n", 64, &NONE, &differs)?;
        let source: &[u64] = &[2];
        let fails = Fails { source, ..NONE };
        let read_fault = refusal(4, b"read failed\n");
        expect(&rt, &words, sample.output, 64, &fails, &read_fault)?;
        let write_fault = Ending {
            out: &text[..9],
            ..refusal(5, b"write failed\n")
        };
        let fails = Fails { out: &[10], ..NONE };
        expect(&rt, &words, sample.output, 64, &fails, &write_fault)?;
    }
    Ok(())
}
