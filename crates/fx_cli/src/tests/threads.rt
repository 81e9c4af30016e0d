//! Runs on threads that are held up at a gate, so that they can pass in one way alone.
use super::samples::Sample;
use super::{CountingGate, MemorySink, MemorySource, NONE, done, expect, owned, samples};
use crate::fx_main;
use fx_amounts::{BankId, PairId};
use fx_rules::Gate;
use std::alloc::AllocGlobal;
use std::process::Abort;
use std::sync::Wait;
use std::sync::atomic::AtomicU64;
use std::sync::atomic::Ordering::SeqCst;
use std::test::Fail;
use std::thread;
use std::thread::Threads;

// When a gate is called: before or after a bank's command of a number, or the so manieth time inside the lock of a pair.
#[derive(Clone, Copy, PartialEq, Eq)]
enum Moment {
    Before(usize, u32),
    After(usize, u32),
    Inside(usize, u64),
}

use Moment::{After, Before, Inside};

// A moment, the marks that are set at it, and the marks that are waited for then; each mark is a bit.
type Step = (Moment, u64, u64);

// A gate that takes these steps. It gives up a wait after so many looks that a worker which is there has long come.
#[derive(Drop)]
struct SteppingGate {
    steps: &'static [Step],
    marks: AtomicU64,
    eurusd: AtomicU64,
    usdjpy: AtomicU64,
    gave_up: AtomicU64,
}

const LOOKS: u64 = 1_000_000_000;

impl SteppingGate {
    fn new(steps: &'static [Step]) -> SteppingGate {
        SteppingGate {
            steps,
            marks: AtomicU64::new(0),
            eurusd: AtomicU64::new(0),
            usdjpy: AtomicU64::new(0),
            gave_up: AtomicU64::new(0),
        }
    }

    fn pass(&self, moment: Moment) {
        for (at, sets, waits) in self.steps {
            if *at == moment {
                self.marks.fetch_or(*sets, SeqCst);
                self.wait_for(*waits);
            }
        }
    }

    fn wait_for(&self, waits: u64) {
        for _look in 0..LOOKS {
            if self.marks.load(SeqCst) & waits == waits {
                return;
            }
            thread::yield_now();
        }
        self.gave_up.store(1, SeqCst);
    }
}

impl Gate for SteppingGate {
    fn before<R: Wait>(&self, _rt: &R, bank: BankId, number: u32) {
        self.pass(Before(bank.index(), number));
    }

    fn after<R: Wait>(&self, _rt: &R, bank: BankId, number: u32) {
        self.pass(After(bank.index(), number));
    }

    fn inside<R: Wait>(&self, _rt: &R, pair: PairId) {
        let visits = if pair.index() == 0 {
            &self.eurusd
        } else {
            &self.usdjpy
        };
        let before = visits.fetch_add(1, SeqCst);
        self.pass(Inside(pair.index(), before.wrapping_add(1)));
    }
}

// A run that can pass its steps in one way alone: what it writes begins so, and has one of these texts in it.
#[derive(Clone, Copy)]
struct Held {
    name: &'static str,
    words: &'static [&'static str],
    input: &'static [u8],
    steps: &'static [Step],
    begins: &'static [u8],
    has_one: &'static [&'static [u8]],
}

const RUNS: [Held; 5] = [
    // Neither first command is submitted before both workers have come, and ALFA's only once BETA's was.
    Held {
        name: "two workers meet",
        words: &["run", "--workers", "2"],
        input: b"FXBOOK 1
BANK ALFA
BANK BETA
PAIR EUR/USD 5 1000000 100
START
ALFA SELL EUR/USD 1.08420 1 DAY
BETA SHOW ALFA
END
",
        steps: &[
            (Before(0, 1), 1, 2 | 4),
            (Before(1, 1), 2, 1),
            (After(1, 1), 4, 0),
        ],
        begins: b"FXBOOK 1
BANK ALFA
BANK BETA
PAIR EUR/USD 5 1000000 100
START
JOURNAL 2
BETA SHOW ALFA
ALFA SELL EUR/USD 1.08420 1 DAY
",
        has_one: &[b"STRAYS 0\nEND\n"],
    },
    // BETA's command waits until ALFA's has its pair's lock, and ALFA's waits with that lock until BETA's is done.
    Held {
        name: "two pairs at once",
        words: &["run", "--workers", "2"],
        input: b"FXBOOK 1
BANK ALFA
BANK BETA
PAIR EUR/USD 5 1000000 100
PAIR USD/JPY 3 1000000 92
LINE ALFA BETA 1000
LINE BETA ALFA 1000
START
ALFA SELL EUR/USD 1.08420 1 DAY
BETA SELL USD/JPY 149.250 1 DAY
END
",
        steps: &[
            (Inside(0, 1), 1, 2),
            (Before(1, 1), 0, 1),
            (After(1, 1), 2, 0),
        ],
        begins: b"FXBOOK 1
BANK ALFA
BANK BETA
PAIR EUR/USD 5 1000000 100
PAIR USD/JPY 3 1000000 92
LINE ALFA BETA 1000
LINE BETA ALFA 1000
START
JOURNAL 2
BETA SELL USD/JPY 149.250 1 DAY
ALFA SELL EUR/USD 1.08420 1 DAY
",
        has_one: &[b"STRAYS 0\nEND\n"],
    },
    // Both buys are inside their pairs' locks at once, and the line pays for one of them.
    Held {
        name: "one line raced by two pairs",
        words: &["run", "--workers", "2"],
        input: b"FXBOOK 1
BANK ALFA
BANK BETA
PAIR EUR/USD 5 1000000 100
PAIR USD/JPY 3 1000000 92
LINE ALFA BETA 150
LINE BETA ALFA 150
START
ALFA SELL USD/JPY 149.250 1 DAY
ALFA BUY EUR/USD 1.08420 1 IOC
BETA SELL EUR/USD 1.08420 1 DAY
BETA BUY USD/JPY 149.250 1 IOC
END
",
        steps: &[
            (After(0, 1), 1, 0),
            (After(1, 1), 2, 0),
            (Before(0, 2), 0, 2),
            (Before(1, 2), 0, 1),
            (Inside(0, 2), 4, 8),
            (Inside(1, 2), 8, 4),
        ],
        begins: b"FXBOOK 1
BANK ALFA
BANK BETA
PAIR EUR/USD 5 1000000 100
PAIR USD/JPY 3 1000000 92
LINE ALFA BETA 150
LINE BETA ALFA 150
START
JOURNAL 4
",
        has_one: &[
            b"VOLUME USD/JPY 0 0 0 0\nUSE ALFA BETA 150 150 100 50\n",
            b"VOLUME USD/JPY 1 1 1000000 149250000\nUSE ALFA BETA 150 150 92 58\n",
        ],
    },
    // BETA's show is done while ALFA's credit change has the lock that keeps commands in pairs out, and not yet the credit lock.
    Held {
        name: "a show between the locks of a credit change",
        words: &["run", "--workers", "2"],
        input: b"FXBOOK 1
BANK ALFA
BANK BETA
PAIR EUR/USD 5 1000000 100
PAIR USD/JPY 3 1000000 92
LINE ALFA BETA 1000
LINE BETA ALFA 1000
START
ALFA LINE BETA 500
BETA SHOW ALFA
END
",
        steps: &[
            (Inside(0, 1), 1, 2),
            (Before(1, 1), 0, 1),
            (After(1, 1), 2, 0),
        ],
        begins: b"FXBOOK 1
BANK ALFA
BANK BETA
PAIR EUR/USD 5 1000000 100
PAIR USD/JPY 3 1000000 92
LINE ALFA BETA 1000
LINE BETA ALFA 1000
START
JOURNAL 2
BETA SHOW ALFA
ALFA LINE BETA 500
DESK ALFA 1
1 REPLY 1 LIMIT 500
DESK BETA 1
1 REPLY 1 SHOWN 1000 0 1000
",
        has_one: &[b"STRAYS 0\nEND\n"],
    },
    // No lane's first command is submitted before all four have come.
    Held {
        name: "four workers meet",
        words: &["run", "--workers", "4"],
        input: b"FXBOOK 1
BANK ALFA
BANK BETA
BANK GAMA
BANK DELT
PAIR EUR/USD 5 1000000 100
START
ALFA SHOW BETA
BETA SHOW ALFA
GAMA SHOW ALFA
DELT SHOW ALFA
END
",
        steps: FOUR,
        begins: b"FXBOOK 1
BANK ALFA
BANK BETA
BANK GAMA
BANK DELT
PAIR EUR/USD 5 1000000 100
START
JOURNAL 4
",
        has_one: &[b"STRAYS 0\nEND\n"],
    },
];

const FOUR: &[Step] = &[
    (Before(0, 1), 1, 15),
    (Before(1, 1), 2, 15),
    (Before(2, 1), 4, 15),
    (Before(3, 1), 8, 15),
];

// Sessions of version 2 in the order of their lines: ALFA's commands behind the two sells; and the operator's behind the fill, and
// ALFA's last one behind them.
const IN_ORDER: [(Sample, &[Step]); 2] = [
    (
        samples::TOTAL_OVER_TWO_MAKERS,
        &[
            (After(1, 1), 1, 0),
            (Before(2, 1), 0, 1),
            (After(2, 1), 2, 0),
            (Before(0, 1), 0, 2),
        ],
    ),
    (
        samples::USE_GIVEN_BACK,
        &[
            (After(1, 1), 1, 0),
            (Before(0, 1), 0, 1),
            (After(0, 1), 2, 0),
            (Before(64, 1), 0, 2),
            (After(64, 5), 4, 0),
            (Before(0, 2), 0, 4),
        ],
    ),
];

// What the program writes past a gate of these steps, with nothing on standard error. An error where it ends otherwise.
fn written<R: AllocGlobal + Threads + Wait + Sync>(
    rt: &R,
    words: &[&str],
    input: &[u8],
    steps: &'static [Step],
) -> Result<Vec<u8>, Fail> {
    let alloc = rt.alloc();
    let words = owned(alloc, words)?;
    let mut source = MemorySource::new(input.to_vec(alloc)?, 4096, Vec::new(alloc));
    let mut out = MemorySink::new(4096, Vec::new(alloc));
    let mut err = MemorySink::new(4096, Vec::new(alloc));
    let gate = SteppingGate::new(steps);
    let status = fx_main(rt, &words, &mut source, &mut out, &mut err, &gate);
    if status.code() != 0 || !err.written().is_empty() {
        return Err("it did not end well".into());
    }
    if gate.gave_up.load(SeqCst) != 0 {
        return Err("one of them did not come".into());
    }
    Ok(out.written().to_vec(alloc)?)
}

// Whether a text stands somewhere in another.
fn has(text: &[u8], piece: &[u8]) -> bool {
    (0..text.len()).any(|at| text.split_at(at).1.starts_with(piece))
}

// Whether the text is what the run writes.
fn is_written(text: &[u8], held: &Held) -> bool {
    text.starts_with(held.begins) && held.has_one.iter().any(|piece| has(text, piece))
}

#[test]
fn runs_that_are_held_up_pass(rt: HostRuntime) -> Result<(), Fail> {
    for held in RUNS {
        let text = written(&rt, held.words, held.input, held.steps)?;
        assert!(&rt; is_written(&text, &held), "{}", held.name);
        expect(&rt, &["check"], &text, 4096, &NONE, &done(b"YES\n"))?;
    }
    for (sample, steps) in IN_ORDER {
        let text = written(&rt, &["run", "--workers", "4"], sample.input, steps)?;
        assert!(&rt; text.as_slice() == sample.output, "in the order of lines");
    }
    let words = ["load", "1", "4", "1", "40", "--workers", "4"];
    let text = written(&rt, &words, b"", FOUR)?;
    assert!(&rt;
        text.as_slice().ends_with(b"THREADS 40 YES\n"),
        "four workers meet in a load"
    );
    Ok(())
}

// The gate is called before and after each of the two commands on threads.
#[test]
fn a_load_of_two_commands(rt: HostRuntime) -> Result<(), Fail> {
    let alloc = rt.alloc();
    let words = owned(alloc, &["load", "1", "2", "1", "2"])?;
    let mut source = MemorySource::new(Vec::new(alloc), 4096, Vec::new(alloc));
    let mut out = MemorySink::new(4096, Vec::new(alloc));
    let mut err = MemorySink::new(4096, Vec::new(alloc));
    let gate = CountingGate::new();
    let status = fx_main(&rt, &words, &mut source, &mut out, &mut err, &gate);
    assert!(&rt; status.code() == 0);
    assert!(&rt; out.written() == b"LOAD 1 2 1 2\nSERIAL 2 1 8 1\nTHREADS 2 YES\n".as_slice());
    assert!(&rt; gate.asked.load(SeqCst) == 4);
    Ok(())
}
