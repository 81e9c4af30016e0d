//! A session is run in rounds: before bytes behind the first round are asked for, its commands were carried out.
ghost use Rattle.std.specs.Prelude.{None};

use super::{MemorySink, STARTED, owned, samples};
use crate::fx_main;
use fx_amounts::{BankId, PairId};
use fx_edges::{ReadFailed, Source, SteadySource};
use fx_rules::Gate;
use std::alloc::{AllocError, Global};
use std::sync::Wait;
use std::sync::atomic::AtomicBool;
use std::sync::atomic::Ordering::SeqCst;
use std::test::Fail;

// The bytes that the first round takes.
const FIRST_ROUND: usize = 65_536;

// A gate that sets a mark once the first command of the first bank was carried out.
#[derive(Drop)]
struct MarkingGate<'a> {
    is_carried_out: &'a AtomicBool,
}

impl<'a> Gate for MarkingGate<'a> {
    fn before<R: Wait>(&self, _rt: &R, _bank: BankId, _number: u32) {}

    fn after<R: Wait>(&self, _rt: &R, bank: BankId, number: u32) {
        if bank.index() == 0 && number == 1 {
            self.is_carried_out.store(true, SeqCst);
        }
    }

    fn inside<R: Wait>(&self, _rt: &R, _pair: PairId) {}
}

// A source that looks at the mark whenever it is asked for bytes behind the first round. It tells no bytes.
#[derive(Drop)]
struct LookingSource<'a> {
    bytes: SteadySource,
    taken: usize,
    is_carried_out: &'a AtomicBool,
    found_set: u32,
    found_unset: u32,
}

impl<'a> Source for LookingSource<'a> {
    ghost left = { λ _. None };

    ghost faults = { λ _. 0 };

    fn read(&mut self, into: &mut [u8]) -> Result<usize, ReadFailed> {
        if self.taken >= FIRST_ROUND {
            let found = if self.is_carried_out.load(SeqCst) {
                &mut self.found_set
            } else {
                &mut self.found_unset
            };
            *found = found.saturating_add(1);
        }
        let count = self.bytes.read(into)?;
        self.taken = self.taken.saturating_add(count);
        Ok(count)
    }
}

// A session whose first bank asks 5,000 times for its line with the second.
fn long_session(alloc: Global) -> Result<Vec<u8>, AllocError> {
    let head = &samples::ONE_SELL_ONE_BUY.input[..STARTED];
    let mut text = head.to_vec(alloc)?;
    for _command in 0..5_000 {
        text.extend_from_slice(b"ALFA SHOW BETA\n")?;
    }
    text.extend_from_slice(b"END\n")?;
    Ok(text)
}

#[test]
fn a_round_is_run_before_the_next_is_read(rt: HostRuntime) -> Result<(), Fail> {
    let alloc = rt.alloc();
    let words = owned(alloc, &["run"])?;
    let is_carried_out = AtomicBool::new(false);
    let gate = MarkingGate {
        is_carried_out: &is_carried_out,
    };
    let mut source = LookingSource {
        bytes: SteadySource::new(long_session(alloc)?),
        taken: 0,
        is_carried_out: &is_carried_out,
        found_set: 0,
        found_unset: 0,
    };
    let mut out = MemorySink::new(65_536, Vec::new(alloc));
    let mut err = MemorySink::new(64, Vec::new(alloc));
    let status = fx_main(&rt, &words, &mut source, &mut out, &mut err, &gate);
    assert!(&rt; status.code() == 0);
    assert!(&rt; source.taken > FIRST_ROUND);
    assert!(&rt; source.found_set > 0);
    assert!(&rt; source.found_unset == 0);
    Ok(())
}
