ghost use Rattle.std.specs.Prelude.{ℕ, List};
ghost use Rattle.fx_rules.specs.History.{IsLegal};
ghost use Rattle.journal_check.specs.Verdict.{yes, IsVerdict};
ghost use Rattle.journal_check.specs.Reading.{IsReadOf};
ghost use Rattle.program_calls.specs.Check.{Checked, ToldVerdict};
ghost use Rattle.program_calls.specs.Payments.{IsPaymentsOf};

use crate::checking::{read_all, write_no};
use crate::status::Status;
use fx_edges::{Sink, SinkFault, Source};
use fx_rules::{Entry, Session};
use journal_check::{Read, check_read};
use net_settle::Form;
use std::alloc::Global;

mod find;
mod text;

pub use find::find_payments;
pub use text::write_payments;

/// Reads the source's bytes, and writes what the banks pay by the legal history whose output they are. Of bytes that are no
/// output it writes `NO` and the offset, as `check` does.
pub fn payments<S: Source, K: Sink>(
    alloc: Global,
    form: Form,
    source: &mut S,
    out: &mut K,
) -> Status
    ensures paid { Checked (IsPaymentsOf form) S.left S.faults K.written K.faults source.old source.new out.old out.new result }
{
    match read_all(alloc, source) {
        Ok(bytes) => pay_by_bytes(alloc, form, &bytes, out),
        Err(halt) => Status::from(halt),
    }
}

/// Writes what the banks pay by the history whose output the bytes are, or where they are none.
fn pay_by_bytes<K: Sink>(alloc: Global, form: Form, bytes: &[u8], out: &mut K) -> Status
    ensures told { ToldVerdict (IsPaymentsOf form) K.written K.faults out.old out.new bytes.now result }
{
    match check_read(alloc, bytes) {
        Ok(Read::Yes { session, entries }) => {
            pay_day(alloc, form, &session, entries.as_slice(), out)
        }
        Ok(Read::No { offset }) => write_no(alloc, offset, out),
        Err(memory) => Status::Memory(memory),
    }
}

/// Writes what the banks pay by a legal history.
fn pay_day<K: Sink>(
    alloc: Global,
    form: Form,
    session: &Session,
    entries: &[Entry],
    out: &mut K,
) -> Status
    requires legal { IsLegal session.now entries.now }
    ensures told { (bytes : List ℕ) → IsVerdict bytes yes → IsReadOf bytes session.now entries.now →
        ToldVerdict (IsPaymentsOf form) K.written K.faults out.old out.new bytes result }
{
    let payments = match find_payments(alloc, form, session, entries) {
        Ok(payments) => payments,
        Err(memory) => return Status::Memory(memory),
    };
    match write_payments(alloc, session, &payments, out) {
        Ok(()) => Status::Done,
        Err(SinkFault::Failed) => Status::WriteFault,
        Err(SinkFault::Memory(memory)) => Status::Memory(memory),
    }
}
