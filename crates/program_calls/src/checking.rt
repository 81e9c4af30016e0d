ghost use Rattle.std.specs.Prelude.{◌≡◌, IfOk};
ghost use Rattle.program_calls.specs.Check.{HasTaken, Checked, SaysYes, ToldVerdict, no_line};
ghost use Rattle.program_calls.specs.inside.Check.{EndedWith};
ghost use Rattle.program_calls.specs.declared.checking.Halt.TheVariants.{Memory as OutOfMemory};

use crate::status::Status;
use fx_amounts::Memory;
use fx_edges::{Sink, SinkFault, Source, write_all};
use fx_text::push_number;
use journal_check::{Verdict, check_output};
use std::alloc::Global;

/// The bytes of an output that can be checked are fewer than these.
const OUTPUT_LIMIT: usize = 1 << 28;

/// The bytes that one read asks for.
const PIECE: usize = 65536;

/// Why the source was not read to its end.
#[derive(Clone, Copy, Debug, PartialEq, Eq)]
pub enum Halt {
    /// The source failed.
    ReadFault,
    /// 2^28 bytes were taken.
    TooMuch,
    /// A growth of memory was refused.
    Memory(Memory),
}

impl From<Memory> for Halt {
    ghost from_gives = { λ memory halt. halt ≡ OutOfMemory memory };

    fn from(memory: Memory) -> Self {
        Halt::Memory(memory)
    }
}

impl From<Halt> for Status {
    ghost use Rattle.program_calls.specs.Check.{halted};

    ghost from_gives = { λ halt status. status ≡ halted halt };

    fn from(halt: Halt) -> Self {
        match halt {
            Halt::ReadFault => Status::ReadFault,
            Halt::TooMuch => Status::TooMuch,
            Halt::Memory(memory) => Status::Memory(memory),
        }
    }
}

/// Checks the source's bytes, and writes the verdict.
pub fn check<S: Source, K: Sink>(alloc: Global, source: &mut S, out: &mut K) -> Status
    ensures checked { Checked SaysYes S.left S.faults K.written K.faults source.old source.new out.old out.new result }
{
    match read_all(alloc, source) {
        Ok(bytes) => check_bytes(alloc, &bytes, out),
        Err(halt) => Status::from(halt),
    }
}

/// Checks some bytes, and writes the verdict.
fn check_bytes<K: Sink>(alloc: Global, bytes: &[u8], out: &mut K) -> Status
    ensures told { ToldVerdict SaysYes K.written K.faults out.old out.new bytes.now result }
{
    match check_output(alloc, bytes) {
        Ok(Verdict::Yes(_)) => write_answer(b"YES\n", Status::Done, out),
        Ok(Verdict::No { offset }) => write_no(alloc, offset, out),
        Err(memory) => Status::Memory(memory),
    }
}

/// Writes the line of a text that is no output, `NO` and the offset.
pub(crate) fn write_no<K: Sink>(alloc: Global, offset: u64, out: &mut K) -> Status
    ensures { EndedWith K.written K.faults out.old out.new (no_line offset) Status.Differs result }
{
    match make_no(alloc, offset) {
        Ok(line) => write_answer(&line, Status::Differs, out),
        Err(memory) => Status::Memory(memory),
    }
}

/// Writes a text, and answers with the status that goes with it, or with that of the fault.
fn write_answer<K: Sink>(text: &[u8], status: Status, out: &mut K) -> Status
    ensures { EndedWith K.written K.faults out.old out.new text.now status result }
{
    match write_all(out, text) {
        Ok(()) => status,
        Err(SinkFault::Failed) => Status::WriteFault,
        Err(SinkFault::Memory(memory)) => Status::Memory(memory),
    }
}

/// Makes the line of a text that is no output, `NO` and the offset.
#[tactic(auto, unfolding(crate::specs::Check::no_line))]
fn make_no(alloc: Global, offset: u64) -> Result<Vec<u8>, Memory>
    ensures value { IfOk result (λ text. text.items ≡ no_line offset) }
{
    let mut text = b"NO ".to_vec(alloc)?;
    push_number(u128::from(offset), &mut text)?;
    text.push(b'\n')?;
    Ok(text)
}

/// Reads a source to its end, in pieces of 65,536 bytes at most. It stops at a read that fails, and where 2^28 bytes were
/// taken.
pub(crate) fn read_all<S: Source>(alloc: Global, source: &mut S) -> Result<Vec<u8>, Halt>
    ensures taken { HasTaken S.left S.faults source.old source.new result }
{
    let mut bytes = Vec::new(alloc);
    let mut piece = [0; PIECE];
    while bytes.len() < OUTPUT_LIMIT {
        let room = PIECE.min(OUTPUT_LIMIT - bytes.len());
        let Ok(count) = source.read(&mut piece[..room]) else {
            return Err(Halt::ReadFault);
        };
        if count == 0 {
            return Ok(bytes);
        }
        bytes
            .extend_from_slice(&piece[..count])
            .map_err(Memory::from)?;
    }
    Err(Halt::TooMuch)
}
