ghost use Rattle.std.specs.Prelude.{◌≡◌, IfOk, OnErr};
ghost use Rattle.fx_edges.specs.Writing.{CutShort, Wrote};
ghost use Rattle.program_calls.specs.Status.{status_code, err_text, fault_text, block_text, status_of, fault_status};

use crate::ending::status_at;
use fx_amounts::Memory;
use fx_edges::{Sink, SinkFault, write_all};
use fx_text::push_number;
use kept_call::KeptFault;
use session_head::HeadReason;
use session_script::{Stop, TextEnd};
use std::alloc::Global;

/// How the program ended.
#[derive(Clone, Copy, Debug, PartialEq, Eq)]
pub enum Status {
    /// All that was asked for was written.
    Done,
    /// The words are none that the program accepts.
    Usage,
    /// The input's header has a fault: the number of its line, counted from 1 with all lines that are ignored, and the
    /// reason.
    Header { line: u64, reason: HeadReason },
    /// The input ended before its END line. With START read, the output of its whole lines was written.
    Cut,
    /// The source failed. With a session whose START was read, the output of its whole lines so far was written.
    ReadFault,
    /// Standard output failed; a prefix of the output was written.
    WriteFault,
    /// A growth of memory was refused.
    Memory(Memory),
    /// The input's end did not come within what is taken of it: for a session its END line, for an output the source's end.
    /// With a session whose START was read, the output of its whole lines so far was written.
    TooMuch,
    /// The input is not the output of a legal history.
    Differs,
    /// A whole block of the journal file is not what it has to be: the number of the first, counted from 0. Nothing was written.
    Damaged { block: u64 },
    /// The disk failed; a prefix of the text was written, and each round of which a byte was written is kept.
    DiskFault,
    /// The journal file has a whole block already, so that no new session is kept in it. Nothing was written.
    Kept,
    /// The journal file has no whole block to go on from. Nothing was written.
    Empty,
    /// There are more commands in the journal file than a session goes on from. Nothing was written.
    Full,
}

impl Status {
    /// The exit status of the process.
    pub fn code(self) -> u8
        ensures { result ≡ status_code self }
    {
        match self {
            Status::Done => 0,
            Status::Usage => 1,
            Status::Header { .. } => 2,
            Status::Cut => 3,
            Status::ReadFault => 4,
            Status::WriteFault => 5,
            Status::Memory(_) => 6,
            Status::TooMuch => 7,
            Status::Differs => 8,
            Status::Damaged { .. } => 10,
            Status::DiskFault => 11,
            Status::Kept => 12,
            Status::Empty => 13,
            Status::Full => 14,
        }
    }

    /// Writes the line that standard error gets; none where all went well. After a fault a prefix of it was written, and not all of it.
    #[tactic(auto, unfolding(crate::specs::Status::err_text))]
    pub fn write_line<E: Sink>(self, alloc: Global, err: &mut E) -> Result<(), SinkFault>
        ensures wrote { Wrote E.written E.faults err.old err.new (err_text self) result }
        ensures cut { OnErr result (CutShort E.written E.faults err.old err.new (err_text self)) }
    {
        match self {
            Status::Done => write_all(err, b""),
            Status::Usage => write_all(
                err,
                b"usage: fx_cli run [--workers N] | serial | check | load SEED BANKS PAIRS COMMANDS [--workers N] | clients | payments bilateral | payments net | watch | keep | restart\n",
            ),
            Status::Header { line, reason } => write_fault_line(alloc, line, reason, err),
            Status::Cut => write_all(err, b"input ended before END\n"),
            Status::ReadFault => write_all(err, b"read failed\n"),
            Status::WriteFault => write_all(err, b"write failed\n"),
            Status::Memory(_) => write_all(err, b"out of memory\n"),
            Status::TooMuch => write_all(err, b"too much input\n"),
            Status::Differs => write_all(err, b"output differs\n"),
            Status::Damaged { block } => write_block_line(alloc, block, err),
            Status::DiskFault => write_all(err, b"disk failed\n"),
            Status::Kept => write_all(err, b"journal exists\n"),
            Status::Empty => write_all(err, b"journal empty\n"),
            Status::Full => write_all(err, b"journal full\n"),
        }
    }
}

impl From<Stop> for Status {
    ghost from_gives = { λ stop status. status ≡ status_of stop };

    fn from(stop: Stop) -> Self {
        match stop {
            Stop::Header { line, reason } => Status::Header { line, reason },
            Stop::Early(early) => status_at(TextEnd::Early(early)),
            Stop::Memory(memory) => Status::Memory(memory),
        }
    }
}

impl From<KeptFault> for Status {
    ghost from_gives = { λ fault status. status ≡ fault_status fault };

    fn from(fault: KeptFault) -> Self {
        match fault {
            KeptFault::Header { line, reason } => Status::Header { line, reason },
            KeptFault::Early(early) => status_at(TextEnd::Early(early)),
            KeptFault::Kept => Status::Kept,
            KeptFault::Empty => Status::Empty,
            KeptFault::Damaged { block } => Status::Damaged { block },
            KeptFault::Full => Status::Full,
            KeptFault::Disk => Status::DiskFault,
            KeptFault::Write => Status::WriteFault,
            KeptFault::Memory(memory) => Status::Memory(memory),
        }
    }
}

/// Writes the line of a header's fault.
fn write_fault_line<E: Sink>(
    alloc: Global,
    line: u64,
    reason: HeadReason,
    err: &mut E,
) -> Result<(), SinkFault>
    ensures wrote { Wrote E.written E.faults err.old err.new (fault_text line reason) result }
    ensures cut { OnErr result (CutShort E.written E.faults err.old err.new (fault_text line reason)) }
{
    let text = fault_line(alloc, line, reason)?;
    write_all(err, &text)
}

/// The line of a header's fault.
#[tactic(auto, unfolding(crate::specs::Status::fault_text))]
fn fault_line(alloc: Global, line: u64, reason: HeadReason) -> Result<Vec<u8>, Memory>
    ensures value { IfOk result (λ text. text.items ≡ fault_text line reason) }
{
    let mut text = b"header line ".to_vec(alloc)?;
    push_number(u128::from(line), &mut text)?;
    text.extend_from_slice(b" reason ")?;
    push_number(u128::from(reason.code()), &mut text)?;
    text.push(b'\n')?;
    Ok(text)
}

/// Writes the line of a damaged block.
fn write_block_line<E: Sink>(alloc: Global, block: u64, err: &mut E) -> Result<(), SinkFault>
    ensures wrote { Wrote E.written E.faults err.old err.new (block_text block) result }
    ensures cut { OnErr result (CutShort E.written E.faults err.old err.new (block_text block)) }
{
    let text = block_line(alloc, block)?;
    write_all(err, &text)
}

/// The line of a damaged block.
#[tactic(auto, unfolding(crate::specs::Status::block_text))]
fn block_line(alloc: Global, block: u64) -> Result<Vec<u8>, Memory>
    ensures value { IfOk result (λ text. text.items ≡ block_text block) }
{
    let mut text = b"journal block ".to_vec(alloc)?;
    push_number(u128::from(block), &mut text)?;
    text.extend_from_slice(b" damaged\n")?;
    Ok(text)
}
