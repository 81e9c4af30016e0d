ghost use Rattle.std.specs.Prelude.{◌≡◌};
ghost use Rattle.program_calls.specs.Status.{kept_status, status_at};
ghost use Rattle.program_calls.specs.inside.Status.{written_status};

use crate::status::Status;
use kept_call::KeptFault;
use reply_lines::OutFault;
use session_script::{EarlyEnd, TextEnd};

/// What a run ends with whose text ended so, and whose output was written whole.
pub(crate) fn status_at(end: TextEnd) -> Status
    ensures { result ≡ status_at end }
{
    match end {
        TextEnd::EndLine => Status::Done,
        TextEnd::Early(EarlyEnd::Cut) => Status::Cut,
        TextEnd::Early(EarlyEnd::ReadFault) => Status::ReadFault,
        TextEnd::Early(EarlyEnd::TooMuch) => Status::TooMuch,
    }
}

/// What a run ends with whose text ended so, and whose output was written so.
pub(crate) fn written_status(end: TextEnd, written: Result<(), OutFault>) -> Status
    ensures { result ≡ written_status end written }
{
    match written {
        Ok(()) => status_at(end),
        Err(OutFault::Write) => Status::WriteFault,
        Err(OutFault::Memory(memory)) => Status::Memory(memory),
    }
}

/// What a call that keeps a session ends with, by its answer.
pub(crate) fn kept_status(answer: Result<TextEnd, KeptFault>) -> Status
    ensures { result ≡ kept_status answer }
{
    match answer {
        Ok(end) => status_at(end),
        Err(fault) => Status::from(fault),
    }
}
