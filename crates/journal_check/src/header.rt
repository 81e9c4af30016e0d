ghost use Rattle.std.specs.Prelude.{◌≡◌, ◌≤◌, length, IfOk, Some};
ghost use Rattle.session_head.specs.Head.{Begun, IsStarted, session_of};
ghost use Rattle.journal_check.specs.Lines.{lines_from};
ghost use Rattle.journal_check.specs.Listed.{header_among};
ghost use Rattle.journal_check.specs.inside.Stops.{Answers};

use crate::line::read_line;
use crate::stop::Stop;
use fx_rules::Session;
use session_head::{HeadReader, HeadStep, HeadStop};
use std::alloc::Global;

/// The header that a text begins with.
#[derive(Drop)]
pub(crate) struct Headed {
    pub(crate) session: Session,
    /// Where the line behind START begins.
    pub(crate) next: usize,
}

/// Reads the header of a text up to START. At a fault the answer is wrong where its line begins.
pub(crate) fn read_header(alloc: Global, text: &[u8]) -> Result<Headed, Stop>
    ensures answers { Answers result (header_among (length text.now) (Begun 0) (lines_from text.now 0)) }
    ensures within { IfOk result (λ headed. headed.next ≤ length text.now) }
{
    let mut reader = HeadReader::new(alloc);
    let mut at = 0;
    loop {
        let read = match read_line(text, at) {
            Ok(read) => read,
            Err(stop) => return Err(stop),
        };
        match reader.line_in(&read.line) {
            Ok(HeadStep::More) => at = read.next,
            Ok(HeadStep::Start) => {
                return Ok(Headed {
                    session: session_of(reader),
                    next: read.next,
                });
            }
            Err(HeadStop::Fault { .. }) => return Err(Stop::Wrong { offset: at as u64 }),
            Err(HeadStop::Memory(memory)) => return Err(Stop::Memory(memory)),
        }
    }
}

/// The session of a reader that has read START.
fn session_of(reader: HeadReader) -> Session
    requires { IsStarted reader }
    ensures { session_of reader ≡ Some result }
{
    reader.into_session().unwrap()
}
