ghost use Rattle.std.specs.Prelude.{◌≡◌, ◌≤◌, [], ◌==◌, length, position, MatchOption};
ghost use Rattle.journal_check.specs.Lines.{lines_from};
ghost use Rattle.journal_check.specs.inside.Stops.{IsLineAt, ReadsLine};

use crate::stop::Stop;
use fx_text::LineView;

/// The most bytes that a line of a header or a journal has in front of its line feed.
const MOST_BYTES: usize = 256;

/// A line that was read, where it lies in its text.
#[derive(Clone, Copy)]
pub(crate) struct ReadLine<'a> {
    pub(crate) line: LineView<'a>,
    /// Where the next line begins.
    pub(crate) next: usize,
}

/// Reads the line of a text that begins at an offset. The answer is wrong at the text's length where no line feed follows,
/// and at the offset where the line is long, whatever it begins with.
pub(crate) fn read_line(text: &[u8], at: usize) -> Result<ReadLine<'_>, Stop>
    requires { at ≤ length text.now }
    ensures { ReadsLine text.now at result }
{
    let Some(part) = line_at(text, at) else {
        return Err(Stop::Wrong {
            offset: text.len() as u64,
        });
    };
    if part.len() > MOST_BYTES {
        return Err(Stop::Wrong { offset: at as u64 });
    }
    Ok(ReadLine {
        line: LineView::of(part),
        next: at + part.len() + 1,
    })
}

/// The line of a text that begins at an offset, without its line feed; `None` where no line feed follows.
pub(crate) fn line_at(text: &[u8], at: usize) -> Option<&[u8]>
    requires { at ≤ length text.now }
    ensures { MatchOption result (lines_from text.now at ≡ []) (λ line. IsLineAt text.now at line.now) }
{
    let (_, rest) = text.split_at(at);
    match line_feed(rest) {
        Some(count) => Some(rest.split_at(count).0),
        None => None,
    }
}

/// Where a text has its first line feed.
fn line_feed(text: &[u8]) -> Option<usize>
    ensures { result ≡ position (λ byte. byte == 10) text.now }
{
    text.iter().position(|byte| *byte == b'\n')
}
