ghost use Rattle.std.specs.Prelude.{◌≡◌, ◌≤◌, length};
ghost use Rattle.journal_check.specs.Lines.{lines_from};
ghost use Rattle.journal_check.specs.Verdict.{is_strays, is_ending, ending_in, last_in};

use crate::check::Verdict;
use crate::line::line_at;
use fx_text::number;

/// That a text passed the check. It is made here alone, where a text that is right up to its last line ends behind that line, so
/// that nobody can say `Verdict::Yes` who did not ask the check.
#[derive(Clone, Copy, Debug, PartialEq, Eq)]
pub struct Passed(());

/// The verdict on a text that is right up to an offset, by its last lines.
#[tactic(auto, unfolding(crate::specs::Verdict::last_in))]
pub(crate) fn last_lines(text: &[u8], at: usize) -> Verdict
    requires { at ≤ length text.now }
    ensures { result ≡ last_in (length text.now) (lines_from text.now at) }
{
    let Some(line) = line_at(text, at) else {
        return wrong(text.len());
    };
    if !is_strays(line) {
        return wrong(at);
    }
    ending_line(text, at + line.len() + 1)
}

/// The verdict by the line of the ending, behind which the text ends.
fn ending_line(text: &[u8], at: usize) -> Verdict
    requires { at ≤ length text.now }
    ensures { result ≡ ending_in (length text.now) (lines_from text.now at) }
{
    let Some(line) = line_at(text, at) else {
        return wrong(text.len());
    };
    if !is_ending(line) {
        return wrong(at);
    }
    let end = at + line.len() + 1;
    if end == text.len() {
        Verdict::Yes(Passed(()))
    } else {
        wrong(end)
    }
}

fn wrong(at: usize) -> Verdict
    ensures { result ≡ Verdict.No at }
{
    Verdict::No { offset: at as u64 }
}

/// Whether a line tells the strays, in its one spelling.
fn is_strays(line: &[u8]) -> bool
    ensures { result ≡ is_strays line.now }
{
    let Some(count) = line.strip_prefix(b"STRAYS ") else {
        return false;
    };
    number(count, 0, u64::MAX).is_some()
}

/// Whether a line tells how the reading ended.
fn is_ending(line: &[u8]) -> bool
    ensures { result ≡ is_ending line.now }
{
    line == b"END".as_slice()
        || line == b"CUT".as_slice()
        || line == b"READ".as_slice()
        || line == b"MUCH".as_slice()
}
