ghost use Rattle.std.specs.Prelude.{◌≡◌, ◌∷◌, ◌++◌, OnOk};
ghost use Rattle.fx_amounts.specs.Numeral.{numeral};
ghost use Rattle.program_calls.specs.LoadLines.{counts_line, verdict_word, threads_line};

use crate::loading::threaded::ThreadedCheck;
use fx_amounts::Memory;
use fx_text::push_number;
use journal_check::Verdict;

/// Appends a line: a word, and counts behind it.
#[tactic(auto, using(crate::proofs::LoadCounting::counts_more), unfolding(crate::specs::LoadLines::counts_line))]
pub(crate) fn push_counts(word: &[u8], counts: &[u64], text: &mut Vec<u8>) -> Result<(), Memory>
    ensures ok { OnOk result (text.new.items ≡ text.old.items ++ counts_line word.now counts.now) }
{
    text.extend_from_slice(word)?;
    for count in counts {
        push_count(*count, text)?;
    }
    text.push(b'\n')?;
    Ok(())
}

/// Appends the line that tells of a run on threads.
#[tactic(auto, unfolding(crate::specs::LoadLines::threads_line))]
pub(crate) fn push_threads(threaded: ThreadedCheck, text: &mut Vec<u8>) -> Result<(), Memory>
    ensures ok { OnOk result (text.new.items ≡ text.old.items ++ threads_line threaded.entries threaded.verdict) }
{
    text.extend_from_slice(b"THREADS")?;
    push_count(threaded.entries, text)?;
    text.push(b' ')?;
    push_verdict(threaded.verdict, text)?;
    text.push(b'\n')?;
    Ok(())
}

/// Appends a count behind a space.
fn push_count(count: u64, text: &mut Vec<u8>) -> Result<(), Memory>
    ensures ok { OnOk result (text.new.items ≡ text.old.items ++ 32 ∷ numeral count) }
{
    text.push(b' ')?;
    push_number(u128::from(count), text)
}

/// Appends a verdict.
#[tactic(auto, unfolding(crate::specs::LoadLines::verdict_word))]
fn push_verdict(verdict: Verdict, text: &mut Vec<u8>) -> Result<(), Memory>
    ensures ok { OnOk result (text.new.items ≡ text.old.items ++ verdict_word verdict) }
{
    match verdict {
        Verdict::Yes(_) => {
            text.extend_from_slice(b"YES")?;
            Ok(())
        }
        Verdict::No { offset } => {
            text.extend_from_slice(b"NO ")?;
            push_number(u128::from(offset), text)
        }
    }
}
