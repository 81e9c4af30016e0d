ghost use Rattle.std.specs.Prelude.{◌≡◌, IsSome, IfOk, IfErr, None, Some, map, string_bytes, IsTrue, ◌↔◌, true};
ghost use Rattle.clap.specs.Words.{subcommand_of, subcommand_rows_of, takes};
ghost use Rattle.fx_amounts.specs.OutOfMemory.{refused};
ghost use Rattle.program_calls.specs.Forms.{task_of, IsTask};
ghost use Rattle.program_calls.specs.inside.Tool.{tool};

use crate::line::command_line;
use crate::matched::Matched;
use crate::task::Task;
use clap::error::ErrorKind;
use clap::{ArgMatches, Error};
use fx_amounts::Memory;
use std::alloc::Global;
use std::io;

/// Why words were not read.
#[derive(Clone, Copy, Debug, PartialEq, Eq)]
pub enum WordsFault {
    /// They are in none of the forms.
    Usage,
    /// A growth of memory was refused, by this program's own call or inside `clap`.
    Memory(Memory),
}

impl From<Memory> for WordsFault {
    ghost use Rattle.program_calls.specs.declared.reading.WordsFault.TheVariants.{Memory as OutOfMemory};

    ghost from_gives = { λ memory fault. fault ≡ OutOfMemory memory };

    fn from(memory: Memory) -> Self {
        WordsFault::Memory(memory)
    }
}

/// What an error of `clap` says of words.
impl From<Error> for WordsFault {
    ghost use Rattle.clap.specs.Words.{kind_of};
    ghost use Rattle.program_calls.specs.Refused.{fault_at};

    ghost from_gives = { λ error fault. fault ≡ fault_at (kind_of error) };

    fn from(error: Error) -> Self {
        match memory_told_by(error.kind()) {
            Some(memory) => WordsFault::Memory(memory),
            None => WordsFault::Usage,
        }
    }
}

/// What the kind of `clap`'s error says of memory: `Some` exactly at its own `OutOfMemory`. An error of `clap` tells its kind
/// alone, and that this kind comes only where memory was refused is trusted.
fn memory_told_by(kind: ErrorKind) -> Option<Memory>
    ensures told { IsSome result ↔ kind ≡ ErrorKind.OutOfMemory }
{
    match kind {
        ErrorKind::OutOfMemory => Memory::told_by(io::ErrorKind::OutOfMemory),
        _ => None,
    }
}

/// What the words ask for. `Usage` exactly where they are in none of the forms:
///
/// - `run` or `run --workers N`
/// - `serial`
/// - `check`
/// - `load SEED BANKS PAIRS COMMANDS`, also followed by `--workers N`
/// - `clients`
/// - `payments bilateral` or `payments net`
/// - `watch`
///
/// A number is decimal digits, without a sign and without a leading zero other than in `0` itself: SEED is below 2^64,
/// BANKS 2 to 64, PAIRS 1 to 32, COMMANDS 1 to 20000 and N 1 to 64. Where N is not given it is 4.
#[tactic(auto, using(crate::proofs::Complete::unmatched, crate::proofs::Ranges::task_is_task))]
pub fn read_words(alloc: Global, words: &[String]) -> Result<Task, WordsFault>
    ensures task { IfOk result (λ task. task_of (map string_bytes words.now) ≡ Some task) }
    ensures ranges { IfOk result IsTask }
    ensures usage { IfErr result (λ fault. fault ≡ WordsFault.Usage → task_of (map string_bytes words.now) ≡ None) }
{
    let matches = match_words(alloc, words)?;
    let Some(matched) = Matched::of(&matches) else {
        return Err(WordsFault::Usage);
    };
    let back = matched.words(alloc)?;
    if !are_same(words, &back) {
        return Err(WordsFault::Usage);
    }
    matched.task().ok_or(WordsFault::Usage)
}

/// What `clap` matches of the words.
fn match_words<'a>(alloc: Global, words: &'a [String]) -> Result<ArgMatches<'a>, WordsFault>
    ensures matches { IfOk result (λ matches. subcommand_rows_of matches ≡ subcommand_of tool (map string_bytes words.now)) }
    ensures usage { IfErr result (λ fault. takes tool (map string_bytes words.now) ≡ true → fault ≡ WordsFault.Memory refused) }
{
    let matches = command_line(alloc)?.try_get_matches_from(words)?;
    Ok(matches)
}

/// Whether the words are just these.
#[tactic(auto, using(crate::proofs::SameWords::all_same))]
fn are_same(words: &[String], others: &[&str]) -> bool
    ensures { IsTrue result ↔ (map string_bytes words.now ≡ map (λ word. word.now) others.now) }
{
    if words.len() != others.len() {
        return false;
    }
    for (at, word) in words.iter().enumerate() {
        if word.as_str() != others[at] {
            return false;
        }
    }
    true
}
