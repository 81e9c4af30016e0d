ghost use Rattle.std.specs.Prelude.{◌≡◌, ◌∷◌, ◌++◌, [], IsErr, OnOk, OnErr};

use fx_amounts::Memory;

// A line that shows a local book may be of any length, so it is made in a list. At `Memory` each of these calls leaves it empty, so that
// no part of a line is taken for a line.

/// Begins a line anew with its first field, a word.
pub(crate) fn begin_word_row(first: &[u8], line: &mut Vec<u8>) -> Result<(), Memory>
    ensures ok { OnOk result (line.new.items ≡ first.now) }
    ensures memory { OnErr result (line.new.items ≡ []) }
{
    line.clear();
    line.extend_from_slice(first)?;
    Ok(())
}

/// Ends a line.
pub(crate) fn end_row(line: &mut Vec<u8>) -> Result<(), Memory>
    ensures ok { OnOk result (line.new.items ≡ line.old.items ++ 10 ∷ []) }
    ensures memory { OnErr result (line.new.items ≡ []) }
{
    match line.push(b'\n') {
        Ok(()) => Ok(()),
        Err(refusal) => give_up(line, Memory::from(refusal)),
    }
}

/// Empties a line that could not grow.
pub(crate) fn give_up(line: &mut Vec<u8>, memory: Memory) -> Result<(), Memory>
    ensures refused { IsErr result }
    ensures memory { line.new.items ≡ [] }
{
    line.clear();
    Err(memory)
}
