ghost use Rattle.std.specs.Prelude.{◌≡◌, ◌+◌, ◌≤◌, take, vec_len, OnOk};

use fx_amounts::Memory;

/// The bytes by which a list gets longer than it has to. It has capacity for more, so that it is not moved for each of these steps;
/// and so few are cleared at once.
const STEP: usize = 512;

/// The bytes that a list has capacity for from the first on, and those that it has capacity for next. A list of the second size gets pages of
/// its own from the allocator, which moves pages and no bytes where it grows further, so that few texts are moved, and those once. Capacity
/// that was not written to yet takes addresses, and hardly any memory.
const FIRST_CAPACITY: usize = 16_000;

const NEXT_CAPACITY: usize = 160_000;

/// Makes room for so many bytes more behind the first `len`, which stay.
#[inline(always)]
pub(crate) fn make_room(bytes: &mut Vec<u8>, len: usize, more: usize) -> Result<(), Memory>
    requires within { len ≤ vec_len bytes.old }
    ensures room { OnOk result (len + more ≤ vec_len bytes.new) }
    ensures within { len ≤ vec_len bytes.new }
    ensures same { take len bytes.new.items ≡ take len bytes.old.items }
{
    if more <= bytes.len() - len {
        return Ok(());
    }
    grow(bytes, more)
}

/// Makes a list longer, by so many bytes at least. At `Memory` it is as it was.
fn grow(bytes: &mut Vec<u8>, more: usize) -> Result<(), Memory>
    ensures room { OnOk result (vec_len bytes.old + more ≤ vec_len bytes.new) }
    ensures longer { vec_len bytes.old ≤ vec_len bytes.new }
    ensures same { take (vec_len bytes.old) bytes.new.items ≡ bytes.old.items }
{
    let size = (bytes.len() + STEP).saturating_add(more);
    if bytes.capacity() < size {
        bytes.reserve(capacity_for(size) - bytes.len())?;
    }
    bytes.resize(size, 0)?;
    Ok(())
}

/// The capacity of a list that needs so many bytes at least.
fn capacity_for(size: usize) -> usize
    ensures { size ≤ result }
{
    if size <= FIRST_CAPACITY {
        FIRST_CAPACITY
    } else if size <= NEXT_CAPACITY {
        NEXT_CAPACITY
    } else {
        size
    }
}
