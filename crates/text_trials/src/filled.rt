use fx_amounts::Memory;
use std::alloc::Global;

/// A text with so many of one byte in it: what stands before them, the byte, how many, and what stands behind them.
pub(crate) type Filled<'a> = (&'a [u8], u8, usize, &'a [u8]);

/// The whole of such a text.
pub(crate) fn filled(alloc: Global, (front, byte, count, end): Filled) -> Result<Vec<u8>, Memory> {
    let mut text = Vec::from_slice(alloc, front)?;
    text.resize(front.len().saturating_add(count), byte)?;
    text.extend_from_slice(end)?;
    Ok(text)
}
