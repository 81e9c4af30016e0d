ghost use Rattle.std.specs.Prelude.{◌<◌};

use crate::names::SoughtName;

/// An odd number whose product with a word has in its high byte a part of each of the word's bytes.
const FACTOR: u64 = 0x9e37_79b9_7f4a_7c15;

/// Where to look first for a text among the names of banks or the texts of pairs: at the place of one that shares its slot. It may
/// be another text's place, so what is found there is compared; it saves the walk over all for all texts but the few that
/// share a slot.
#[derive(Clone, Copy, Debug)]
pub(crate) struct Guesses {
    places: [u8; 256],
}

impl Guesses {
    /// Guesses of which none is right yet.
    pub(crate) fn new() -> Guesses {
        Guesses { places: [0; 256] }
    }

    /// The place to look at first.
    pub(crate) fn place(&self, sought: &SoughtName<'_>) -> usize {
        usize::from(self.places[slot_of(sought.word())])
    }

    /// Tells of a text where it is.
    pub(crate) fn tell(&mut self, sought: &SoughtName<'_>, place: u8) {
        self.places[slot_of(sought.word())] = place;
    }
}

/// The slot of a word.
fn slot_of(word: u64) -> usize
    ensures { result < 256 }
{
    let [high, ..] = word.wrapping_mul(FACTOR).to_be_bytes();
    usize::from(high)
}
