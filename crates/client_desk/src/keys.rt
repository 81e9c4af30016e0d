//! What a client is found by among others.
ghost use Rattle.std.specs.Prelude.{◌≡◌, ◌≤◌, ◌++◌, IfSome, IsSome, length, take};
ghost use Rattle.std.specs.Int.{w64, to_le_bytes};
ghost use Rattle.std.specs.Hash as fed;
ghost use Rattle.std.specs.Cmp.Rules.{hashing};
ghost use Rattle.std.proofs.Common.{rules};
ghost use Rattle.fx_rules.specs.Names.{padded};
ghost use Rattle.client_desk.specs.inside.Keys.{IsKeyOf};

use fx_amounts::{BankId, Memory};
use std::alloc::Global;
use std::hash::{Hash, Hasher};

/// A bank and the name of one of its clients, whose bytes are one number, with zeros behind a shorter name.
#[derive(Clone, Copy, Debug, PartialEq, Eq)]
pub(crate) struct ClientKey {
    bank: BankId,
    word: u64,
    len: u8,
}

impl ClientKey {
    /// The key of a bank and a text; `None` where the text is longer than any name. It takes no memory.
    pub(crate) fn of(bank: BankId, text: &[u8]) -> Option<ClientKey>
        ensures key { IfSome result (IsKeyOf bank text.now) }
        ensures short { length text.now ≤ 8 → IsSome result }
    {
        if text.len() > 8 {
            return None;
        }
        let mut bytes = [0; 8];
        bytes[..text.len()].copy_from_slice(text);
        Some(ClientKey {
            bank,
            word: word_of(bytes),
            len: text.len() as u8,
        })
    }

    /// The key of a bank and the first `len` bytes of a text; `None` where they are more than any name has. Where the text has eight
    /// bytes, they are read at once. It takes no memory.
    #[inline(always)]
    pub(crate) fn in_front(bank: BankId, text: &[u8], len: usize) -> Option<ClientKey>
        requires len { len ≤ length text.now }
        ensures key { IfSome result (IsKeyOf bank (take len text.now)) }
        ensures short { len ≤ 8 → IsSome result }
    {
        match text.first_chunk::<8>() {
            Some(first) if len >= 3 && len <= 8 => Some(ClientKey {
                bank,
                word: front_of(word_of(*first), len),
                len: len as u8,
            }),
            _ => ClientKey::of(bank, text.split_at(len).0),
        }
    }
}

impl Hash for ClientKey {
    ghost hash_input = { λ key. fed.u64 key.word ++ fed.u8 key.bank };

    ghost respects_eq = { Prim.search (hashing, rules) };

    fn hash<H: Hasher>(&self, state: &mut H) {
        state.write_u64(self.word);
        state.write_u8(self.bank.index() as u8);
    }
}

/// Eight bytes as one number.
fn word_of(bytes: [u8; 8]) -> u64
    ensures value { to_le_bytes w64 result ≡ bytes }
{
    u64::from_le_bytes(bytes)
}

/// The first `count` bytes of a word, with zeros behind them.
#[inline(always)]
fn front_of(word: u64, count: usize) -> u64
    requires some { 3 ≤ count }
    requires few { count ≤ 8 }
    ensures value { to_le_bytes w64 result ≡ padded (take count (to_le_bytes w64 word)) }
{
    word & (u64::MAX >> (64 - 8 * count))
}

/// How many slots there are for guesses: four for each client that there can be.
const SLOTS: usize = 4096;

/// An odd number whose product with a word has in its highest bits a part of each of the word's bytes.
const FACTOR: u64 = 0x9e37_79b9_7f4a_7c15;

/// Where to look first for a key: at the place of one that shares its slot. It may be another key's place, so what is found there
/// is compared; it saves the search for all keys but the few that share a slot.
#[derive(Debug, Drop)]
pub(crate) struct KeyGuesses {
    places: Vec<u16>,
}

impl KeyGuesses {
    /// No guesses. It takes no memory.
    pub(crate) fn new(alloc: Global) -> KeyGuesses {
        KeyGuesses {
            places: Vec::new(alloc),
        }
    }

    /// The place to look at first. It takes no memory.
    #[inline(always)]
    pub(crate) fn place(&self, key: &ClientKey) -> usize {
        match self.places.get(slot_of(key)) {
            Some(place) => usize::from(*place),
            None => 0,
        }
    }

    /// Tells of a key where it is.
    pub(crate) fn tell(&mut self, key: &ClientKey, place: usize) -> Result<(), Memory> {
        if self.places.is_empty() {
            self.places.resize(SLOTS, 0)?;
        }
        if let Ok(place) = u16::try_from(place) {
            if let Some(kept) = self.places.get_mut(slot_of(key)) {
                *kept = place;
            }
        }
        Ok(())
    }
}

/// The slot of a key.
#[inline(always)]
fn slot_of(key: &ClientKey) -> usize {
    let bank = (key.bank.index() as u64).wrapping_mul(FACTOR);
    let mixed = key.word.wrapping_add(bank);
    ((mixed ^ (mixed >> 32)).wrapping_mul(FACTOR) >> 52) as usize
}
