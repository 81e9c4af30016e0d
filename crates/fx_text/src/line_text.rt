ghost use Rattle.std.specs.Prelude.{◌≡◌, [], ◌∷◌, ◌<◌, ◌≤◌, ◌+◌, ◌++◌, length, take};
ghost use Rattle.fx_amounts.specs.Numeral.{numeral};
ghost use Rattle.fx_amounts.specs.PriceText.{price_text};
ghost use Rattle.fx_amounts.specs.Quantity.{IsDecimals};
ghost use Rattle.fx_text.specs.Number.{signed_numeral};

use crate::digits::{put_number, put_price, put_text};
use fx_amounts::Price;
use itoa::Buffer;
use std::marker::Model;

/// The most bytes of a line that is made.
const ROOM: usize = 256;

/// The bytes of a short text at most.
const SHORT: usize = 32;

/// The text of a line that is being made, in a fixed room of 256 bytes, so that it takes no memory. What goes beyond
/// the room is left out.
#[derive(Debug, Drop)]
pub struct LineText {
    bytes: [u8; ROOM],
    len: usize,
}

impl Model for LineText {
    ghost use Rattle.std.specs.Prelude.{List, ℕ, ◌≤◌, take};

    ghost Value = { List ℕ };

    ghost view = { λ line. take line.len line.bytes };

    ghost invariant = { λ line. line.len ≤ 256 };
}

impl LineText {
    /// A line without a byte.
    pub fn new() -> LineText
        ensures { result ≡ [] }
    {
        LineText {
            bytes: [0; ROOM],
            len: 0,
        }
    }

    /// The bytes so far.
    pub fn as_slice(&self) -> &[u8]
        ensures bytes { result.now ≡ self.now }
        ensures few { length self.now ≤ 256 }
    {
        self.bytes.split_at(self.len).0
    }

    /// Writes the text into a room of bytes from a place on, and answers the place behind it. A short text is copied with what stands behind
    /// it, where the room has place for both: a copy of fixed length is made without a call.
    #[inline(always)]
    pub fn put(&self, room: &mut [u8], at: usize) -> usize
        requires room { at + length self.now ≤ length room.old }
        ensures written { take result room.new ≡ take at room.old ++ self.now }
        ensures end { result ≡ at + length self.now }
    {
        if self.len <= SHORT && room.len() - at >= SHORT {
            room[at..at + SHORT].copy_from_slice(&self.bytes[..SHORT]);
            at + self.len
        } else {
            put_text(self.as_slice(), room, at)
        }
    }

    /// Forgets all bytes.
    pub fn clear(&mut self)
        ensures { self.new ≡ [] }
    {
        self.len = 0;
    }

    /// Appends bytes, as many as there is room for.
    #[inline(always)]
    pub fn push(&mut self, text: &[u8])
        ensures { self.new ≡ take 256 (self.old ++ text.now) }
    {
        let count = text.len().min(ROOM - self.len);
        self.bytes[self.len..self.len + count].copy_from_slice(&text[..count]);
        self.len += count;
    }

    /// Appends a word, as much of it as there is room for. Its length is fixed, so that it is written without a call.
    #[inline(always)]
    pub fn push_word<const N: usize>(&mut self, word: &[u8; N])
        ensures { self.new ≡ take 256 (self.old ++ word.now) }
    {
        if N <= ROOM - self.len {
            self.bytes[self.len..self.len + N].copy_from_slice(word);
            self.len += N;
        } else {
            self.push(word);
        }
    }

    /// Appends a byte, where there is room for it.
    #[inline(always)]
    pub fn push_byte(&mut self, byte: u8)
        ensures { self.new ≡ take 256 (self.old ++ byte ∷ []) }
    {
        if self.len < ROOM {
            self.bytes[self.len] = byte;
            self.len += 1;
        }
    }

    /// Appends a number's decimal digits.
    #[inline(always)]
    pub fn push_number(&mut self, value: u64)
        ensures { self.new ≡ take 256 (self.old ++ numeral value) }
    {
        if self.len <= ROOM - 20 {
            let end = put_number(value, &mut self.bytes, self.len);
            self.len = end;
        } else {
            let mut buffer = Buffer::new();
            self.push(buffer.format(value).as_bytes());
        }
    }

    /// Appends a large number's decimal digits.
    #[inline(always)]
    pub fn push_wide(&mut self, value: u128)
        ensures text { self.new ≡ take 256 (self.old ++ numeral value) }
        ensures few { length (numeral value) ≤ 39 }
    {
        match u64::try_from(value) {
            Ok(small) => self.push_number(small),
            Err(_) => self.push_widest(value),
        }
    }

    /// Appends a number of more than 64 bits.
    fn push_widest(&mut self, value: u128)
        ensures { self.new ≡ take 256 (self.old ++ numeral value) }
    {
        let mut buffer = Buffer::new();
        self.push(buffer.format(value).as_bytes());
    }

    /// Appends a price's one spelling, where a tick is the last of `decimals` decimal places.
    pub fn push_price(&mut self, price: Price, decimals: u8)
        requires { IsDecimals decimals }
        ensures text { self.new ≡ take 256 (self.old ++ price_text decimals price) }
        ensures few { length (price_text decimals price) ≤ 40 }
    {
        if self.len <= ROOM - 27 {
            let end = put_price(price, decimals, &mut self.bytes, self.len);
            self.len = end;
        } else {
            self.push_cut_price(price, decimals);
        }
    }

    /// Appends a price's one spelling, as much of it as there is room for.
    fn push_cut_price(&mut self, price: Price, decimals: u8)
        requires { IsDecimals decimals }
        ensures { self.new ≡ take 256 (self.old ++ price_text decimals price) }
    {
        let mut room = [0; 27];
        let end = put_price(price, decimals, &mut room, 0);
        self.push(&room[..end]);
    }

    /// Appends a field behind a space.
    #[inline(always)]
    pub fn push_field(&mut self, text: &[u8])
        ensures { self.new ≡ take 256 (self.old ++ 32 ∷ text.now) }
    {
        self.push_byte(b' ');
        self.push(text);
    }

    /// Appends a number behind a space.
    #[inline(always)]
    pub fn push_number_field(&mut self, value: u64)
        ensures text { self.new ≡ take 256 (self.old ++ 32 ∷ numeral value) }
        ensures few { length (numeral value) ≤ 20 }
    {
        self.push_byte(b' ');
        self.push_number(value);
    }

    /// Appends a large number behind a space.
    pub fn push_wide_field(&mut self, value: u128)
        ensures text { self.new ≡ take 256 (self.old ++ 32 ∷ numeral value) }
        ensures few { length (numeral value) ≤ 39 }
    {
        self.push_byte(b' ');
        self.push_wide(value);
    }

    /// Appends a number behind a space, with a minus before its digits where it is below 0.
    pub fn push_signed_field(&mut self, value: i128)
        ensures text { self.new ≡ take 256 (self.old ++ 32 ∷ signed_numeral value) }
        ensures few { length (signed_numeral value) ≤ 40 }
    {
        let mut buffer = Buffer::new();
        self.push_field(buffer.format(value).as_bytes());
    }

    /// Appends a price behind a space, where a tick is the last of `decimals` decimal places.
    pub fn push_price_field(&mut self, price: Price, decimals: u8)
        requires { IsDecimals decimals }
        ensures text { self.new ≡ take 256 (self.old ++ 32 ∷ price_text decimals price) }
        ensures few { length (price_text decimals price) ≤ 40 }
    {
        self.push_byte(b' ');
        self.push_price(price, decimals);
    }
}
