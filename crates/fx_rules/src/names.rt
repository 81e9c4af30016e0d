ghost use Rattle.std.specs.Prelude.{◌≡◌, ◌≤◌, IsTrue, SomeIff, bytes_eq, length, take};
ghost use Rattle.fx_rules.specs.Names.{is_name, is_code, is_name_byte, padded};
ghost use Rattle.fx_rules.specs.inside.Names.{is_reserved};
ghost use Rattle.std.specs.Int.{w64, to_le_bytes};
ghost use Rattle.std.specs.List.{list_all};

use std::marker::Model;

/// A bank's name: 3 to 8 characters `A` to `Z` and `0` to `9`, a letter first, and not one of the reserved words `HOST`
/// and `END`. Contracts see its text, a list of bytes.
#[derive(Clone, Copy, Debug)]
pub struct Name {
    /// The text, and zeros behind it.
    bytes: [u8; 8],
    len: u8,
}

impl Model for Name {
    ghost use Rattle.std.specs.Prelude.{ℕ, List, take, length};
    ghost use Rattle.fx_rules.specs.Names.{padded};
    ghost use Rattle.fx_rules.specs.inside.Names.{StoresName};

    ghost Value = { List ℕ };

    ghost view = { λ n. take n.len n.bytes };

    ghost invariant = { λ n. StoresName n.bytes n.len };

    ghost inverse = { λ text. record { bytes = padded text; len = length text } };

    ghost inverse_ok = { λ _ stores i. record { bytes = stores.padding i; len = stores.size i } };
}

impl Name {
    /// The name of that text. `None` exactly where the text has not the form of a name or is reserved. It takes no memory.
    pub fn from_bytes(text: &[u8]) -> Option<Self>
        ensures value { SomeIff result (IsTrue (is_name text.now)) text.now }
    {
        if !has_name_form(text) {
            return None;
        }
        let mut bytes = [0; 8];
        bytes[..text.len()].copy_from_slice(text);
        Some(Name {
            bytes,
            len: text.len() as u8,
        })
    }

    /// The text. It takes no memory.
    pub fn as_bytes(&self) -> &[u8]
        ensures text { result.now ≡ self.now }
        ensures valid { IsTrue (is_name self.now) }
    {
        &self.bytes[..self.len as usize]
    }

    /// Whether the name is that text: of as many bytes, and the same word.
    pub(crate) fn is(&self, sought: &SoughtName<'_>) -> bool
        ensures value { result ≡ bytes_eq self.now sought.now }
    {
        self.len as usize == sought.text.len() && word_of(self.bytes) == sought.word
    }
}

impl PartialEq for Name {
    ghost use Rattle.std.specs.Prelude.{bytes_eq};
    ghost use Rattle.std.specs.Cmp.{partial_equiv_from_equiv};
    ghost use Rattle.std.proofs.lemmas.Cmp.{nat_list_eq_equiv};

    ghost eq = { bytes_eq };

    ghost laws = { partial_equiv_from_equiv nat_list_eq_equiv };

    fn eq(&self, other: &Name) -> bool {
        self.as_bytes() == other.as_bytes()
    }
}

impl Eq for Name {
    ghost use Rattle.std.proofs.lemmas.Cmp.{nat_list_eq_equiv};

    ghost laws = { nat_list_eq_equiv };
}

/// A text that is sought among names, with a word to compare with theirs at once. Contracts see the text.
#[derive(Drop)]
pub(crate) struct SoughtName<'a> {
    text: &'a [u8],
    /// The first eight bytes of the text, with zeros behind a shorter one, as a name stores them.
    word: u64,
}

impl<'a> Model for SoughtName<'a> {
    ghost use Rattle.std.specs.Prelude.{ℕ, List, take, ◌≡◌};
    ghost use Rattle.std.specs.Int.{w64, to_le_bytes};
    ghost use Rattle.fx_rules.specs.Names.{padded};

    ghost Value = { List ℕ };

    ghost view = { λ s. s.text.now };

    ghost invariant = { λ s. to_le_bytes w64 s.word ≡ padded (take 8 s.text.now) };
}

impl<'a> SoughtName<'a> {
    /// That text. It takes no memory.
    pub(crate) fn of(text: &'a [u8]) -> SoughtName<'a>
        ensures value { result ≡ text.now }
    {
        let mut bytes = [0; 8];
        let len = text.len().min(bytes.len());
        bytes[..len].copy_from_slice(&text[..len]);
        SoughtName {
            text,
            word: word_of(bytes),
        }
    }

    /// The first `len` bytes of a text, 8 at most. Where the text has eight, they are read at once. It takes no memory.
    #[inline(always)]
    pub(crate) fn in_front(text: &'a [u8], len: usize) -> SoughtName<'a>
        requires len { len ≤ length text.now }
        ensures value { result ≡ take len text.now }
    {
        let (name, _) = text.split_at(len);
        match text.first_chunk::<8>() {
            Some(first) if len >= 3 && len <= 8 => SoughtName {
                text: name,
                word: front_of(word_of(*first), len),
            },
            _ => SoughtName::of(name),
        }
    }

    /// The text.
    pub(crate) fn text(&self) -> &'a [u8]
        ensures { result.now ≡ self.now }
    {
        self.text
    }

    /// Whether it is another text that is sought, where it has eight bytes at most: of as many bytes, and the same word.
    #[inline(always)]
    pub(crate) fn is(&self, other: &SoughtName<'_>) -> bool
        requires short { length self.now ≤ 8 }
        ensures value { result ≡ bytes_eq self.now other.now }
    {
        self.text.len() == other.text.len() && self.word == other.word
    }

    /// The word of the text, as a name stores it.
    pub(crate) fn word(&self) -> u64 {
        self.word
    }
}

/// Eight bytes as one number.
fn word_of(bytes: [u8; 8]) -> u64
    ensures value { to_le_bytes w64 result ≡ bytes }
{
    u64::from_le_bytes(bytes)
}

/// The first `count` bytes of a word, with zeros behind them.
#[inline(always)]
fn front_of(word: u64, count: usize) -> u64
    requires some { 3 ≤ count }
    requires few { count ≤ 8 }
    ensures value { to_le_bytes w64 result ≡ padded (take count (to_le_bytes w64 word)) }
{
    word & (u64::MAX >> (64 - 8 * count))
}

/// Whether a text is a name.
fn has_name_form(text: &[u8]) -> bool
    ensures value { result ≡ is_name text.now }
{
    if text.len() < 3 || text.len() > 8 || !text[0].is_ascii_uppercase() {
        return false;
    }
    has_name_bytes(text) && !is_reserved_word(text)
}

/// Whether each byte of a text may stand in a name.
fn has_name_bytes(text: &[u8]) -> bool
    ensures value { result ≡ list_all is_name_byte text.now }
{
    text.iter()
        .all(|byte| byte.is_ascii_uppercase() || byte.is_ascii_digit())
}

/// Whether a text is a word that no bank may have as its name.
fn is_reserved_word(text: &[u8]) -> bool
    ensures value { result ≡ is_reserved text.now }
{
    text == b"HOST".as_slice() || text == b"END".as_slice()
}

/// A currency code: three letters `A` to `Z`. Contracts see its text, a list of three bytes.
#[derive(Clone, Copy, Debug, PartialEq, Eq)]
pub struct Code {
    bytes: [u8; 3],
}

impl Model for Code {
    ghost use Rattle.std.specs.Prelude.{ℕ, List, IsTrue};
    ghost use Rattle.fx_rules.specs.Names.{is_code};

    ghost Value = { List ℕ };

    ghost view = { λ c. c.bytes };

    ghost invariant = { λ c. IsTrue (is_code c.bytes) };

    ghost inverse = { λ text. record { bytes = text } };
}

impl Code {
    /// The code of that text. `None` exactly where the text is not three letters. It takes no memory.
    pub fn from_bytes(text: &[u8]) -> Option<Self>
        ensures value { SomeIff result (IsTrue (is_code text.now)) text.now }
    {
        match text {
            [a, b, c]
                if a.is_ascii_uppercase() && b.is_ascii_uppercase() && c.is_ascii_uppercase() => {
                Some(Code {
                    bytes: [*a, *b, *c],
                })
            }
            _ => None,
        }
    }

    /// The three letters.
    pub(crate) fn letters(self) -> [u8; 3]
        ensures text { result ≡ self }
        ensures valid { IsTrue (is_code self) }
    {
        self.bytes
    }

    /// The text. It takes no memory.
    pub fn as_bytes(&self) -> &[u8]
        ensures text { result.now ≡ self.now }
        ensures valid { IsTrue (is_code self.now) }
    {
        &self.bytes
    }
}
