//! A row of bits, one for each rank of a window, in words of 64.
ghost use Rattle.std.specs.Prelude.{ℕ, ◌≡◌, ◌≢◌, ◌*◌, ◌^◌, ◌≤◌, ◌<◌, None, length, IfSome};
ghost use Rattle.price_levels.specs.inside.Bits.{IsFirstMark, bit_of};

/// How many ticks a word has.
pub(crate) const WORD: usize = 64;

/// Marks a tick.
pub(crate) fn mark(words: &mut [u64], at: usize)
    requires within { at < 64 * length words.old }
    ensures count { length words.new ≡ length words.old }
    ensures marked { bit_of words.new at ≡ 1 }
    ensures others { (other : ℕ) → other ≢ at → bit_of words.new other ≡ bit_of words.old other }
{
    let word = at / WORD;
    words[word] |= 1 << (at % WORD);
}

/// Takes the mark of a tick away.
pub(crate) fn unmark(words: &mut [u64], at: usize)
    requires within { at < 64 * length words.old }
    ensures count { length words.new ≡ length words.old }
    ensures unmarked { bit_of words.new at ≡ 0 }
    ensures others { (other : ℕ) → other ≢ at → bit_of words.new other ≡ bit_of words.old other }
{
    let word = at / WORD;
    words[word] &= !(1 << (at % WORD));
}

/// The first tick at or behind another that is marked; `None` where there is none.
pub(crate) fn first_mark(words: &[u64], from: usize) -> Option<usize>
    requires { 64 * length words.now < 2 ^ 64 }
    ensures found { IfSome result (IsFirstMark words.now from) }
    ensures none { result ≡ None → (at : ℕ) → from ≤ at → at < 64 * length words.now → bit_of words.now at ≡ 0 }
{
    let first = from / WORD;
    if first >= words.len() {
        return None;
    }
    let kept = words[first] >> (from % WORD);
    if kept != 0 {
        return Some(from + kept.trailing_zeros() as usize);
    }
    first_in(words, first + 1)
}

/// The first marked tick of the words from one on.
fn first_in(words: &[u64], first: usize) -> Option<usize>
    requires first { first ≤ length words.now }
    requires few { 64 * length words.now < 2 ^ 64 }
    ensures found { IfSome result (IsFirstMark words.now (64 * first)) }
    ensures none { result ≡ None → (at : ℕ) → 64 * first ≤ at → at < 64 * length words.now → bit_of words.now at ≡ 0 }
{
    for word in first..words.len() {
        if words[word] != 0 {
            return Some(word * WORD + words[word].trailing_zeros() as usize);
        }
    }
    None
}
