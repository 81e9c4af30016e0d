ghost use Rattle.std.specs.Prelude.{ℕ, ◌≡◌, ◌+◌, ◌-◌, ◌*◌, ◌/◌, ◌%◌, ◌≤◌, ◌<◌, ◌^◌, None, length, replicate, slice_index, slice_index_or, slice_set, take, IfSome, IsSome};
ghost use Rattle.access_index.specs.Heads.{IsBestWithin, IsHead, head_word, word_beyond, word_of};
ghost use Rattle.access_index.specs.inside.Words.{IsLeastOf, head_with, leads};

use fx_amounts::BankId;
use std::marker::Model;

/// Where the best order of an owner and a side stands.
#[derive(Clone, Copy, Debug)]
pub struct Head {
    /// The rank of its price: the lower, the better. At most 10^9.
    pub rank: u32,
    /// Its place in the list of orders, below 2^28: the lower, the earlier it arrived.
    pub place: u32,
}

/// The word of an owner without orders. All others are lower.
const NO_WORD: u64 = u64::MAX;

/// How many banks a group has, and how many groups all banks fill.
const GROUP: usize = 8;

/// How many groups the orders of most markets fill.
const FEW_GROUPS: usize = 2;

/// For each of the first `N` banks the best order of one side in a word: its rank, its place and the bank, so that the least of some words is
/// that of the best order. Beside them stands the least word of each of the `G` groups of eight banks, so that a search for the least of all
/// looks at these alone, and a bank's new word at the eight of its group.
#[derive(Debug, Drop)]
pub struct FirstHeads<const N: usize, const G: usize> {
    groups: [u64; G],
    words: [u64; N],
}

impl<const N: usize, const G: usize> Model for FirstHeads<N, G> {
    ghost use Rattle.std.specs.Prelude.{List, Option, map};
    ghost use Rattle.access_index.specs.declared.words.Head.{Head};
    ghost use Rattle.access_index.specs.inside.Words.{AreWords, head_of};

    ghost Value = { List (Option Head) };

    ghost view = { λ h. map head_of h.words };

    ghost invariant = { λ h. AreWords N G h.words h.groups };
}

impl<const N: usize, const G: usize> FirstHeads<N, G> {
    /// Those of banks without orders.
    fn new() -> Self
        requires most { N ≤ 64 }
        requires groups { G * 8 ≡ N }
        ensures { result ≡ replicate N None }
    {
        FirstHeads {
            groups: [NO_WORD; G],
            words: [NO_WORD; N],
        }
    }

    /// Writes down the best order of a bank.
    #[inline(always)]
    pub fn set(&mut self, bank: BankId, head: Option<Head>)
        requires bank { bank < N }
        requires head { IfSome head IsHead }
        ensures { self.new ≡ slice_set self.old bank head }
    {
        let at = bank.index();
        self.words[at] = match head {
            Some(head) => word_of(head, bank),
            None => NO_WORD,
        };
        let group = at / GROUP;
        self.groups[group] = least_of(&self.words, group * GROUP, GROUP);
    }

    /// The best order of a bank; `None` where it has none.
    #[inline(always)]
    pub fn of(&self, bank: BankId) -> Option<Head>
        requires bank { bank < N }
        ensures head { result ≡ slice_index_or self.now bank None }
        ensures count { length self.now ≡ N }
    {
        let word = self.words[bank.index()];
        if word == NO_WORD {
            return None;
        }
        Some(head_in(word))
    }

    /// The place of a bank's best order, where it has one.
    #[inline(always)]
    pub fn place(&self, bank: BankId) -> u32
        requires bank { bank < N }
        requires head { IsSome (slice_index_or self.now bank None) }
        ensures place { IfSome (slice_index_or self.now bank None) (λ head. result ≡ head.place) }
    {
        head_in(self.words[bank.index()]).place
    }

    /// The bank with the best order of all, where its word is below this one: the word beyond all orders at up to some rank. `None` where no
    /// bank has an order at such a rank.
    #[inline(always)]
    pub fn best_below(&self, beyond: u64) -> Option<BankId>
        ensures best { (most : ℕ) → beyond ≡ word_beyond most → IfSome result (IsBestWithin self.now most) }
        ensures none { result ≡ None → (most : ℕ) → beyond ≡ word_beyond most → (bank : ℕ) → IfSome (slice_index_or self.now bank None) (λ head. most < head.rank) }
        ensures count { length self.now ≡ N }
    {
        self.best_in(G, beyond)
    }

    /// The same by the first so many groups, where no bank behind these has an order.
    #[inline(always)]
    fn best_in(&self, groups: usize, beyond: u64) -> Option<BankId>
        requires groups { groups ≤ G }
        requires empty { groups < G → (bank : ℕ) → groups * 8 ≤ bank → slice_index_or self.now bank None ≡ None }
        ensures best { (most : ℕ) → beyond ≡ word_beyond most → IfSome result (IsBestWithin self.now most) }
        ensures none { result ≡ None → (most : ℕ) → beyond ≡ word_beyond most → (bank : ℕ) → IfSome (slice_index_or self.now bank None) (λ head. most < head.rank) }
        ensures count { length self.now ≡ N }
    {
        let least = least_of(&self.groups, 0, groups);
        if least >= beyond {
            return None;
        }
        Some(BankId::at((least % 64) as usize))
    }

    /// The word of each bank's best order; all bits are set where it has none.
    fn words(&self) -> &[u64; N]
        ensures words { (bank : ℕ) → bank < N → slice_index result.now bank ≡ head_word bank (slice_index_or self.now bank None) }
        ensures count { length result.now ≡ N }
    {
        &self.words
    }

    /// Those of the first banks alone.
    #[inline(always)]
    fn first<const M: usize, const H: usize>(&self) -> FirstHeads<M, H>
        requires most { M ≤ N }
        requires groups { H * 8 ≡ M }
        ensures first { result ≡ take M self.now }
        ensures count { length self.now ≡ N }
    {
        FirstHeads {
            groups: *self.groups.first_chunk().unwrap(),
            words: *self.words.first_chunk().unwrap(),
        }
    }
}

/// For each bank the best order of one side. A search for the best of all looks at the first two groups where no other group ever had an order.
#[derive(Debug, Drop)]
pub struct HeadWords {
    heads: FirstHeads<64, GROUP>,
    /// How many groups from the first on have had an order.
    filled: usize,
}

impl Model for HeadWords {
    ghost use Rattle.std.specs.Prelude.{List, Option};
    ghost use Rattle.access_index.specs.declared.words.Head.{Head};
    ghost use Rattle.access_index.specs.inside.Words.{AreFilled};

    ghost Value = { List (Option Head) };

    ghost view = { λ h. h.heads };

    ghost invariant = { λ h. AreFilled h.heads h.filled };
}

impl HeadWords {
    /// Those of banks without orders.
    pub fn new() -> Self
        ensures { result ≡ replicate 64 None }
    {
        HeadWords {
            heads: FirstHeads::new(),
            filled: 0,
        }
    }

    /// Writes down the best order of a bank.
    pub fn set(&mut self, bank: BankId, head: Option<Head>)
        requires bank { bank < 64 }
        requires head { IfSome head IsHead }
        ensures { self.new ≡ slice_set self.old bank head }
    {
        self.heads.set(bank, head);
        self.filled = self.filled.max(bank.index() / GROUP + 1);
    }

    /// Another order of a bank comes, behind all others at its rank.
    #[inline(always)]
    pub(crate) fn add(&mut self, bank: BankId, head: Head)
        requires bank { bank < 64 }
        requires head { IsHead head }
        ensures added { self.new ≡ slice_set self.old bank (head_with (slice_index_or self.old bank None) head) }
        ensures count { length self.old ≡ 64 }
    {
        if leads(self.of(bank), head.rank) {
            self.set(bank, Some(head));
        }
    }

    /// The best order of a bank; `None` where it has none.
    pub fn of(&self, bank: BankId) -> Option<Head>
        requires bank { bank < 64 }
        ensures head { result ≡ slice_index_or self.now bank None }
        ensures count { length self.now ≡ 64 }
    {
        self.heads.of(bank)
    }

    /// The word of each bank's best order; all bits are set where it has none. The least is that of the best order.
    pub fn words(&self) -> &[u64; BankId::COUNT]
        ensures words { (bank : ℕ) → bank < 64 → slice_index result.now bank ≡ head_word bank (slice_index_or self.now bank None) }
        ensures count { length result.now ≡ 64 }
    {
        self.heads.words()
    }

    /// The best orders of the first `N` banks alone, in `G` groups of eight.
    #[inline(always)]
    pub fn first<const N: usize, const G: usize>(&self) -> FirstHeads<N, G>
        requires most { N ≤ 64 }
        requires groups { G * 8 ≡ N }
        ensures first { result ≡ take N self.now }
        ensures count { length self.now ≡ 64 }
    {
        self.heads.first()
    }

    /// The bank with the best order of all, where the rank of that is at most so high; `None` where no bank has an order at such a rank.
    #[inline(always)]
    pub fn best_within(&self, most: u32) -> Option<BankId>
        requires most { most ≤ 10 ^ 9 }
        ensures best { IfSome result (IsBestWithin self.now most) }
        ensures none { result ≡ None → (bank : ℕ) → IfSome (slice_index_or self.now bank None) (λ head. most < head.rank) }
        ensures count { length self.now ≡ 64 }
    {
        let beyond = word_beyond(most);
        if self.filled <= FEW_GROUPS {
            self.heads.best_in(FEW_GROUPS, beyond)
        } else {
            self.heads.best_below(beyond)
        }
    }
}

/// The least word that is above those of all orders at up to a rank.
#[inline(always)]
pub fn word_beyond(most: u32) -> u64
    requires most { most ≤ 10 ^ 9 }
    ensures { result ≡ word_beyond most }
{
    (u64::from(most) + 1) << 34
}

/// Whether an order that comes at a rank, behind all others there, is the best one of its bank.
fn leads(best: Option<Head>, rank: u32) -> bool
    ensures { result ≡ leads best rank }
{
    match best {
        Some(best) => rank < best.rank,
        None => true,
    }
}

/// The best order that a word tells.
fn head_in(word: u64) -> Head
    ensures { result ≡ record { rank = word / 2 ^ 34; place = word / 64 % 2 ^ 28 } }
{
    Head {
        rank: (word >> 34) as u32,
        place: (word / 64 % (1 << 28)) as u32,
    }
}

/// The word of the best order of a bank.
fn word_of(head: Head, bank: BankId) -> u64
    requires head { IsHead head }
    ensures word { result ≡ word_of head bank }
    ensures some { result < 2 ^ 64 - 1 }
{
    (u64::from(head.rank) * (1 << 28) + u64::from(head.place)) * 64 + bank.index() as u64
}

/// The least of so many words, from one on; `NO_WORD` where there is none.
fn least_of(words: &[u64], from: usize, count: usize) -> u64
    requires within { from + count ≤ length words.now }
    ensures { IsLeastOf words.now from count result }
{
    let mut least = NO_WORD;
    for at in 0..count {
        least = least.min(words[from + at]);
    }
    least
}
