ghost use Rattle.std.specs.Prelude.{[], ◌≡◌, ◌≢◌, ◌↔◌, ◌≤◌, ◌<◌, ◌+◌, ◌*◌, ◌&&◌, ℕ, IsTrue, SomeIff, All, AllPairs, length, position, slice_index, slice_get, bytes_eq, Contains, IfSome, IfNone, option_map, take};
ghost use Rattle.fx_rules.specs.Names.{is_name};
ghost use Rattle.fx_rules.specs.Session.{Header, IsSession, IsPairRule, AreSamePair, bank_count, pair_count, newest, sender_places, opening_limit, opening_total, weight_of, decimals_of, lot_of, bank_name, bank_named, pair_named, pair_text, pair_name};

use crate::guesses::Guesses;
use crate::names::{Code, Name, SoughtName};
use fx_amounts::{BankId, PairId, Units};
use std::marker::Model;

/// A currency pair and its units.
#[derive(Clone, Copy, Debug, PartialEq, Eq)]
pub struct PairRule {
    /// The currency that is bought and sold.
    pub base: Code,
    /// The currency in which it is priced.
    pub quote: Code,
    /// One tick is `10^-decimals` of the quote currency per unit of base; 0 to 6.
    pub decimals: u8,
    /// Units of base per lot, 1 to 10^9, a multiple of `10^decimals`.
    pub lot: u32,
    /// Credit units per lot, 1 to 10^6.
    pub weight: u32,
}

impl PairRule {
    /// How the pair is written: `BASE/QUOTE`.
    pub fn text(&self) -> [u8; 7]
        ensures value { result ≡ pair_text self.now }
    {
        let base = self.base.letters();
        let quote = self.quote.letters();
        [
            base[0], base[1], base[2], b'/', quote[0], quote[1], quote[2],
        ]
    }
}

/// A day's version, banks, pairs, opening limits and opening totals. Each value is a valid session. Contracts see it as its header.
#[derive(Debug, Drop)]
pub struct Session {
    /// 1, or 2 with totals and with an operator.
    version: u8,
    banks: Vec<Name>,
    pairs: Vec<PairRule>,
    /// Row by row: the limit that bank i sets on bank j stands at `i * banks + j`.
    limits: Vec<Units>,
    /// In version 1 none; in version 2 each bank's total, or that it has none.
    totals: Vec<Option<Units>>,
    /// Where a bank of a name is looked for first.
    bank_guesses: Guesses,
    /// Where a pair that is written so is looked for first.
    pair_guesses: Guesses,
}

impl Model for Session {
    ghost use Rattle.fx_rules.specs.Session.{Header, IsSession};

    ghost Value = { Header };

    ghost view = { λ s. record { version = s.version; banks = s.banks.items; pairs = s.pairs.items; limits = s.limits.items; totals = s.totals.items } };

    ghost invariant = { λ s. IsSession (record { version = s.version; banks = s.banks.items; pairs = s.pairs.items; limits = s.limits.items; totals = s.totals.items }) };
}

impl Session {
    /// The newest version that a session can have.
    pub const NEWEST: u8 = 2;

    /// The session of version 1 of these banks and pairs, where `limits` holds, row by row, the limit that each bank sets on
    /// each bank. `None` exactly where they are no valid session; then they are dropped. It takes no memory.
    pub fn build(banks: Vec<Name>, pairs: Vec<PairRule>, limits: Vec<Units>) -> Option<Self>
        ensures value { let header : Header = record { version = 1; banks = banks.items; pairs = pairs.items; limits = limits.items; totals = [] } in
            SomeIff result (IsSession header) header }
    {
        let totals = Vec::new(*limits.allocator());
        Self::build_of(1, banks, pairs, limits, totals)
    }

    /// The session of version 2 of these banks and pairs, with the limits as for version 1 and for each bank its total, or that it
    /// has none. `None` exactly where they are no valid session; then they are dropped. It takes no memory.
    pub fn build_two(
        banks: Vec<Name>,
        pairs: Vec<PairRule>,
        limits: Vec<Units>,
        totals: Vec<Option<Units>>,
    ) -> Option<Self>
        ensures value { let header : Header = record { version = 2; banks = banks.items; pairs = pairs.items; limits = limits.items; totals = totals.items } in
            SomeIff result (IsSession header) header }
    {
        Self::build_of(2, banks, pairs, limits, totals)
    }

    /// The session of these parts, where they are one.
    fn build_of(
        version: u8,
        banks: Vec<Name>,
        pairs: Vec<PairRule>,
        limits: Vec<Units>,
        totals: Vec<Option<Units>>,
    ) -> Option<Self>
        ensures value { let header : Header = record { version = version; banks = banks.items; pairs = pairs.items; limits = limits.items; totals = totals.items } in
            SomeIff result (IsSession header) header }
    {
        let total_places = if version == 2 { banks.len() } else { 0 };
        if is_version(version)
            && are_valid_banks(&banks)
            && are_valid_pairs(&pairs)
            && are_valid_limits(banks.len(), &limits)
            && are_valid_totals(total_places, &totals)
        {
            let bank_guesses = guesses_of_banks(&banks);
            let pair_guesses = guesses_of_pairs(&pairs);
            Some(Session {
                version,
                banks,
                pairs,
                limits,
                totals,
                bank_guesses,
                pair_guesses,
            })
        } else {
            None
        }
    }

    /// The version of the session's text: 1, or 2 with totals and with an operator. It takes no memory.
    pub fn version(&self) -> u8
        ensures value { result ≡ self.now.version }
        ensures valid { IsSession self.now }
    {
        self.version
    }

    /// How many places a list has that a sender's number indexes: one for each bank, or in version 2
    /// [`BankId::SENDERS`]. It takes no memory.
    pub fn sender_places(&self) -> usize
        ensures value { result ≡ sender_places self.now }
        ensures valid { IsSession self.now }
    {
        if self.version == 2 {
            BankId::SENDERS
        } else {
            self.banks.len()
        }
    }

    /// The banks' names, in header order. It takes no memory.
    pub fn banks(&self) -> &[Name]
        ensures value { result.now ≡ self.now.banks }
        ensures valid { IsSession self.now }
    {
        self.banks.as_slice()
    }

    /// The name of a bank, 3 to 8 bytes. It takes no memory.
    pub fn name(&self, bank: BankId) -> &[u8]
        requires { bank < bank_count self.now }
        ensures value { result.now ≡ bank_name self.now bank }
        ensures most { length result.now ≤ 8 }
        ensures valid { IsSession self.now }
    {
        self.banks[bank.index()].as_bytes()
    }

    /// The pairs, in header order. It takes no memory.
    pub fn pairs(&self) -> &[PairRule]
        ensures value { result.now ≡ self.now.pairs }
        ensures valid { IsSession self.now }
    {
        self.pairs.as_slice()
    }

    /// The limit that bank `i` opens with on bank `j`, in credit units; 0 where they are one bank. It takes no memory.
    pub fn limit(&self, i: BankId, j: BankId) -> Units
        requires setter { i < bank_count self.now }
        requires other { j < bank_count self.now }
        ensures value { result ≡ opening_limit self.now i j }
        ensures valid { IsSession self.now }
    {
        self.limits[i.index() * self.banks.len() + j.index()]
    }

    /// The limits that the banks open with, in credit units, row by row: the one that bank i sets on bank j stands at
    /// `i * banks + j`. It takes no memory.
    pub fn limits(&self) -> &[Units]
        ensures value { result.now ≡ self.now.limits }
        ensures valid { IsSession self.now }
    {
        self.limits.as_slice()
    }

    /// The total that a bank opens with, in credit units; `None` exactly where it has none. It takes no memory.
    pub fn total(&self, bank: BankId) -> Option<Units>
        ensures value { result ≡ opening_total self.now bank }
        ensures valid { IsSession self.now }
    {
        match self.totals.get(bank.index()) {
            Some(total) => *total,
            None => None,
        }
    }

    /// In version 2 for each bank, in header order, the total that it opens with, in credit units, or that it has none; in
    /// version 1 nothing. It takes no memory.
    pub fn totals(&self) -> &[Option<Units>]
        ensures value { result.now ≡ self.now.totals }
        ensures valid { IsSession self.now }
    {
        self.totals.as_slice()
    }

    /// Credit units per lot of a pair, 1 to 10^6. It takes no memory.
    pub fn weight(&self, pair: PairId) -> u32
        requires { pair < pair_count self.now }
        ensures value { result ≡ weight_of self.now pair }
        ensures least { 1 ≤ result }
        ensures most { result ≤ 1000000 }
    {
        self.pairs[pair.index()].weight
    }

    /// The terms of a pair. It takes no memory.
    pub fn rule(&self, pair: PairId) -> &PairRule
        requires { pair < pair_count self.now }
        ensures value { slice_get self.now.pairs pair ≡ Some result.now }
        ensures text { pair_text result.now ≡ pair_name self.now pair }
        ensures decimals { result.now.decimals ≡ decimals_of self.now pair }
        ensures lot { result.now.lot ≡ lot_of self.now pair }
        ensures weight { result.now.weight ≡ weight_of self.now pair }
        ensures valid { IsPairRule result.now }
    {
        &self.pairs[pair.index()]
    }

    /// The bank of that name; `None` exactly where no bank has it. It takes no memory.
    pub fn bank_named(&self, text: &[u8]) -> Option<BankId>
        ensures value { result ≡ bank_named self.now.banks text.now }
        ensures within { IfSome result (λ bank. bank < bank_count self.now) }
        ensures named { IfSome result (λ bank. slice_get self.now.banks bank ≡ Some text.now) }
        ensures none { IfNone result (¬ (Contains self.now.banks text.now)) }
    {
        self.bank_sought(&SoughtName::of(text))
    }

    /// The bank whose name the first `len` bytes of a text are; `None` exactly where no bank has it. It is as `bank_named`, and faster where
    /// eight bytes of the text can be read at once. It takes no memory.
    #[inline(always)]
    pub fn bank_in_front(&self, text: &[u8], len: usize) -> Option<BankId>
        requires len { len ≤ length text.now }
        ensures value { result ≡ bank_named self.now.banks (take len text.now) }
        ensures within { IfSome result (λ bank. bank < bank_count self.now) }
        ensures named { IfSome result (λ bank. slice_get self.now.banks bank ≡ Some (take len text.now)) }
    {
        self.bank_sought(&SoughtName::in_front(text, len))
    }

    /// The bank of a name that is sought.
    #[inline(always)]
    fn bank_sought(&self, sought: &SoughtName<'_>) -> Option<BankId>
        ensures value { result ≡ bank_named self.now.banks sought.now }
        ensures within { IfSome result (λ bank. bank < bank_count self.now) }
        ensures named { IfSome result (λ bank. slice_get self.now.banks bank ≡ Some sought.now) }
        ensures none { IfNone result (¬ (Contains self.now.banks sought.now)) }
    {
        let place = place_of_bank_by(&self.banks, &self.bank_guesses, sought)?;
        Some(BankId::at(place))
    }

    /// The pair that is written so, as `BASE/QUOTE`; `None` exactly where no pair is. It takes no memory.
    pub fn pair_named(&self, text: &[u8]) -> Option<PairId>
        ensures value { result ≡ pair_named self.now text.now }
        ensures within { IfSome result (λ pair. pair < pair_count self.now) }
        ensures named { IfSome result
            (λ pair. option_map pair_text (slice_get self.now.pairs pair) ≡ Some text.now) }
        ensures none { IfNone result (All (λ rule. pair_text rule ≢ text.now) self.now.pairs) }
    {
        let place = place_of_pair_text(&self.pairs, &self.pair_guesses, text)?;
        Some(PairId::at(place))
    }

    /// The pair that is written as the first seven bytes of a text are; `None` exactly where no pair is. It is as `pair_named`, and faster
    /// where eight bytes of the text can be read at once. It takes no memory.
    #[inline(always)]
    pub fn pair_in_front(&self, text: &[u8]) -> Option<PairId>
        requires long { 7 ≤ length text.now }
        ensures value { result ≡ pair_named self.now (take 7 text.now) }
        ensures within { IfSome result (λ pair. pair < pair_count self.now) }
        ensures named { IfSome result
            (λ pair. option_map pair_text (slice_get self.now.pairs pair) ≡ Some (take 7 text.now)) }
    {
        let sought = SoughtName::in_front(text, 7);
        let place = place_of_sought_pair(&self.pairs, &self.pair_guesses, &sought)?;
        Some(PairId::at(place))
    }
}

/// Whether there is such a version.
fn is_version(version: u8) -> bool
    ensures valid { IsTrue result ↔ ((1 ≤ version) × (version ≤ newest)) }
{
    1 <= version && version <= Session::NEWEST
}

/// Whether there is a total, or that there is none, for each of so many banks.
fn are_valid_totals(places: usize, totals: &[Option<Units>]) -> bool
    ensures valid { IsTrue result ↔ (length totals.now ≡ places) }
    ensures most { All (λ most. IfSome most (λ units. units ≤ 1000000000000000)) totals.now }
{
    for total in totals {
        total_fits(total);
    }
    totals.len() == places
}

/// A total is in its range, as its type keeps it. It does nothing: it tells a proof.
fn total_fits(total: &Option<Units>)
    ensures fit { IfSome total.now (λ units. units ≤ 1000000000000000) }
{
    if let Some(units) = total {
        let _ = units.get();
    }
}

/// Whether there are 2 to 64 banks, each with a name of its own.
fn are_valid_banks(banks: &[Name]) -> bool
    ensures valid { IsTrue result
        ↔ ((2 ≤ length banks.now) × (length banks.now ≤ 64) × AllPairs (λ a b. a ≢ b) banks.now) }
    ensures names { IsTrue result → All (λ name. IsTrue (is_name name)) banks.now }
{
    if banks.len() < 2 || banks.len() > 64 {
        return false;
    }
    for (at, name) in banks.iter().enumerate() {
        if place_of_bank(&banks[..at], name.as_bytes()).is_some() {
            return false;
        }
    }
    true
}

/// Guesses that tell of each bank but where two share a slot.
fn guesses_of_banks(banks: &[Name]) -> Guesses
    requires { length banks.now ≤ 64 }
{
    let mut guesses = Guesses::new();
    for (place, name) in banks.iter().enumerate() {
        guesses.tell(&SoughtName::of(name.as_bytes()), place as u8);
    }
    guesses
}

/// Guesses that tell of each pair but where two share a slot.
fn guesses_of_pairs(pairs: &[PairRule]) -> Guesses
    requires { length pairs.now ≤ 32 }
{
    let mut guesses = Guesses::new();
    for (place, rule) in pairs.iter().enumerate() {
        guesses.tell(&SoughtName::of(&rule.text()), place as u8);
    }
    guesses
}

/// The place of the bank of that name, where all names differ. Where it guessed right it looks at one name.
#[inline(always)]
fn place_of_bank_by(banks: &[Name], guesses: &Guesses, sought: &SoughtName<'_>) -> Option<usize>
    requires { AllPairs (λ a b. a ≢ b) banks.now }
    ensures value { result ≡ position (λ name. bytes_eq name sought.now) banks.now }
{
    let guess = guesses.place(sought);
    match banks.get(guess) {
        Some(name) if name.is(sought) => Some(guess),
        _ => place_of_bank(banks, sought.text()),
    }
}

/// The place of the first bank of that name.
#[inline(never)]
fn place_of_bank(banks: &[Name], text: &[u8]) -> Option<usize>
    ensures value { result ≡ position (λ name. bytes_eq name text.now) banks.now }
{
    let sought = SoughtName::of(text);
    banks.iter().position(|name| name.is(&sought))
}

/// Whether there are 1 to 32 pairs, each with terms in range and none of the same two currencies as another.
fn are_valid_pairs(pairs: &[PairRule]) -> bool
    ensures valid { IsTrue result
        ↔ ((1 ≤ length pairs.now) × (length pairs.now ≤ 32)
        × All IsPairRule pairs.now × AllPairs (λ a b. ¬ (AreSamePair a b)) pairs.now) }
{
    if pairs.is_empty() || pairs.len() > 32 {
        return false;
    }
    for (at, rule) in pairs.iter().enumerate() {
        if !is_valid_rule(rule) {
            return false;
        }
        let base = rule.base.as_bytes();
        let quote = rule.quote.as_bytes();
        if place_of_pair(&pairs[..at], base, quote).is_some() {
            return false;
        }
    }
    true
}

/// The place of the first pair of those two currencies.
fn place_of_pair(pairs: &[PairRule], base: &[u8], quote: &[u8]) -> Option<usize>
    ensures value { result
        ≡ position (λ rule. bytes_eq rule.base base.now && bytes_eq rule.quote quote.now) pairs.now }
{
    pairs.iter().position(|rule| is_of(rule, base, quote))
}

/// The place of the pair that is written as a text that is sought, where all pairs differ. Where it guessed right it looks at one pair.
#[inline(always)]
fn place_of_sought_pair(
    pairs: &[PairRule],
    guesses: &Guesses,
    sought: &SoughtName<'_>,
) -> Option<usize>
    requires valid { All IsPairRule pairs.now }
    requires differ { AllPairs (λ a b. ¬ (AreSamePair a b)) pairs.now }
    ensures value { result ≡ position (λ rule. bytes_eq (pair_text rule) sought.now) pairs.now }
{
    let guess = guesses.place(sought);
    match pairs.get(guess) {
        Some(rule) if SoughtName::of(&rule.text()).is(sought) => Some(guess),
        _ => place_of_pair_text(pairs, guesses, sought.text()),
    }
}

/// The place of the pair that is written so, where all pairs differ.
#[inline(never)]
fn place_of_pair_text(pairs: &[PairRule], guesses: &Guesses, text: &[u8]) -> Option<usize>
    requires valid { All IsPairRule pairs.now }
    requires differ { AllPairs (λ a b. ¬ (AreSamePair a b)) pairs.now }
    ensures value { result ≡ position (λ rule. bytes_eq (pair_text rule) text.now) pairs.now }
{
    if text.len() != 7 || text[3] != b'/' {
        return None;
    }
    let (base, rest) = text.split_at(3);
    let (_, quote) = rest.split_at(1);
    place_of_pair_by(pairs, guesses.place(&SoughtName::of(text)), base, quote)
}

/// The place of the pair of those two currencies, where all pairs differ. Where it is the guess it looks at one pair.
fn place_of_pair_by(pairs: &[PairRule], guess: usize, base: &[u8], quote: &[u8]) -> Option<usize>
    requires { AllPairs (λ a b. ¬ (AreSamePair a b)) pairs.now }
    ensures value { result
        ≡ position (λ rule. bytes_eq rule.base base.now && bytes_eq rule.quote quote.now) pairs.now }
{
    match pairs.get(guess) {
        Some(rule) if is_of(rule, base, quote) => Some(guess),
        _ => place_of_pair(pairs, base, quote),
    }
}

/// Whether a pair is of those two currencies.
fn is_of(rule: &PairRule, base: &[u8], quote: &[u8]) -> bool
    ensures value { result ≡ bytes_eq rule.now.base base.now && bytes_eq rule.now.quote quote.now }
{
    rule.base.as_bytes() == base && rule.quote.as_bytes() == quote
}

/// Whether a pair's terms are in range.
fn is_valid_rule(rule: &PairRule) -> bool
    ensures valid { IsTrue result ↔ IsPairRule rule.now }
{
    rule.base.as_bytes() != rule.quote.as_bytes()
        && rule.decimals <= 6
        && rule.lot >= 1
        && rule.lot <= 1_000_000_000
        && rule.lot % 10u32.pow(rule.decimals as u32) == 0
        && rule.weight >= 1
        && rule.weight <= 1_000_000
}

/// Whether the limits are a full table for that many banks, with 0 where a bank would set one on itself.
fn are_valid_limits(banks: usize, limits: &[Units]) -> bool
    requires { banks ≤ 64 }
    ensures valid { IsTrue result
        ↔ ((length limits.now ≡ banks * banks)
        × ((i : ℕ) → i < banks → slice_index limits.now (i * banks + i) ≡ 0)) }
    ensures most { IsTrue result → All (λ limit. limit ≤ 1000000000000000) limits.now }
{
    if limits.len() != banks * banks {
        return false;
    }
    for (at, limit) in limits.iter().enumerate() {
        let is_own = at % (banks + 1) == 0;
        if limit.get() > 0 && is_own {
            return false;
        }
    }
    true
}
