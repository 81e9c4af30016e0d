ghost use Rattle.std.specs.Prelude.{◌≡◌, ◌≢◌, ◌<◌, ◌≤◌, ◌&&◌, length, bytes_eq, position, slice_set, [], Some, SomeIff, IfOk, IfSome, OnOk, OnErr};
ghost use Rattle.session_head.specs.Draft.{no_limits, no_totals, empty_draft, header_of, square, totals_kept, limit_place};
ghost use Rattle.fx_rules.specs.Session.{Header, IsSession, bank_named, newest};
ghost use Rattle.session_head.specs.Statement.{new_name, with_statement, is_new_pair};
ghost use Rattle.session_head.specs.inside.Statement.{CanState};

use crate::statement::Statement;
use fx_amounts::{BankId, Memory, Units};
use fx_rules::{Code, Name, PairRule, Session};
use std::alloc::Global;
use std::marker::Model;
use std::mem;

/// A row of the table of limits, one for each bank that there can be.
const ROW: usize = BankId::COUNT;

/// The version, banks, pairs, limits and totals that the lines of a header have declared.
#[derive(Drop)]
pub(crate) struct Draft {
    version: u8,
    banks: Vec<Name>,
    pairs: Vec<PairRule>,
    /// The limit that bank i sets on bank j stands at `ROW * i + j`, whether or not they are declared yet.
    limits: Vec<Units>,
    /// Each bank's total, or that it has none, whether or not it is declared yet.
    totals: Vec<Option<Units>>,
}

impl Model for Draft {
    ghost use Rattle.session_head.specs.Draft.{Draft};
    ghost use Rattle.session_head.specs.inside.Draft.{IsDraft};

    ghost Value = { Draft };

    ghost view = { λ d. record { version = d.version; banks = d.banks.items; pairs = d.pairs.items; limits = d.limits.items; totals = d.totals.items } };

    ghost invariant = { λ d. IsDraft (record { version = d.version; banks = d.banks.items; pairs = d.pairs.items; limits = d.limits.items; totals = d.totals.items }) };
}

impl Draft {
    /// A draft of a version that declares nothing, with its tables of limits and of totals.
    pub(crate) fn new(alloc: Global, version: u8) -> Result<Draft, Memory>
        requires least { 1 ≤ version }
        requires most { version ≤ newest }
        ensures { IfOk result (λ draft. draft ≡ empty_draft version) }
    {
        let limits = no_limits(alloc)?;
        let totals = no_totals(alloc)?;
        Ok(Draft {
            version,
            banks: Vec::new(alloc),
            pairs: Vec::new(alloc),
            limits,
            totals,
        })
    }

    pub(crate) fn version(&self) -> u8
        ensures { result ≡ self.now.version }
    {
        self.version
    }

    pub(crate) fn bank_count(&self) -> usize
        ensures value { result ≡ length self.now.banks }
        ensures most { result ≤ 64 }
    {
        self.banks.len()
    }

    pub(crate) fn pair_count(&self) -> usize
        ensures value { result ≡ length self.now.pairs }
        ensures most { result ≤ 32 }
    {
        self.pairs.len()
    }

    /// The declared bank of that name.
    pub(crate) fn bank_named(&self, text: &[u8]) -> Option<BankId>
        ensures value { result ≡ bank_named self.now.banks text.now }
        ensures within { IfSome result (λ bank. bank < length self.now.banks) }
    {
        let place = place_of_bank(&self.banks, text)?;
        Some(BankId::at(place))
    }

    /// The text as a name that no declared bank has.
    #[tactic(auto, unfolding(crate::specs::Statement::new_name))]
    pub(crate) fn new_name(&self, text: &[u8]) -> Option<Name>
        ensures value { result ≡ new_name self.now.banks text.now }
    {
        let name = Name::from_bytes(text)?;
        match place_of_bank(&self.banks, text) {
            Some(_) => None,
            None => Some(name),
        }
    }

    /// Whether the codes differ and no declared pair is of the same two, in the same order.
    pub(crate) fn is_new_pair(&self, base: &Code, quote: &Code) -> bool
        ensures value { result ≡ is_new_pair self.now.pairs base.now quote.now }
    {
        let base = base.as_bytes();
        let quote = quote.as_bytes();
        base != quote && place_of_pair(&self.pairs, base, quote).is_none()
    }

    /// Adds what a statement declares. After `Err` the draft is as it was.
    pub(crate) fn add(&mut self, statement: Statement) -> Result<(), Memory>
        requires { CanState self.old statement }
        ensures ok { OnOk result (self.new ≡ with_statement self.old statement) }
        ensures err { OnErr result (self.new ≡ self.old) }
    {
        match statement {
            Statement::Bank(name) => self.banks.push(name)?,
            Statement::Pair(rule) => self.pairs.push(rule)?,
            Statement::Line { from, to, limit } => self.set_limit(from, to, limit),
            Statement::Total { bank, limit } => self.set_total(bank, limit),
            Statement::Start => {}
        }
        Ok(())
    }

    fn set_limit(&mut self, from: BankId, to: BankId, limit: Units)
        requires row { from < length self.old.banks }
        requires column { to < length self.old.banks }
        requires apart { from ≢ to }
        ensures { self.new ≡ record self.old { limits = slice_set self.old.limits (limit_place from to) limit } }
    {
        self.limits[ROW * from.index() + to.index()] = limit;
    }

    fn set_total(&mut self, bank: BankId, limit: Units)
        requires { bank < length self.old.banks }
        ensures { self.new ≡ record self.old { totals = slice_set self.old.totals bank (Some limit) } }
    {
        self.totals[bank.index()] = Some(limit);
    }

    /// Takes the session that the draft declares out of it. After `Err` the draft is as it was.
    pub(crate) fn take_session(&mut self) -> Result<Session, Memory>
        requires banks { 2 ≤ length self.old.banks }
        requires pairs { 1 ≤ length self.old.pairs }
        ensures ok { IfOk result (λ session. session ≡ header_of self.old) }
        ensures err { OnErr result (self.new ≡ self.old) }
    {
        let alloc = *self.limits.allocator();
        let limits = square(alloc, self.banks.len(), &self.limits)?;
        let totals = totals_kept(alloc, self.version, self.banks.len(), &self.totals)?;
        let banks = mem::replace(&mut self.banks, Vec::new(alloc));
        let pairs = mem::replace(&mut self.pairs, Vec::new(alloc));
        Ok(session_of(self.version, banks, pairs, limits, totals).unwrap())
    }
}

// The session of a version that has these parts; version 1 has no totals.
fn session_of(
    version: u8,
    banks: Vec<Name>,
    pairs: Vec<PairRule>,
    limits: Vec<Units>,
    totals: Vec<Option<Units>>,
) -> Option<Session>
    requires { version ≢ 2 → (version ≡ 1) × (totals.items ≡ []) }
    ensures value { let header : Header = record { version = version; banks = banks.items; pairs = pairs.items; limits = limits.items; totals = totals.items } in
        SomeIff result (IsSession header) header }
{
    if version == 2 {
        Session::build_two(banks, pairs, limits, totals)
    } else {
        Session::build(banks, pairs, limits)
    }
}

// A table of limits in which each is 0.
#[tactic(auto, unfolding(crate::specs::Draft::no_limits))]
fn no_limits(alloc: Global) -> Result<Vec<Units>, Memory>
    ensures { IfOk result (λ limits. limits.items ≡ no_limits) }
{
    let zero = Units::new(0).unwrap();
    Ok(vec![in alloc; zero; ROW * ROW]?)
}

// A table of totals in which no bank has one.
#[tactic(auto, unfolding(crate::specs::Draft::no_totals))]
fn no_totals(alloc: Global) -> Result<Vec<Option<Units>>, Memory>
    ensures { IfOk result (λ totals. totals.items ≡ no_totals) }
{
    let none: Option<Units> = None;
    Ok(vec![in alloc; none; BankId::COUNT]?)
}

// The totals of so many banks in version 2, without those of banks that are not declared; of version 1 none.
fn totals_kept(
    alloc: Global,
    version: u8,
    banks: usize,
    totals: &[Option<Units>],
) -> Result<Vec<Option<Units>>, Memory>
    requires { banks ≤ length totals.now }
    ensures { IfOk result (λ kept. kept.items ≡ totals_kept version banks totals.now) }
{
    let mut kept = Vec::new(alloc);
    if version == 2 {
        kept.extend_from_slice(&totals[..banks])?;
    }
    Ok(kept)
}

// The limits of so many banks row by row, without those of banks that are not declared.
#[tactic(auto, using(crate::proofs::DraftLemmas::map_more))]
fn square(alloc: Global, banks: usize, limits: &[Units]) -> Result<Vec<Units>, Memory>
    requires banks { banks ≤ 64 }
    requires full { length limits.now ≡ 4096 }
    ensures { IfOk result (λ rows. rows.items ≡ square banks limits.now) }
{
    let mut rows = Vec::new(alloc);
    for at in 0..banks * banks {
        rows.push(limits[ROW * (at / banks) + at % banks])?;
    }
    Ok(rows)
}

// The place of the first bank of that name.
fn place_of_bank(banks: &[Name], text: &[u8]) -> Option<usize>
    ensures value { result ≡ position (λ name. bytes_eq name text.now) banks.now }
{
    banks.iter().position(|name| name.as_bytes() == text)
}

// The place of the first pair of those two currencies.
fn place_of_pair(pairs: &[PairRule], base: &[u8], quote: &[u8]) -> Option<usize>
    ensures value { result ≡ position (λ rule. bytes_eq rule.base base.now && bytes_eq rule.quote quote.now) pairs.now }
{
    pairs.iter().position(|rule| rule.base.as_bytes() == base && rule.quote.as_bytes() == quote)
}
