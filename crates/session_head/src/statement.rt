ghost use Rattle.std.specs.Prelude.{◌≡◌, ◌≤◌, Ok, IfOk, IfSome};
ghost use Rattle.fx_text.specs.Number.{number_of};
ghost use Rattle.fx_rules.specs.Session.{newest};
ghost use Rattle.session_head.specs.inside.Draft.{IsDraft};
ghost use Rattle.session_head.specs.declared.statement.Statement.{Statement as Declared};
ghost use Rattle.session_head.specs.Statement.{statement_of, bank_statement, pair_statement, line_statement, total_statement, start_statement, version_of, pair_codes, new_pair, lot_said, spelling};
ghost use Rattle.session_head.specs.inside.Statement.{CanState};

use crate::draft::Draft;
use crate::reason::HeadReason;
use fx_amounts::{BankId, PairId, Units};
use fx_rules::{Code, Name, PairRule, Session};
use fx_text::{Fields, number};

/// What a line of a header says, behind the first.
#[derive(Clone, Copy, Debug, PartialEq, Eq)]
pub(crate) enum Statement {
    /// A further bank.
    Bank(Name),
    /// A further pair.
    Pair(PairRule),
    /// The limit that the first bank opens with on the second.
    Line {
        from: BankId,
        to: BankId,
        limit: Units,
    },
    /// The total that a bank opens with, in version 2.
    Total {
        bank: BankId,
        limit: Units,
    },
    /// The header is whole.
    Start,
}

/// The version that the first line's fields name, where there is such a version.
#[tactic(auto, unfolding(crate::specs::Statement::version_of, fx_rules::specs::Session::newest))]
pub(crate) fn version_from(fields: &Fields) -> Option<u8>
    ensures value { result ≡ version_of fields.now }
    ensures least { IfSome result (λ version. 1 ≤ version) }
    ensures most { IfSome result (λ version. version ≤ newest) }
{
    if fields.count() != 2 || fields.field(0) != b"FXBOOK".as_slice() {
        return None;
    }
    let version = number(fields.field(1), 1, u64::from(Session::NEWEST))?;
    Some(version as u8)
}

/// What a line behind the first says of a draft, or its first fault.
pub(crate) fn statement_from(draft: &Draft, fields: &Fields) -> Result<Statement, HeadReason>
    ensures reads { result ≡ statement_of draft.now fields.now }

    // What is read can be stated and is spelled so, and what is spelled so is read.
    ensures found { IfOk result (λ statement. CanState draft.now statement × (fields.now ≡ spelling draft.now.banks statement)) }
    ensures again { (statement : Declared) → IsDraft draft.now → CanState draft.now statement
        → fields.now ≡ spelling draft.now.banks statement → result ≡ Ok statement }
{
    statement_by_word(draft, fields)
}

#[tactic(auto, unfolding(crate::specs::Statement::statement_of))]
fn statement_by_word(draft: &Draft, fields: &Fields) -> Result<Statement, HeadReason>
    ensures { result ≡ statement_of draft.now fields.now }
{
    let word = fields.first();
    if word == b"BANK".as_slice() {
        bank_statement(draft, fields)
    } else if word == b"PAIR".as_slice() {
        pair_statement(draft, fields)
    } else if word == b"LINE".as_slice() {
        line_statement(draft, fields)
    } else if word == b"START".as_slice() {
        start_statement(draft, fields)
    } else if draft.version() == 2 && word == b"TOTAL".as_slice() {
        total_statement(draft, fields)
    } else {
        Err(HeadReason::Word)
    }
}

#[tactic(auto, unfolding(crate::specs::Statement::bank_statement))]
fn bank_statement(draft: &Draft, fields: &Fields) -> Result<Statement, HeadReason>
    ensures { result ≡ bank_statement draft.now fields.now }
{
    if fields.count() != 2 {
        return Err(HeadReason::Count);
    }
    if draft.bank_count() >= BankId::COUNT {
        return Err(HeadReason::Many);
    }
    let name = draft.new_name(fields.field(1)).ok_or(HeadReason::Name)?;
    Ok(Statement::Bank(name))
}

#[tactic(auto, unfolding(crate::specs::Statement::pair_statement))]
fn pair_statement(draft: &Draft, fields: &Fields) -> Result<Statement, HeadReason>
    ensures { result ≡ pair_statement draft.now fields.now }
{
    if fields.count() != 5 {
        return Err(HeadReason::Count);
    }
    if draft.pair_count() >= PairId::COUNT {
        return Err(HeadReason::Many);
    }
    let (base, quote) = new_pair(draft, fields.field(1)).ok_or(HeadReason::Pair)?;
    let decimals = number(fields.field(2), 0, 6).ok_or(HeadReason::Decimals)?;
    let lot = lot_from(decimals, fields.field(3)).ok_or(HeadReason::Lot)?;
    let weight = number(fields.field(4), 1, 1_000_000).ok_or(HeadReason::Weight)?;
    Ok(Statement::Pair(PairRule {
        base,
        quote,
        decimals: decimals as u8,
        lot: lot as u32,
        weight: weight as u32,
    }))
}

// The two codes of a text that can be a further pair.
#[tactic(auto, unfolding(crate::specs::Statement::new_pair))]
fn new_pair(draft: &Draft, text: &[u8]) -> Option<(Code, Code)>
    ensures { result ≡ new_pair draft.now.pairs text.now }
{
    let (base, quote) = codes_from(text)?;
    if draft.is_new_pair(&base, &quote) {
        Some((base, quote))
    } else {
        None
    }
}

// The two codes of a text `BASE/QUOTE`.
#[tactic(auto, unfolding(crate::specs::Statement::pair_codes))]
fn codes_from(text: &[u8]) -> Option<(Code, Code)>
    ensures { result ≡ pair_codes text.now }
{
    if text.len() != 7 || text[3] != b'/' {
        return None;
    }
    let base = Code::from_bytes(&text[..3])?;
    let quote = Code::from_bytes(&text[4..])?;
    Some((base, quote))
}

// The lot that a text writes: 1 to 10^9, and a multiple of 10^decimals.
#[tactic(auto, unfolding(crate::specs::Statement::lot_said))]
fn lot_from(decimals: u64, text: &[u8]) -> Option<u64>
    requires { decimals ≤ 6 }
    ensures value { result ≡ lot_said decimals text.now }
    ensures most { IfSome result (λ lot. lot ≤ 1000000000) }
{
    let lot = number(text, 1, 1_000_000_000)?;
    if lot % 10u64.pow(decimals as u32) == 0 {
        Some(lot)
    } else {
        None
    }
}

#[tactic(auto, unfolding(crate::specs::Statement::line_statement))]
fn line_statement(draft: &Draft, fields: &Fields) -> Result<Statement, HeadReason>
    ensures { result ≡ line_statement draft.now fields.now }
{
    if fields.count() != 4 {
        return Err(HeadReason::Count);
    }
    let from = draft.bank_named(fields.field(1)).ok_or(HeadReason::Banks)?;
    let to = draft.bank_named(fields.field(2)).ok_or(HeadReason::Banks)?;
    if from == to {
        return Err(HeadReason::Banks);
    }
    let limit = limit_from(fields.field(3)).ok_or(HeadReason::Limit)?;
    Ok(Statement::Line { from, to, limit })
}

#[tactic(auto, unfolding(crate::specs::Statement::total_statement))]
fn total_statement(draft: &Draft, fields: &Fields) -> Result<Statement, HeadReason>
    ensures { result ≡ total_statement draft.now fields.now }
{
    if fields.count() != 3 {
        return Err(HeadReason::Count);
    }
    let bank = draft.bank_named(fields.field(1)).ok_or(HeadReason::Banks)?;
    let limit = limit_from(fields.field(2)).ok_or(HeadReason::Limit)?;
    Ok(Statement::Total { bank, limit })
}

// The limit that a text writes: 0 to 10^15.
fn limit_from(text: &[u8]) -> Option<Units>
    ensures { result ≡ number_of 0 1000000000000000 text.now }
{
    Units::new(number(text, 0, Units::MOST)?)
}

#[tactic(auto, unfolding(crate::specs::Statement::start_statement))]
fn start_statement(draft: &Draft, fields: &Fields) -> Result<Statement, HeadReason>
    ensures { result ≡ start_statement draft.now fields.now }
{
    if fields.count() != 1 {
        return Err(HeadReason::Count);
    }
    if draft.bank_count() < 2 || draft.pair_count() < 1 {
        return Err(HeadReason::Start);
    }
    Ok(Statement::Start)
}
