ghost use Rattle.std.specs.Prelude.{◌≡◌, ◌<◌, ◌++◌, ◌∷◌, [], OnOk, OnErr, Some, map, flat_map, length};
ghost use Rattle.fx_rules.specs.Lists.{below};
ghost use Rattle.fx_rules.specs.Session.{IsSession, bank_count};
ghost use Rattle.session_head.specs.HeadText.{head_text_of, lines_text, line_text, totals_of};
ghost use Rattle.session_head.specs.inside.HeadText.{AreNamed, limits_of};
ghost use Rattle.fx_text.specs.Lines.{lines_of, rest_of};
ghost use Rattle.session_head.specs.Head.{read_head, session_of};
ghost use Rattle.session_head.specs.Statement.{spelling, version_fields};
ghost use Rattle.session_head.specs.declared.statement.Statement.TheVariants as statements;

use crate::statement::Statement;
use fx_amounts::{BankId, Memory};
use fx_rules::{Name, PairRule, Session};
use fx_text::push_number;

/// Appends a session's header: its banks, its pairs, its opening limits above 0 and its opening totals, a line each between the
/// line of its version, as `FXBOOK 1`, and `START`. After `Err` the list is as it was.
pub fn head_text(session: &Session, out: &mut Vec<u8>) -> Result<(), Memory>
    ensures ok { OnOk result (out.new.items ≡ out.old.items ++ head_text_of session.now) }
    ensures err { OnErr result (out.new.items ≡ out.old.items) }

    // The text is whole lines, and what they are as a header is this session.
    ensures whole { rest_of (head_text_of session.now) ≡ [] }
    ensures read_back { session_of (read_head (lines_of (head_text_of session.now))) ≡ Some session.now }
{
    append_head(session, out)
}

// Makes the text apart, so that nothing of it is appended where memory runs out.
fn append_head(session: &Session, out: &mut Vec<u8>) -> Result<(), Memory>
    ensures ok { OnOk result (out.new.items ≡ out.old.items ++ head_text_of session.now) }
    ensures err { OnErr result (out.new.items ≡ out.old.items) }
    ensures valid { IsSession session.now }
{
    let mut text = Vec::new(*out.allocator());
    push_head(session, &mut text)?;
    out.extend_from_slice(&text)?;
    Ok(())
}

fn push_head(session: &Session, out: &mut Vec<u8>) -> Result<(), Memory>
    ensures text { OnOk result (out.new.items ≡ out.old.items ++ head_text_of session.now) }
    ensures valid { IsSession session.now }
{
    let banks = session.banks();
    push_version(session.version(), out)?;
    push_banks(banks, out)?;
    push_pairs(banks, session.pairs(), out)?;
    push_limits(session, out)?;
    push_totals(session, out)?;
    push_statement(banks, &Statement::Start, out)
}

fn push_version(version: u8, out: &mut Vec<u8>) -> Result<(), Memory>
    ensures { OnOk result (out.new.items ≡ out.old.items ++ line_text (version_fields version)) }
{
    out.extend_from_slice(b"FXBOOK ")?;
    push_number(u128::from(version), out)?;
    out.push(b'\n')?;
    Ok(())
}

fn push_banks(banks: &[Name], out: &mut Vec<u8>) -> Result<(), Memory>
    ensures { OnOk result (out.new.items ≡ out.old.items ++ lines_text banks.now (map statements.Bank banks.now)) }
{
    for name in banks {
        push_statement(banks, &Statement::Bank(*name), out)?;
    }
    Ok(())
}

fn push_pairs(banks: &[Name], pairs: &[PairRule], out: &mut Vec<u8>) -> Result<(), Memory>
    ensures { OnOk result (out.new.items ≡ out.old.items ++ lines_text banks.now (map statements.Pair pairs.now)) }
{
    for rule in pairs {
        push_statement(banks, &Statement::Pair(*rule), out)?;
    }
    Ok(())
}

fn push_limits(session: &Session, out: &mut Vec<u8>) -> Result<(), Memory>
    ensures { OnOk result (out.new.items ≡ out.old.items ++ lines_text session.now.banks (flat_map (λ from. limits_of session.now from (bank_count session.now)) (below (bank_count session.now)))) }
{
    for from in 0..session.banks().len() {
        push_limits_of(session, BankId::at(from), out)?;
    }
    Ok(())
}

// The limits above 0 that a bank sets.
fn push_limits_of(session: &Session, from: BankId, out: &mut Vec<u8>) -> Result<(), Memory>
    requires { from < bank_count session.now }
    ensures { OnOk result (out.new.items ≡ out.old.items ++ lines_text session.now.banks (limits_of session.now from (bank_count session.now))) }
{
    let banks = session.banks();
    for to in 0..banks.len() {
        let to = BankId::at(to);
        let limit = session.limit(from, to);
        if limit.get() > 0 {
            push_statement(banks, &Statement::Line { from, to, limit }, out)?;
        }
    }
    Ok(())
}

// The totals of the banks that have one.
fn push_totals(session: &Session, out: &mut Vec<u8>) -> Result<(), Memory>
    ensures { OnOk result (out.new.items ≡ out.old.items ++ lines_text session.now.banks (totals_of session.now (bank_count session.now))) }
{
    let banks = session.banks();
    for bank in 0..banks.len() {
        let bank = BankId::at(bank);
        if let Some(limit) = session.total(bank) {
            push_statement(banks, &Statement::Total { bank, limit }, out)?;
        }
    }
    Ok(())
}

// Appends the line of a statement, whose banks are among these.
fn push_statement(banks: &[Name], statement: &Statement, out: &mut Vec<u8>) -> Result<(), Memory>
    requires { AreNamed (length banks.now) statement.now }
    ensures { OnOk result (out.new.items ≡ out.old.items ++ line_text (spelling banks.now statement.now)) }
{
    match statement {
        Statement::Bank(name) => {
            out.extend_from_slice(b"BANK ")?;
            out.extend_from_slice(name.as_bytes())?;
        }
        Statement::Pair(rule) => push_pair(rule, out)?,
        Statement::Line { from, to, limit } => {
            out.extend_from_slice(b"LINE ")?;
            out.extend_from_slice(banks[from.index()].as_bytes())?;
            out.push(b' ')?;
            out.extend_from_slice(banks[to.index()].as_bytes())?;
            out.push(b' ')?;
            push_number(u128::from(limit.get()), out)?;
        }
        Statement::Total { bank, limit } => {
            out.extend_from_slice(b"TOTAL ")?;
            out.extend_from_slice(banks[bank.index()].as_bytes())?;
            out.push(b' ')?;
            push_number(u128::from(limit.get()), out)?;
        }
        Statement::Start => out.extend_from_slice(b"START")?,
    }
    out.push(b'\n')?;
    Ok(())
}

// Appends a pair's fields.
fn push_pair(rule: &PairRule, out: &mut Vec<u8>) -> Result<(), Memory>
    ensures { OnOk result (out.new.items ++ 10 ∷ [] ≡ out.old.items ++ line_text (spelling [] (statements.Pair rule.now))) }
{
    out.extend_from_slice(b"PAIR ")?;
    out.extend_from_slice(&rule.text())?;
    out.push(b' ')?;
    push_number(u128::from(rule.decimals), out)?;
    out.push(b' ')?;
    push_number(u128::from(rule.lot), out)?;
    out.push(b' ')?;
    push_number(u128::from(rule.weight), out)?;
    Ok(())
}
