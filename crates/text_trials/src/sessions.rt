//! Names, codes, and which banks, pairs and limits make a session.
use fx_amounts::Units;
use fx_rules::{Code, Name, PairRule, Session};
use std::alloc::Global;
use std::test::Fail;
use trial_days::session_of;

/// Texts, and whether each is a bank's name.
const NAMES: [(&[u8], bool); 14] = [
    (b"ABC", true),
    (b"ABCDEFGH", true),
    (b"Z09", true),
    (b"HOSTS", true),
    (b"ENDS", true),
    (b"", false),
    (b"AB", false),
    (b"ABCDEFGHI", false),
    (b"1AB", false),
    (b"abc", false),
    (b"ABc", false),
    (b"A-B", false),
    (b"HOST", false),
    (b"END", false),
];

/// Texts, and whether each is a currency's code.
const CODES: [(&[u8], bool); 6] = [
    (b"EUR", true),
    (b"", false),
    (b"EU", false),
    (b"EURO", false),
    (b"eur", false),
    (b"E1R", false),
];

#[test]
fn names_and_codes_have_their_texts(rt: HostRuntime) {
    for (at, (text, is_name)) in NAMES.iter().enumerate() {
        let name = Name::from_bytes(text);
        let is_abc = name == Name::from_bytes(b"ABC");
        let has_text = name.is_some_and(|name| name.as_bytes() == *text);
        assert!(rt;
            has_text == *is_name && is_abc == (*text == b"ABC".as_slice()),
            "name {at}"
        );
    }
    for (at, (text, is_code)) in CODES.iter().enumerate() {
        let has_text = Code::from_bytes(text).is_some_and(|code| code.as_bytes() == *text);
        assert!(rt; has_text == *is_code, "code {at}");
    }
}

/// A pair: its codes, decimals, base units in a lot, and credit units that a lot uses.
type Rule = (&'static [u8], &'static [u8], u8, u32, u32);

const EURUSD: Rule = (b"EUR", b"USD", 5, 100_000, 100);

const USDEUR: Rule = (b"USD", b"EUR", 5, 100_000, 100);

/// Banks and how many more, pairs and how many more, and limits, row by row, or none at all where there are none; and whether they
/// make a session.
type Case = (
    &'static [&'static [u8]],
    u8,
    &'static [Rule],
    u8,
    &'static [u64],
    bool,
);

const TWO: &[&[u8]] = &[b"ALFA", b"BRAVO"];

const CASES: [Case; 27] = [
    (TWO, 0, &[EURUSD], 0, &[], true),
    (TWO, 0, &[EURUSD, USDEUR], 0, &[], true),
    (TWO, 0, &[(b"EUR", b"USD", 0, 1, 1)], 0, &[], true),
    (
        TWO,
        0,
        &[(b"EUR", b"USD", 6, 1_000_000_000, 1_000_000)],
        0,
        &[],
        true,
    ),
    // Banks.
    (&[], 0, &[EURUSD], 0, &[], false),
    (&[b"ALFA"], 0, &[EURUSD], 0, &[], false),
    (&[b"ALFA", b"BRAVO", b"ALFA"], 0, &[EURUSD], 0, &[], false),
    (&[], 64, &[EURUSD], 0, &[], true),
    (&[], 65, &[EURUSD], 0, &[], false),
    // Pairs.
    (TWO, 0, &[], 0, &[], false),
    (TWO, 0, &[EURUSD, USDEUR, EURUSD], 0, &[], false),
    (TWO, 0, &[], 32, &[], true),
    (TWO, 0, &[], 33, &[], false),
    (TWO, 0, &[(b"EUR", b"EUR", 5, 100_000, 100)], 0, &[], false),
    (
        TWO,
        0,
        &[(b"EUR", b"USD", 7, 100_000_000, 100)],
        0,
        &[],
        false,
    ),
    (TWO, 0, &[(b"EUR", b"USD", 5, 0, 100)], 0, &[], false),
    (TWO, 0, &[(b"EUR", b"USD", 5, 1000, 100)], 0, &[], false),
    (
        TWO,
        0,
        &[(b"EUR", b"USD", 0, 1_000_000_001, 100)],
        0,
        &[],
        false,
    ),
    (TWO, 0, &[(b"EUR", b"USD", 5, 100_000, 0)], 0, &[], false),
    (
        TWO,
        0,
        &[(b"EUR", b"USD", 5, 100_000, 1_000_001)],
        0,
        &[],
        false,
    ),
    // Limits.
    (TWO, 0, &[EURUSD], 0, &[0, 1, 2, 0], true),
    (
        TWO,
        0,
        &[EURUSD],
        0,
        &[0, 1_000_000_000_000_000, 2, 0],
        true,
    ),
    (TWO, 0, &[EURUSD], 0, &[0, 1, 2], false),
    (TWO, 0, &[EURUSD], 0, &[0, 1, 2, 0, 0], false),
    (TWO, 0, &[EURUSD], 0, &[1, 1, 2, 0], false),
    (TWO, 0, &[EURUSD], 0, &[0, 1, 2, 1], false),
    (
        &[b"ALFA", b"BRAVO", b"CHARLIE"],
        0,
        &[EURUSD],
        0,
        &[0, 12, 13, 21, 0, 23, 31, 32, 0],
        true,
    ),
];

/// The banks of these names, and so many more.
fn names_of(alloc: Global, texts: &[&[u8]], more: u8) -> Result<Vec<Name>, Fail> {
    let mut names = Vec::new(alloc);
    for text in texts {
        names.push(Name::from_bytes(text).ok_or("a name was refused")?)?;
    }
    for number in 0..more {
        let text = [b'B', b'0' + number / 10 % 10, b'0' + number % 10];
        names.push(Name::from_bytes(&text).ok_or("a name was refused")?)?;
    }
    Ok(names)
}

fn rule_of((base, quote, decimals, lot, weight): (&[u8], &[u8], u8, u32, u32)) -> Option<PairRule> {
    Some(PairRule {
        base: Code::from_bytes(base)?,
        quote: Code::from_bytes(quote)?,
        decimals,
        lot,
        weight,
    })
}

/// These pairs, and so many more.
fn rules_of(alloc: Global, rules: &[Rule], more: u8) -> Result<Vec<PairRule>, Fail> {
    let mut pairs = Vec::new(alloc);
    for rule in rules {
        pairs.push(rule_of(*rule).ok_or("a code was refused")?)?;
    }
    for number in 0..more {
        let base = [b'A', b'A' + number / 10 % 10, b'A' + number % 10];
        pairs.push(rule_of((&base, b"USD", 2, 100, 1)).ok_or("a code was refused")?)?;
    }
    Ok(pairs)
}

/// These limits, or as many zeros as are wanted.
fn limits_of(alloc: Global, limits: &[u64], zeros: usize) -> Result<Vec<Units>, Fail> {
    let mut units = Vec::new(alloc);
    for limit in limits {
        units.push(Units::new(*limit).ok_or("a limit was refused")?)?;
    }
    if limits.is_empty() {
        units.resize(zeros, Units::new(0).ok_or("a limit was refused")?)?;
    }
    Ok(units)
}

/// Whether a case makes a session.
fn is_session(alloc: Global, case: &Case) -> Result<bool, Fail> {
    let (names, more_banks, rules, more_pairs, limits, _) = case;
    let banks = names_of(alloc, names, *more_banks)?;
    let pairs = rules_of(alloc, rules, *more_pairs)?;
    let limits = limits_of(alloc, limits, banks.len().saturating_mul(banks.len()))?;
    Ok(Session::build(banks, pairs, limits).is_some())
}

#[test]
fn banks_pairs_and_limits_make_a_session(rt: HostRuntime) -> Result<(), Fail> {
    for (at, case) in CASES.iter().enumerate() {
        assert!(rt; is_session(rt.alloc(), case)? == case.5, "case {at}");
    }
    Ok(())
}

const HEADER: &[u8] = b"FXBOOK 1
BANK ALFA
BANK BRAVO
BANK CHARLIE
PAIR EUR/USD 5 100000 100
PAIR USD/EUR 4 10000 1
PAIR USD/JPY 0 1 1000000
LINE ALFA BRAVO 12
LINE BRAVO ALFA 21
LINE CHARLIE BRAVO 1000000000000000
START
";

/// Two names, and the limit that the first bank opens with on the second; `None` where one of them is no bank's.
const LIMITS: [(&[u8], &[u8], Option<u64>); 6] = [
    (b"ALFA", b"BRAVO", Some(12)),
    (b"BRAVO", b"ALFA", Some(21)),
    (b"CHARLIE", b"BRAVO", Some(1_000_000_000_000_000)),
    (b"BRAVO", b"CHARLIE", Some(0)),
    (b"CHARLIE", b"CHARLIE", Some(0)),
    (b"ALF", b"BRAVO", None),
];

fn limit(session: &Session, setter: &[u8], other: &[u8]) -> Option<u64> {
    let (setter, other) = (session.bank_named(setter)?, session.bank_named(other)?);
    Some(session.limit(setter, other).get())
}

/// Texts of pairs, and each one's place, weight and decimals; `None` where there is no such pair.
const PAIRS: [(&[u8], Option<(usize, u32, u8)>); 5] = [
    (b"EUR/USD", Some((0, 100, 5))),
    (b"USD/EUR", Some((1, 1, 4))),
    (b"USD/JPY", Some((2, 1_000_000, 0))),
    (b"JPY/USD", None),
    (b"USDJPY", None),
];

fn terms(session: &Session, text: &[u8]) -> Option<(usize, u32, u8)> {
    let pair = session.pair_named(text)?;
    let rule = session.rule(pair);
    (rule.text().as_slice() == text).then_some((pair.index(), session.weight(pair), rule.decimals))
}

#[test]
fn a_session_tells_its_terms(rt: HostRuntime) -> Result<(), Fail> {
    let session = session_of(rt.alloc(), HEADER)?;
    for (at, (setter, other, want)) in LIMITS.iter().enumerate() {
        assert!(rt; limit(&session, setter, other) == *want, "limit {at}");
    }
    for (at, (text, want)) in PAIRS.iter().enumerate() {
        assert!(rt; terms(&session, text) == *want, "pair {at}");
    }
    Ok(())
}
