use crate::filled::filled;
use fx_amounts::BankId;
use fx_rules::{Command, Reject, Sent, Session};
use fx_text::{Line, LineCutter};
use order_lines::{Spoken, command_from, command_text, journal_from, spelled_command};
use std::alloc::Global;
use std::test::Fail;
use trial_days::{ALFA, bank, session_of};

/// The banks ALFA, BETA and GAMA, and the pairs EUR/USD and AAA/BBB, behind the first line of a header.
const HEADER: &[u8] = b"BANK ALFA
BANK BETA
BANK GAMA
PAIR EUR/USD 5 1000000 100
PAIR AAA/BBB 0 1 1
START
";

/// The first line of a header, by its version.
const FIRST_LINES: [(u8, &[u8]); 2] = [(1, b"FXBOOK 1\n"), (2, b"FXBOOK 2\n")];

/// Lines of a journal of a version that are read from their one spelling at once, and what each says: commands that are not bad, but no
/// TOTAL and no SETTLE.
const SPELLED: &[(u8, &[u8], &str)] = &[
    (
        1,
        b"BETA BUY EUR/USD 1.08420 3 DAY",
        "Some(Order { side: Buy, pair: PairId(0), price: Price { ticks: 108420 }, lots: Lots { count: 3 }, life: Day })",
    ),
    (
        1,
        b"BETA SELL AAA/BBB 1000000000 1000000 IOC",
        "Some(Order { side: Sell, pair: PairId(1), price: Price { ticks: 1000000000 }, lots: Lots { count: 1000000 }, life: Ioc })",
    ),
    (
        1,
        b"BETA SELL EUR/USD 0.00001 1 FOK",
        "Some(Order { side: Sell, pair: PairId(0), price: Price { ticks: 1 }, lots: Lots { count: 1 }, life: Fok })",
    ),
    (
        1,
        b"BETA CANCEL EUR/USD 1",
        "Some(Cancel { pair: PairId(0), number: 1 })",
    ),
    (
        1,
        b"BETA REDUCE AAA/BBB 4294967295 20",
        "Some(Reduce { pair: PairId(1), number: 4294967295, lots: Lots { count: 20 } })",
    ),
    (1, b"BETA PULL EUR/USD", "Some(Pull { pair: PairId(0) })"),
    (
        1,
        b"BETA LINE ALFA 1000000000000000",
        "Some(Line { bank: BankId(0), limit: Units { units: 1000000000000000 } })",
    ),
    (1, b"BETA SHOW GAMA", "Some(Show { bank: BankId(2) })"),
    (1, b"BETA BOOK AAA/BBB", "Some(Book { pair: PairId(1) })"),
    (2, b"BETA SHOW GAMA", "Some(Show { bank: BankId(2) })"),
];

/// Other lines of a journal of a version in their one spelling, and what each says; and lines that are in none.
const RECORDED: &[(u8, &[u8], &str)] = &[
    (1, b"ALFA BAD 1", "Some(Bad { reason: Word })"),
    (1, b"ALFA BAD 2", "Some(Bad { reason: Count })"),
    (1, b"ALFA BAD 3", "Some(Bad { reason: Pair })"),
    (1, b"ALFA BAD 4", "Some(Bad { reason: PriceForm })"),
    (1, b"ALFA BAD 5", "Some(Bad { reason: PriceRange })"),
    (1, b"ALFA BAD 6", "Some(Bad { reason: Lots })"),
    (1, b"ALFA BAD 7", "Some(Bad { reason: Bank })"),
    (1, b"ALFA BAD 8", "Some(Bad { reason: Limit })"),
    (1, b"ALFA BAD 9", "Some(Bad { reason: Number })"),
    (1, b"ALFA BAD 10", "Some(Bad { reason: Life })"),
    (1, b"ALFA BAD 11", "Some(Bad { reason: Long })"),
    (1, b"ALFA BAD", "None"),
    (1, b"ALFA BAD 0", "None"),
    (1, b"ALFA BAD 01", "None"),
    (1, b"ALFA BAD 12", "None"),
    (1, b"ALFA BAD 1 1", "None"),
    (1, b"ALFA SHOW", "None"),
    (1, b"ALFA LINE ALFA 5", "None"),
    (1, b"DELT BAD 1", "None"),
    (1, b"DELT SHOW ALFA", "None"),
    (1, b"END now", "None"),
    (1, b"ALFABUY", "None"),
    (1, b"HOST BUY", "None"),
    (1, b"HOST BAD 12", "None"),
    (1, b"ALFA TOTAL 400", "None"),
    (1, b"END", "None"),
    (1, b" \tEND\t", "None"),
    (1, b"", "None"),
    (1, b" \t ", "None"),
    (1, b"# ALFA SHOW BETA", "None"),
    (1, b"  #", "None"),
    (
        2,
        b"BETA TOTAL 1000000000000000",
        "Some(Total { limit: Units { units: 1000000000000000 } })",
    ),
    (
        2,
        b"GAMA TOTAL 0",
        "Some(Total { limit: Units { units: 0 } })",
    ),
    (
        2,
        b"HOST SETTLE GAMA ALFA 1",
        "Some(Settle { a: BankId(2), b: BankId(0), units: Units { units: 1 } })",
    ),
    (
        2,
        b"HOST SETTLE ALFA BETA 1000000000000000",
        "Some(Settle { a: BankId(0), b: BankId(1), units: Units { units: 1000000000000000 } })",
    ),
    (2, b"HOST BAD 1", "Some(Bad { reason: Word })"),
    (2, b"HOST BAD 3", "Some(Bad { reason: Pair })"),
    (2, b"HOST BAD 12", "Some(Bad { reason: Units })"),
    (2, b"HOST BAD 13", "None"),
    (2, b"ALFA BAD 12", "None"),
    (2, b"ALFA TOTAL 05", "None"),
    (2, b"ALFA SETTLE ALFA BETA 5", "None"),
    (2, b"HOST TOTAL 5", "None"),
    (2, b"HOST PULL EUR/USD", "None"),
    (2, b"HOST SETTLE ALFA ALFA 5", "None"),
    (2, b"HOST SETTLE ALFA BETA 0", "None"),
];

/// Bad lines of a version, of ALFA and of the operator, and the fault of each.
const BAD: &[(u8, &[u8], Reject)] = &[
    (1, b"ALFA", Reject::Word),
    (1, b"ALFA BAD 3", Reject::Word),
    (1, b"ALFA buy EUR/USD 1.08420 3 DAY", Reject::Word),
    (1, b"ALFA ALFA SHOW", Reject::Word),
    (1, b"ALFA TOTAL 5", Reject::Word),
    (1, b"ALFA SETTLE ALFA BETA 5", Reject::Word),
    (1, b"ALFA BUY EUR/USD 1.08420 3", Reject::Count),
    (1, b"ALFA BUY EUR/USD 1.08420 3 DAY now", Reject::Count),
    (1, b"ALFA SELL", Reject::Count),
    (1, b"ALFA SELL EUR/USD 1.08420 3 DAY 1 2 3 4", Reject::Count),
    (1, b"ALFA CANCEL EUR/USD", Reject::Count),
    (1, b"ALFA CANCEL EUR/USD 1 1", Reject::Count),
    (1, b"ALFA REDUCE EUR/USD 1", Reject::Count),
    (1, b"ALFA REDUCE EUR/USD 1 1 1", Reject::Count),
    (1, b"ALFA PULL", Reject::Count),
    (1, b"ALFA PULL EUR/USD all", Reject::Count),
    (1, b"ALFA LINE BETA", Reject::Count),
    (1, b"ALFA LINE BETA 5 5", Reject::Count),
    (1, b"ALFA SHOW", Reject::Count),
    (1, b"ALFA SHOW BETA GAMA", Reject::Count),
    (1, b"ALFA BOOK", Reject::Count),
    (1, b"ALFA BOOK EUR/USD 10", Reject::Count),
    (1, b"ALFA BUY EUR/XXX 1.0 3 DAY", Reject::Pair),
    (1, b"ALFA SELL USD/EUR 1.08420 3 DAY", Reject::Pair),
    (1, b"ALFA BUY EUR/USD 1.0842 3 DAY", Reject::PriceForm),
    (1, b"ALFA BUY EUR/USD 01.08420 3 DAY", Reject::PriceForm),
    (1, b"ALFA SELL AAA/BBB 1.0 3 DAY", Reject::PriceForm),
    (1, b"ALFA BUY EUR/USD 0.00000 3 DAY", Reject::PriceRange),
    (
        1,
        b"ALFA SELL EUR/USD 10000.00001 3 DAY",
        Reject::PriceRange,
    ),
    (1, b"ALFA BUY EUR/USD 1.08420 0 DAY", Reject::Lots),
    (1, b"ALFA SELL EUR/USD 1.08420 1000001 DAY", Reject::Lots),
    (1, b"ALFA BUY EUR/USD 1.08420 1 GTC", Reject::Life),
    (1, b"ALFA SELL EUR/USD 1.08420 1 day", Reject::Life),
    (1, b"ALFA CANCEL EURUSD 1", Reject::Pair),
    (1, b"ALFA CANCEL EUR/USD 0", Reject::Number),
    (1, b"ALFA CANCEL EUR/USD 4294967296", Reject::Number),
    (1, b"ALFA REDUCE EUR/XXX 1 1", Reject::Pair),
    (1, b"ALFA REDUCE EUR/USD 01 1", Reject::Number),
    (1, b"ALFA REDUCE EUR/USD 1 0", Reject::Lots),
    (1, b"ALFA PULL EUR/XXX", Reject::Pair),
    (1, b"ALFA LINE ALFA 5", Reject::Bank),
    (1, b"ALFA LINE DELT 5", Reject::Bank),
    (1, b"ALFA LINE BETA 1000000000000001", Reject::Limit),
    (1, b"ALFA LINE BETA -1", Reject::Limit),
    (1, b"ALFA SHOW ALFA", Reject::Bank),
    (1, b"ALFA SHOW EUR/USD", Reject::Bank),
    (1, b"ALFA BOOK eur/usd", Reject::Pair),
    // Each of these has more faults than one, and is bad with the first of the order.
    (1, b"ALFA BUT EUR/XXX", Reject::Word),
    (1, b"ALFA BUY EUR/XXX 1.0 0", Reject::Count),
    (1, b"ALFA BUY EUR/XXX 1.0 0 GTC", Reject::Pair),
    (1, b"ALFA BUY EUR/USD 1.0 0 GTC", Reject::PriceForm),
    (1, b"ALFA BUY EUR/USD 0.00000 0 GTC", Reject::PriceRange),
    (1, b"ALFA BUY EUR/USD 1.08420 0 GTC", Reject::Lots),
    (1, b"ALFA CANCEL EUR/XXX 0", Reject::Pair),
    (1, b"ALFA REDUCE EUR/XXX 0 0", Reject::Pair),
    (1, b"ALFA REDUCE EUR/USD 0 0", Reject::Number),
    (1, b"ALFA LINE ALFA x", Reject::Bank),
    (1, b"ALFA SHOW ALFA BETA", Reject::Count),
    (2, b"ALFA TOTAL", Reject::Count),
    (2, b"ALFA TOTAL BETA 5", Reject::Count),
    (2, b"ALFA TOTAL x", Reject::Limit),
    (2, b"ALFA TOTAL 1000000000000001", Reject::Limit),
    (2, b"ALFA SETTLE ALFA BETA 5", Reject::Word),
    (2, b"ALFA LINE HOST 5", Reject::Bank),
    (2, b"HOST", Reject::Word),
    (2, b"HOST BUY", Reject::Word),
    (2, b"HOST PULL EUR/USD", Reject::Word),
    (2, b"HOST TOTAL 5", Reject::Word),
    (2, b"HOST SETTLE", Reject::Count),
    (2, b"HOST SETTLE ALFA BETA 5 5", Reject::Count),
    (2, b"HOST SETTLE DELT ALFA 5", Reject::Bank),
    (2, b"HOST SETTLE ALFA HOST 5", Reject::Bank),
    (2, b"HOST SETTLE ALFA BETA 0", Reject::Units),
    (2, b"HOST SETTLE ALFA BETA 05", Reject::Units),
    (2, b"HOST SETTLE ALFA BETA 1000000000000001", Reject::Units),
    // Each of these has more faults than one, and is bad with the first of the order.
    (2, b"HOST SETTLE ALFA ALFA 0", Reject::Bank),
    (2, b"HOST SETTLE ALFA 0", Reject::Count),
];

/// Lines of a version with so many letters behind them, and what each says.
const SAID: &[(u8, &[u8], usize, &str)] = &[
    (1, b"DELT SHOW ALFA", 0, "Stray"),
    (1, b"END now", 0, "Stray"),
    (1, b"ALFABUY", 0, "Stray"),
    (1, b"HOST BUY", 0, "Stray"),
    (1, b"HOST SETTLE BETA ALFA 1000", 0, "Stray"),
    (1, b"DELT ", 300, "Stray"),
    (1, b"END ", 300, "Stray"),
    (1, b"END", 0, "End"),
    (1, b" \tEND\t", 0, "End"),
    (1, b"END\r", 0, "End"),
    (1, b"", 0, "Passed"),
    (1, b" \t ", 0, "Passed"),
    (1, b"# ALFA SHOW BETA", 0, "Passed"),
    (1, b"  #", 0, "Passed"),
    (1, b"# ALFA ", 300, "Passed"),
    (
        1,
        b"\tBETA  SHOW\t\tGAMA \r",
        0,
        "Of(BankId(1), Show { bank: BankId(2) })",
    ),
    (1, b"ALFA ", 251, "Of(BankId(0), Bad { reason: Word })"),
    (1, b"ALFA ", 252, "Of(BankId(0), Bad { reason: Long })"),
    (
        1,
        b"ALFA BUY EUR/USD 1.08420 3 DAY ",
        300,
        "Of(BankId(0), Bad { reason: Long })",
    ),
    (2, b"HOSTS SETTLE ALFA BETA 5", 0, "Stray"),
    (2, b"DELT TOTAL 5", 0, "Stray"),
    (2, b"#HOST SETTLE ALFA BETA 5", 0, "Passed"),
    (
        2,
        b"\tHOST  SETTLE\tBETA ALFA 1000 \r",
        0,
        "Of(BankId(64), Settle { a: BankId(1), b: BankId(0), units: Units { units: 1000 } })",
    ),
    (2, b"HOST ", 251, "Of(BankId(64), Bad { reason: Word })"),
    (2, b"HOST ", 252, "Of(BankId(64), Bad { reason: Long })"),
];

/// A session with this first line.
fn session_with(alloc: Global, first: &[u8]) -> Result<Session, Fail> {
    let mut text = first.to_vec(alloc)?;
    text.extend_from_slice(HEADER)?;
    Ok(session_of(alloc, &text)?)
}

/// Who sends a bad line.
fn sender_of(text: &[u8]) -> BankId {
    if text.starts_with(b"HOST") {
        BankId::HOST
    } else {
        bank(ALFA)
    }
}

/// Whether a line of a session is bad with this fault, and in no command's one spelling.
fn is_bad(alloc: Global, session: &Session, text: &[u8], reason: Reject) -> Result<bool, Fail> {
    let want = Spoken::Of(sender_of(text), Command::Bad { reason });
    let is_so = said(alloc, session, text, 0)? == want;
    Ok(is_so && spelled(alloc, session, text)?.is_none())
}

/// A line with so many letters behind it.
fn line_of(alloc: Global, text: &[u8], letters: usize) -> Result<Line, Fail> {
    let mut lines = Vec::new(alloc);
    LineCutter::new().feed(&filled(alloc, (text, b'x', letters, b"\n"))?, &mut lines)?;
    Ok(lines.pop().ok_or("no line")?)
}

/// What a line says.
fn said(alloc: Global, session: &Session, text: &[u8], letters: usize) -> Result<Spoken, Fail> {
    let line = line_of(alloc, text, letters)?;
    Ok(command_from(session, &line))
}

/// Whether a line with so many letters behind it says this.
fn is_said(
    alloc: Global,
    session: &Session,
    text: &[u8],
    letters: usize,
    want: &str,
) -> Result<bool, Fail> {
    let told = match said(alloc, session, text, letters)? {
        Spoken::Of(bank, command) => format!(in alloc; "Of({bank:?}, {command:?})")?,
        other => format!(in alloc; "{other:?}")?,
    };
    Ok(told.as_str() == want)
}

/// The command with whose line in its one spelling a text begins, where that is all of the text.
fn spelled(alloc: Global, session: &Session, line: &[u8]) -> Result<Option<Sent>, Fail> {
    let text = filled(alloc, (line, b'x', 0, b"\n"))?;
    Ok(match spelled_command(session, &text) {
        Some((sent, b"")) => Some(sent),
        _ => None,
    })
}

/// The command that a line of a journal says; `None` too where it is spelled otherwise, or says another thing in a session.
fn recorded(alloc: Global, session: &Session, text: &[u8]) -> Result<Option<Command>, Fail> {
    let line = line_of(alloc, text, 0)?;
    let Some((bank, command)) = journal_from(session, &line) else {
        return Ok(None);
    };
    let is_bad = matches!(&command, Command::Bad { .. });
    let is_said = is_bad || command_from(session, &line) == Spoken::Of(bank, command);
    let mut again = Vec::new(alloc);
    command_text(session, bank, &command, &mut again)?;
    Ok((is_said && again.as_slice() == text).then_some(command))
}

/// Whether a line of a journal says this, and is read from its one spelling at once or not.
fn is_recorded(
    alloc: Global,
    session: &Session,
    text: &[u8],
    want: &str,
    at_once: bool,
) -> Result<bool, Fail> {
    let is_spelled = spelled(alloc, session, text)?.is_some();
    let told = format!(in alloc; "{:?}", recorded(alloc, session, text)?)?;
    Ok(told.as_str() == want && is_spelled == at_once)
}

#[test]
fn lines_say_their_commands(rt: HostRuntime) -> Result<(), Fail> {
    let alloc = rt.alloc();
    for (version, first) in FIRST_LINES {
        let session = session_with(alloc, first)?;
        for (at, (of, text, want)) in SPELLED.iter().enumerate() {
            let is_so = *of != version || is_recorded(alloc, &session, text, want, true)?;
            assert!(rt; is_so, "version {version}, in a journal at once: {at}");
        }
        for (at, (of, text, want)) in RECORDED.iter().enumerate() {
            let is_so = *of != version || is_recorded(alloc, &session, text, want, false)?;
            assert!(rt; is_so, "version {version}, in a journal: {at}");
        }
        for (at, (of, text, letters, want)) in SAID.iter().enumerate() {
            let is_so = *of != version || is_said(alloc, &session, text, *letters, want)?;
            assert!(rt; is_so, "version {version}, in a session: {at}");
        }
        for (at, (of, text, reason)) in BAD.iter().enumerate() {
            let is_so = *of != version || is_bad(alloc, &session, text, *reason)?;
            assert!(rt; is_so, "version {version}, bad line {at}");
        }
    }
    Ok(())
}
