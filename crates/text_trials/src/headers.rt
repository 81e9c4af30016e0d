use crate::filled::filled;
use fx_amounts::Memory;
use fx_text::{LineCutter, push_number};
use session_head::{HeadReader, HeadStep, HeadStop, head_text};
use std::alloc::Global;
use std::test::Fail;
use trial_days::session_of;

/// Headers with a fault: the line in which it is, counted with those that are ignored, and the number of its reason.
const FAULTS: [(&[u8], u64, u8); 18] = [
    (b"FXBOOK 9\n", 1, 1),
    (b"FXBOOK 01\n", 1, 1),
    (b"BANC ALFA\n", 1, 1),
    (b"# morning\n\n \t\nFXBOOK 3\n", 4, 1),
    (b"FXBOOK 1\nBANC ALFA\n", 2, 2),
    (b"FXBOOK 1\nBANK\n", 2, 3),
    (b"FXBOOK 1\nBANK AB\n", 2, 4),
    (b"FXBOOK 1\nPAIR EUR/EUR 5 1000000 100\n", 2, 5),
    (b"FXBOOK 1\nPAIR EUR/USD 7 10000000 100\n", 2, 6),
    (b"FXBOOK 1\nPAIR EUR/USD 5 1000 100\n", 2, 7),
    (b"FXBOOK 1\nPAIR EUR/USD 5 1000000 0\n", 2, 8),
    (b"FXBOOK 1\nLINE ALFA ALFA 5\n", 2, 9),
    (b"FXBOOK 1\nSTART\n", 2, 11),
    (b"FXBOOK 1\nFXBOOK 1\n", 2, 2),
    (b"FXBOOK 1\nEND\n", 2, 2),
    (
        b"FXBOOK 1\nBANK ALFA\nPAIR EUR/USD 5 1000000 100\nSTART\n",
        4,
        11,
    ),
    (
        b"FXBOOK 1\nPAIR EUR/USD 5 1000000 100\nPAIR EUR/USD 0 1 1\n",
        3,
        5,
    ),
    (
        b"# morning\r\n\r\nFXBOOK 1\r\n\tBANK  ALFA \r\n # BANK BETA\nBANK ALFA\n",
        6,
        4,
    ),
];

/// Faults of a line behind two banks, the fourth.
const FOURTH: &[(&[u8], u8)] = &[
    (b"LINE ALFA BETA 05\n", 10),
    (b"BANK ALFA\n", 4),
    (b"BANK HOST\n", 4),
    (b"BANK END\n", 4),
    (b"BANK 1BC\n", 4),
    (b"PAIR EURUSD 5 1000000 100\n", 5),
    (b"PAIR EUR-USD 5 1000000 100\n", 5),
    (b"PAIR EUR/USD 05 1000000 100\n", 6),
    (b"PAIR EUR/USD 0 1000000001 100\n", 7),
    (b"PAIR EUR/USD 5 1000000 1000001\n", 8),
    (b"LINE ALFA GAMA 5\n", 9),
    (b"LINE ALFA BETA 1000000000000001\n", 10),
    (b"START\n", 11),
    (b"TOTAL ALFA 250\n", 2),
    // Each of these has more faults than one, and the first of the order is told.
    (b"BANC ALFA 1 2\n", 2),
    (b"BANK A B\n", 3),
    (b"PAIR EUR/EUR 7 0\n", 3),
    (b"PAIR EUR/EUR 7 0 0\n", 5),
    (b"PAIR EUR/USD 7 0 0\n", 6),
    (b"PAIR EUR/USD 5 0 0\n", 7),
    (b"LINE GAMA ALFA x\n", 9),
    (b"LINE ALFA DELT x\n", 9),
    (b"LINE BETA BETA x\n", 9),
    (b"START now\n", 3),
];

/// The same in version 2.
const FOURTH_IN_TWO: &[(&[u8], u8)] = &[
    (b"TOTALS ALFA 5\n", 2),
    (b"FXBOOK 2\n", 2),
    (b"TOTAL ALFA\n", 3),
    (b"TOTAL ALFA BETA 5\n", 3),
    (b"TOTAL GAMA 5\n", 9),
    (b"TOTAL HOST x\n", 9),
    (b"TOTAL ALFA x\n", 10),
    (b"TOTAL ALFA 05\n", 10),
    (b"TOTAL ALFA 1000000000000001\n", 10),
    (b"START\n", 11),
];

/// The lines in front of them, in each version.
const TWO_BANKS: [(&[u8], &[(&[u8], u8)]); 2] = [
    (b"FXBOOK 1\nBANK ALFA\nBANK BETA\n", FOURTH),
    (b"FXBOOK 2\nBANK ALFA\nBANK BETA\n", FOURTH_IN_TWO),
];

/// Faults of a line behind so many banks and pairs.
const FULL: [(u8, u8, &[u8], u64, u8); 6] = [
    (64, 0, b"BANK ALFA\n", 66, 12),
    (64, 0, b"BANK x\n", 66, 12),
    (64, 0, b"BANK x y\n", 66, 3),
    (0, 32, b"PAIR EUR/USD 0 1 1\n", 34, 12),
    (0, 32, b"PAIR x 7 0 0\n", 34, 12),
    (0, 1, b"PAIR AAA/ZZA 0 1 1\n", 3, 5),
];

/// The first line, and the lines of so many banks and pairs behind it.
fn full(alloc: Global, banks: u8, pairs: u8) -> Result<Vec<u8>, Memory> {
    let mut text = b"FXBOOK 1\n".to_vec(alloc)?;
    for at in 0..banks {
        text.extend_from_slice(b"BANK B")?;
        push_number(100 + u128::from(at), &mut text)?;
        text.push(b'\n')?;
    }
    for at in 0..pairs {
        text.extend_from_slice(if at < 26 {
            b"PAIR AAA/ZZ".as_slice()
        } else {
            b"PAIR BBB/ZZ"
        })?;
        text.push(b'A' + at % 26)?;
        text.extend_from_slice(b" 0 1 1\n")?;
    }
    Ok(text)
}

/// The line and the number of a header's fault; `None` where it has none.
fn fault(alloc: Global, text: &[u8]) -> Result<Option<(u64, u8)>, Memory> {
    let mut lines = Vec::new(alloc);
    LineCutter::new().feed(text, &mut lines)?;
    let mut reader = HeadReader::new(alloc);
    for line in &lines {
        match reader.line(line) {
            Ok(HeadStep::More) => {}
            Err(HeadStop::Fault { line, reason }) => return Ok(Some((line, reason.code()))),
            _ => return Ok(None),
        }
    }
    Ok(None)
}

/// The fault of a header that is given in two parts, by its line and its number.
fn fault_of(alloc: Global, front: &[u8], last: &[u8]) -> Result<Option<(u64, u8)>, Memory> {
    let mut text = front.to_vec(alloc)?;
    text.extend_from_slice(last)?;
    fault(alloc, &text)
}

/// The fault of a header whose second line is a long one.
fn fault_of_long(alloc: Global) -> Result<Option<(u64, u8)>, Memory> {
    let text = filled(alloc, (b"FXBOOK 1\n", b'x', 257, b"\n"))?;
    fault(alloc, &text)
}

#[test]
fn each_fault_is_told_by_its_line(rt: HostRuntime) -> Result<(), Fail> {
    let alloc = rt.alloc();
    for (at, (text, line, code)) in FAULTS.iter().enumerate() {
        assert!(rt; fault(alloc, text)? == Some((*line, *code)), "header {at}");
    }
    for (front, faults) in TWO_BANKS {
        for (at, (last, code)) in faults.iter().enumerate() {
            let found = fault_of(alloc, front, last)?;
            assert!(rt; found == Some((4, *code)), "{front:?}: fourth line {at}");
        }
    }
    for (at, (banks, pairs, last, line, code)) in FULL.iter().enumerate() {
        let found = fault_of(alloc, &full(alloc, *banks, *pairs)?, last)?;
        assert!(rt; found == Some((*line, *code)), "full header {at}");
    }
    assert!(rt; fault_of_long(alloc)? == Some((2, 13)));
    Ok(())
}

/// Headers, and how each is spelled.
const WHOLE: [(&[u8], &[u8]); 4] = [
    (
        b"# a day
FXBOOK 1

BANK ALFA
BANK BETA
LINE ALFA BETA 7
PAIR EUR/USD 5 1000000 100
LINE BETA ALFA 21
BANK GAMA
LINE GAMA ALFA 1000000000000000
PAIR USD/EUR 4 10000 1
LINE ALFA BETA 12
LINE ALFA GAMA 13
LINE ALFA GAMA 0
PAIR USD/JPY 3 1000000 92
START
",
        SPELLED,
    ),
    (SPELLED, SPELLED),
    (
        b"FXBOOK 2
BANK ALFA
TOTAL ALFA 7
BANK BETA
BANK GAMA
TOTAL GAMA 1000000000000000
PAIR EUR/USD 5 1000000 100
LINE ALFA BETA 12
TOTAL ALFA 0
START
",
        SPELLED_IN_TWO,
    ),
    (SPELLED_IN_TWO, SPELLED_IN_TWO),
];

const SPELLED: &[u8] = b"FXBOOK 1
BANK ALFA
BANK BETA
BANK GAMA
PAIR EUR/USD 5 1000000 100
PAIR USD/EUR 4 10000 1
PAIR USD/JPY 3 1000000 92
LINE ALFA BETA 12
LINE BETA ALFA 21
LINE GAMA ALFA 1000000000000000
START
";

/// A total of 0 is a total, and has its line.
const SPELLED_IN_TWO: &[u8] = b"FXBOOK 2
BANK ALFA
BANK BETA
BANK GAMA
PAIR EUR/USD 5 1000000 100
LINE ALFA BETA 12
TOTAL ALFA 0
TOTAL GAMA 1000000000000000
START
";

/// The one spelling of a header.
fn spelled(alloc: Global, header: &[u8]) -> Result<Vec<u8>, Fail> {
    let session = session_of(alloc, header)?;
    let mut text = Vec::new(alloc);
    head_text(&session, &mut text)?;
    Ok(text)
}

/// The most banks and pairs, with lines of the last two banks.
fn the_most(alloc: Global) -> Result<Vec<u8>, Memory> {
    let mut text = full(alloc, 64, 32)?;
    text.extend_from_slice(b"LINE B162 B163 6\nLINE B163 B100 5\nSTART\n")?;
    Ok(text)
}

#[test]
fn a_header_has_one_spelling(rt: HostRuntime) -> Result<(), Fail> {
    let alloc = rt.alloc();
    for (at, (header, want)) in WHOLE.iter().enumerate() {
        assert!(rt; spelled(alloc, header)?.as_slice() == *want, "header {at}");
    }
    let most = the_most(alloc)?;
    assert!(rt; spelled(alloc, &most)? == most);
    for header in [b"".as_slice(), b"FXBOOK 1\nBANK ALFA\n", b"FXBOOK 9\n"] {
        assert!(rt; session_of(alloc, header).is_err(), "{header:?}");
    }
    Ok(())
}
