ghost use Rattle.std.specs.Prelude.{◌≤◌};

use fx_amounts::Memory;
use fx_edges::MemorySource;
use session_script::Reading;
use std::alloc::Global;
use std::test::Fail;

/// A header with comments, empty lines and both line ends, up to START.
const HEADER: &[u8] =
    b"# a day\r\n\r\nFXBOOK 1\r\nBANK ALFA\nBANK BETA\n  # a pair\nPAIR EUR/USD 5 1000000 100\n\tSTART \r\n";

/// A header of version 2.
const HEADER_IN_TWO: &[u8] =
    b"FXBOOK 2\nBANK ALFA\nBANK BETA\nPAIR EUR/USD 5 1000000 100\nTOTAL BETA 0\nSTART\n";

/// Two orders, a line with a wrong word, and between them a comment, two strays and an empty line.
const LINES: &[u8] =
    b"ALFA BUY EUR/USD 1.08425 3 DAY\r\n# BETA PULL EUR/USD\nGAMA PULL EUR/USD\n\n BETA\tSELL EUR/USD 1.08430 2 IOC\nHOST\nBETA WAIT\n";

/// What `LINES` say.
const SAID: &str =
    "[Sent { bank: BankId(0), command: Order { side: Buy, pair: PairId(0), price: Price { ticks: 108425 }, lots: Lots { count: 3 }, life: Day } }, \
                    Sent { bank: BankId(1), command: Order { side: Sell, pair: PairId(0), price: Price { ticks: 108430 }, lots: Lots { count: 2 }, life: Ioc } }, \
                    Sent { bank: BankId(1), command: Bad { reason: Word } }]";

/// What is behind END is looked at by nobody.
const BEHIND: &[u8] = b"ALFA PULL EUR/USD\nHOST\nEND\nFXBOOK 1\n";

/// So many that a line with them is a long one.
const BLANKS: &[u8] = &[b' '; 300];

/// Texts in parts, each read in pieces of at most so many bytes, from a source that fails at one of these calls, or at call 0,
/// which there is none of. What each says, unless that is left open, and the end of what is told of it.
type Case = (
    &'static [&'static [&'static [u8]]],
    &'static [usize],
    &'static [u64],
    Option<&'static str>,
    &'static str,
);

/// Pieces of any size.
const ANY: &[usize] = &[1, 2, 3, 7, 4096, 10_000];

const CASES: [Case; 15] = [
    // The END line may be what is left over at the source's end.
    (
        &[
            &[HEADER, LINES, b"END\r\n", BEHIND],
            &[HEADER, LINES, b" END\t"],
        ],
        ANY,
        &[0],
        Some(SAID),
        "2 banks, 1 pairs, 2 strays, Some(EndLine)",
    ),
    (
        &[&[HEADER, b"END"]],
        ANY,
        &[0],
        Some("[]"),
        "2 banks, 1 pairs, 0 strays, Some(EndLine)",
    ),
    // In version 2 a line of the operator is no stray.
    (
        &[&[HEADER_IN_TWO, b"HOST SETTLE ALFA BETA 5\nHOST\nEND\n"]],
        &[64],
        &[0],
        Some(
            "[Sent { bank: BankId(64), command: Settle { a: BankId(0), b: BankId(1), units: Units { units: 5 } } }, \
                    Sent { bank: BankId(64), command: Bad { reason: Word } }]",
        ),
        "2 banks, 1 pairs, 0 strays, Some(EndLine)",
    ),
    // A line of more than 256 bytes is bad where a bank begins it, and else a stray; it is no END line.
    (
        &[&[
            HEADER, b"BETA", BLANKS, b"\nGAMA", BLANKS, b"\nEND", BLANKS, b"\n#", BLANKS,
            b"\nEND\n",
        ]],
        ANY,
        &[0],
        Some("[Sent { bank: BankId(1), command: Bad { reason: Long } }]"),
        "2 banks, 1 pairs, 2 strays, Some(EndLine)",
    ),
    (
        &[&[HEADER, b"END", BLANKS]],
        &[64],
        &[0],
        Some("[]"),
        "Some(Early(Cut))",
    ),
    // The whole lines of a text that is cut are read.
    (
        &[
            &[HEADER, LINES],
            &[HEADER, LINES, b"EN"],
            &[HEADER, LINES, b"END x"],
            &[HEADER, LINES, b"BETA WAIT"],
            &[HEADER, LINES, b"# END"],
        ],
        &[64],
        &[0],
        Some(SAID),
        "2 banks, 1 pairs, 2 strays, Some(Early(Cut))",
    ),
    // Without START there is no END line.
    (
        &[
            &[b""],
            &[b"END"],
            &[b"FXBOOK 1\nEND"],
            &[b"FXBOOK 1\nBANK ALFA\nBANK BETA\nSTART"],
        ],
        &[64],
        &[0],
        Some(""),
        "Early(Cut)",
    ),
    // A fault's line is counted with all lines that are ignored, and no read comes behind it.
    (
        &[&[b"# c\n\nFXBOOK 3\nFXBOOK 1\n"]],
        &[5],
        &[0],
        Some(""),
        "Header { line: 3, reason: Version }",
    ),
    (
        &[&[b"# c\n\nFXBOOK 3\nFXBOOK 1\n"]],
        &[14],
        &[2],
        Some(""),
        "Header { line: 3, reason: Version }",
    ),
    (
        &[&[b"FXBOOK 1\n#\nBANK ALFA\nEND\n"]],
        &[64],
        &[0],
        Some(""),
        "Header { line: 4, reason: Word }",
    ),
    // The source fails at one of the calls that are made for the text, of 16 bytes each: 14 up to its END line, or one more where
    // the END line has no line feed, and the source's end has to be met. START ends with the sixth piece.
    (
        &[&[HEADER, LINES, b"END\n", BEHIND], &[HEADER, LINES, b"END"]],
        &[16],
        &[1, 2, 3, 4, 5, 6],
        Some(""),
        "Early(ReadFault)",
    ),
    (
        &[
            &[HEADER, LINES, b"END\n", BEHIND],
            &[HEADER, LINES, b"END\n"],
            &[HEADER, LINES, b"END"],
        ],
        &[16],
        &[7, 8, 9, 10, 11, 12, 13, 14],
        None,
        "Some(Early(ReadFault))",
    ),
    (
        &[&[HEADER, LINES, b"END"]],
        &[16],
        &[15],
        None,
        "Some(Early(ReadFault))",
    ),
    (
        &[&[HEADER, LINES, b"END\n", BEHIND]],
        &[16],
        &[15],
        Some(SAID),
        "2 banks, 1 pairs, 2 strays, Some(EndLine)",
    ),
    (
        &[&[HEADER, LINES, b"END"]],
        &[16],
        &[16],
        Some(SAID),
        "2 banks, 1 pairs, 2 strays, Some(EndLine)",
    ),
];

/// In so many rounds 2^26 bytes are taken.
const MOST_ROUNDS: u32 = 1024;

/// The source of a case.
fn source_of(alloc: Global, parts: &[&[u8]], most: usize, call: u64) -> Result<MemorySource, Memory>
    requires { 1 ≤ most }
{
    let mut text = Vec::new(alloc);
    for part in parts {
        text.extend_from_slice(part)?;
    }
    let mut fails = Vec::new(alloc);
    fails.push(call)?;
    Ok(MemorySource::new(text, most, fails))
}

/// The commands of all rounds, in words, and the rest of what is told of a text that was read to its end.
fn told_of(
    alloc: Global,
    source: &mut MemorySource,
    reading: &mut Reading,
) -> Result<(String, String), Fail> {
    let mut sent = Vec::new(alloc);
    sent.extend_from_slice(&reading.script().sent)?;
    for _round in 0..MOST_ROUNDS {
        if reading.end().is_some() {
            break;
        }
        reading.read_round(source)?;
        sent.extend_from_slice(&reading.script().sent)?;
    }
    let script = reading.script();
    let (banks, pairs) = (script.session.banks().len(), script.session.pairs().len());
    let said = format!(in alloc; "{:?}", sent.as_slice())?;
    let rest = format!(in alloc;
        "{banks} banks, {pairs} pairs, {} strays, {:?}",
        script.strays,
        reading.end()
    )?;
    Ok((said, rest))
}

/// What a text says, and the rest of what is told of it.
fn read(alloc: Global, source: &mut MemorySource) -> Result<(String, String), Fail> {
    match Reading::begin(alloc, source) {
        Ok(mut reading) => told_of(alloc, source, &mut reading),
        Err(stop) => Ok((String::new(alloc), format!(in alloc; "{stop:?}")?)),
    }
}

/// Whether a text in parts is read as a case tells, with these pieces and this failing call.
fn is_read(
    alloc: Global,
    case: &Case,
    parts: &[&[u8]],
    most: usize,
    call: u64,
) -> Result<bool, Fail>
    requires { 1 ≤ most }
{
    let (_, _, _, want, end) = case;
    let (said, rest) = read(alloc, &mut source_of(alloc, parts, most, call)?)?;
    let is_said = match want {
        Some(want) => said.as_str() == *want,
        None => true,
    };
    Ok(is_said && rest.ends_with(end))
}

/// Whether a text is read so in all pieces of a case and with each of its failing calls.
fn is_always_read(alloc: Global, case: &Case, parts: &[&[u8]]) -> Result<bool, Fail> {
    let (_, sizes, calls, _, _) = case;
    for most in sizes.iter() {
        for call in calls.iter() {
            if !is_read(alloc, case, parts, (*most).max(1), *call)? {
                return Ok(false);
            }
        }
    }
    Ok(true)
}

#[test]
fn texts_are_read_in_any_pieces(rt: HostRuntime) -> Result<(), Fail> {
    for (at, case) in CASES.iter().enumerate() {
        for parts in case.0.iter() {
            assert!(rt; is_always_read(rt.alloc(), case, parts)?, "case {at}");
        }
    }
    Ok(())
}
