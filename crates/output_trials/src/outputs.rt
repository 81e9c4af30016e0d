use crate::fixture::{QUIET, TRADES, TRADING, holds, played};
use crate::written::write_output;
use fx_edges::{MemorySink, Pieces, SteadySink};
use reply_lines::{Ending, OutFault};
use std::alloc::Global;
use std::test::Fail;

/// The output of these commands.
pub(crate) fn output(
    alloc: Global,
    header: &[u8],
    commands: &[u8],
    strays: u64,
    ending: Ending,
) -> Result<Vec<u8>, Fail> {
    let (session, entries) = played(alloc, header, commands)?;
    let mut sink = SteadySink::new(alloc);
    write_output(alloc, &session, &entries, strays, ending, &mut sink)?;
    Ok(Vec::from_slice(alloc, sink.written())?)
}

/// Commands of which each outcome comes once at least.
pub(crate) const BUSY: &[u8] = b"BETA SELL EUR/USD 1.08420 2 DAY
ALFA BUY EUR/USD 1.08425 3 DAY
BETA BOOK EUR/USD
ALFA REDUCE EUR/USD 1 1
GAMA BUY EUR/USD 1.08430 1 FOK
GAMA CANCEL EUR/USD 7
ALFA LINE BETA 400
ALFA SHOW BETA
ALFA BUY EUR/USD 1.08400 5 DAY
ALFA REDUCE EUR/USD 5 3
ALFA CANCEL EUR/USD 1
ALFA PULL EUR/USD
GAMA BUY EUR/USD 1.08420 1 GTC
";

/// How the reports end of days on which ALFA bought two lots of BETA.
const END_OF_REPORT: &[u8] = b"USE ALFA GAMA 0 0 0 0
USE BETA GAMA 0 0 0 0
NET ALFA EUR 2000000
NET ALFA USD -2168400
NET BETA EUR -2000000
NET BETA USD 2168400
NET GAMA EUR 0
NET GAMA USD 0
STRAYS 0
END
";

#[test]
fn a_fill_as_its_banks_see_it(rt: HostRuntime) -> Result<(), Fail> {
    let text = output(rt.alloc(), TRADING, TRADES, 0, Ending::End)?;
    let expected: &[u8] = b"FXBOOK 1
BANK ALFA
BANK BETA
BANK GAMA
PAIR EUR/USD 5 1000000 100
LINE ALFA BETA 1000
LINE BETA ALFA 1000
START
JOURNAL 3
BETA SELL EUR/USD 1.08420 2 DAY
ALFA BUY EUR/USD 1.08425 3 DAY
GAMA BAD 3
DESK ALFA 2
1 REPLY 1 ORDERED 2 1
2 FILL 1 BUY EUR/USD 2 1.08420 BETA 2000000 2168400
DESK BETA 2
1 REPLY 1 ORDERED 0 2
2 FILL 1 SELL EUR/USD 2 1.08420 ALFA 2000000 2168400
DESK GAMA 1
1 REPLY 1 BAD 3
BOOKS
ALFA EUR/USD BIDS ASKS
BETA EUR/USD BIDS 1.08425 1 ASKS
GAMA EUR/USD BIDS ASKS
REPORT
VOLUME EUR/USD 1 2 2000000 2168400
USE ALFA BETA 1000 1000 200 800
";
    assert!(rt; text.as_slice().strip_suffix(END_OF_REPORT) == Some(expected));
    Ok(())
}

/// Desks of the busy day, and the report up to its end.
const BUSY_PARTS: [&[u8]; 4] = [
    b"DESK GAMA 3
1 REPLY 1 KILLED
2 REPLY 2 NOTHING
3 REPLY 3 BAD 10
BOOKS
",
    b"DESK ALFA 9
1 REPLY 1 ORDERED 2 1
2 FILL 1 BUY EUR/USD 2 1.08420 BETA 2000000 2168400
3 REPLY 2 NOTLESS 1
4 REPLY 3 LIMIT 400
5 REPLY 4 SHOWN 400 200 200
6 REPLY 5 ORDERED 0 5
7 REPLY 6 REDUCED 3
8 REPLY 7 CANCELLED 1
9 REPLY 8 PULLED 1
DESK BETA 3
",
    b"DESK BETA 3
1 REPLY 1 ORDERED 0 2
2 FILL 1 SELL EUR/USD 2 1.08420 ALFA 2000000 2168400
3 REPLY 2 BOOK EUR/USD BIDS 1.08425 1 ASKS
DESK GAMA 3
",
    b"REPORT
VOLUME EUR/USD 1 2 2000000 2168400
USE ALFA BETA 400 1000 200 200
",
];

#[test]
fn each_reply_and_the_report_have_their_texts(rt: HostRuntime) -> Result<(), Fail> {
    let text = output(rt.alloc(), TRADING, BUSY, 0, Ending::End)?;
    let front = text.as_slice().strip_suffix(END_OF_REPORT).unwrap_or(b"");
    for (at, part) in BUSY_PARTS.iter().enumerate() {
        assert!(rt; holds(front, part), "part {at}");
    }
    Ok(())
}

#[test]
fn the_line_of_strays(rt: HostRuntime) -> Result<(), Fail> {
    let text = output(rt.alloc(), QUIET, b"", u64::MAX, Ending::Much)?;
    assert!(rt; holds(&text, b"\nSTRAYS 18446744073709551615\nMUCH\n"));
    Ok(())
}

/// A desk of more than nine notices counts them in two digits.
#[test]
fn the_line_of_a_desk(rt: HostRuntime) -> Result<(), Fail> {
    let mut journal = Vec::new(rt.alloc());
    for _ in 0..12 {
        journal.extend_from_slice(b"BETA SHOW ALFA\n")?;
    }
    let text = output(rt.alloc(), TRADING, &journal, 0, Ending::Read)?;
    assert!(rt;
        holds(
            &text,
            b"DESK ALFA 0\nDESK BETA 12\n1 REPLY 1 SHOWN 1000 0 1000\n"
        )
    );
    assert!(rt; holds(&text, b"\n12 REPLY 12 SHOWN 1000 0 1000\nDESK GAMA 0\n"));
    Ok(())
}

const QUIET_DAY: &[u8] = b"FXBOOK 1
BANK ALFA
BANK BETA
BANK GAMA
PAIR EUR/USD 5 1000000 100
START
JOURNAL 0
DESK ALFA 0
DESK BETA 0
DESK GAMA 0
BOOKS
ALFA EUR/USD BIDS ASKS
BETA EUR/USD BIDS ASKS
GAMA EUR/USD BIDS ASKS
REPORT
VOLUME EUR/USD 0 0 0 0
USE ALFA BETA 0 0 0 0
USE ALFA GAMA 0 0 0 0
USE BETA GAMA 0 0 0 0
NET ALFA EUR 0
NET ALFA USD 0
NET BETA EUR 0
NET BETA USD 0
NET GAMA EUR 0
NET GAMA USD 0
STRAYS 3
CUT
";

#[test]
fn a_day_without_commands(rt: HostRuntime) -> Result<(), Fail> {
    let (session, entries) = played(rt.alloc(), QUIET, b"")?;
    let mut out = MemorySink::new(7, Vec::new(rt.alloc()));
    write_output(rt.alloc(), &session, &entries, 3, Ending::Cut, &mut out)?;
    assert!(rt; out.written() == QUIET_DAY);
    Ok(())
}

#[test]
fn a_write_that_fails(rt: HostRuntime) -> Result<(), Fail> {
    let (session, entries) = played(rt.alloc(), QUIET, b"")?;
    let mut fails = Vec::new(rt.alloc());
    fails.push(9)?;
    let mut out = MemorySink::new(7, fails);
    let answer = write_output(rt.alloc(), &session, &entries, 3, Ending::End, &mut out);
    assert!(rt; answer == Err(OutFault::Write));
    assert!(rt; QUIET_DAY.starts_with(out.written()));
    assert!(rt; out.written().len() < 64);
    Ok(())
}

// A sink gets a piece once it has 64 KiB, and what is left at the end; a text of so much goes on at once.
#[test]
fn a_text_in_pieces(rt: HostRuntime) -> Result<(), Fail> {
    let half = [b'x'; 40_000];
    let long = [b'y'; 70_000];
    let mut out = MemorySink::new(10, Vec::new(rt.alloc()));
    let mut pieces = Pieces::new(rt.alloc());
    assert!(rt; pieces.put(&half, &mut out) == Ok(()));
    assert!(rt; out.written().is_empty());
    assert!(rt; pieces.put(&half, &mut out) == Ok(()));
    assert!(rt; out.written().len() == 80_000);
    assert!(rt; pieces.put(b"end", &mut out) == Ok(()));
    assert!(rt; out.written().len() == 80_000);
    assert!(rt; pieces.put(&long, &mut out) == Ok(()));
    assert!(rt; out.written().len() == 150_003);
    assert!(rt; out.written()[79_999..80_004].starts_with(b"xendy"));
    assert!(rt; pieces.put(b"END", &mut out) == Ok(()));
    assert!(rt; pieces.hand_on(&mut out) == Ok(()));
    assert!(rt; out.written().ends_with(b"yEND"));
    Ok(())
}
