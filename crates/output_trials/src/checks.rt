use crate::fixture::{QUIET, TRADES, TRADING, agreeing};
use crate::outputs::output;
use fx_amounts::Memory;
use journal_check::{Verdict, check_output};
use reply_lines::Ending;
use std::alloc::Global;
use std::test::Fail;

/// The output of a day without commands.
fn quiet_day(alloc: Global) -> Result<Vec<u8>, Fail> {
    output(alloc, QUIET, b"", 0, Ending::End)
}

/// The output of three commands.
fn trading_day(alloc: Global) -> Result<Vec<u8>, Fail> {
    output(alloc, TRADING, TRADES, 0, Ending::End)
}

/// The text with another piece in the place of so many of its bytes.
fn spliced(
    alloc: Global,
    text: &[u8],
    at: usize,
    count: usize,
    piece: &[u8],
) -> Result<Vec<u8>, Memory> {
    let (front, rest) = text.split_at(at.min(text.len()));
    let (_, back) = rest.split_at(count.min(rest.len()));
    let mut all = Vec::from_slice(alloc, front)?;
    all.extend_from_slice(piece)?;
    all.extend_from_slice(back)?;
    Ok(all)
}

/// Whether an output is right, and wrong at its end wherever it is cut.
fn is_right_whole(alloc: Global, text: &[u8]) -> Result<bool, Memory> {
    for end in 0..text.len() {
        let (front, _) = text.split_at(end);
        if check_output(alloc, front)? != (Verdict::No { offset: end as u64 }) {
            return Ok(false);
        }
    }
    Ok(matches!(check_output(alloc, text)?, Verdict::Yes(_)))
}

#[test]
fn an_output_is_right_whole(rt: HostRuntime) -> Result<(), Fail> {
    let quiet = quiet_day(rt.alloc())?;
    assert!(rt; is_right_whole(rt.alloc(), &quiet)?);
    let trading = trading_day(rt.alloc())?;
    assert!(rt; is_right_whole(rt.alloc(), &trading)?);
    Ok(())
}

/// Behind the journal a text is wrong at the first byte that is another one.
#[test]
fn changes_behind_the_journal(rt: HostRuntime) -> Result<(), Fail> {
    let text = trading_day(rt.alloc())?;
    // The journal ends at 196, and the last lines take 13 bytes.
    for at in 196..text.len().saturating_sub(13) {
        for (count, piece) in [
            (1, b"~".as_slice()),
            (1, b"".as_slice()),
            (0, b"~".as_slice()),
        ] {
            let changed = spliced(rt.alloc(), &text, at, count, piece)?;
            let offset = agreeing(&text, &changed) as u64;
            assert!(rt;
                check_output(rt.alloc(), &changed)? == Verdict::No { offset },
                "at {at}"
            );
        }
    }
    Ok(())
}

/// Changes of the quiet day: at which byte how many give way to what, and where the text is wrong then. In header and journal a line
/// that cannot be read is wrong where it begins, and another spelling of it where that differs.
const QUIET_CHANGES: [(usize, usize, &[u8], usize); 19] = [
    (92, 1, b"1", 92),
    (392, 0, b"\n", 392),
    (7, 1, b"2", 118),
    (7, 1, b"3", 0),
    (10, 1, b"U", 9),
    (39, 1, b"#", 66),
    (9, 0, b" ", 9),
    (23, 1, b"\t", 23),
    (53, 0, b"0", 39),
    (71, 0, b"\r", 71),
    (9, 0, b"#\n", 9),
    (72, 0, b"#\n", 72),
    (80, 1, b"1", 82),
    (80, 0, b"0", 72),
    (80, 0, b" ", 80),
    (79, 2, b"", 72),
    (80, 1, b"0 0", 72),
    (80, 1, b"268435457", 72),
    (80, 1, b"268435456", 90),
];

/// Changes of the entries of the trading day, which begin at 122, 154 and 185, each with the place at which it is found.
const ENTRY_CHANGES: [(usize, usize, &[u8], usize); 8] = [
    (130, 1, b"K", 122),
    (154, 4, b"DELT", 154),
    (154, 0, b"\n", 154),
    (154, 0, b"#\n", 154),
    (179, 1, b"0", 154),
    (158, 1, b"\t", 158),
    (194, 1, b"12", 185),
    (190, 5, b"PULL EUR/GBP", 185),
];

/// What stands in place of the quiet day's last lines, which begin at 379, and where behind that the text is wrong then.
const LAST_LINES: [(&[u8], usize); 15] = [
    (b"STRAYS 00\nEND\n", 0),
    (b"STRAYS 18446744073709551616\nEND\n", 0),
    (b"STRAYS  0\nEND\n", 0),
    (b"STRAYS\nEND\n", 0),
    (b"STRAYS 0\r\nEND\n", 0),
    (b"STRAY 0\nEND\n", 0),
    (b"\nSTRAYS 0\nEND\n", 0),
    (b"STRAYS 0\nENDE\n", 9),
    (b"STRAYS 0\nEND\r\n", 9),
    (b"STRAYS 0\nSTOP\n", 9),
    (b"STRAYS 0\n\nEND\n", 9),
    (b"STRAYS 0\n", 9),
    (b"STRAYS 0\nEND", 12),
    (b"STRAYS 0\nEND\nEND\n", 13),
    (b"STRAYS 0\nEND\n\0", 13),
];

/// What may stand there.
const OTHER_LAST_LINES: [&[u8]; 6] = [
    b"STRAYS 7\nEND\n",
    b"STRAYS 10\nCUT\n",
    b"STRAYS 0\nREAD\n",
    b"STRAYS 0\nMUCH\n",
    b"STRAYS 0\nEND\n",
    b"STRAYS 18446744073709551615\nEND\n",
];

/// Where a text is wrong once a piece stands in the place of so many of its bytes; `None` where it is right.
fn wrong_at(
    alloc: Global,
    text: &[u8],
    at: usize,
    count: usize,
    piece: &[u8],
) -> Result<Option<u64>, Memory> {
    let changed = spliced(alloc, text, at, count, piece)?;
    match check_output(alloc, &changed)? {
        Verdict::Yes(_) => Ok(None),
        Verdict::No { offset } => Ok(Some(offset)),
    }
}

#[test]
fn a_change_is_wrong_where_it_differs(rt: HostRuntime) -> Result<(), Fail> {
    let alloc = rt.alloc();
    let quiet = quiet_day(alloc)?;
    for (at, count, piece, offset) in QUIET_CHANGES {
        let wrong = wrong_at(alloc, &quiet, at, count, piece)?;
        assert!(rt; wrong == Some(offset as u64), "at {at}: wrong at {wrong:?}");
    }
    for (piece, offset) in LAST_LINES {
        let wrong = wrong_at(alloc, &quiet, 379, 13, piece)?;
        assert!(rt;
            wrong == Some(379 + offset as u64),
            "last lines wrong at {wrong:?}"
        );
    }
    for piece in OTHER_LAST_LINES {
        assert!(rt;
            wrong_at(alloc, &quiet, 379, 13, piece)? == None,
            "{piece:?}"
        );
    }
    let trading = trading_day(alloc)?;
    for (at, count, piece, offset) in ENTRY_CHANGES {
        let wrong = wrong_at(alloc, &trading, at, count, piece)?;
        assert!(rt;
            wrong == Some(offset as u64),
            "entry at {at}: wrong at {wrong:?}"
        );
    }
    Ok(())
}

/// Comments of so many letters before a line with a fault at 19, and where the text is wrong then: a line of more than 256 bytes is
/// wrong where it begins, also one that begins with `#`.
const COMMENTS: [(usize, &[u8], u64); 3] = [
    (255, b"\n", 19 + 257),
    (256, b"\n", 9),
    (255, b"\r\n", 9),
];

/// The quiet day's text with another letter at 19 and such a comment before it.
fn commented(alloc: Global, letters: usize, end: &[u8]) -> Result<Vec<u8>, Fail> {
    let faulty = spliced(alloc, &quiet_day(alloc)?, 19, 1, b"X")?;
    let mut comment = Vec::from_slice(alloc, b"#")?;
    for _ in 0..letters {
        comment.push(b'x')?;
    }
    comment.extend_from_slice(end)?;
    Ok(spliced(alloc, &faulty, 9, 0, &comment)?)
}

#[test]
fn long_lines_are_wrong(rt: HostRuntime) -> Result<(), Fail> {
    let alloc = rt.alloc();
    for (letters, end, want) in COMMENTS {
        let text = commented(alloc, letters, end)?;
        assert!(rt;
            check_output(alloc, &text)? == Verdict::No { offset: want },
            "{letters} letters"
        );
    }
    Ok(())
}
