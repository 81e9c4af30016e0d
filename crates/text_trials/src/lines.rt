ghost use Rattle.std.specs.Prelude.{◌<◌};

use crate::filled::{Filled, filled};
use fx_amounts::Memory;
use fx_text::{Bytes, Line, LineCutter, fields};
use std::alloc::Global;
use std::test::Fail;

/// Texts, and what they are cut into: each line with a bar behind it, and of a long line its first field with two; and then a dot
/// where the rest is the END line.
const CUT: [(&[u8], &[u8]); 8] = [
    (
        b"FXBOOK 1\nBANK ALFA\nPAIR EUR/USD 5 1000000 100\nSTART\nBETA SELL EUR/USD 1.08420 2 DAY\nEND\n",
        b"FXBOOK 1|BANK ALFA|PAIR EUR/USD 5 1000000 100|START|BETA SELL EUR/USD 1.08420 2 DAY|END|",
    ),
    (
        b"A\r\n\nB\rC\nD\r\r\n \tE  F\t\n\xff\xc3\x28\x00\nG",
        b"A||B\rC|D\r| \tE  F\t|\xff\xc3\x28\x00|",
    ),
    (b"", b""),
    (b"END", b"."),
    (b"\tEND ", b"."),
    (b"END\r", b""),
    (b"END now", b""),
    (b"ENDE", b""),
];

/// Texts with many of one byte in them, and the lines into which each is cut.
const LONG: [(Filled<'static>, Filled<'static>); 11] = [
    ((b"", b'x', 256, b"\n"), (b"", b'x', 256, b"|")),
    ((b"", b'x', 256, b"\r\n"), (b"", b'x', 256, b"|")),
    ((b"", b' ', 255, b"x\n"), (b"", b' ', 255, b"x|")),
    ((b"", b'x', 257, b"\n"), (b"", b'x', 256, b"||")),
    ((b"", b'x', 256, b"\r\r\n"), (b"", b'x', 256, b"||")),
    ((b"", b' ', 256, b"x\n"), (b"", b'x', 0, b"||")),
    ((b"ALFA ", b'x', 252, b"\n"), (b"ALFA", b'x', 0, b"||")),
    ((b"#", b'x', 5000, b"\n"), (b"#", b'x', 255, b"||")),
    ((b"END", b' ', 300, b"\n"), (b"END", b'x', 0, b"||")),
    ((b"END", b' ', 253, b""), (b"", b'x', 0, b".")),
    ((b"END", b' ', 254, b""), (b"", b'x', 0, b"")),
];

/// What a text is cut into, where it comes in pieces of this size.
fn cut(alloc: Global, text: &[u8], size: usize) -> Result<Vec<u8>, Memory>
    requires { 0 < size }
{
    let mut cutter = LineCutter::new();
    let mut lines = Vec::new(alloc);
    for piece in text.chunks(size) {
        cutter.feed(piece, &mut lines)?;
    }
    let mut told = Vec::new(alloc);
    for line in &lines {
        tell(line, &mut told)?;
    }
    if cutter.rest_is_end() {
        told.push(b'.')?;
    }
    Ok(told)
}

fn tell(line: &Line, told: &mut Vec<u8>) -> Result<(), Memory> {
    match line {
        Line::Whole(bytes) => {
            told.extend_from_slice(bytes.as_slice())?;
            told.extend_from_slice(b"|")?;
        }
        Line::Long(field) => {
            told.extend_from_slice(field.as_slice())?;
            told.extend_from_slice(b"||")?;
        }
    }
    Ok(())
}

/// Whether a text is cut into these lines, in whatever pieces it comes.
fn is_cut(alloc: Global, text: &[u8], want: &[u8]) -> Result<bool, Memory> {
    for size in [1, 2, 3, 7, 198, 4096] {
        if cut(alloc, text, size)?.as_slice() != want {
            return Ok(false);
        }
    }
    Ok(true)
}

/// Whether a long text is cut into these long lines, in whatever pieces it comes.
fn is_cut_long(alloc: Global, text: Filled, want: Filled) -> Result<bool, Memory> {
    let text = filled(alloc, text)?;
    let want = filled(alloc, want)?;
    is_cut(alloc, &text, &want)
}

#[test]
fn texts_are_cut_alike_in_any_pieces(rt: HostRuntime) -> Result<(), Fail> {
    for (at, (text, want)) in CUT.iter().enumerate() {
        assert!(rt; is_cut(rt.alloc(), text, want)?, "text {at}");
    }
    for (at, (text, want)) in LONG.iter().enumerate() {
        assert!(rt; is_cut_long(rt.alloc(), *text, *want)?, "long text {at}");
    }
    Ok(())
}

/// Lines, whether each is a long one's first field, and whether it is ignored.
const PASSED: [(bool, &[u8], bool); 9] = [
    (false, b"", true),
    (false, b" \t", true),
    (false, b"# morning", true),
    (false, b" #x", true),
    (false, b"ALFA #x", false),
    (false, b"ALFA", false),
    (true, b"#x", true),
    (true, b"", false),
    (true, b"ALFA", false),
];

fn is_passed_over(alloc: Global, long: bool, text: &[u8]) -> Result<bool, Memory> {
    let bytes = Bytes::from_vec(Vec::from_slice(alloc, text)?);
    let line = if long {
        Line::Long(bytes)
    } else {
        Line::Whole(bytes)
    };
    Ok(line.is_passed_over())
}

#[test]
fn lines_are_passed_over(rt: HostRuntime) -> Result<(), Fail> {
    for (at, (long, text, passed)) in PASSED.iter().enumerate() {
        assert!(rt;
            is_passed_over(rt.alloc(), *long, text)? == *passed,
            "line {at}"
        );
    }
    Ok(())
}

/// Lines, how many fields each has, and some of them by their places.
const FIELDS: [(&[u8], usize, usize, Option<&[u8]>); 6] = [
    (b" 0 1\t2  3 4 5 6 seven 8 9\t ", 10, 0, Some(b"0")),
    (b" 0 1\t2  3 4 5 6 seven 8 9\t ", 10, 7, Some(b"seven")),
    (b" 0 1\t2  3 4 5 6 seven 8 9\t ", 10, 8, None),
    (b"ALFA\xff BUY", 2, 0, Some(b"ALFA\xff")),
    (b"ALFA\xff BUY", 2, 2, None),
    (b" \t ", 0, 0, None),
];

#[test]
fn fields_are_counted_and_kept(rt: HostRuntime) {
    for (at, (line, count, place, want)) in FIELDS.iter().enumerate() {
        let all = fields(line);
        assert!(rt;
            all.count() == *count && all.get(*place) == *want,
            "line {at}"
        );
    }
}
