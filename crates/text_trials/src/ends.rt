ghost use Rattle.std.specs.Prelude.{◌≡◌, ◌≤◌, IfOk};

use fx_amounts::Memory;
use fx_edges::{
    MemorySink, MemorySource, Sink, SinkFault, Source, StdSink, StdSource, SteadySink,
    SteadySource, write_all,
};
use std::alloc::Global;
use std::io;
use std::io::{Read, Write};
use std::test::Fail;

const TEXT: &[u8] = b"FXBOOK 1\nBANK ALFA\nBANK BETA\n";

/// `TEXT` as eleven reads with room for eight bytes give it: a bar is behind each piece.
const BY_EIGHTS: &[u8] = b"FXBOOK 1|\nBANK AL|FA\nBANK |BETA\n||||||||";

// A reader and a writer that fail each time.
#[derive(Drop)]
struct Broken;

impl Read for Broken {
    fn read(&mut self, _buf: &mut [u8]) -> io::Result<usize> {
        Err(io::Error::from(io::ErrorKind::BrokenPipe))
    }
}

impl Write for Broken {
    fn write(&mut self, _buf: &[u8]) -> io::Result<usize> {
        Err(io::Error::from(io::ErrorKind::BrokenPipe))
    }

    fn flush(&mut self) -> io::Result<()> {
        Ok(())
    }
}

// A writer that takes nothing.
#[derive(Drop)]
struct Full;

impl Write for Full {
    fn write(&mut self, _buf: &[u8]) -> io::Result<usize> {
        Ok(0)
    }

    fn flush(&mut self) -> io::Result<()> {
        Ok(())
    }
}

// A reader that gives three bytes at a time, and a writer that takes three.
#[derive(Drop)]
struct ByThrees<'a> {
    left: &'a [u8],
    kept: Vec<u8>,
}

impl<'a> Read for ByThrees<'a> {
    fn read(&mut self, buf: &mut [u8]) -> io::Result<usize> {
        let count = buf.len().min(self.left.len()).min(3);
        let (front, rest) = self.left.split_at(count);
        buf[..count].copy_from_slice(front);
        self.left = rest;
        Ok(count)
    }
}

impl<'a> Write for ByThrees<'a> {
    fn write(&mut self, buf: &[u8]) -> io::Result<usize> {
        let count = buf.len().min(3);
        match self.kept.extend_from_slice(&buf[..count]) {
            Ok(()) => Ok(count),
            Err(_) => Err(io::Error::from(io::ErrorKind::OutOfMemory)),
        }
    }

    fn flush(&mut self) -> io::Result<()> {
        Ok(())
    }
}

// A reader and a writer that a signal interrupts twice before each call that is done. It notes how many bytes each
// call was for, and moves them all.
#[derive(Drop)]
struct Interrupted {
    asked: Vec<usize>,
}

impl Interrupted {
    fn new(alloc: Global) -> Interrupted {
        Interrupted {
            asked: Vec::new(alloc),
        }
    }

    fn call(&mut self, count: usize) -> io::Result<usize>
        ensures { IfOk result (λ moved. moved ≡ count) }
    {
        self.asked.push(count)?;
        if self.asked.len() % 3 != 0 {
            return Err(io::Error::from(io::ErrorKind::Interrupted));
        }
        Ok(count)
    }
}

impl Read for Interrupted {
    fn read(&mut self, buf: &mut [u8]) -> io::Result<usize> {
        self.call(buf.len())
    }
}

impl Write for Interrupted {
    fn write(&mut self, buf: &[u8]) -> io::Result<usize> {
        self.call(buf.len())
    }

    fn flush(&mut self) -> io::Result<()> {
        Ok(())
    }
}

/// What eleven reads with room for eight bytes give: each piece with a bar behind it, and a `!` for a read that failed.
fn taken<S: Source>(alloc: Global, source: &mut S) -> Result<Vec<u8>, Memory> {
    let mut all = Vec::new(alloc);
    for _ in 0..11 {
        let mut into = [b'.'; 8];
        match source.read(&mut into) {
            Ok(count) => {
                all.extend_from_slice(&into[..count])?;
                all.push(b'|')?;
            }
            Err(_) => all.push(b'!')?,
        }
    }
    Ok(all)
}

/// Sources of `TEXT` in memory: how many bytes each gives at most at a call, the calls at which it fails, and what is taken of it.
const SOURCES: [(usize, &[u64], &[u8]); 4] = [
    (1, &[], b"F|X|B|O|O|K| |1|\n|B|A|"),
    (5, &[], b"FXBOO|K 1\nB|ANK A|LFA\nB|ANK B|ETA\n||||||"),
    (100, &[], BY_EIGHTS),
    (
        8,
        &[1, 3, 4],
        b"!FXBOOK 1|!!\nBANK AL|FA\nBANK |BETA\n|||||",
    ),
];

/// What is taken of such a source.
fn taken_from_memory(alloc: Global, most: usize, fails: &[u64]) -> Result<Vec<u8>, Memory>
    requires { 1 ≤ most }
{
    let mut source = MemorySource::new(TEXT.to_vec(alloc)?, most, fails.to_vec(alloc)?);
    taken(alloc, &mut source)
}

/// What `TEXT` is read from.
#[derive(Clone, Copy, Debug)]
enum Reader {
    Steady,
    Slice,
    Threes,
    Broken,
}

/// Readers, and what is taken of each.
const READERS: [(Reader, &[u8]); 4] = [
    (Reader::Steady, BY_EIGHTS),
    (Reader::Slice, BY_EIGHTS),
    (
        Reader::Threes,
        b"FXB|OOK| 1\n|BAN|K A|LFA|\nBA|NK |BET|A\n||",
    ),
    (Reader::Broken, b"!!!!!!!!!!!"),
];

/// What is taken of a reader.
fn taken_from(alloc: Global, reader: Reader) -> Result<Vec<u8>, Memory> {
    match reader {
        Reader::Steady => taken(alloc, &mut SteadySource::new(TEXT.to_vec(alloc)?)),
        Reader::Slice => taken(alloc, &mut StdSource::new(TEXT)),
        Reader::Threes => {
            let mut reader = ByThrees {
                left: TEXT,
                kept: Vec::new(alloc),
            };
            taken(alloc, &mut StdSource::new(&mut reader))
        }
        Reader::Broken => taken(alloc, &mut StdSource::new(Broken)),
    }
}

#[test]
fn sources_give_each_byte_once(rt: HostRuntime) -> Result<(), Fail> {
    for (most, fails, want) in SOURCES {
        let told = taken_from_memory(rt.alloc(), most.max(1), fails)?;
        assert!(rt; told.as_slice() == want, "{most} bytes at a call");
    }
    for (reader, want) in READERS {
        let told = taken_from(rt.alloc(), reader)?;
        assert!(rt; told.as_slice() == want, "{reader:?}");
    }
    Ok(())
}

/// Writes nothing, and then `TEXT`.
fn put<S: Sink>(sink: &mut S) -> Result<(), SinkFault> {
    write_all(sink, b"")?;
    write_all(sink, TEXT)
}

/// Sinks in memory: how many bytes each takes at most at a call, the calls at which it fails, and what is written of `TEXT` and END.
const SINKS: [(usize, &[u64], &[u8]); 6] = [
    (1, &[], b"FXBOOK 1\nBANK ALFA\nBANK BETA\nEND"),
    (3, &[], b"FXBOOK 1\nBANK ALFA\nBANK BETA\nEND"),
    (28, &[], b"FXBOOK 1\nBANK ALFA\nBANK BETA\nEND"),
    (29, &[], b"FXBOOK 1\nBANK ALFA\nBANK BETA\nEND"),
    (1000, &[], b"FXBOOK 1\nBANK ALFA\nBANK BETA\nEND"),
    (10, &[3], b"FXBOOK 1\nBANK ALFA\nBEND"),
];

/// What is written to such a sink; `None` where the first text is told otherwise than the calls that failed ask for.
fn put_in_memory(alloc: Global, most: usize, fails: &[u64]) -> Result<Option<Vec<u8>>, Memory>
    requires { 1 ≤ most }
{
    let mut sink = MemorySink::new(most, fails.to_vec(alloc)?);
    let want = if fails.is_empty() {
        Ok(())
    } else {
        Err(SinkFault::Failed)
    };
    let is_told = put(&mut sink) == want && write_all(&mut sink, b"END") == Ok(());
    let written = sink.written().to_vec(alloc)?;
    Ok(is_told.then_some(written))
}

/// What `TEXT` is written to.
#[derive(Clone, Copy, Debug)]
enum Writer {
    Steady,
    Text,
    Threes,
    Broken,
    Full,
}

/// Writers, and whether each takes all of `TEXT`, or else fails.
const WRITERS: [(Writer, bool); 5] = [
    (Writer::Steady, true),
    (Writer::Text, true),
    (Writer::Threes, true),
    (Writer::Broken, false),
    (Writer::Full, false),
];

/// Whether `TEXT`, and nothing else, is written to a writer.
fn takes_all(alloc: Global, writer: Writer) -> Result<bool, SinkFault> {
    match writer {
        Writer::Steady => {
            let mut sink = SteadySink::new(alloc);
            put(&mut sink)?;
            Ok(sink.written() == TEXT)
        }
        Writer::Text => {
            let mut kept = Vec::new(alloc);
            put(&mut StdSink::new(&mut kept))?;
            Ok(kept.as_slice() == TEXT)
        }
        Writer::Threes => {
            let mut writer = ByThrees {
                left: b"",
                kept: Vec::new(alloc),
            };
            put(&mut StdSink::new(&mut writer))?;
            Ok(writer.kept.as_slice() == TEXT)
        }
        Writer::Broken => put(&mut StdSink::new(Broken)).map(|()| false),
        Writer::Full => put(&mut StdSink::new(Full)).map(|()| false),
    }
}

#[test]
fn sinks_take_each_byte_once(rt: HostRuntime) -> Result<(), Fail> {
    for (most, fails, want) in SINKS {
        let written = put_in_memory(rt.alloc(), most.max(1), fails)?;
        assert!(rt; written.as_deref() == Some(want), "{most} bytes at a call");
    }
    for (writer, is_whole) in WRITERS {
        let want = if is_whole {
            Ok(true)
        } else {
            Err(SinkFault::Failed)
        };
        assert!(rt; takes_all(rt.alloc(), writer) == want, "{writer:?}");
    }
    Ok(())
}

#[test]
fn std_ends_try_again_and_ask_for_all(rt: HostRuntime) -> Result<(), Fail> {
    let mut reader = Interrupted::new(rt.alloc());
    let mut into = [0; 5000];
    assert!(rt; StdSource::new(&mut reader).read(&mut into) == Ok(5000));
    assert!(rt; reader.asked.as_slice() == [5000; 3].as_slice());

    let mut writer = Interrupted::new(rt.alloc());
    assert!(rt; StdSink::new(&mut writer).write(TEXT) == Ok(TEXT.len()));
    assert!(rt; writer.asked.as_slice() == [TEXT.len(); 3].as_slice());
    Ok(())
}
