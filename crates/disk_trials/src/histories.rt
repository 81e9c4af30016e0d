ghost use Rattle.std.specs.Prelude.{◌<◌, length, IfOk};

use fx_amounts::Memory;
use fx_disk::SteadyDisk;
use keep_disk::{Body, open_keeper};
use kept_history::{Found, history};
use std::alloc::Global;
use std::test::Fail;

const HEADER: &[u8] = b"FXBOOK 1
BANK ALFA
BANK BETA
PAIR EUR/USD 5 1000000 100
LINE ALFA BETA 1000
LINE BETA ALFA 1000
START
";

/// A header of whose first line a byte is damaged.
const DAMAGED: &[u8] = b"GXBOOK 1
BANK ALFA
BANK BETA
PAIR EUR/USD 5 1000000 100
START
";

const SELL: &[u8] = b"BETA SELL EUR/USD 1.08420 2 DAY\n";

const BUY: &[u8] = b"ALFA BUY EUR/USD 1.08425 3 DAY\nALFA BAD 1\n";

/// The bodies of three blocks; how many bytes of their file are cut off; and what is found in it: whether the blocks are whole, and
/// how many entries there are or which block is damaged.
type Row = ([&'static [u8]; 3], usize, (bool, u64));

const FOUND: [Row; 15] = [
    ([HEADER, SELL, BUY], 0, (true, 3)),
    ([HEADER, b"", SELL], 0, (true, 1)),
    ([HEADER, b"", b""], 0, (true, 0)),
    // The last block is cut off, by the gate behind it alone and in its body; and then the one before it too, in its length.
    ([HEADER, SELL, BUY], 1, (true, 1)),
    ([HEADER, SELL, BUY], 20, (true, 1)),
    ([HEADER, SELL, BUY], 90, (true, 0)),
    // A damaged header, one that is cut off, one without START, none, and bytes and a line behind START.
    ([DAMAGED, SELL, b""], 0, (false, 0)),
    (
        [
            b"FXBOOK 1\nBANK ALFA\nBANK BETA\nPAIR EUR/USD 5 1000000 100\nSTART",
            SELL,
            b"",
        ],
        0,
        (false, 0),
    ),
    ([b"FXBOOK 1\nBANK ALFA\n", SELL, b""], 0, (false, 0)),
    ([b"", SELL, b""], 0, (false, 0)),
    (
        [
            b"FXBOOK 1\nBANK ALFA\nBANK BETA\nPAIR EUR/USD 5 1000000 100\nSTART\nA",
            SELL,
            b"",
        ],
        0,
        (false, 0),
    ),
    (
        [
            b"FXBOOK 1\nBANK ALFA\nBANK BETA\nPAIR EUR/USD 5 1000000 100\nSTART\n\n",
            SELL,
            b"",
        ],
        0,
        (false, 0),
    ),
    // A line of no bank, one that is ignored, and one that is cut off.
    (
        [HEADER, b"GAMA SELL EUR/USD 1.08420 2 DAY\n", b""],
        0,
        (false, 1),
    ),
    ([HEADER, SELL, b"# evening\n"], 0, (false, 2)),
    (
        [HEADER, SELL, b"ALFA BUY EUR/USD 1.08425 3 DAY"],
        0,
        (false, 2),
    ),
];

/// The file of blocks with these bodies, of which so many bytes are cut off.
fn file_of(alloc: Global, bodies: &[&[u8]], cut: usize) -> Result<Vec<u8>, Memory> {
    let mut file = Vec::new(alloc);
    for body in bodies {
        file.push(1)?;
        file.extend_from_slice(&(body.len() as u64).to_be_bytes())?;
        file.extend_from_slice(body)?;
    }
    file.push(0)?;
    file.truncate(file.len().saturating_sub(cut));
    Ok(file)
}

/// What is found in the blocks of a file, as the table has it.
fn found_in(alloc: Global, file: Vec<u8>) -> Result<(bool, u64), Fail> {
    let mut disk = SteadyDisk::new(file);
    let keeper = open_keeper(alloc, &mut disk)?;
    if keeper.bodies().is_empty() {
        return Err("the file has no whole block".into());
    }
    Ok(match history(alloc, keeper.bodies())? {
        Found::Whole { entries, .. } => (true, entries.as_slice().len() as u64),
        Found::Damaged { block } => (false, block),
        Found::Full { commands } => (false, commands),
    })
}

#[test]
fn blocks_are_whole_or_the_first_damaged_one_is_told(rt: HostRuntime) -> Result<(), Fail> {
    let alloc = rt.alloc();
    for (bodies, cut, wanted) in FOUND {
        let found = found_in(alloc, file_of(alloc, &bodies, cut)?)?;
        assert!(rt; found == wanted);
    }
    Ok(())
}

/// Two blocks: a header, and so many lines of a bank.
fn lines(alloc: Global, count: u64) -> Result<Vec<Body>, Memory>
    ensures some { IfOk result (λ bodies. 0 < length bodies.items) }
{
    let mut text = Vec::new(alloc);
    for _line in 0..count {
        text.extend_from_slice(b"ALFA BAD 1\n")?;
    }
    let mut bodies = Vec::new(alloc);
    bodies.push(Body::from_vec(HEADER.to_vec(alloc)?))?;
    bodies.push(Body::from_vec(text))?;
    Ok(bodies)
}

// With the run-time checks of `rt try` this takes more than a minute.
#[test]
fn one_command_too_many_is_full(rt: HostRuntime) -> Result<(), Fail> {
    let bodies = lines(rt.alloc(), 16_777_217)?;
    let found = history(rt.alloc(), &bodies)?;
    assert!(rt;
        matches!(
            &found,
            Found::Full {
                commands: 16_777_217
            }
        )
    );
    Ok(())
}
