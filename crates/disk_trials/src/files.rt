use crate::keeping::{append, count};
use fx_disk::{Disk, DiskStop, FileDisk};
use fx_edges::SteadySink;
use keep_disk::RunFault;
use std::fs;
use std::test::Fail;

/// The file of a `FileDisk`, in the folder that the tests run in.
const NAME: &str = "fx.journal";

/// The dots of each block.
const DOTS: usize = 3;

#[test]
fn a_real_file_keeps_its_blocks(rt: HostRuntime) -> Result<(), Fail> {
    let alloc = rt.alloc();
    let _ = fs::remove_file(&rt, NAME);
    let mut out = SteadySink::new(alloc);
    let first = append(alloc, &mut FileDisk::new(&rt), &mut out, 50, DOTS);
    assert!(rt; first == Ok(()) && out.written().len() == 9 * 2 + 41 * 3);
    assert!(rt; count(alloc, &mut FileDisk::new(&rt), DOTS)? == (50, true));

    // Fifty blocks of 9 bytes, the digits and the dots, and the last gate. The last block is cut off.
    let whole = fs::read(&rt, NAME)?;
    assert!(rt; whole.len() == 50 * (9 + DOTS) + 9 + 41 * 2 + 1);
    fs::write(&rt, NAME, &whole[..whole.len().saturating_sub(10)])?;
    assert!(rt; count(alloc, &mut FileDisk::new(&rt), DOTS)? == (49, true));
    let second = append(alloc, &mut FileDisk::new(&rt), &mut out, 3, DOTS);
    assert!(rt; second == Ok(()) && count(alloc, &mut FileDisk::new(&rt), DOTS)? == (52, true));

    // While one disk has the file open, another can't open it.
    let mut open = FileDisk::new(&rt);
    assert!(rt; open.size().is_ok());
    assert!(rt;
        append(alloc, &mut FileDisk::new(&rt), &mut out, 1, DOTS)
            == Err(RunFault::Keep(DiskStop::Failed))
    );
    drop(open);

    // A folder of that name is no file.
    fs::remove_file(&rt, NAME)?;
    fs::create_dir(&rt, NAME)?;
    let third = append(alloc, &mut FileDisk::new(&rt), &mut out, 1, DOTS);
    assert!(rt; third == Err(RunFault::Keep(DiskStop::Failed)));
    fs::remove_dir(&rt, NAME)?;
    Ok(())
}
