use crate::keeping::{append, count};
use fx_disk::{DiskStop, MemoryDisk, SteadyDisk};
use fx_edges::{MemorySink, SinkFault, SteadySink};
use keep_disk::RunFault;
use std::alloc::{AllocError, Global};
use std::test::Fail;

/// The block of number 1, without dots, and a gate that opens none.
const LEFT: [u8; 11] = [1, 0, 0, 0, 0, 0, 0, 0, 1, b'1', 1];

/// Opening that makes five calls, and each append four.
const CALLS: u64 = 5 + 3 * 4;

fn only(alloc: Global, call: u64) -> Result<Vec<u64>, AllocError> {
    Ok(vec![in alloc; call]?)
}

#[test]
fn a_disk_fails_at_each_call(rt: HostRuntime) -> Result<(), Fail> {
    let alloc = rt.alloc();
    for call in 1..=CALLS + 1 {
        let mut disk = MemoryDisk::new(LEFT.to_vec(alloc)?, only(alloc, call)?);
        let mut out = SteadySink::new(alloc);
        let kept = append(alloc, &mut disk, &mut out, 3, 0);
        // Of each number two bytes are told.
        let told = out.written().len() / 2;
        let mut again = SteadyDisk::new(disk.bytes().to_vec(alloc)?);
        let found = count(alloc, &mut again, 0)?;
        // A second sync that failed left the block whole, and untold.
        let whole = 1 + told + usize::from(call > 5 && call % 4 == 1);
        let want = if call > CALLS {
            Ok(())
        } else {
            Err(RunFault::Keep(DiskStop::Failed))
        };
        assert!(rt; kept == want && found == (whole, true), "call {call}");
    }
    Ok(())
}

#[test]
fn a_sink_fails_at_each_call(rt: HostRuntime) -> Result<(), Fail> {
    let alloc = rt.alloc();
    for call in 1..=7u64 {
        let mut disk = SteadyDisk::new(LEFT.to_vec(alloc)?);
        let mut out = MemorySink::new(1, only(alloc, call)?);
        let kept = append(alloc, &mut disk, &mut out, 3, 0);
        let told = out.written().len();
        let found = count(alloc, &mut disk, 0)?;
        // The block stands of which a part was told.
        let want = if call > 6 {
            (Ok(()), 4)
        } else {
            (Err(RunFault::Tell(SinkFault::Failed)), 2 + told / 2)
        };
        assert!(rt; kept == want.0 && found == (want.1, true), "call {call}");
    }
    Ok(())
}
