//! A disk with a written meaning: what its calls do, and what a crash may leave at each moment.
//!
//! A fault comes only where the disk's own count rose, so code that is generic over `Disk` can hand a
//! fault on, and can't make one up. `MemoryDisk` and `SteadyDisk` keep a list of their calls, by which
//! what a crash may leave is defined. `FileDisk` stands on a file that is read and written at places, and
//! tells nothing of what that holds; `SystemFile` is the system's.
#![tactic(auto)]

mod backing_file;
mod call;
mod disk;
mod file_disk;
mod memory_disk;
mod steady_disk;
mod system_file;
mod tape;

pub use backing_file::BackingFile;
pub use disk::{Disk, DiskStop};
pub use file_disk::FileDisk;
pub use memory_disk::MemoryDisk;
pub use steady_disk::SteadyDisk;
pub use system_file::SystemFile;
