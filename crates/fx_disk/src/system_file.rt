ghost use Rattle.std.specs.Prelude.{None};

use crate::backing_file::BackingFile;
use std::fs::{File, OpenOptions};
use std::io;
use std::os::unix::fs::FileExt;

/// A file of the operating system. It is the trusted edge: it tells no calls, so no contract says what its calls do,
/// and each of them is one call of std, but for the open: that takes the file's lock too, and fails where another process has it.
#[derive(Drop)]
pub struct SystemFile<'a> {
    rt: &'a HostRuntime,
    file: Option<File>,
}

impl<'a> SystemFile<'a> {
    /// A file that is not opened yet.
    pub fn new(rt: &'a HostRuntime) -> SystemFile<'a> {
        SystemFile { rt, file: None }
    }

    fn opened(&self) -> io::Result<&File> {
        self.file.as_ref().ok_or(io::ErrorKind::NotFound.into())
    }
}

impl<'a> BackingFile for SystemFile<'a> {
    ghost calls = { λ _. None };

    fn open(&mut self, how: &OpenOptions, name: &str) -> io::Result<()> {
        let file = how.open(self.rt, name)?;
        file.try_lock()?;
        self.file = Some(file);
        Ok(())
    }

    fn sync_folder(&mut self) -> io::Result<()> {
        File::open(self.rt, ".")?.sync_all()
    }

    fn size(&mut self) -> io::Result<u64> {
        Ok(self.opened()?.metadata()?.len())
    }

    fn read_at(&mut self, at: u64, into: &mut [u8]) -> io::Result<usize> {
        self.opened()?.read_at(into, at)
    }

    fn write_at(&mut self, at: u64, piece: &[u8]) -> io::Result<()> {
        self.opened()?.write_all_at(piece, at)
    }

    fn sync(&mut self) -> io::Result<()> {
        self.opened()?.sync_all()
    }
}
