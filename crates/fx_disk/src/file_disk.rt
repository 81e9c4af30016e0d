ghost use Rattle.std.specs.Prelude.{◌≡◌, ◌≤◌, length, take, None, Some, Err, true, false, is_ok, IfOk, OnOk, OnErr};
ghost use Rattle.fx_edges.specs.Faults.{one_more};
ghost use Rattle.fx_disk.specs.Disk.{Called};
ghost use Rattle.fx_disk.specs.FileCalls.{OpenedFile, Measured, Gave, Wrote, Synced, answer_of, given_by, opening, journal_options, Did, Stopped};
ghost use Rattle.fx_disk.specs.inside.FileCalls.{Asked, Unopened, Tried};
ghost use Rattle.fx_disk.specs.Untold.{none_told};

use crate::backing_file::BackingFile;
use crate::disk::{Disk, DiskStop};
use crate::system_file::SystemFile;
use std::fs::OpenOptions;
use std::io;
use std::marker::Model;

/// The name of the file, in the current folder.
const NAME: &str = "fx.journal";

/// The file `fx.journal` of the current folder, opened at the first call and made where it is missing. It tells
/// neither its bytes nor what a crash may leave. What a call asks, and what it is answered, is said of the file that
/// it stands on. Contracts see it as that file, whether it is open, and the count of its faults.
#[derive(Drop)]
pub struct FileDisk<F> {
    file: F,
    is_open: bool,
    faults: u64,
}

impl<F> Model for FileDisk<F> {
    ghost use Rattle.fx_disk.specs.FileCalls.{OpenedFile};

    ghost Value = { OpenedFile F };

    ghost view = { λ s. record { file = s.file; is_open = s.is_open; faults = s.faults } };
}

impl<'a> FileDisk<SystemFile<'a>> {
    /// The disk over the system's file, which nothing has touched yet. No fault is counted so far.
    pub fn new(rt: &'a HostRuntime) -> FileDisk<SystemFile<'a>>
        ensures open { result.is_open ≡ false }
        ensures faults { result.faults ≡ 0 }
    {
        FileDisk::over(SystemFile::new(rt))
    }
}

impl<F> FileDisk<F> {
    /// The disk over a file that is not opened yet. No fault is counted so far.
    pub fn over(file: F) -> FileDisk<F>
        ensures { result ≡ record { file = file; is_open = false; faults = 0 } }
    {
        FileDisk {
            file,
            is_open: false,
            faults: 0,
        }
    }

    // One more fault, and the answer that tells of it.
    fn failed<T>(&mut self) -> Result<T, DiskStop>
        ensures answer { result ≡ Err DiskStop.Failed }
        ensures counted { self.new ≡ record self.old { faults = one_more self.old.faults } }
        ensures count { self.old.faults ≤ self.new.faults }
    {
        self.faults = self.faults.saturating_add(1);
        Err(DiskStop::Failed)
    }
}

// To read and to write, made where it is missing, and with the bytes that it has.
fn options() -> OpenOptions
    ensures { result ≡ journal_options }
{
    let mut how = OpenOptions::new();
    how.read(true);
    how.write(true);
    how.create(true);
    how
}

impl<F: BackingFile> FileDisk<F> {
    // Opens the file where it isn't open, and syncs the folder so that a crash leaves a file of that name.
    fn open_once(&mut self) -> io::Result<()>
        ensures opened { OnOk result (Asked F.calls self.old self.new (opening self.old.is_open)) }
        ensures open { OnOk result (self.new.is_open ≡ true) }
        ensures unopened { OnErr result (Unopened F.calls self.old self.new) }
    {
        if self.is_open {
            return Ok(());
        }
        self.file.open(&options(), NAME)?;
        self.file.sync_folder()?;
        self.is_open = true;
        Ok(())
    }

    fn measure(&mut self) -> io::Result<u64>
        ensures { Tried F.calls self.old self.new (Measured (answer_of result)) result }
    {
        self.open_once()?;
        self.file.size()
    }

    fn fetch(&mut self, at: u64, into: &mut [u8]) -> io::Result<usize>
        ensures bound { IfOk result (λ count. count ≤ length into.old) }
        ensures tried { Tried F.calls self.old self.new (Gave at (length into.old) (given_by result into.new)) result }
    {
        self.open_once()?;
        self.file.read_at(at, into)
    }

    fn put(&mut self, at: u64, piece: &[u8]) -> io::Result<()>
        ensures { Tried F.calls self.old self.new (Wrote at piece.now (is_ok result)) result }
    {
        self.open_once()?;
        self.file.write_at(at, piece)
    }

    fn settle(&mut self) -> io::Result<()>
        ensures { Tried F.calls self.old self.new (Synced (is_ok result)) result }
    {
        self.open_once()?;
        self.file.sync()
    }
}

impl<F: BackingFile> Disk for FileDisk<F> {
    ghost bytes = { λ _. None };

    ghost may_leave = { λ _ _. ⊥ };

    ghost moment = { λ _. 0 };

    ghost left_since = { λ _ _ _. ⊥ };

    ghost faults = { λ s. s.faults };

    ghost reads = { λ disk file told. absurd (none_told told) };

    ghost counts_now = { λ disk t image le now. now };

    ghost only_now = { λ disk image left. left };

    /// Answers what the file answers. Each error of it is one more fault, here as in the other calls.
    fn size(&mut self) -> Result<u64, DiskStop>
        ensures called { Called (λ _. None) (λ _ _. ⊥) (λ _. 0) (λ _ _ _. ⊥) (λ d. d.faults) self.old self.new result }
        ensures gives { IfOk result (λ size. Did F.calls self.old self.new (Measured (Some size))) }
        ensures stopped { OnErr result (Stopped F.calls self.old self.new (Measured None)) }
        ensures answer { OnErr result (result ≡ Err DiskStop.Failed) }
    {
        match self.measure() {
            Ok(size) => Ok(size),
            Err(_) => self.failed(),
        }
    }

    /// Asks the file for as many bytes as `into` has room for, and gives what the file gave.
    fn read_at(&mut self, at: u64, into: &mut [u8]) -> Result<usize, DiskStop>
        ensures called { Called (λ _. None) (λ _ _. ⊥) (λ _. 0) (λ _ _ _. ⊥) (λ d. d.faults) self.old self.new result }
        ensures room { IfOk result (λ count. count ≤ length into.old) }
        ensures gives { IfOk result (λ count.
            Did F.calls self.old self.new (Gave at (length into.old) (Some (take count into.new)))) }
        ensures stopped { OnErr result (Stopped F.calls self.old self.new (Gave at (length into.old) None)) }
        ensures answer { OnErr result (result ≡ Err DiskStop.Failed) }
    {
        match self.fetch(at, into) {
            Ok(count) => Ok(count),
            Err(_) => self.failed(),
        }
    }

    /// Hands the file just this place and these bytes.
    fn write_at(&mut self, at: u64, piece: &[u8]) -> Result<(), DiskStop>
        ensures called { Called (λ _. None) (λ _ _. ⊥) (λ _. 0) (λ _ _ _. ⊥) (λ d. d.faults) self.old self.new result }
        ensures wrote { OnOk result (Did F.calls self.old self.new (Wrote at piece.now true)) }
        ensures stopped { OnErr result (Stopped F.calls self.old self.new (Wrote at piece.now false)) }
        ensures answer { OnErr result (result ≡ Err DiskStop.Failed) }
    {
        match self.put(at, piece) {
            Ok(()) => Ok(()),
            Err(_) => self.failed(),
        }
    }

    /// Answers `Ok` only where the file's own sync did.
    fn sync(&mut self) -> Result<(), DiskStop>
        ensures called { Called (λ _. None) (λ _ _. ⊥) (λ _. 0) (λ _ _ _. ⊥) (λ d. d.faults) self.old self.new result }
        ensures synced { OnOk result (Did F.calls self.old self.new (Synced true)) }
        ensures stopped { OnErr result (Stopped F.calls self.old self.new (Synced false)) }
        ensures answer { OnErr result (result ≡ Err DiskStop.Failed) }
    {
        match self.settle() {
            Ok(()) => Ok(()),
            Err(_) => self.failed(),
        }
    }
}
