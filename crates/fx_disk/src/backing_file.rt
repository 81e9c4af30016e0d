ghost use Rattle.std.specs.Prelude.{◌≡◌, List, [], ◌∷◌, length, Option, is_ok};
ghost use Rattle.std.specs.Io.{ReadsAtMost};
ghost use Rattle.fx_disk.specs.FileCalls.{FileCall, Opened, FolderSynced, Measured, Gave, Wrote, Synced, answer_of, given_by, noted};

use std::fs::OpenOptions;
use std::io;

/// A file of the current folder, as a `FileDisk` uses it: opened once, and then read and written at places. Before
/// it is opened each other call is an error.
///
/// Contracts see a file by `calls`, the calls so far with their answers, where the file tells them.
pub trait BackingFile {
    ghost calls: { Self → Option (List FileCall) };

    /// Opens the file of this name in this way, in place of one that was open.
    fn open(&mut self, how: &OpenOptions, name: &str) -> io::Result<()>
        ensures { calls self.new ≡ noted (calls self.old) (Opened how.now name.now (is_ok result) ∷ []) };

    /// Has the folder's names on the disk.
    fn sync_folder(&mut self) -> io::Result<()>
        ensures { calls self.new ≡ noted (calls self.old) (FolderSynced (is_ok result) ∷ []) };

    /// How many bytes the file has.
    fn size(&mut self) -> io::Result<u64>
        ensures { calls self.new ≡ noted (calls self.old) (Measured (answer_of result) ∷ []) };

    /// Moves bytes of the file from the place `at` on into the front of `into`, and answers how many. After an error
    /// `into` may hold anything.
    fn read_at(&mut self, at: u64, into: &mut [u8]) -> io::Result<usize>
        ensures bound { ReadsAtMost result into.new }
        ensures noted { calls self.new
            ≡ noted (calls self.old) (Gave at (length into.old) (given_by result into.new) ∷ []) };

    /// Writes the whole piece at the place `at`. After an error a part of it may stand there.
    fn write_at(&mut self, at: u64, piece: &[u8]) -> io::Result<()>
        ensures { calls self.new ≡ noted (calls self.old) (Wrote at piece.now (is_ok result) ∷ []) };

    /// Has what was written on the disk.
    fn sync(&mut self) -> io::Result<()>
        ensures { calls self.new ≡ noted (calls self.old) (Synced (is_ok result) ∷ []) };
}
