//! Where the database files of a machine stand, as generic code is lent it.
use sqlite::{Files, Options};
use sqlite_disk::Disk;

/// Why a database file wasn't opened.
#[derive(Clone, Copy, Debug, PartialEq, Eq)]
pub enum OpenFileError {
    /// It isn't there, can't be opened or made, or the drive doesn't open a second one.
    File,
    /// Another program has it open.
    Busy,
    /// Want of memory.
    NoMemory,
}

/// A database file and its log, as a drive opened them, and how the database is to keep their pages in memory.
pub struct OpenedFile<D: Disk> {
    pub files: Files<D>,
    pub options: Options,
}

/// What opens a database file by its path. Each implementation says by `known` what is known of it.
pub trait Drive: Drop {
    ghost use Rattle.std.specs.Prelude.{◌≡◌, ◌≤◌, IfErr, IfOk, IsTrue};
    ghost use Rattle.td_machine.specs.Drive.{KnownDrive};

    /// A file that it opened.
    type Disk: Disk + Drop;

    ghost known: { KnownDrive Self Self.Disk };

    /// Opens the database file at the path, and its log beside it. With `make` a file that isn't there is made; else it has to be
    /// there. The database is to take its log into the file at 1,000 pages of it, and to keep 125 to 65,536 pages of the file in memory.
    fn open(&mut self, path: &str, make: bool) -> Result<OpenedFile<Self::Disk>, OpenFileError>
        ensures log { IfOk result (λ it. IsTrue (Self.Disk.is_usable it.files.log)) }
        ensures db { IfOk result (λ it. IsTrue (Self.Disk.is_usable it.files.db)) }
        ensures checkpoint { IfOk result (λ it. (it.options.checkpoint_frames ≡ 1000) × (it.options.spill_pages ≡ 2000)) }
        ensures pages { IfOk result (λ it. (125 ≤ it.options.cache_pages) × (it.options.cache_pages ≤ 65536)) }
        ensures opened { IfOk result (λ it. known.opens self.old path.now make it.files self.new) }
        ensures refused { IfErr result (λ why. known.refuses self.old path.now make self.new) };

    /// Takes the log away that the last opening made beside a file, if it is empty. This is for a file that turned out to be no
    /// database.
    fn discard_new_log(&self);
}
