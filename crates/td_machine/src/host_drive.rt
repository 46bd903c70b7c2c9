//! The file system itself, of which is known what its one file held. What is trusted is here: that the file at the path is opened, and
//! made only if that is asked for.
use crate::cache::cached_pages;
use crate::drive::{Drive, OpenFileError, OpenedFile};
use sqlite::{FileFrom, Options, Start};
use sqlite_std_file::OpenError;
use std::fs;
use std::hash::{BuildHasher, RandomState};
use std::io::ErrorKind;

/// The file system that the handle stands for. It opens one file. `S` stands for what that one held as it was opened.
#[derive(Drop)]
pub struct HostDrive<'r, S> {
    rt: &'r HostRuntime,
    // It is taken as a file is opened.
    start: Option<S>,
    // The log that an opening makes, if there was none.
    new_log: Option<String>,
}

impl<'r, S: Start> HostDrive<'r, S> {
    /// A file system that has opened no file yet.
    pub fn new(rt: &'r HostRuntime, start: S) -> Self {
        HostDrive {
            rt,
            start: Some(start),
            new_log: None,
        }
    }
}

// Why the system didn't open a file.
fn error_of(refused: OpenError) -> OpenFileError {
    match refused {
        OpenError::OutOfMemory => OpenFileError::NoMemory,
        OpenError::Io(error) if error.kind() == ErrorKind::OutOfMemory => OpenFileError::NoMemory,
        OpenError::Busy => OpenFileError::Busy,
        OpenError::Io(_) | OpenError::HotJournal => OpenFileError::File,
    }
}

// The name of the log of the file at the path, where there is none. (The name of a file that isn't there yet is the path.)
fn missing_log(rt: &HostRuntime, path: &str) -> Option<String> {
    let log = match fs::canonicalize(rt, path) {
        Ok(file) => format!(in rt.alloc(); "{}-wal", file.as_str()),
        Err(_) => format!(in rt.alloc(); "{path}-wal"),
    };
    let log = log.ok()?;
    match fs::exists(rt, &log) {
        Ok(false) => Some(log),
        _ => None,
    }
}

// Whether SQLite takes the name for a path.
fn is_path(name: &str) -> bool {
    name != ":memory:" && !name.starts_with("file:")
}

impl<S: Start> Drive for HostDrive<'_, S> {
    type Disk = FileFrom<S>;

    ghost use Rattle.std.specs.Prelude.{◌≡◌};
    ghost use Rattle.sqlite.specs.Files.{image_of};
    ghost use Rattle.sqlite.specs.WalFiles.{image_at};

    ghost known = { record {
      opens = λ old path make files new. image_of ⟦<FileFrom<S> as sqlite_disk::Disk>⟧ files ≡ image_at S.Start;
      refuses = λ old path make new. Unit {0};
    } };

    fn open(&mut self, path: &str, make: bool) -> Result<OpenedFile<FileFrom<S>>, OpenFileError> {
        let is_there = fs::exists(self.rt, path).unwrap_or(false);
        let start = match self.start.take() {
            Some(start) if is_path(path) && (make || is_there) => start,
            _ => return Err(OpenFileError::File),
        };
        self.new_log = missing_log(self.rt, path);
        let cache_pages = cached_pages(self.rt, path);
        let files = sqlite_std_file::open(self.rt, path, start).map_err(error_of)?;
        let seed = RandomState::new(self.rt)
            .map_err(|_| OpenFileError::File)?
            .hash_one(&0u8);
        let options = Options {
            cache_pages,
            ..Options::new(seed)
        };
        Ok(OpenedFile { files, options })
    }

    fn discard_new_log(&self) {
        if let Some(log) = &self.new_log
            && fs::metadata(self.rt, log).is_ok_and(|log| log.len() == 0)
        {
            let _removed = fs::remove_file(self.rt, log);
        }
    }
}
