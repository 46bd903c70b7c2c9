//! A drive in memory, of which all is known.
ghost use Rattle.std.specs.Prelude.{◌≡◌, IfSome, None, true};
ghost use Rattle.td_machine.specs.Memory.{are_usable, IsNotTaken, IsTaken};

use crate::drive::{Drive, OpenFileError, OpenedFile};
use sqlite::{Files, Options};
use sqlite_disk::Memory;
use std::alloc::Global;

/// The one path of a drive, and the file that stands there.
#[derive(Drop)]
pub struct MemoryDrive {
    pub path: String,
    /// The database file and its log, if they are there. They are taken as they are opened.
    pub files: Option<Files<Memory>>,
    pub alloc: Global,
}

// The seed of the database's own choices, which are the same in each run in memory.
const SEED: u64 = 1;

impl MemoryDrive {
    // Takes the file, which is made if that is asked for and there is none.
    fn take(&mut self, make: bool) -> Option<Files<Memory>>
        ensures taken { IfSome result (IsTaken self.old make self.new) }
        ensures usable { IfSome result (λ files. are_usable files ≡ true) }
        ensures refused { result ≡ None → IsNotTaken self.old make self.new }
    {
        match self.files.take() {
            Some(files) => {
                if files.may_be_used() {
                    Some(files)
                } else {
                    self.files = Some(files);
                    None
                }
            }
            None => {
                if make {
                    Some(Files {
                        log: Memory::new(self.alloc),
                        db: Memory::new(self.alloc),
                    })
                } else {
                    None
                }
            }
        }
    }
}

impl Drive for MemoryDrive {
    type Disk = Memory;

    ghost use Rattle.std.specs.Prelude.{◌≡◌, ◌≢◌, ◌⊎◌, string_bytes};
    ghost use Rattle.td_machine.specs.Memory.{IsNotTaken, IsTaken};

    ghost known = { record {
      opens = λ old path make files new. (path ≡ string_bytes old.path) × IsTaken old make new files;
      refuses = λ old path make new. ((path ≢ string_bytes old.path) × (new ≡ old)) ⊎ IsNotTaken old make new;
    } };

    fn open(&mut self, path: &str, make: bool) -> Result<OpenedFile<Memory>, OpenFileError> {
        if path != self.path.as_str() {
            return Err(OpenFileError::File);
        }
        match self.take(make) {
            Some(files) => Ok(OpenedFile {
                files,
                options: Options::new(SEED),
            }),
            None => Err(OpenFileError::File),
        }
    }

    fn discard_new_log(&self) {}
}
