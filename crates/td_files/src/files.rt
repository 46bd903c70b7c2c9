//! The file in which a desk's records stand, opened by its path.
ghost use Rattle.std.specs.Prelude.{◌≡◌, false, true, None, Some, IfErr, IfOk, IfSome, MatchOption};
ghost use Rattle.sqlite.specs.Files.{file_state};
ghost use Rattle.typed_sql.specs.Outside.{CrashLeavesShown};
ghost use Rattle.td_files.specs.Closed.{IsClosedFrom};
ghost use Rattle.td_files.specs.Found.{FoundAt, HasNoJournal, IsConnected, IsJournalAt, IsOpeningFault, IsUnopened};

use crate::desks::{DeskFault, file_fault, refused_by};
use sqlite::{Connection, Error, ErrorCode, FileStore, Files, Leftover};
use sqlite_disk::Disk;
use std::alloc::Global;
use td_machine::{Drive, OpenedFile};
use typed_sql::see_settled;

/// One file that a program opens, and what is left of it after a job.
#[derive(Drop)]
pub struct OneFile<V, D: Disk> {
    /// What opens it by its path.
    pub drive: V,
    /// What is left of it, if it was opened and holds no database that can be opened.
    pub unopened: Option<Leftover<D>>,
    /// The connection that a job handed back, whether it had a desk over it or was refused one.
    pub connection: Option<Connection<FileStore<D>>>,
    /// The file as a job handed it back that kept a journal in it.
    pub journal: Option<D>,
}

/// One file of a drive.
pub type DeskFile<V> = OneFile<V, <V as Drive>::Disk>;

/// A connection to the database in a file of a drive.
pub(crate) type FileConnection<V> = Connection<FileStore<<V as Drive>::Disk>>;

/// What a file that was open is closed to: its log and its database file, or why the one wasn't copied into the other.
pub type Closed<D> = Result<Files<D>, (Error, FileStore<D>)>;

impl<V: Drive> OneFile<V, <V as Drive>::Disk> {
    /// A file that isn't opened yet.
    pub fn new(drive: V) -> Self
        ensures drive { result.drive ≡ drive }
        ensures unopened { result.unopened ≡ None }
        ensures connection { result.connection ≡ None }
        ensures journal { result.journal ≡ None }
    {
        OneFile {
            drive,
            unopened: None,
            connection: None,
            journal: None,
        }
    }

    // Opens the database in the file at the path. With `make` a file that isn't there is made; else it has to be there. Beside a file
    // that is no database no empty log is left that wasn't there. What a crash leaves is seen here, once for all that open a file: each
    // call at the type of a file of a drive takes long to prove.
    pub(crate) fn open(
        &mut self,
        alloc: Global,
        path: &str,
        make: bool,
    ) -> Result<FileConnection<V>, DeskFault>
        ensures opened { IfOk result (λ conn. FoundAt V.known path.now make self.old self.new (IsConnected conn)) }
        ensures ended { IfOk result (λ conn. conn.in_transaction ≡ false) }
        ensures settled { IfOk result (λ conn. CrashLeavesShown (file_state conn)) }
        ensures unopened { IfErr result (IsUnopened V.known path.now make self.old self.new) }
    {
        let OpenedFile { files, options } = match self.drive.open(path, make) {
            Ok(opened) => opened,
            Err(why) => return Err(refused_by(why)),
        };
        match Connection::open_files(alloc, files, options) {
            Ok(conn) => {
                see_settled(&conn);
                Ok(conn)
            }
            Err((error, left)) => Err(self.leave(&error, left)),
        }
    }

    // Keeps what is left of a file whose database wasn't opened for this error, and says why it wasn't.
    fn leave(&mut self, error: &Error, left: Leftover<<V as Drive>::Disk>) -> DeskFault
        ensures fault { IsOpeningFault result }
        ensures kept { self.new.unopened ≡ Some left }
        ensures drive { self.new.drive ≡ self.old.drive }
        ensures connection { self.new.connection ≡ self.old.connection }
        ensures journal { self.new.journal ≡ self.old.journal }
    {
        if let Error::SqliteFailure(ErrorCode::NotADatabase) = error {
            self.drive.discard_new_log();
        }
        self.unopened = Some(left);
        file_fault(error)
    }

    // Keeps a connection that is handed back. It lets go of the one before, if there was one, which no other function does: the proof
    // of that is long at the type of a file of the file system.
    pub(crate) fn hold(&mut self, connection: FileConnection<V>)
        ensures connection { self.new.connection ≡ Some connection }
        ensures drive { self.new.drive ≡ self.old.drive }
        ensures unopened { self.new.unopened ≡ self.old.unopened }
        ensures journal { self.new.journal ≡ self.old.journal }
    {
        self.connection = Some(connection);
    }

    /// Opens the file at the path as it is, with no database over it, for a journal. A file that isn't there is made. `File`: it can't be
    /// opened or made, or the drive opens no second file; `Refused(Store)`: another program has it open; `Refused(NoMemory)`: want of
    /// memory.
    pub fn open_journal(&mut self, path: &str) -> Result<<V as Drive>::Disk, DeskFault>
        ensures opened { IfOk result (IsJournalAt V.known path.now self.old self.new) }
        ensures usable { IfOk result (λ file. V.Disk.Disk.is_usable file ≡ true) }
        ensures refused { IfErr result (HasNoJournal V.known path.now self.old self.new) }
    {
        let OpenedFile { files, options: _ } = match self.drive.open(path, true) {
            Ok(opened) => opened,
            Err(why) => return Err(refused_by(why)),
        };
        self.drive.discard_new_log();
        let Files { log: _, db } = files;
        Ok(db)
    }

    /// Takes the file of a journal back, once its job is done.
    pub fn keep_journal(&mut self, file: <V as Drive>::Disk)
        ensures journal { self.new.journal ≡ Some file }
        ensures drive { self.new.drive ≡ self.old.drive }
        ensures connection { self.new.connection ≡ self.old.connection }
        ensures unopened { self.new.unopened ≡ self.old.unopened }
    {
        self.journal = Some(file);
    }

    /// Closes the file, if it is open: what its log holds is copied into it. Whatever was committed is kept, also where that
    /// fails: it is in the log then, and the next open finds it there. It hands back the two files, or why they weren't copied and
    /// the store over them, so that contracts can say what is in them; they are closed as they are dropped.
    pub fn close(self) -> Option<Closed<<V as Drive>::Disk>>
        ensures none { self.connection ≡ None → result ≡ None }
        ensures closed { IfSome self.connection (λ c. MatchOption result ⊥ (IsClosedFrom c)) }
    {
        let OneFile {
            drive: _,
            unopened: _,
            connection,
            journal: _,
        } = self;
        match connection {
            Some(connection) => Some(connection.close_files()),
            None => None,
        }
    }
}
