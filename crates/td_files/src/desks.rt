//! Desks over files, made and opened.
ghost use Rattle.std.specs.Prelude.{◌≡◌, true, false, Some, IfOk, IfErr};
ghost use Rattle.sqlite.specs.Files.{file_state};
ghost use Rattle.typed_sql.specs.Outside.{CrashLeavesShown};
ghost use Rattle.td_files.specs.Found.{FoundAt, HasNoDesk, HasNoNewDesk, IsClean, IsCreatedDesk, IsKeptDesk, IsOpenedDesk, IsOpeningFault};
ghost use Rattle.td_files.specs.declared.desks.DeskFault.TheVariants as fault;

use crate::files::{FileConnection, OneFile};
use sqlite::{Error, ErrorCode, FileStore};
use std::alloc::Global;
use td_base::Country;
use td_machine::{Drive, OpenFileError};
use td_store::{OpenFault, Refused, SqlDesk};
use thiserror::Error as AsError;

/// A desk over a file of a drive.
pub type FileDesk<V> = SqlDesk<FileStore<<V as Drive>::Disk>>;

/// Why there is no desk over a file.
#[derive(Clone, Copy, Debug, PartialEq, Eq, AsError)]
pub enum DeskFault {
    /// The file isn't there, can't be opened, or is no database.
    #[error("file")]
    File,
    /// Its database was refused. `Store`, too, where another program has the file open.
    #[error("{0}")]
    Refused(OpenFault),
    /// The last line of its journal is no row of a change.
    #[error("journal")]
    BadJournal,
    /// The last row of its journal, which has this number, isn't of the desk.
    #[error("journal {0}")]
    ForeignRow(u64),
}

/// Why a drive didn't open a file.
pub(crate) fn refused_by(error: OpenFileError) -> DeskFault
    ensures { IsOpeningFault result }
{
    match error {
        OpenFileError::File => DeskFault::File,
        OpenFileError::Busy => DeskFault::Refused(OpenFault::Store),
        OpenFileError::NoMemory => DeskFault::Refused(OpenFault::NoMemory),
    }
}

/// Why the database in a file wasn't opened.
pub(crate) fn file_fault(error: &Error) -> DeskFault
    ensures { IsOpeningFault result }
{
    match error {
        Error::SqliteFailure(ErrorCode::OutOfMemory) => DeskFault::Refused(OpenFault::NoMemory),
        Error::SqliteFailure(ErrorCode::DatabaseBusy) => DeskFault::Refused(OpenFault::Store),
        _ => DeskFault::File,
    }
}

impl<V: Drive> OneFile<V, <V as Drive>::Disk> {
    // Takes a connection back that was refused, and says why it was.
    fn turn_away(&mut self, refused: Refused<FileStore<<V as Drive>::Disk>>) -> DeskFault
        ensures fault { result ≡ fault.Refused refused.fault }
        ensures handed { self.new.connection ≡ Some refused.connection }
        ensures drive { self.new.drive ≡ self.old.drive }
        ensures unopened { self.new.unopened ≡ self.old.unopened }
        ensures journal { self.new.journal ≡ self.old.journal }
    {
        let Refused { fault, connection } = refused;
        self.hold(connection);
        DeskFault::Refused(fault)
    }

    /// Opens the desk of an office of that country over the file at the path, which has to be there and have a desk's tables.
    /// `File`: it isn't there, can't be opened, is no database, or the drive opens no second file; `Refused`: its database is
    /// refused by `SqlDesk::open`, there was no memory, or another program has the file open (`Store`). Where it was opened, the
    /// connection is kept with a refusal, and shows what was found, as does what a crash leaves: no row in the file is changed; a
    /// file of no bytes becomes a database without tables. Where its database couldn't be opened, `unopened` has what is left of it.
    pub fn open_desk(
        &mut self,
        alloc: Global,
        country: Country,
        path: &str,
    ) -> Result<FileDesk<V>, DeskFault>
        ensures kept { IfOk result (λ desk. FoundAt V.known path.now false self.old self.new (λ image. IsClean desk → IsOpenedDesk image country desk)) }
        ensures refused { IfErr result (HasNoDesk V.known country path.now self.old self.new) }
    {
        let conn = match self.open(alloc, path, false) {
            Ok(conn) => conn,
            Err(why) => return Err(why),
        };
        match SqlDesk::open(alloc, conn, country) {
            Ok(desk) => Ok(desk),
            Err(refused) => Err(self.turn_away(refused)),
        }
    }

    // The connection to a desk's file, which is opened as `open_desk` does it, with the same errors.
    pub(crate) fn connect(
        &mut self,
        alloc: Global,
        country: Country,
        path: &str,
    ) -> Result<FileConnection<V>, DeskFault>
        ensures kept { IfOk result (λ conn. FoundAt V.known path.now false self.old self.new (λ image. IsClean conn → IsOpenedDesk image country conn)) }
        ensures ended { IfOk result (λ conn. conn.in_transaction ≡ false) }
        ensures settled { IfOk result (λ conn. CrashLeavesShown (file_state conn)) }
        ensures refused { IfErr result (HasNoDesk V.known country path.now self.old self.new) }
    {
        match self.open_desk(alloc, country, path) {
            Ok(desk) => Ok(desk.close()),
            Err(why) => Err(why),
        }
    }

    /// Makes a desk of an office of that country, which has no holders yet, in the file at the path: a new file, or one whose
    /// database has no table. `File`: it can't be made or opened, is no database, or the drive opens no second file;
    /// `Refused(Store)`: it has a table, another program has it open, or the store failed; `Refused(NoMemory)`: want of memory.
    /// Where it was opened, the connection is kept with a refusal, and shows what was found. A crash leaves that; or the empty desk,
    /// where a fault shut the connection. Where its database couldn't be opened, `unopened` has what is left of it.
    pub fn make_desk(
        &mut self,
        alloc: Global,
        country: Country,
        path: &str,
    ) -> Result<FileDesk<V>, DeskFault>
        ensures made { IfOk result (λ desk. FoundAt V.known path.now true self.old self.new (λ image. IsClean desk → IsCreatedDesk image country desk)) }
        ensures refused { IfErr result (HasNoNewDesk V.known country path.now self.old self.new) }
    {
        let conn = match self.open(alloc, path, true) {
            Ok(conn) => conn,
            Err(why) => return Err(why),
        };
        match SqlDesk::create(conn, country) {
            Ok(desk) => Ok(desk),
            Err(refused) => Err(self.turn_away(refused)),
        }
    }

    /// Takes the desk's connection back, once its job is done: it is to a desk's file, as far as its disk is clean and no fault
    /// has shut it.
    pub fn keep(&mut self, desk: FileDesk<V>)
        ensures there { self.new.connection ≡ Some desk }
        ensures kept { IsKeptDesk desk }
        ensures drive { self.new.drive ≡ self.old.drive }
        ensures unopened { self.new.unopened ≡ self.old.unopened }
        ensures journal { self.new.journal ≡ self.old.journal }
    {
        self.hold(desk.close());
    }
}
