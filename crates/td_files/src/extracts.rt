//! A desk's file made with what another has of the holders of a range.
ghost use Rattle.std.specs.Prelude.{◌≡◌, false, is_ok};
ghost use Rattle.sqlite.specs.Held.{state};
ghost use Rattle.sqlite.specs.State.{HasCleanDisk};
ghost use Rattle.td_desk.specs.declared.fault.Fault.TheVariants as fault;
ghost use Rattle.td_store_rows.specs.StoreReads.{HasNewestTables};
ghost use Rattle.typed_sql.specs.Outside.{CrashLeavesShown, Looks};
ghost use Rattle.td_files.specs.Extracted.{IsExtracted, IsPartMade};
ghost use Rattle.td_files.specs.Found.{IsStoreOrMemory, file_at};
ghost use Rattle.td_store_check.specs.declared.fault.OpenFault.TheVariants as open_fault;

use crate::desks::DeskFault;
use crate::files::{DeskFile, OneFile};
use sqlite::{Alter, Connection};
use std::alloc::Global;
use td_base::{Country, HolderNo};
use td_desk::Fault;
use td_extract::extract;
use td_machine::Drive;
use td_store::OpenFault;
use typed_sql::see_settled;

// What a file is refused for in which no desk's file was made.
fn refused(why: Fault) -> OpenFault
    ensures cause { IsStoreOrMemory result }
    ensures store { why ≡ fault.Store → result ≡ open_fault.Store }
{
    match why {
        Fault::Store => OpenFault::Store,
        Fault::NoMemory => OpenFault::NoMemory,
    }
}

impl<N: Drive> OneFile<N, <N as Drive>::Disk> {
    // Makes the file at the path, as `extract` says, with what a desk's file has of the holders of a range.
    fn make_part<S: Alter>(
        &mut self,
        alloc: Global,
        country: Country,
        path: &str,
        from: &mut Connection<S>,
        first: HolderNo,
        last: HolderNo,
    ) -> Result<(), DeskFault>
        requires outside { from.old.in_transaction ≡ false }
        requires tables { HasCleanDisk (state S.Store from.old) → HasNewestTables (state S.Store from.old) }
        ensures ended { from.new.in_transaction ≡ false }
        ensures looks { Looks (is_ok result) (state S.Store from.old) (state S.Store from.new) }
        ensures settled { CrashLeavesShown (state S.Store from.new) }
        ensures made { IsPartMade (file_at N.known path.now) (record { country = country; first = first; last = last }) (state S.Store from.old) (state S.Store from.new) self.old self.new result }
    {
        see_settled(from);
        let mut to = match self.open(alloc, path, true) {
            Ok(conn) => conn,
            Err(why) => return Err(why),
        };
        let result = extract(alloc, from, &mut to, country, first, last);
        self.hold(to);
        match result {
            Ok(()) => Ok(()),
            Err(why) => Err(DeskFault::Refused(refused(why))),
        }
    }
}

impl<V: Drive> OneFile<V, <V as Drive>::Disk> {
    /// Makes a new desk's file at `new_path`, of an office of that country, with the rows of the holders with numbers from `first` to
    /// `last` alone that the desk's file at `path` has. That one is opened as `open_desk` does it, with the same errors, before the new
    /// one is; it is only read. Of the new file the errors are those of `make_desk`: `File`: it can't be made or opened, is no database, or
    /// its drive opens no second file; `Refused(Store)`: it has a table, another program has it open, or a store failed; `Refused(NoMemory)`: want of
    /// memory. With an error the new file is as it was found, and a crash leaves that or the whole.
    pub fn extract<N: Drive>(
        &mut self,
        alloc: Global,
        country: Country,
        path: &str,
        first: HolderNo,
        last: HolderNo,
        new: &mut DeskFile<N>,
        new_path: &str,
    ) -> Result<(), DeskFault>
        ensures { IsExtracted (file_at V.known path.now) (file_at N.known new_path.now)
            (record { country = country; first = first; last = last }) self.old self.new new.old new.new result }
    {
        let mut from = match self.connect(alloc, country, path) {
            Ok(from) => from,
            Err(why) => return Err(why),
        };
        let result = new.make_part(alloc, country, new_path, &mut from, first, last);
        self.hold(from);
        result
    }
}
