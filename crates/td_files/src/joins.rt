//! One desk's file put into another.
ghost use Rattle.std.specs.Prelude.{◌≡◌, false};
ghost use Rattle.sqlite.specs.Held.{state};
ghost use Rattle.typed_sql.specs.Outside.{CrashLeavesShown};
ghost use Rattle.td_files.specs.Found.{file_at};
ghost use Rattle.td_files.specs.Joined.{IsJoined, IsPutInto, refused_for};

use crate::desks::DeskFault;
use crate::files::{DeskFile, OneFile};
use sqlite::{Alter, Connection};
use std::alloc::Global;
use td_base::{Country, HolderNo};
use td_join::{JoinFault, join};
use td_machine::Drive;
use td_store::OpenFault;
use typed_sql::see_settled;

/// Why one desk's file isn't put into another.
#[derive(Clone, Copy, Debug, PartialEq, Eq)]
pub enum JoinRefusal {
    /// There is no desk over one of them, or a store failed, or there was no memory.
    File(DeskFault),
    /// This holder stands in both, and none with a lower number.
    HolderExists(HolderNo),
}

// What two files aren't joined for.
fn refused(why: JoinFault) -> JoinRefusal
    ensures { result ≡ refused_for why }
{
    match why {
        JoinFault::Stands(holder) => JoinRefusal::HolderExists(holder),
        JoinFault::Store => JoinRefusal::File(DeskFault::Refused(OpenFault::Store)),
        JoinFault::NoMemory => JoinRefusal::File(DeskFault::Refused(OpenFault::NoMemory)),
    }
}

impl<O: Drive> OneFile<O, <O as Drive>::Disk> {
    // Puts what the desk's file at the path holds into another desk's, as `join` says.
    fn put_into<T: Alter>(
        &mut self,
        alloc: Global,
        country: Country,
        path: &str,
        to: &mut Connection<T>,
    ) -> Result<(), JoinRefusal>
        requires outside { to.old.in_transaction ≡ false }
        ensures ended { to.new.in_transaction ≡ false }
        ensures settled { CrashLeavesShown (state T.Store to.new) }
        ensures put { IsPutInto T.Store (file_at O.known path.now) country self.old self.new to.old to.new result }
    {
        see_settled(to);
        let mut from = match self.connect(alloc, country, path) {
            Ok(from) => from,
            Err(why) => return Err(JoinRefusal::File(why)),
        };
        let result = join(alloc, &mut from, to);
        self.hold(from);
        match result {
            Ok(()) => Ok(()),
            Err(why) => Err(refused(why)),
        }
    }
}

impl<V: Drive> OneFile<V, <V as Drive>::Disk> {
    /// Puts the rows of all holders of the desk's file at `other_path` into the one at `path`, both of offices of that country. They
    /// are opened as `open_desk` does it, with the same errors, the one at `path` first; the other is only read. `HolderExists`: a holder
    /// stands in both, the one with the least number. `Refused(Store)`, too: a store failed; `Refused(NoMemory)`: want of memory. With an
    /// error the file at `path` is as it was, and a crash leaves that or the whole.
    pub fn join<O: Drive>(
        &mut self,
        alloc: Global,
        country: Country,
        path: &str,
        other: &mut DeskFile<O>,
        other_path: &str,
    ) -> Result<(), JoinRefusal>
        ensures { IsJoined (file_at V.known path.now) (file_at O.known other_path.now) country self.old self.new other.old other.new result }
    {
        let mut to = match self.connect(alloc, country, path) {
            Ok(to) => to,
            Err(why) => return Err(JoinRefusal::File(why)),
        };
        let result = other.put_into(alloc, country, other_path, &mut to);
        self.hold(to);
        result
    }
}
