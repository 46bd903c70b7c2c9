//! Files brought to the newest version of the tables.
ghost use Rattle.std.specs.Prelude.{◌≡◌};
ghost use Rattle.td_files.specs.declared.desks.DeskFault.TheVariants as fault;
ghost use Rattle.td_files.specs.Upgraded.{IsUpgraded, refused_as};

use crate::desks::DeskFault;
use crate::files::OneFile;
use std::alloc::Global;
use td_machine::Drive;
use td_migrate::{MigrateFault, upgrade};
use td_store::OpenFault;

// What a file is refused for that isn't brought to the newest version.
fn refused(why: MigrateFault) -> DeskFault
    ensures { result ≡ fault.Refused (refused_as why) }
{
    DeskFault::Refused(match why {
        MigrateFault::UnknownVersion => OpenFault::UnknownVersion,
        MigrateFault::Damaged(rule) => OpenFault::Damaged(rule),
        MigrateFault::Store => OpenFault::Store,
        MigrateFault::NoMemory => OpenFault::NoMemory,
    })
}

impl<V: Drive> OneFile<V, <V as Drive>::Disk> {
    /// Brings the database in the file at the path, which has to be there and have a desk's tables of any version, to the newest
    /// version, and answers that. `File`: it isn't there, can't be opened, is no database, or the drive opens no second file; `Refused`:
    /// as `td_migrate::upgrade` says, there was no memory, or another program has the file open (`Store`). The connection is kept: with
    /// a fault it shows what was found, or what the first of two steps made of that, unless the fault shut it.
    pub fn upgrade(&mut self, alloc: Global, path: &str) -> Result<u32, DeskFault>
        ensures { IsUpgraded V.known path.now self.old self.new result }
    {
        let mut conn = match self.open(alloc, path, false) {
            Ok(conn) => conn,
            Err(why) => return Err(why),
        };
        let result = upgrade(alloc, &mut conn);
        self.hold(conn);
        match result {
            Ok(version) => Ok(version),
            Err(why) => Err(refused(why)),
        }
    }
}
