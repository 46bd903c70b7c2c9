//! Files brought to the newest version of the tables.
ghost use Rattle.std.specs.Prelude.{◌≡◌, IfOk, string_bytes};
ghost use Rattle.td_cli.specs.Migrated.{IsMigrated, IsMigrationTold, message_of_version};
ghost use Rattle.td_cli.specs.World.{IsLentStill, OpensNoFile, lent_by, world_of};

use crate::context::JobContext;
use crate::exits::{Cause, Word, fault, of_file};
use std::alloc::{AllocError, Global};
use std::io::{Read, Write};
use td_files::DeskFault;
use td_machine::{Drive, Machine, Surroundings};

// What is told of the version that a file is of.
fn version_line(alloc: Global, version: u32) -> Result<String, AllocError>
    ensures { IfOk result (λ line. string_bytes line ≡ message_of_version version) }
{
    format!(in alloc; "version {version}\n")
}

impl<M, V, O, R, W, E> JobContext<'_, '_, '_, '_, '_, '_, M, V, O, R, W, E>
where
    M: Machine,
    V: Drive,
    O: Drive,
    R: Read,
    W: Write,
    E: Write,
{
    /// Brings the file at the path to the newest version of the tables, tells that version or why it wasn't, and gives the status.
    pub(crate) fn migrate(&mut self, alloc: Global, path: &str) -> u8
        ensures lent { IsLentStill self.old self.new }
        ensures migrated { IsMigrated (lent_by ⟦<M as Surroundings>⟧.around R.remaining W.contents E.contents V.known V.Disk.Disk O.known O.Disk.Disk)
            path.now (world_of _ self.old) (world_of _ self.new) result }
    {
        let end = self.file.upgrade(alloc, path);
        self.tell_migration(alloc, end)
    }

    // Tells the version of the file, or why it isn't of the newest, and gives the status. Where there is no memory for the line, that is
    // told: the file is of that version all the same.
    fn tell_migration(&mut self, alloc: Global, end: Result<u32, DeskFault>) -> u8
        ensures lent { IsLentStill self.old self.new }
        ensures kept { OpensNoFile (lent_by ⟦<M as Surroundings>⟧.around R.remaining W.contents E.contents V.known V.Disk.Disk O.known O.Disk.Disk)
            (world_of _ self.old) (world_of _ self.new) }
        ensures told { IsMigrationTold (lent_by ⟦<M as Surroundings>⟧.around R.remaining W.contents E.contents V.known V.Disk.Disk O.known O.Disk.Disk)
            end (world_of _ self.old) (world_of _ self.new) result }
    {
        match end {
            Ok(version) => match version_line(alloc, version) {
                Ok(line) => self.print(alloc, line.as_bytes(), None),
                Err(_) => fault(alloc, Cause::Of(Word::NoMemory), self.errors),
            },
            Err(why) => fault(alloc, of_file(why), self.errors),
        }
    }
}
