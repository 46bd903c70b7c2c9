//! Whether there is a desk where records stand.
ghost use Rattle.td_cli.specs.Checked.{IsChecked};
ghost use Rattle.td_cli.specs.World.{IsLentStill, lent_by, world_of};

use crate::context::JobContext;
use crate::exits::{fault, of_file};
use std::alloc::Global;
use std::io::{Read, Write};
use td_jobs::Checking;
use td_machine::{Drive, Machine, Surroundings};
use td_words::{Office, Records};

impl<M, V, O, R, W, E> JobContext<'_, '_, '_, '_, '_, '_, M, V, O, R, W, E>
where
    M: Machine,
    V: Drive,
    O: Drive,
    R: Read,
    W: Write,
    E: Write,
{
    /// Tells whether a desk of the office can be opened where the records stand, and gives the status. The input isn't read, and
    /// nothing is asked of the machine.
    pub(crate) fn check(&mut self, alloc: Global, office: Office, records: &Records) -> u8
        ensures lent { IsLentStill self.old self.new }
        ensures checked { IsChecked (lent_by ⟦<M as Surroundings>⟧.around R.remaining W.contents E.contents V.known V.Disk.Disk O.known O.Disk.Disk)
            office.country records.now (world_of _ self.old) (world_of _ self.new) result }
    {
        match self.at_desk(alloc, office, records, Checking) {
            Ok(()) => self.print(alloc, b"sound\n", None),
            Err(undone) => fault(alloc, of_file(undone.why), self.errors),
        }
    }
}
