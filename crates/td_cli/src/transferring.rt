//! Rows put from one file into another.
ghost use Rattle.std.specs.Prelude.{◌≡◌};
ghost use Rattle.td_cli.specs.Exits.{of_extract, of_job, of_joined};
ghost use Rattle.td_cli.specs.Transferred.{IsTransferred};
ghost use Rattle.td_cli.specs.World.{IsLentStill, lent_by, world_of};

use crate::context::JobContext;
use crate::exits::{Cause, exit, of_file, of_join};
use std::alloc::Global;
use std::io::{Read, Write};
use td_base::Country;
use td_files::{DeskFault, JoinRefusal};
use td_machine::{Drive, Machine, Surroundings};
use td_words::Transfer;

// The cause for which no file was made, if none was.
fn extract_cause(end: Result<(), DeskFault>) -> Option<Cause>
    ensures { result ≡ of_job of_extract end }
{
    match end {
        Ok(()) => None,
        Err(why) => Some(of_file(why)),
    }
}

// The cause for which no rows were put into a file, if none were.
fn join_cause(end: Result<(), JoinRefusal>) -> Option<Cause>
    ensures { result ≡ of_joined end }
{
    match end {
        Ok(()) => None,
        Err(why) => Some(of_join(why)),
    }
}

impl<M, V, O, R, W, E> JobContext<'_, '_, '_, '_, '_, '_, M, V, O, R, W, E>
where
    M: Machine,
    V: Drive,
    O: Drive,
    R: Read,
    W: Write,
    E: Write,
{
    /// Copies the rows of some holders into a new file, or puts all rows of one file into another, tells how it ended, and gives the
    /// status. The first file is that of `--db`.
    pub(crate) fn transfer(&mut self, alloc: Global, country: Country, what: Transfer) -> u8
        ensures lent { IsLentStill self.old self.new }
        ensures transferred { IsTransferred (lent_by ⟦<M as Surroundings>⟧.around R.remaining W.contents E.contents V.known V.Disk.Disk O.known O.Disk.Disk)
            what country (world_of _ self.old) (world_of _ self.new) result }
    {
        match what {
            Transfer::Extract(holders, from, into) => {
                let (first, last) = (holders.first, holders.last);
                let end = self
                    .file
                    .extract(alloc, country, &from, first, last, self.other, &into);
                exit(alloc, extract_cause(end), self.errors)
            }
            Transfer::Join(into, from) => {
                let end = self.file.join(alloc, country, &into, self.other, &from);
                exit(alloc, join_cause(end), self.errors)
            }
        }
    }
}
