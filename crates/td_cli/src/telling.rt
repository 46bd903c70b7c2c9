//! Texts that are printed, how the program ends behind them, and what is said of words that ask for no job.
ghost use Rattle.std.specs.Prelude.{◌≡◌};
ghost use Rattle.td_cli.specs.Performed.{IsUnread};
ghost use Rattle.td_cli.specs.Told.{IsAnswered, IsPrinted, IsResultTold};
ghost use Rattle.td_cli.specs.World.{IsLentStill, OpensNoFile, lent_by, world_of};

use crate::context::JobContext;
use crate::exits::{Cause, WRONG_WORDS, Word, exit, fault, of_stop};
use std::alloc::Global;
use std::io;
use std::io::{ErrorKind, Read, Write};
use td_base::{Counted, write_whole};
use td_desk::Fault;
use td_machine::{Drive, Machine, Surroundings};
use td_words::NoJob;

impl<M, V, O, R, W, E> JobContext<'_, '_, '_, '_, '_, '_, M, V, O, R, W, E>
where
    M: Machine,
    V: Drive,
    O: Drive,
    R: Read,
    W: Write,
    E: Write,
{
    /// Prints a text, tells the cause that ended the job, if any, and gives the status; or tells that the text couldn't be printed.
    pub(crate) fn print(&mut self, alloc: Global, text: &[u8], cause: Option<Cause>) -> u8
        ensures lent { IsLentStill self.old self.new }
        ensures kept { OpensNoFile (lent_by ⟦<M as Surroundings>⟧.around R.remaining W.contents E.contents V.known V.Disk.Disk O.known O.Disk.Disk)
            (world_of _ self.old) (world_of _ self.new) }
        ensures printed { IsPrinted (lent_by ⟦<M as Surroundings>⟧.around R.remaining W.contents E.contents V.known V.Disk.Disk O.known O.Disk.Disk)
            text.now cause (world_of _ self.old) (world_of _ self.new) result }
    {
        if write_whole(self.out, text) {
            exit(alloc, cause, self.errors)
        } else {
            fault(alloc, Cause::Of(Word::Write), self.errors)
        }
    }

    /// Prints a result file, tells the cause that ended the job, if any, and gives the status. Where a fault stopped the rows, it is told,
    /// also where the text couldn't be printed.
    pub(crate) fn tell_result(
        &mut self,
        alloc: Global,
        text: &[u8],
        stopped: Option<Fault>,
        cause: Option<Cause>,
    ) -> u8
        ensures lent { IsLentStill self.old self.new }
        ensures kept { OpensNoFile (lent_by ⟦<M as Surroundings>⟧.around R.remaining W.contents E.contents V.known V.Disk.Disk O.known O.Disk.Disk)
            (world_of _ self.old) (world_of _ self.new) }
        ensures told { IsResultTold (lent_by ⟦<M as Surroundings>⟧.around R.remaining W.contents E.contents V.known V.Disk.Disk O.known O.Disk.Disk)
            text.now stopped cause (world_of _ self.old) (world_of _ self.new) result }
    {
        let Some(why) = stopped else {
            return self.print(alloc, text, cause);
        };
        let _is_whole = write_whole(self.out, text);
        fault(alloc, of_stop(why), self.errors)
    }

    /// Says why the words ask for no job, and gives the status of it. Help that was asked for is printed.
    pub(crate) fn answer(&mut self, alloc: Global, no_job: &NoJob) -> u8
        ensures lent { IsLentStill self.old self.new }
        ensures kept { OpensNoFile (lent_by ⟦<M as Surroundings>⟧.around R.remaining W.contents E.contents V.known V.Disk.Disk O.known O.Disk.Disk)
            (world_of _ self.old) (world_of _ self.new) }
        ensures answered { IsAnswered (lent_by ⟦<M as Surroundings>⟧.around R.remaining W.contents E.contents V.known V.Disk.Disk O.known O.Disk.Disk)
            no_job.now (world_of _ self.old) (world_of _ self.new) result }
    {
        match no_job {
            NoJob::Help(text) => self.print(alloc, text.as_bytes(), None),
            NoJob::Wrong(text) => {
                let _told = write_whole(self.errors, text.as_bytes());
                WRONG_WORDS
            }
            NoJob::NoMemory => fault(alloc, Cause::Of(Word::NoMemory), self.errors),
        }
    }
}

/// The status where the words themselves couldn't be read: there was no memory for them, or they aren't text.
/// The kind of the error says which.
pub(crate) fn unread_words<E: Write>(
    alloc: Global,
    error: &io::Error,
    errors: &mut Counted<E>,
) -> u8
    ensures { IsUnread E.contents error.now errors.old errors.new result }
{
    let ErrorKind::OutOfMemory = error.kind() else {
        let _told = write_whole(
            errors,
            b"error: the words of the command line aren't UTF-8 text\n",
        );
        return WRONG_WORDS;
    };
    fault(alloc, Cause::Of(Word::NoMemory), errors)
}
