//! One way to a desk for every job that may keep a journal.
ghost use Rattle.std.specs.Prelude.{◌≡◌, Some, option_map, string_bytes};
ghost use Rattle.td_jobs.specs.Jobs.{IsUntouched, job_known, state_of};
ghost use Rattle.td_cli.specs.Journaled.{WithJournal, begun, named_desk};
ghost use Rattle.td_cli.specs.World.{IsLentStill, lent_by, world_of};

use crate::at_desk::Undone;
use crate::context::JobContext;
use crate::exits::of_start;
use std::alloc::Global;
use std::io::{Read, Write};
use td_files::DeskFault;
use td_jobs::DeskJob;
use td_journal_jobs::{Journaled, Journaling, StartFault};
use td_machine::{Drive, Machine, Surroundings};
use td_words::{Office, Records};

impl<M, V, O, R, W, E> JobContext<'_, '_, '_, '_, '_, '_, M, V, O, R, W, E>
where
    M: Machine,
    V: Drive,
    O: Drive,
    R: Read,
    W: Write,
    E: Write,
{
    /// Does a job at a desk of the office whose records stand there, and answers how it ended. An error: why there was no desk. Where a
    /// journal is named, the desk keeps it in the other file, at that path, which is opened first.
    pub(crate) fn with_journal<J: DeskJob>(
        &mut self,
        alloc: Global,
        office: Office,
        records: &Records,
        journal: &Option<String>,
        job: J,
    ) -> Result<J::End, DeskFault>
        ensures lent { IsLentStill self.old self.new }
        ensures untold { self.new.errors.now ≡ self.old.errors.now }
        ensures done { WithJournal (lent_by ⟦<M as Surroundings>⟧.around R.remaining W.contents E.contents V.known V.Disk.Disk O.known O.Disk.Disk)
            (named_desk office records.now (option_map string_bytes journal.now))
            (λ D view opened left end. J.does D _ _ _ _ _ _ view (job_known R.remaining W.contents ⟦<M as Surroundings>⟧.around) office.at job
            (state_of opened self.old.input.now self.old.out.now self.old.machine.now)
            (state_of left self.new.input.now self.new.out.now self.new.machine.now) end)
            (IsUntouched self.old.input.now self.new.input.now self.old.out.now self.new.out.now self.old.machine.now self.new.machine.now)
            (world_of _ self.old) (world_of _ self.new) result }
    {
        match journal {
            Some(path) => self.journaled(alloc, office, records, path, job),
            None => match self.at_desk(alloc, office, records, job) {
                Ok(end) => Ok(end),
                Err(undone) => Err(undone.why),
            },
        }
    }

    // At one that keeps a journal in the file at the path.
    fn journaled<J: DeskJob>(
        &mut self,
        alloc: Global,
        office: Office,
        records: &Records,
        path: &str,
        job: J,
    ) -> Result<J::End, DeskFault>
        ensures lent { IsLentStill self.old self.new }
        ensures untold { self.new.errors.now ≡ self.old.errors.now }
        ensures done { WithJournal (lent_by ⟦<M as Surroundings>⟧.around R.remaining W.contents E.contents V.known V.Disk.Disk O.known O.Disk.Disk)
            (named_desk office records.now (Some path.now))
            (λ D view opened left end. J.does D _ _ _ _ _ _ view (job_known R.remaining W.contents ⟦<M as Surroundings>⟧.around) office.at job
            (state_of opened self.old.input.now self.old.out.now self.old.machine.now)
            (state_of left self.new.input.now self.new.out.now self.new.machine.now) end)
            (IsUntouched self.old.input.now self.new.input.now self.old.out.now self.new.out.now self.old.machine.now self.new.machine.now)
            (world_of _ self.old) (world_of _ self.new) result }
    {
        let journal = match self.other.open_journal(path) {
            Ok(journal) => journal,
            Err(why) => return Err(why),
        };
        let job = Journaling { job, file: journal };
        match self.at_desk(alloc, office, records, job) {
            Ok(Journaled { end, file: kept }) => {
                self.other.keep_journal(kept);
                of_begun(end)
            }
            Err(Undone { why, job }) => {
                let Journaling { job: _, file: kept } = job;
                self.other.keep_journal(kept);
                Err(why)
            }
        }
    }
}

// How a job ended, or why its journal wasn't begun.
fn of_begun<End>(end: Result<End, StartFault>) -> Result<End, DeskFault>
    ensures { result ≡ begun end }
{
    match end {
        Ok(end) => Ok(end),
        Err(why) => Err(of_start(why)),
    }
}
