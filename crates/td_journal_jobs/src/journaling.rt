//! A job that is done at a desk which keeps a journal.
ghost use Rattle.td_jobs.specs.Desks.{IsReady};
ghost use Rattle.td_jobs.specs.Jobs.{IsStillBeside, at_desk};
ghost use Rattle.td_journal_jobs.specs.Journaling.{HasJournaled};

use sqlite_disk::Disk;
use std::alloc::Global;
use std::io::{Read, Write};
use td_base::Counted;
use td_desk::Desk;
use td_jobs::DeskJob;
use td_journal_start::{Refused, StartFault, start_journal};
use td_machine::Machine;

/// The job that does another at a desk around its own, which keeps a journal in this file.
#[derive(Drop)]
pub struct Journaling<J, F> {
    pub job: J,
    /// The file of the journal.
    pub file: F,
}

/// How it ended.
#[derive(Drop)]
pub struct Journaled<End, F> {
    /// How the other job ended, or why the journal wasn't begun.
    pub end: Result<End, StartFault>,
    /// The file of the journal, as it is left.
    pub file: F,
}

impl<J: DeskJob, F: Disk + Drop> DeskJob for Journaling<J, F> {
    type End = Journaled<J::End, F>;

    ghost does = { λ D R W M L Reads Writes view known at job old new ended.
        HasJournaled F.Disk view old.desk new.desk job.file
        (λ E seen begun stopped end. J.does E R W M L Reads Writes seen known at job.job (at_desk begun old) (at_desk stopped new) end)
        (IsStillBeside old new) ended };

    fn on<D: Desk, M: Machine, R: Read, W: Write>(
        self,
        alloc: Global,
        desk: D,
        machine: &mut M,
        at: Option<i64>,
        input: &mut Counted<R>,
        out: &mut Counted<W>,
    ) -> (Journaled<J::End, F>, D) {
        let Journaling { job, file } = self;
        match start_journal(alloc, desk, file) {
            Ok(desk) => {
                let (end, desk) = job.on(alloc, desk, machine, at, input, out);
                let (desk, journal) = desk.into_parts();
                let ended = Journaled {
                    end: Ok(end),
                    file: journal.into_file(),
                };
                (ended, desk)
            }
            Err(Refused { why, desk, file }) => {
                let ended = Journaled {
                    end: Err(why),
                    file,
                };
                (ended, desk)
            }
        }
    }
}
