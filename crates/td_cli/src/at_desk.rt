//! One way to a desk for every job: its records stand in memory, in a file or in a new file.
ghost use Rattle.std.specs.Prelude.{◌≡◌, IfErr, Some};
ghost use Rattle.td_files.specs.Found.{IsKeptDesk, over_file};
ghost use Rattle.td_jobs.specs.Desks.{IsReady};
ghost use Rattle.td_jobs.specs.Jobs.{IsUntouched, job_known, state_of};
ghost use Rattle.td_cli.specs.AtDesk.{AtDesk, without_job};
ghost use Rattle.td_cli.specs.World.{IsLentStill};

use crate::context::JobContext;
use std::alloc::Global;
use std::io::{Read, Write};
use td_base::Counted;
use td_files::{DeskFault, DeskFile, FileDesk, OpenFault};
use td_jobs::{DeskJob, in_memory};
use td_machine::{Drive, Machine, Surroundings};
use td_words::{Office, Records};

/// A job that wasn't done, and why there was no desk for it.
#[derive(Drop)]
pub(crate) struct Undone<J> {
    pub why: DeskFault,
    pub job: J,
}

impl<M, V, O, R, W, E> JobContext<'_, '_, '_, '_, '_, '_, M, V, O, R, W, E>
where
    M: Machine,
    V: Drive,
    O: Drive,
    R: Read,
    W: Write,
    E: Write,
{
    /// Does a job at a desk of the office whose records stand there, and answers how it ended. An error: why there was no desk, and the
    /// job, which wasn't done.
    pub(crate) fn at_desk<J: DeskJob>(
        &mut self,
        alloc: Global,
        office: Office,
        records: &Records,
        job: J,
    ) -> Result<J::End, Undone<J>>
        ensures lent { IsLentStill self.old self.new }
        ensures other { self.new.other.now ≡ self.old.other.now }
        ensures untold { self.new.errors.now ≡ self.old.errors.now }
        ensures done { AtDesk V.known office.country records.now
            (λ D view opened left end. J.does D _ _ _ _ _ _ view (job_known R.remaining W.contents ⟦<M as Surroundings>⟧.around) office.at job
            (state_of opened self.old.input.now self.old.out.now self.old.machine.now)
            (state_of left self.new.input.now self.new.out.now self.new.machine.now) end)
            (IsUntouched self.old.input.now self.new.input.now self.old.out.now self.new.out.now self.old.machine.now self.new.machine.now)
            self.old.file.now self.new.file.now (without_job result) }
        ensures job { IfErr result (λ undone. undone.job ≡ job) }
    {
        match records {
            Records::Memory => {
                match in_memory(alloc, self.machine, office, job, self.input, self.out) {
                    Ok(end) => Ok(end),
                    Err(job) => Err(Undone {
                        why: DeskFault::Refused(OpenFault::NoMemory),
                        job,
                    }),
                }
            }
            Records::File(path) => match self.file.open_desk(alloc, office.country, path) {
                Ok(desk) => Ok(over_file(
                    alloc,
                    self.machine,
                    desk,
                    office.at,
                    self.file,
                    job,
                    self.input,
                    self.out,
                )),
                Err(why) => Err(Undone { why, job }),
            },
            Records::NewFile(path) => match self.file.make_desk(alloc, office.country, path) {
                Ok(desk) => Ok(over_file(
                    alloc,
                    self.machine,
                    desk,
                    office.at,
                    self.file,
                    job,
                    self.input,
                    self.out,
                )),
                Err(why) => Err(Undone { why, job }),
            },
        }
    }
}

// At a desk over a file, whose connection is handed back.
fn over_file<M: Machine, V: Drive, R: Read, W: Write, J: DeskJob>(
    alloc: Global,
    machine: &mut M,
    desk: FileDesk<V>,
    at: Option<i64>,
    file: &mut DeskFile<V>,
    job: J,
    input: &mut Counted<R>,
    out: &mut Counted<W>,
) -> J::End
    ensures done { IsReady over_file desk → (left : _) × (file.new.connection ≡ Some left) × IsKeptDesk left
        × J.does _ _ _ _ _ _ _ over_file (job_known R.remaining W.contents ⟦<M as Surroundings>⟧.around) at job
        (state_of desk input.old out.old machine.old) (state_of left input.new out.new machine.new) result }
    ensures drive { file.new.drive ≡ file.old.drive }
{
    let (end, desk) = job.on(alloc, desk, machine, at, input, out);
    file.keep(desk);
    end
}
