//! The jobs of the program.
ghost use Rattle.std.specs.Prelude.{map, string_bytes};
ghost use Rattle.td_cli.specs.Performed.{IsJobDone, IsPerformed, IsTaskDone};
ghost use Rattle.td_cli.specs.Worked.{AnyWork};
ghost use Rattle.td_cli.specs.World.{IsLentStill, lent_by, world_of};

use crate::context::{Context, JobContext};
use std::alloc::Global;
use std::io::{Read, Write};
use td_base::Counted;
use td_files::DeskFile;
use td_machine::{Drive, HostMachine, Machine, Surroundings};
use td_words::{Job, Office, Records, Task, read_words};

/// Does what the words ask for on the machine that the handle stands for, as `perform_on` does, and gives the program's
/// status.
pub fn perform<V: Drive, O: Drive, R: Read, W: Write, E: Write>(
    rt: &HostRuntime,
    words: &[String],
    file: &mut DeskFile<V>,
    other: &mut DeskFile<O>,
    input: &mut Counted<R>,
    out: &mut Counted<W>,
    errors: &mut Counted<E>,
) -> u8
    ensures { (machine : _) × (machine_left : _)
        × IsPerformed (lent_by ⟦<HostMachine<'static> as Surroundings>⟧.around R.remaining W.contents E.contents V.known V.Disk.Disk O.known O.Disk.Disk)
        (map string_bytes words.now)
        (record { machine = machine; input = input.old; output = out.old; errors = errors.old; file = file.old; other = other.old })
        (record { machine = machine_left; input = input.new; output = out.new; errors = errors.new; file = file.new; other = other.new }) result }
{
    let mut machine = HostMachine { rt };
    perform_on(
        rt.alloc(),
        &mut machine,
        words,
        file,
        other,
        input,
        out,
        errors,
    )
}

/// Does what the words ask for on a machine, and gives the program's status. The first word is the program's name.
///
/// Of the machine the clock is asked, a file of rows is read and a port is listened on. `file` is the desk's file, the one that the
/// words name first, and `other` that of `--into`, of `--with` or of `--journal`: a job opens them at their paths, and hands back
/// connections to them, or the file of a journal itself. The input is read by a job alone: a stream, and a standby desk, which
/// follows a journal by it. Replies, result files, reports, and texts that were asked for go to `out`; what is wrong with the words,
/// or one line for a fault, to `errors`. A text that can't be written there is dropped.
pub fn perform_on<M: Machine, V: Drive, O: Drive, R: Read, W: Write, E: Write>(
    alloc: Global,
    machine: &mut M,
    words: &[String],
    file: &mut DeskFile<V>,
    other: &mut DeskFile<O>,
    input: &mut Counted<R>,
    out: &mut Counted<W>,
    errors: &mut Counted<E>,
) -> u8
    ensures { IsPerformed (lent_by ⟦<M as Surroundings>⟧.around R.remaining W.contents E.contents V.known V.Disk.Disk O.known O.Disk.Disk)
        (map string_bytes words.now)
        (record { machine = machine.old; input = input.old; output = out.old; errors = errors.old; file = file.old; other = other.old })
        (record { machine = machine.new; input = input.new; output = out.new; errors = errors.new; file = file.new; other = other.new }) result }
{
    let mut context = Context {
        machine,
        file,
        other,
        input,
        out,
        errors,
    };
    context.perform(alloc, words)
}

impl<M, V, O, R, W, E> JobContext<'_, '_, '_, '_, '_, '_, M, V, O, R, W, E>
where
    M: Machine,
    V: Drive,
    O: Drive,
    R: Read,
    W: Write,
    E: Write,
{
    // Does what the words ask for, and gives the program's status.
    fn perform(&mut self, alloc: Global, words: &[String]) -> u8
        ensures lent { IsLentStill self.old self.new }
        ensures performed { IsPerformed (lent_by ⟦<M as Surroundings>⟧.around R.remaining W.contents E.contents V.known V.Disk.Disk O.known O.Disk.Disk)
            (map string_bytes words.now) (world_of _ self.old) (world_of _ self.new) result }
    {
        match read_words(alloc, words) {
            Ok(job) => self.do_job(alloc, job),
            Err(no_job) => self.answer(alloc, &no_job),
        }
    }

    // Does the job, tells how it ended, and gives the status.
    fn do_job(&mut self, alloc: Global, job: Job) -> u8
        ensures lent { IsLentStill self.old self.new }
        ensures done { IsJobDone (lent_by ⟦<M as Surroundings>⟧.around R.remaining W.contents E.contents V.known V.Disk.Disk O.known O.Disk.Disk)
            AnyWork job (world_of _ self.old) (world_of _ self.new) result }
    {
        match job {
            Job::AtDesk(office, task) => self.do_task(alloc, office, task),
            Job::Migrate(path) => self.migrate(alloc, &path),
            Job::Transfer(country, what) => self.transfer(alloc, country, what),
        }
    }

    // Does the task at a desk of the office, tells how it ended, and gives the status.
    fn do_task(&mut self, alloc: Global, office: Office, task: Task) -> u8
        ensures lent { IsLentStill self.old self.new }
        ensures done { IsTaskDone (lent_by ⟦<M as Surroundings>⟧.around R.remaining W.contents E.contents V.known V.Disk.Disk O.known O.Disk.Disk)
            AnyWork office task (world_of _ self.old) (world_of _ self.new) result }
    {
        match task {
            Task::Serve {
                listening,
                records,
                journal,
                first,
            } => self.serve(alloc, office, listening, first, &records, &journal),
            Task::Pipe { records, journal } => self.pipe(alloc, office, &records, &journal),
            Task::Batch {
                kind,
                rows,
                records,
                journal,
            } => {
                let records = Records::File(records);
                self.batch(alloc, office, kind, &rows, &records, &journal)
            }
            Task::Replay {
                rows,
                part,
                records,
            } => self.replay(alloc, office, &rows, part, &records),
            Task::Report(kind, path) => self.report(alloc, office.country, kind, path),
            Task::Check(path) => self.check(alloc, office, &Records::File(path)),
        }
    }
}
