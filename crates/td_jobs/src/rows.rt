//! The rows of a batch, read from a file of the machine and done at a desk.
ghost use Rattle.std.specs.Prelude.{◌≡◌, Ok, IfErr, IfOk};
ghost use Rattle.td_batch_rows.specs.Rows.{Tells};
ghost use Rattle.td_batch.specs.Runs.{IsRunOf};
ghost use Rattle.td_jobs.specs.Batched.{AreRead, HasDoneRows, commands_of, header_of, kind_of, result_line, batch_rows_in};
ghost use Rattle.td_jobs.specs.Desks.{IsMomentBy};
ghost use Rattle.td_jobs.specs.Jobs.{with_machine};
ghost use Rattle.td_jobs.specs.declared.rows.RowsFault.TheVariants.{File, Bytes};

use crate::job::DeskJob;
use std::alloc::Global;
use std::io::{Read, Write};
use td_base::Counted;
use td_batch::{
    ActRow, BatchFault, BatchRun, DeclarationRow, read_acts, read_declarations, run_acts,
    run_declarations,
};
use td_desk::Desk;
use td_machine::{Machine, ReadError};
use td_words::BatchKind;

/// The rows of a file.
#[derive(Drop)]
pub enum Rows {
    /// Declarations, in their order.
    Declarations(Vec<DeclarationRow>),
    /// Acts, in their order.
    Acts(Vec<ActRow>),
}

/// Why there are no rows of a file.
#[derive(Clone, Copy, Debug, PartialEq, Eq)]
pub enum RowsFault {
    /// The file wasn't read.
    File(ReadError),
    /// Its bytes aren't wholly rows, or there was no memory for the rows.
    Bytes(BatchFault),
}

impl From<ReadError> for RowsFault {
    ghost from_gives = { λ why fault. fault ≡ File why };

    fn from(why: ReadError) -> RowsFault {
        RowsFault::File(why)
    }
}

impl From<BatchFault> for RowsFault {
    ghost from_gives = { λ why fault. fault ≡ Bytes why };

    fn from(why: BatchFault) -> RowsFault {
        RowsFault::Bytes(why)
    }
}

impl Rows {
    /// The rows of that kind in the machine's file at a path. `File`: it wasn't read; `Bytes`: its bytes aren't wholly rows, and the
    /// fault tells the first bad row and column, or there was no memory for the rows.
    pub fn read<M: Machine>(
        alloc: Global,
        machine: &mut M,
        kind: BatchKind,
        path: &str,
    ) -> Result<Rows, RowsFault>
        ensures read { AreRead M.known path.now kind machine.old machine.new result }
    {
        let bytes = machine.read_file(alloc, path)?;
        Ok(Rows::of_bytes(alloc, kind, &bytes)?)
    }

    // The rows of that kind that the bytes of a file are.
    fn of_bytes(alloc: Global, kind: BatchKind, bytes: &[u8]) -> Result<Rows, BatchFault>
        ensures rows { IfOk result (λ rows. (kind_of rows ≡ kind) × (batch_rows_in kind bytes.now ≡ Ok (commands_of rows))) }
        ensures bad { IfErr result (Tells (batch_rows_in kind bytes.now)) }
    {
        match kind {
            BatchKind::Declarations => Ok(Rows::Declarations(read_declarations(alloc, bytes)?)),
            BatchKind::Acts => Ok(Rows::Acts(read_acts(alloc, bytes)?)),
        }
    }

    fn run<D: Desk>(&self, alloc: Global, desk: &mut D, at: i64) -> BatchRun
        ensures { IsRunOf D.seen (result_line (kind_of self.now)) (header_of (kind_of self.now)) at (commands_of self.now)
            result desk.old desk.new }
    {
        match self {
            Rows::Declarations(rows) => run_declarations(alloc, desk, at, rows),
            Rows::Acts(rows) => run_acts(alloc, desk, at, rows),
        }
    }
}

// The moment of a job that asks once.
fn moment_by<M: Machine>(machine: &mut M, at: Option<i64>) -> i64
    ensures { IsMomentBy M.ticks at machine.old result machine.new }
{
    match at {
        Some(at) => at,
        None => machine.seconds(),
    }
}

/// The job that does rows at one moment, for which the machine's clock is asked once where none is given, and answers what
/// became of them. It reads and prints nothing: what is printed of them is in its answer.
impl DeskJob for Rows {
    type End = BatchRun;

    ghost does = { λ D R W M L Reads Writes view known at job old new run.
        (new.input ≡ old.input) × (new.output ≡ old.output)
        × HasDoneRows view known.around.ticks at (kind_of job) (commands_of job)
        (with_machine old.desk old.machine) (with_machine new.desk new.machine) run };

    fn on<D: Desk, M: Machine, R: Read, W: Write>(
        self,
        alloc: Global,
        mut desk: D,
        machine: &mut M,
        at: Option<i64>,
        _input: &mut Counted<R>,
        _out: &mut Counted<W>,
    ) -> (BatchRun, D) {
        let moment = moment_by(machine, at);
        let run = self.run(alloc, &mut desk, moment);
        (run, desk)
    }
}
