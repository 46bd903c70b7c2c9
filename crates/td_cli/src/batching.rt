//! Batches: a file of rows, done at a desk.
ghost use Rattle.std.specs.Prelude.{◌≡◌, None, Some, if◌then◌else◌, option_map, string_bytes};
ghost use Rattle.td_batch.specs.Runs.{has_refusal};
ghost use Rattle.td_jobs.specs.Batched.{commands_of, kind_of};
ghost use Rattle.td_cli.specs.Batched.{IsBatchAtDesk, IsBatchTold, IsBatched};
ghost use Rattle.td_cli.specs.Journaled.{named_desk};
ghost use Rattle.td_cli.specs.Worked.{AnyWork};
ghost use Rattle.td_cli.specs.World.{IsLentStill, OpensNoFile, lent_by, world_of};
ghost use Rattle.td_cli.specs.declared.exits.Cause.TheVariants.{RowsRefused};

use crate::context::JobContext;
use crate::exits::{Cause, fault, of_file, of_rows};
use std::alloc::Global;
use std::io::{Read, Write};
use td_batch::BatchRun;
use td_files::DeskFault;
use td_jobs::Rows;
use td_machine::{Drive, Machine, Surroundings};
use td_words::{BatchKind, Office, Records};

impl<M, V, O, R, W, E> JobContext<'_, '_, '_, '_, '_, '_, M, V, O, R, W, E>
where
    M: Machine,
    V: Drive,
    O: Drive,
    R: Read,
    W: Write,
    E: Write,
{
    /// Does the rows of the machine's file at the path `csv` at a desk of the office whose records stand there, prints what became
    /// of each, and gives the status; where a journal is named, that desk keeps it. No desk's file is opened where the rows can't be
    /// read. The input isn't read.
    pub(crate) fn batch(
        &mut self,
        alloc: Global,
        office: Office,
        kind: BatchKind,
        csv: &str,
        records: &Records,
        journal: &Option<String>,
    ) -> u8
        ensures lent { IsLentStill self.old self.new }
        ensures done { IsBatched (lent_by ⟦<M as Surroundings>⟧.around R.remaining W.contents E.contents V.known V.Disk.Disk O.known O.Disk.Disk)
            AnyWork (named_desk office records.now (option_map string_bytes journal.now)) kind csv.now
            (world_of _ self.old) (world_of _ self.new) result }
    {
        match Rows::read(alloc, self.machine, kind, csv) {
            Ok(rows) => self.do_rows(alloc, office, records, journal, rows),
            Err(why) => fault(alloc, of_rows(why), self.errors),
        }
    }

    // Does the rows at the desk, and tells what became of them.
    fn do_rows(
        &mut self,
        alloc: Global,
        office: Office,
        records: &Records,
        journal: &Option<String>,
        rows: Rows,
    ) -> u8
        ensures lent { IsLentStill self.old self.new }
        ensures unread { self.new.input.now ≡ self.old.input.now }
        ensures done { IsBatchAtDesk (lent_by ⟦<M as Surroundings>⟧.around R.remaining W.contents E.contents V.known V.Disk.Disk O.known O.Disk.Disk)
            AnyWork (named_desk office records.now (option_map string_bytes journal.now))
            (kind_of rows) (commands_of rows) (world_of _ self.old) (world_of _ self.new) result }
    {
        let end = self.with_journal(alloc, office, records, journal, rows);
        self.tell_batch(alloc, end)
    }

    // Tells what became of the rows, or why there was no desk for them, and gives the status.
    fn tell_batch(&mut self, alloc: Global, end: Result<BatchRun, DeskFault>) -> u8
        ensures lent { IsLentStill self.old self.new }
        ensures kept { OpensNoFile (lent_by ⟦<M as Surroundings>⟧.around R.remaining W.contents E.contents V.known V.Disk.Disk O.known O.Disk.Disk)
            (world_of _ self.old) (world_of _ self.new) }
        ensures told { IsBatchTold (lent_by ⟦<M as Surroundings>⟧.around R.remaining W.contents E.contents V.known V.Disk.Disk O.known O.Disk.Disk)
            end (world_of _ self.old) (world_of _ self.new) result }
    {
        match end {
            Ok(run) => self.tell_result(alloc, &run.text, run.stopped, refused_cause(&run)),
            Err(why) => fault(alloc, of_file(why), self.errors),
        }
    }
}

// The cause by which a batch ended in which a row was refused.
fn refused_cause(run: &BatchRun) -> Option<Cause>
    ensures { result ≡ (if has_refusal run.now then Some RowsRefused else None) }
{
    if run.has_refusal() {
        Some(Cause::RowsRefused)
    } else {
        None
    }
}
