//! Reports on the records in a file.
ghost use Rattle.std.specs.Prelude.{◌≡◌, is_ok, Err, true};
ghost use Rattle.td_words.specs.declared.words.Records.TheVariants.{File};
ghost use Rattle.td_cli.specs.AtDesk.{AtDesk};
ghost use Rattle.td_cli.specs.Exits.{of_job};
ghost use Rattle.td_cli.specs.Reported.{HasReported, IsReportDone, report_cause, text_of_report};
ghost use Rattle.counted_io.specs.Counted.{calls_of, has_failed, HasCalled};
ghost use Rattle.td_report_pieces.specs.Written.{HasWritten, IsReported};
ghost use Rattle.td_store.specs.Kept.{sql_view};
ghost use Rattle.td_store.specs.Looked.{HasLooked};
ghost use Rattle.td_cli.specs.World.{IsLentStill, lent_by, world_of};

use crate::context::JobContext;
use crate::exits::{Cause, exit, of_file, of_report};
use sqlite::Alter;
use std::alloc::Global;
use std::io::{Read, Write};
use td_base::{Counted, Country};
use td_files::{DeskFault, DeskFile};
use td_machine::{Drive, Machine, Surroundings};
use td_reports::{ReportFault, guarantees, overdue};
use td_store::SqlDesk;
use td_words::ReportKind;

impl<M, V, O, R, W, E> JobContext<'_, '_, '_, '_, '_, '_, M, V, O, R, W, E>
where
    M: Machine,
    V: Drive,
    O: Drive,
    R: Read,
    W: Write,
    E: Write,
{
    /// Writes a report on the records of a desk of that country, which stand in the file at the path, tells the fault that ended it, if
    /// any, or why there was no desk, and gives the status. No row is changed.
    pub(crate) fn report(
        &mut self,
        alloc: Global,
        country: Country,
        kind: ReportKind,
        path: String,
    ) -> u8
        ensures lent { IsLentStill self.old self.new }
        ensures done { IsReportDone (lent_by ⟦<M as Surroundings>⟧.around R.remaining W.contents E.contents V.known V.Disk.Disk O.known O.Disk.Disk)
            country kind (File path) (world_of _ self.old) (world_of _ self.new) result }
    {
        let end = report_on(alloc, country, kind, path, self.file, self.out);
        exit(alloc, cause(end), self.errors)
    }
}

// Writes it, or answers why there was no desk.
fn report_on<V: Drive, W: Write>(
    alloc: Global,
    country: Country,
    kind: ReportKind,
    path: String,
    file: &mut DeskFile<V>,
    out: &mut Counted<W>,
) -> Result<Result<(), ReportFault>, DeskFault>
    ensures { AtDesk V.known country (File path)
        (λ D view opened left end. HasReported view opened left W.contents kind out.old out.new end) (out.new ≡ out.old)
        file.old file.new result }
{
    let mut desk = file.open_desk(alloc, country, &path)?;
    let end = write_report(alloc, &mut desk, kind, out);
    file.keep(desk);
    Ok(end)
}

// A report of that kind on a desk over any store.
fn write_report<T: Alter, W: Write>(
    alloc: Global,
    desk: &mut SqlDesk<T>,
    kind: ReportKind,
    out: &mut Counted<W>,
) -> Result<(), ReportFault>
    ensures looked { HasLooked (sql_view T.Store) (is_ok result) desk.old desk.new }
    ensures written { (sql_view T.Store).is_clean desk.new → (sql_view T.Store).is_live desk.old
        → IsReported W.contents out.old out.new (text_of_report kind ((sql_view T.Store).content desk.old)) result }
    ensures cause { result ≡ Err ReportFault.Write → (has_failed out.new ≡ true) × HasCalled (calls_of out.old) (calls_of out.new) }
    ensures chain { HasWritten W.contents out.old out.new result }
{
    match kind {
        ReportKind::Overdue(day) => overdue(alloc, desk, day, out),
        ReportKind::Guarantees => guarantees(alloc, desk, out),
    }
}

// The cause by which a report ended, or for which there was no desk, if any.
fn cause(end: Result<Result<(), ReportFault>, DeskFault>) -> Option<Cause>
    ensures { result ≡ of_job report_cause end }
{
    match end {
        Ok(Ok(())) => None,
        Ok(Err(why)) => Some(of_report(why)),
        Err(why) => Some(of_file(why)),
    }
}
