//! The reports.
ghost use Rattle.std.specs.Prelude.{◌≡◌, Err, IsTrue, is_ok, true};
ghost use Rattle.counted_io.specs.Counted.{calls_of, has_failed, HasCalled};
ghost use Rattle.sqlite.specs.Held.{state};
ghost use Rattle.sqlite.specs.State.{HasCleanDisk};
ghost use Rattle.td_store.specs.Kept.{CountsFaults, content_in, sql_view};
ghost use Rattle.td_store.specs.Looked.{HasLooked};
ghost use Rattle.td_table_model.specs.Listed.{guarantees_listed, movements_listed};
ghost use Rattle.td_reports.specs.Texts.{guarantees_text, overdue_text};
ghost use Rattle.td_report_pieces.specs.Written.{HasWritten, IsReported};

use crate::rows::{AmountsInUse, OverdueOn};
use sqlite_trees::store::Alter;
use std::alloc::Global;
use std::io::Write;
use td_base::{Counted, Day};
use td_report_pieces::{Pieces, ReportFault};
use td_store::SqlDesk;

/// Writes the report of the movements that are overdue on a day, by holder and then by serial: `OVERDUE DAY`, a line for each, and
/// `TOTAL n`. No row of the desk is changed, and no more is kept than a row and some kilobytes of text.
///
/// `Write`: the writer failed or took no byte more; `NoMemory`: want of memory; `Store`: any other fault of the desk's store.
/// What was written before a fault begins the report, and the same report may be asked for again unless the store failed.
pub fn overdue<S: Alter, W: Write>(
    alloc: Global,
    desk: &mut SqlDesk<S>,
    day: Day,
    writer: &mut Counted<W>,
) -> Result<(), ReportFault>
    ensures looked { HasLooked (sql_view S.Store) (is_ok result) desk.old desk.new }
    ensures counted { CountsFaults (state S.Store desk.old) (state S.Store desk.new) }
    ensures memory { HasCleanDisk (state S.Store desk.new) → result ≡ Err ReportFault.NoMemory
        → IsTrue (state S.Store desk.new).is_open }
    ensures stays { HasCleanDisk (state S.Store desk.new) → IsTrue (state S.Store desk.old).is_open → result ≡ Err ReportFault.Write
        → IsTrue (state S.Store desk.new).is_open }
    ensures written { HasCleanDisk (state S.Store desk.new) → IsTrue (state S.Store desk.old).is_open
        → IsReported W.contents writer.old writer.new
        (overdue_text day (movements_listed (content_in (state S.Store desk.old).now.trees))) result }
    ensures cause { result ≡ Err ReportFault.Write
        → (has_failed writer.new ≡ true) × HasCalled (calls_of writer.old) (calls_of writer.new) }
    // also where the disk returned other than what was written
    ensures chain { HasWritten W.contents writer.old writer.new result }
{
    let header = format!(in alloc; "OVERDUE {day}\n");
    let mut report = Pieces::begin(alloc, OverdueOn { day }, header);
    let visited = desk.visit_deadlines(alloc, &mut report, writer);
    report.end(visited, writer)
}

/// Writes the report of all guarantees, with the amounts in use on them, by holder and then by serial: `GUARANTEES`, a line for
/// each, and `TOTAL n`. No row of the desk is changed, and no more is kept than a row and some kilobytes of text.
///
/// The errors are those of `overdue`.
pub fn guarantees<S: Alter, W: Write>(
    alloc: Global,
    desk: &mut SqlDesk<S>,
    writer: &mut Counted<W>,
) -> Result<(), ReportFault>
    ensures looked { HasLooked (sql_view S.Store) (is_ok result) desk.old desk.new }
    ensures counted { CountsFaults (state S.Store desk.old) (state S.Store desk.new) }
    ensures memory { HasCleanDisk (state S.Store desk.new) → result ≡ Err ReportFault.NoMemory
        → IsTrue (state S.Store desk.new).is_open }
    ensures stays { HasCleanDisk (state S.Store desk.new) → IsTrue (state S.Store desk.old).is_open → result ≡ Err ReportFault.Write
        → IsTrue (state S.Store desk.new).is_open }
    ensures written { HasCleanDisk (state S.Store desk.new) → IsTrue (state S.Store desk.old).is_open
        → IsReported W.contents writer.old writer.new
        (guarantees_text (guarantees_listed (content_in (state S.Store desk.old).now.trees))) result }
    ensures cause { result ≡ Err ReportFault.Write
        → (has_failed writer.new ≡ true) × HasCalled (calls_of writer.old) (calls_of writer.new) }
    // also where the disk returned other than what was written
    ensures chain { HasWritten W.contents writer.old writer.new result }
{
    let header = String::from_str(alloc, "GUARANTEES\n");
    let mut report = Pieces::begin(alloc, AmountsInUse, header);
    let visited = desk.visit_guarantees(alloc, &mut report, writer);
    report.end(visited, writer)
}
