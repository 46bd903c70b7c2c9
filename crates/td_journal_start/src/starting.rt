//! The start of a desk that keeps a journal.
ghost use Rattle.std.specs.Prelude.{◌≡◌, IfErr, IfOk, IsTrue, None, OnErr, OnOk, length, true};
ghost use Rattle.sqlite_disk.specs.Disk.{Cut, Follows, MoreFaults, Only};
ghost use Rattle.td_journal.specs.Journal.{IsDurable, IsTight, is_open};
ghost use Rattle.td_journal.specs.Journaled.{waiting};
ghost use Rattle.td_journal_start.specs.Begun.{IsBegun, IsUntaken};
ghost use Rattle.td_journal_start.specs.Rows.{last_seen};
ghost use Rattle.td_journal_start.specs.Starts.{IsStartRefused, IsStarted, IsTaken};

use crate::refused::{Refused, StartFault};
use crate::tail::{Found, find_last};
use sqlite_disk::Disk;
use std::alloc::Global;
use std::io;
use td_desk::Desk;
use td_journal::{Journal, JournaledDesk};
use td_journal_lines::ChangeRow;
use td_redo::{Redone, redo_row};

/// The desk with the journal in this file. The journal may be one row ahead of the desk's records: so its last row is asked again at
/// the desk. A crash may have left a torn row behind that: it is cut off, but only once the last row is known to be the desk's. A
/// file of no bytes is a new journal. `BadJournal`: its last whole line isn't exactly the row of a change; `ForeignRow`: at this
/// desk the last row's command is told something else; `Store`: a call of the file failed, or the desk's store; `NoMemory`: want of
/// memory. The desk and the file come back with each.
pub fn start_journal<D: Desk, F: Disk>(
    alloc: Global,
    mut desk: D,
    mut file: F,
) -> Result<JournaledDesk<D, F>, Refused<D, F>>
    ensures started { IfOk result (IsStarted D.seen desk file) }
    ensures open { IfOk result (λ j. is_open j.journal ≡ true) }
    ensures tight { IfOk result (λ j. IsTight j.journal) }
    ensures durable { IfOk result (λ j. IsDurable j.journal) }
    ensures waiting { IfOk result (λ j. waiting j ≡ None) }
    ensures refused { IfErr result (λ r. IsStartRefused D.seen F.Disk desk file r.why r.desk r.file) }
{
    match begin(alloc, &mut desk, &mut file) {
        Ok(found) => {
            let journal = Journal::new(file, found.end, found.next);
            Ok(JournaledDesk::new(desk, journal))
        }
        Err(why) => Err(Refused { why, desk, file }),
    }
}

// Takes the last row at the desk, and cuts off what stands behind the text.
fn begin<D: Desk, F: Disk>(alloc: Global, desk: &mut D, file: &mut F) -> Result<Found, StartFault>
    ensures begun { IfOk result (λ found. IsBegun D.seen F.Disk desk.old file.old found desk.new file.new) }
    ensures refused { IfErr result (λ why. IsStartRefused D.seen F.Disk desk.old file.old why desk.new file.new) }
{
    let Some(found) = find_last(alloc, file)? else {
        return Err(StartFault::BadJournal);
    };
    take_last(alloc, desk, &found.last)?;
    if cut_to(file, found.end).is_err() {
        return Err(StartFault::Store);
    }
    Ok(found)
}

// Asks the last row again at the desk, if there is one.
fn take_last<D: Desk>(
    alloc: Global,
    desk: &mut D,
    last: &Option<ChangeRow>,
) -> Result<(), StartFault>
    ensures taken { OnOk result (IsTaken D.seen desk.old (last_seen last.now) desk.new) }
    ensures refused { IfErr result (λ why. IsUntaken D.seen desk.old (last_seen last.now) why desk.new) }
{
    let Some(row) = last else {
        return Ok(());
    };
    match redo_row(alloc, desk, &row.stamped, &row.reply) {
        Ok(Redone::Carried | Redone::Stands) => Ok(()),
        Ok(Redone::Foreign) => Err(StartFault::ForeignRow { row: row.number }),
        Err(fault) => Err(StartFault::from(fault)),
    }
}

// Cuts a file to this length, and syncs it.
fn cut_to<F: Disk>(file: &mut F, len: usize) -> io::Result<()>
    requires { IsTrue (F.Disk.is_usable file.old) }
    ensures cut { Cut len (F.Disk.seen file.old) (F.Disk.seen file.new) }
    ensures len { OnOk result (length (F.Disk.seen file.new) ≡ len) }
    ensures durable { OnOk result (Only (F.Disk.seen file.new) (F.Disk.may_leave file.new)) }
    ensures crash { Follows (Cut len) (F.Disk.may_leave file.old) (F.Disk.may_leave file.new) }
    ensures failed { OnErr result (MoreFaults (F.Disk.faults file.old) (F.Disk.faults file.new)) }
    ensures clean { IsTrue (F.Disk.is_clean file.new) → IsTrue (F.Disk.is_clean file.old) }
{
    file.set_len(len)?;
    file.sync()
}
