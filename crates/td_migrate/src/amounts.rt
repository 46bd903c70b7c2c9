//! What is in use on a holder's guarantees, by the lines of the movements that count, in a file below version 3: the lines are read
//! once, range by range. It changes nothing. `DatabaseCorrupt`: a row is no line's or no movement's, two movements that count have one
//! serial, a line names a guarantee behind the holder's last, or the holder's count of movements is none; `OutOfMemory`: want of memory;
//! any other error is the database's own.
ghost use Rattle.std.specs.Prelude.{◌≡◌, ◌+◌, ◌≤◌, ◌↔◌, IsTrue, IfOk, is_ok, unwrap_or};
ghost use Rattle.std.specs.List.{AllByRecursion};
ghost use Rattle.keyed_rows.specs.Rows.{Rises};
ghost use Rattle.sqlite.specs.Held.{state};
ghost use Rattle.sqlite.specs.State.{HasCleanDisk};
ghost use Rattle.td_table_model.specs.Tables.{version_with_amounts};
ghost use Rattle.td_store_rows.specs.StoreReads.{ReadsVersion};
ghost use Rattle.td_store_rows.specs.MovementTable.{serial_of_stored};
ghost use Rattle.td_migrate.specs.InUse.{AreInUse, AreSumsBelow};

use crate::serials::end_of;
use sqlite::{Error, ErrorCode, Transaction};
use sqlite_trees::store::Alter;
use std::alloc::Global;
use td_base::HolderNo;
use td_schema::VERSION_WITH_AMOUNTS;
use td_store_audit::{Totals, lines_within};
use td_store_audit_rows::RawHolder;
use td_store_rows::{MovementSerial, StoredLine, counting_serials, range_end};

// Whether serials stand in ascending order, no two alike.
fn rise(serials: &[MovementSerial]) -> bool
    ensures { IsTrue result ↔ Rises serial_of_stored 0 serials.now }
{
    let mut least = 0u64;
    for row in serials {
        let serial = u64::from(row.serial);
        if serial < least {
            return false;
        }
        least = serial + 1;
    }
    true
}

// Whether each line is on one of so many guarantees.
fn are_on(guarantees: u32, lines: &[StoredLine]) -> bool
    ensures { IsTrue result → AllByRecursion (λ line. line.guarantee ≤ guarantees) lines.now }
{
    for line in lines {
        if line.guarantee > guarantees {
            return false;
        }
    }
    true
}

// What a holder's lines of the movements with serials below `end` add up to on each of so many guarantees, of those of the movements
// with these serials.
fn sums_below<S: Alter>(
    alloc: Global,
    tx: &mut Transaction<'_, S>,
    holder: HolderNo,
    guarantees: u32,
    serials: &[MovementSerial],
    end: u32,
) -> Result<Totals, Error>
    requires rise { Rises serial_of_stored 0 serials.now }
    ensures same_reference { tx.new.conn.ghost_name ≡ tx.old.conn.ghost_name }
    ensures summed { HasCleanDisk (state S.Store tx.new.conn.now)
        → IfOk result (AreSumsBelow holder serials.now end (state S.Store tx.old.conn.now)) }
    ensures reads { ReadsVersion version_with_amounts (is_ok result) (state S.Store tx.old.conn.now) (state S.Store tx.new.conn.now) }
{
    let mut totals = Totals::new(alloc, guarantees)?;
    let mut first = 0;
    'parts: while first < end {
        let next = range_end(first, end);
        let lines = lines_within(alloc, tx, VERSION_WITH_AMOUNTS, holder, first, next)?;
        if !are_on(guarantees, &lines) {
            return Err(Error::SqliteFailure(ErrorCode::DatabaseCorrupt));
        }
        totals.add(&lines, serials);
        first = next;
    }
    Ok(totals)
}

/// The amounts in use on so many guarantees of a holder.
pub(crate) fn amounts_in_use<S: Alter>(
    alloc: Global,
    tx: &mut Transaction<'_, S>,
    raw: &RawHolder,
    guarantees: u32,
) -> Result<Totals, Error>
    ensures same_reference { tx.new.conn.ghost_name ≡ tx.old.conn.ghost_name }
    ensures found { HasCleanDisk (state S.Store tx.new.conn.now)
        → IfOk result (AreInUse raw.now.holder (unwrap_or raw.now.mrn_count 0 + 1) (state S.Store tx.old.conn.now)) }
    ensures reads { ReadsVersion version_with_amounts (is_ok result) (state S.Store tx.old.conn.now) (state S.Store tx.new.conn.now) }
{
    let end = end_of(raw.mrn_count)?;
    let serials = counting_serials(alloc, tx, raw.holder)?;
    if !rise(&serials) {
        return Err(Error::SqliteFailure(ErrorCode::DatabaseCorrupt));
    }
    sums_below(alloc, tx, raw.holder, guarantees, &serials, end)
}
