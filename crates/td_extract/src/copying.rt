//! One holder's rows, read of a desk's file and put into the tables of another, range by range: few of them are held at once.
//! `DatabaseCorrupt`: a row that is read is none; `OutOfMemory`: want of memory; any other error is a database's own. An error commits
//! nothing.
ghost use Rattle.std.specs.Prelude.{◌≡◌, ◌+◌, IfOk, OnOk, is_ok};
ghost use Rattle.sqlite.specs.Held.{state};
ghost use Rattle.sqlite.specs.State.{HasCleanDisk};
ghost use Rattle.typed_sql.specs.Reading.{StaysInside};
ghost use Rattle.td_store_rows.specs.StoreReads.{ReadsNewest};
ghost use Rattle.td_extract.specs.Copied.{Copies, codes_within as own_codes, guarantees_within, kept_within as own_kept, lines_within as own_lines, movements_within as own_movements, of_row, rows_within};

use crate::putting::{put_codes, put_guarantees, put_lines, put_movements};
use sqlite::{Error, ErrorCode, Transaction};
use sqlite_trees::store::Alter;
use std::alloc::Global;
use td_acts::HolderRow;
use td_base::HolderNo;
use td_schema::NEWEST_VERSION;
use td_store_audit::{codes_within, lines_within};
use td_store_rows::{insert_holder, kept_within, movements_within, range_end};

// A holder's guarantees with serials from `first` on and below `end`, without their codes.
fn copy_kept<S: Alter, T: Alter>(
    alloc: Global,
    from: &mut Transaction<'_, S>,
    to: &mut Transaction<'_, T>,
    holder: HolderNo,
    first: u32,
    end: u32,
) -> Result<(), Error>
    ensures same_source { from.new.conn.ghost_name ≡ from.old.conn.ghost_name }
    ensures same_target { to.new.conn.ghost_name ≡ to.old.conn.ghost_name }
    ensures copied { HasCleanDisk (state S.Store from.new.conn.now) → HasCleanDisk (state T.Store to.new.conn.now)
        → OnOk result (Copies (own_kept holder first end) (state S.Store from.old.conn.now) (state T.Store to.old.conn.now) (state T.Store to.new.conn.now)) }
    ensures reads { ReadsNewest (is_ok result) (state S.Store from.old.conn.now) (state S.Store from.new.conn.now) }
    ensures within { StaysInside (is_ok result) (state T.Store to.old.conn.now) (state T.Store to.new.conn.now) }
{
    let rows = kept_within(alloc, from, holder, first, end)?;
    put_guarantees(to, &rows)
}

// The codes of a holder's guarantees with serials from `first` on and below `end`.
fn copy_codes<S: Alter, T: Alter>(
    alloc: Global,
    from: &mut Transaction<'_, S>,
    to: &mut Transaction<'_, T>,
    holder: HolderNo,
    first: u32,
    end: u32,
) -> Result<(), Error>
    ensures same_source { from.new.conn.ghost_name ≡ from.old.conn.ghost_name }
    ensures same_target { to.new.conn.ghost_name ≡ to.old.conn.ghost_name }
    ensures copied { HasCleanDisk (state S.Store from.new.conn.now) → HasCleanDisk (state T.Store to.new.conn.now)
        → OnOk result (Copies (own_codes holder first end) (state S.Store from.old.conn.now) (state T.Store to.old.conn.now) (state T.Store to.new.conn.now)) }
    ensures reads { ReadsNewest (is_ok result) (state S.Store from.old.conn.now) (state S.Store from.new.conn.now) }
    ensures within { StaysInside (is_ok result) (state T.Store to.old.conn.now) (state T.Store to.new.conn.now) }
{
    let rows = codes_within(alloc, from, holder, first, end)?;
    put_codes(to, &rows)
}

// A holder's movements with serials from `first` on and below `end`, without their lines.
fn copy_rows<S: Alter, T: Alter>(
    alloc: Global,
    from: &mut Transaction<'_, S>,
    to: &mut Transaction<'_, T>,
    holder: HolderNo,
    first: u32,
    end: u32,
) -> Result<(), Error>
    ensures same_source { from.new.conn.ghost_name ≡ from.old.conn.ghost_name }
    ensures same_target { to.new.conn.ghost_name ≡ to.old.conn.ghost_name }
    ensures copied { HasCleanDisk (state S.Store from.new.conn.now) → HasCleanDisk (state T.Store to.new.conn.now)
        → OnOk result (Copies (rows_within holder first end) (state S.Store from.old.conn.now) (state T.Store to.old.conn.now) (state T.Store to.new.conn.now)) }
    ensures reads { ReadsNewest (is_ok result) (state S.Store from.old.conn.now) (state S.Store from.new.conn.now) }
    ensures within { StaysInside (is_ok result) (state T.Store to.old.conn.now) (state T.Store to.new.conn.now) }
{
    let rows = movements_within(alloc, from, holder, first, end)?;
    put_movements(to, &rows)
}

// The lines of a holder's movements with serials from `first` on and below `end`.
fn copy_lines<S: Alter, T: Alter>(
    alloc: Global,
    from: &mut Transaction<'_, S>,
    to: &mut Transaction<'_, T>,
    holder: HolderNo,
    first: u32,
    end: u32,
) -> Result<(), Error>
    ensures same_source { from.new.conn.ghost_name ≡ from.old.conn.ghost_name }
    ensures same_target { to.new.conn.ghost_name ≡ to.old.conn.ghost_name }
    ensures copied { HasCleanDisk (state S.Store from.new.conn.now) → HasCleanDisk (state T.Store to.new.conn.now)
        → OnOk result (Copies (own_lines holder first end) (state S.Store from.old.conn.now) (state T.Store to.old.conn.now) (state T.Store to.new.conn.now)) }
    ensures reads { ReadsNewest (is_ok result) (state S.Store from.old.conn.now) (state S.Store from.new.conn.now) }
    ensures within { StaysInside (is_ok result) (state T.Store to.old.conn.now) (state T.Store to.new.conn.now) }
{
    let rows = lines_within(alloc, from, NEWEST_VERSION, holder, first, end)?;
    put_lines(to, &rows)
}

// A holder's guarantees with serials below `end`, with their codes.
fn copy_guarantees<S: Alter, T: Alter>(
    alloc: Global,
    from: &mut Transaction<'_, S>,
    to: &mut Transaction<'_, T>,
    holder: HolderNo,
    end: u32,
) -> Result<(), Error>
    ensures same_source { from.new.conn.ghost_name ≡ from.old.conn.ghost_name }
    ensures same_target { to.new.conn.ghost_name ≡ to.old.conn.ghost_name }
    ensures copied { HasCleanDisk (state S.Store from.new.conn.now) → HasCleanDisk (state T.Store to.new.conn.now)
        → OnOk result (Copies (guarantees_within holder 0 end) (state S.Store from.old.conn.now) (state T.Store to.old.conn.now) (state T.Store to.new.conn.now)) }
    ensures reads { ReadsNewest (is_ok result) (state S.Store from.old.conn.now) (state S.Store from.new.conn.now) }
    ensures within { StaysInside (is_ok result) (state T.Store to.old.conn.now) (state T.Store to.new.conn.now) }
{
    let mut first = 0;
    'parts: while first < end {
        let next = range_end(first, end);
        copy_kept(alloc, from, to, holder, first, next)?;
        copy_codes(alloc, from, to, holder, first, next)?;
        first = next;
    }
    Ok(())
}

// A holder's movements with serials below `end`, with their lines.
fn copy_movements<S: Alter, T: Alter>(
    alloc: Global,
    from: &mut Transaction<'_, S>,
    to: &mut Transaction<'_, T>,
    holder: HolderNo,
    end: u32,
) -> Result<(), Error>
    ensures same_source { from.new.conn.ghost_name ≡ from.old.conn.ghost_name }
    ensures same_target { to.new.conn.ghost_name ≡ to.old.conn.ghost_name }
    ensures copied { HasCleanDisk (state S.Store from.new.conn.now) → HasCleanDisk (state T.Store to.new.conn.now)
        → OnOk result (Copies (own_movements holder 0 end) (state S.Store from.old.conn.now) (state T.Store to.old.conn.now) (state T.Store to.new.conn.now)) }
    ensures reads { ReadsNewest (is_ok result) (state S.Store from.old.conn.now) (state S.Store from.new.conn.now) }
    ensures within { StaysInside (is_ok result) (state T.Store to.old.conn.now) (state T.Store to.new.conn.now) }
{
    let mut first = 0;
    'parts: while first < end {
        let next = range_end(first, end);
        copy_rows(alloc, from, to, holder, first, next)?;
        copy_lines(alloc, from, to, holder, first, next)?;
        first = next;
    }
    Ok(())
}

// The serial behind the last of so many. `DatabaseCorrupt`: there is none.
fn end_of(count: u32) -> Result<u32, Error>
    ensures { IfOk result (λ end. end ≡ count + 1) }
{
    count
        .checked_add(1)
        .ok_or(Error::SqliteFailure(ErrorCode::DatabaseCorrupt))
}

/// A holder's row, and all that it counts. `DatabaseCorrupt`, too: it counts more than there are serials.
pub(crate) fn copy_holder<S: Alter, T: Alter>(
    alloc: Global,
    from: &mut Transaction<'_, S>,
    to: &mut Transaction<'_, T>,
    row: &HolderRow,
) -> Result<(), Error>
    ensures same_source { from.new.conn.ghost_name ≡ from.old.conn.ghost_name }
    ensures same_target { to.new.conn.ghost_name ≡ to.old.conn.ghost_name }
    ensures copied { HasCleanDisk (state S.Store from.new.conn.now) → HasCleanDisk (state T.Store to.new.conn.now)
        → OnOk result (Copies (of_row row.now) (state S.Store from.old.conn.now) (state T.Store to.old.conn.now) (state T.Store to.new.conn.now)) }
    ensures reads { ReadsNewest (is_ok result) (state S.Store from.old.conn.now) (state S.Store from.new.conn.now) }
    ensures within { StaysInside (is_ok result) (state T.Store to.old.conn.now) (state T.Store to.new.conn.now) }
{
    let guarantees = end_of(row.grn_count)?;
    let movements = end_of(row.mrn_count)?;
    insert_holder(to, row)?;
    copy_guarantees(alloc, from, to, row.holder, guarantees)?;
    copy_movements(alloc, from, to, row.holder, movements)
}
