//! The holders of a range, one after another, each with all rows. `DatabaseCorrupt`: a row that is read is none; `OutOfMemory`: want of
//! memory; any other error is a database's own. An error commits nothing.
ghost use Rattle.std.specs.Prelude.{◌≡◌, ◌<◌, ◌≤◌, IfOk, IfSome, OnOk, is_ok};
ghost use Rattle.sqlite.specs.Held.{state};
ghost use Rattle.sqlite.specs.State.{HasCleanDisk};
ghost use Rattle.typed_sql.specs.Reading.{StaysInside};
ghost use Rattle.td_store_rows.specs.StoreReads.{ReadsNewest};
ghost use Rattle.td_extract.specs.Copied.{Copies, of_holders};
ghost use Rattle.td_extract.specs.Extracted.{IsNextOf};

use crate::copying::copy_holder;
use sqlite::{Error, ErrorCode, Transaction};
use sqlite_trees::store::Alter;
use std::alloc::Global;
use td_acts::HolderRow;
use td_store_audit_rows::holder_above;
use td_store_rows::find_holder;

/// The holder with the least number above one and up to another, if there is one. It changes nothing. `DatabaseCorrupt`, too: the row
/// that is found by a number says another.
pub fn next_holder<S: Alter>(
    alloc: Global,
    tx: &mut Transaction<'_, S>,
    number: u32,
    last: u32,
) -> Result<Option<HolderRow>, Error>
    ensures same_reference { tx.new.conn.ghost_name ≡ tx.old.conn.ghost_name }
    ensures found { HasCleanDisk (state S.Store tx.new.conn.now)
        → IfOk result (IsNextOf number last (state S.Store tx.old.conn.now)) }
    ensures range { IfOk result (λ found. IfSome found (λ row. (number < row.holder) × (row.holder ≤ last))) }
    ensures reads { ReadsNewest (is_ok result) (state S.Store tx.old.conn.now) (state S.Store tx.new.conn.now) }
{
    let Some(raw) = holder_above(alloc, tx, number)? else {
        return Ok(None);
    };
    if raw.holder.number() > last {
        return Ok(None);
    }
    let Some(row) = find_holder(alloc, tx, raw.holder)? else {
        return Err(Error::SqliteFailure(ErrorCode::DatabaseCorrupt));
    };
    if row.holder.number() != raw.holder.number() {
        return Err(Error::SqliteFailure(ErrorCode::DatabaseCorrupt));
    }
    Ok(Some(row))
}

/// All rows of the holders from the first number to the last.
pub fn copy_holders<S: Alter, T: Alter>(
    alloc: Global,
    from: &mut Transaction<'_, S>,
    to: &mut Transaction<'_, T>,
    first: u32,
    last: u32,
) -> Result<(), Error>
    requires begins { 1 ≤ first }
    ensures same_source { from.new.conn.ghost_name ≡ from.old.conn.ghost_name }
    ensures same_target { to.new.conn.ghost_name ≡ to.old.conn.ghost_name }
    ensures copied { HasCleanDisk (state S.Store from.new.conn.now) → HasCleanDisk (state T.Store to.new.conn.now)
        → OnOk result (Copies (of_holders first last) (state S.Store from.old.conn.now) (state T.Store to.old.conn.now) (state T.Store to.new.conn.now)) }
    ensures reads { ReadsNewest (is_ok result) (state S.Store from.old.conn.now) (state S.Store from.new.conn.now) }
    ensures within { StaysInside (is_ok result) (state T.Store to.old.conn.now) (state T.Store to.new.conn.now) }
{
    let mut number = first - 1;
    'holders: while let Some(row) = next_holder(alloc, from, number, last)? {
        copy_holder(alloc, from, to, &row)?;
        number = row.holder.number();
    }
    Ok(())
}
