//! All movements of a holder, and all guarantees, as lists show them, read in ranges of serials. `DatabaseCorrupt`: a row is no such
//! row, or the holder's row counts more of them than there are serials; `OutOfMemory`: want of memory; any other error is the
//! database's own.
ghost use Rattle.std.specs.Prelude.{◌≡◌, ◌++◌, Some, map, IfOk, OnOk, is_ok};
ghost use Rattle.sqlite.specs.Held.{state};
ghost use Rattle.sqlite.specs.State.{HasCleanDisk};
ghost use Rattle.td_model.specs.Table.{listed};
ghost use Rattle.td_model.specs.Content.{Content, account_in};
ghost use Rattle.td_table_model.specs.Gathering.{movements_by};
ghost use Rattle.td_store_rows.specs.KeptTable.{kept_row_of};
ghost use Rattle.td_store_rows.specs.MovementTable.{shown_in_list, shown_of};
ghost use Rattle.td_store_rows.specs.Ranges.{rows_below};
ghost use Rattle.td_store_rows.specs.StoreReads.{ReadsNewest};
ghost use Rattle.td_store_rows.specs.StoreTables.{HoldsContent};
ghost use Rattle.td_store_load.specs.Loaded.{IsOfTables};
ghost use Rattle.td_store_load.specs.Needed.{entry_from, kept_by, with_use};

use crate::entries::entry_in_row;
use sqlite::{Error, ErrorCode, Transaction};
use sqlite_trees::store::Alter;
use std::alloc::{AllocError, Global};
use td_acts::{HolderRow, ListedMovement};
use td_base::{Cents, HolderNo};
use td_guarantee::Guarantee;
use td_store_rows::{KeptGuarantee, MovementInList, kept_within, listed_within, range_end};

/// All movements of the holder with this row, by their serials, as a list shows them.
pub fn list_movements<S: Alter>(
    alloc: Global,
    tx: &mut Transaction<'_, S>,
    row: &HolderRow,
) -> Result<Vec<ListedMovement>, Error>
    ensures same_reference { tx.new.conn.ghost_name ≡ tx.old.conn.ghost_name }
    ensures found { HasCleanDisk (state S.Store tx.new.conn.now)
        → IfOk result (λ found. (c : Content) → HoldsContent c (state S.Store tx.old.conn.now)
        → (account_in row.now.holder c).holder ≡ Some row.now
        → found.items ≡ map listed (account_in row.now.holder c).movements) }
    ensures reads { ReadsNewest (is_ok result) (state S.Store tx.old.conn.now) (state S.Store tx.new.conn.now) }
{
    let Some(end) = row.mrn_count.checked_add(1) else {
        return Err(Error::SqliteFailure(ErrorCode::DatabaseCorrupt));
    };
    movements_below(alloc, tx, row.holder, end)
}

// The holder's movements with serials below `end`, by their serials, as a list shows them.
fn movements_below<S: Alter>(
    alloc: Global,
    tx: &mut Transaction<'_, S>,
    holder: HolderNo,
    end: u32,
) -> Result<Vec<ListedMovement>, Error>
    ensures same_reference { tx.new.conn.ghost_name ≡ tx.old.conn.ghost_name }
    ensures found { HasCleanDisk (state S.Store tx.new.conn.now)
        → IfOk result (λ found. IsOfTables (λ t. map shown_of (rows_below end (movements_by holder t)))
        (state S.Store tx.old.conn.now) found.items) }
    ensures reads { ReadsNewest (is_ok result) (state S.Store tx.old.conn.now) (state S.Store tx.new.conn.now) }
{
    let mut movements = Vec::new(alloc);
    let mut first = 0;
    'parts: while first < end {
        let next = range_end(first, end);
        let rows = listed_within(alloc, tx, holder, first, next)?;
        push_rows(&mut movements, &rows)?;
        first = next;
    }
    Ok(movements)
}

// What rows show goes behind other movements. `AllocError`: want of memory.
fn push_rows(movements: &mut Vec<ListedMovement>, rows: &[MovementInList]) -> Result<(), AllocError>
    ensures { OnOk result (movements.new.items ≡ movements.old.items ++ map shown_in_list rows.now) }
{
    'rows: for row in rows {
        movements.push(row.shown)?;
    }
    Ok(())
}

/// All guarantees of the holder with this row, by their serials, with their codes, and the amounts in use on them.
pub fn list_guarantees<S: Alter>(
    alloc: Global,
    tx: &mut Transaction<'_, S>,
    row: &HolderRow,
) -> Result<Vec<(Guarantee, Cents)>, Error>
    ensures same_reference { tx.new.conn.ghost_name ≡ tx.old.conn.ghost_name }
    ensures found { HasCleanDisk (state S.Store tx.new.conn.now)
        → IfOk result (λ found. (c : Content) → HoldsContent c (state S.Store tx.old.conn.now)
        → (account_in row.now.holder c).holder ≡ Some row.now
        → found.items ≡ map (with_use (account_in row.now.holder c)) (account_in row.now.holder c).guarantees) }
    ensures reads { ReadsNewest (is_ok result) (state S.Store tx.old.conn.now) (state S.Store tx.new.conn.now) }
{
    let Some(end) = row.grn_count.checked_add(1) else {
        return Err(Error::SqliteFailure(ErrorCode::DatabaseCorrupt));
    };
    guarantees_below(alloc, tx, row.holder, end)
}

// The holder's guarantees with serials below `end`, by their serials, with their codes, and the amounts in use on them.
fn guarantees_below<S: Alter>(
    alloc: Global,
    tx: &mut Transaction<'_, S>,
    holder: HolderNo,
    end: u32,
) -> Result<Vec<(Guarantee, Cents)>, Error>
    ensures same_reference { tx.new.conn.ghost_name ≡ tx.old.conn.ghost_name }
    ensures found { HasCleanDisk (state S.Store tx.new.conn.now)
        → IfOk result (λ found. IsOfTables (λ t. map (entry_from t) (rows_below end (kept_by holder t)))
        (state S.Store tx.old.conn.now) found.items) }
    ensures reads { ReadsNewest (is_ok result) (state S.Store tx.old.conn.now) (state S.Store tx.new.conn.now) }
{
    let mut entries = Vec::new(alloc);
    let mut first = 0;
    'parts: while first < end {
        let next = range_end(first, end);
        let rows = kept_within(alloc, tx, holder, first, next)?;
        let mut more = entries_in_rows(alloc, tx, &rows)?;
        entries.append(&mut more)?;
        first = next;
    }
    Ok(entries)
}

// The guarantees in rows with their codes, and the amounts in use that the rows keep.
fn entries_in_rows<S: Alter>(
    alloc: Global,
    tx: &mut Transaction<'_, S>,
    rows: &[KeptGuarantee],
) -> Result<Vec<(Guarantee, Cents)>, Error>
    ensures same_reference { tx.new.conn.ghost_name ≡ tx.old.conn.ghost_name }
    ensures entries { HasCleanDisk (state S.Store tx.new.conn.now)
        → IfOk result (λ entries. IsOfTables (λ t. map (λ r. entry_from t (kept_row_of r)) rows.now)
        (state S.Store tx.old.conn.now) entries.items) }
    ensures reads { ReadsNewest (is_ok result) (state S.Store tx.old.conn.now) (state S.Store tx.new.conn.now) }
{
    let mut entries = Vec::with_capacity(alloc, rows.len())?;
    'rows: for row in rows {
        let entry = entry_in_row(alloc, tx, row)?;
        entries.push(entry)?;
    }
    Ok(entries)
}
