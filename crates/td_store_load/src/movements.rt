//! Movements by their references, with their lines and without. `DatabaseCorrupt`: a row is no such row, there are several where there can be one, one doesn't
//! stand where it was asked for, or the guarantee of a line isn't there; `OutOfMemory`: want of memory; any other error is the
//! database's own.
ghost use Rattle.std.specs.Prelude.{◌≡◌, map, option_map, IfOk, is_ok};
ghost use Rattle.td_movement.specs.Movements.{without_lines};
ghost use Rattle.sqlite.specs.Held.{state};
ghost use Rattle.sqlite.specs.State.{HasCleanDisk};
ghost use Rattle.td_model.specs.Account.{movement_by_lrn, movement_by_mrn};
ghost use Rattle.td_model.specs.Content.{Content, account_in};
ghost use Rattle.td_table_model.specs.Gathering.{line_from, with_lines};
ghost use Rattle.td_store_rows.specs.StoreReads.{ReadsNewest};
ghost use Rattle.td_store_rows.specs.LineTable.{line_row_of as row_of_line};
ghost use Rattle.td_store_rows.specs.MovementTable.{movement_row_of};
ghost use Rattle.td_store_load.specs.Loaded.{IsOfContent, IsOfTables};
ghost use Rattle.td_store_rows.specs.StoreTables.{HoldsContent};

use sqlite::{Error, ErrorCode, Transaction};
use sqlite_trees::store::Alter;
use std::alloc::Global;
use td_base::{Country, HolderNo, Lrn, Mrn};
use td_movement::{Line, Movement, MovementLines};
use td_store_rows::{
    StoredLine, StoredMovement, find_by_lrn, find_by_mrn, find_by_serial, lines_of,
};

// The line in a row, on the guarantee that the row names.
fn line_on<S: Alter>(
    alloc: Global,
    tx: &mut Transaction<'_, S>,
    row: &StoredLine,
) -> Result<Line, Error>
    ensures same_reference { tx.new.conn.ghost_name ≡ tx.old.conn.ghost_name }
    ensures line { HasCleanDisk (state S.Store tx.new.conn.now)
        → IfOk result (IsOfTables (λ t. line_from t (row_of_line row.now)) (state S.Store tx.old.conn.now)) }
    ensures reads { ReadsNewest (is_ok result) (state S.Store tx.old.conn.now) (state S.Store tx.new.conn.now) }
{
    let found = find_by_serial(alloc, tx, row.holder, row.guarantee)?;
    let Some(stored) = &found else {
        return Err(Error::SqliteFailure(ErrorCode::DatabaseCorrupt));
    };
    Ok(Line {
        grn: stored.guarantee.grn,
        cents: row.cents,
    })
}

// The lines in rows, in their order.
fn lines_on<S: Alter>(
    alloc: Global,
    tx: &mut Transaction<'_, S>,
    rows: &[StoredLine],
) -> Result<Vec<Line>, Error>
    ensures same_reference { tx.new.conn.ghost_name ≡ tx.old.conn.ghost_name }
    ensures lines { HasCleanDisk (state S.Store tx.new.conn.now)
        → IfOk result (λ lines. IsOfTables (λ t. map (λ l. line_from t (row_of_line l)) rows.now)
        (state S.Store tx.old.conn.now) lines.items) }
    ensures reads { ReadsNewest (is_ok result) (state S.Store tx.old.conn.now) (state S.Store tx.new.conn.now) }
{
    let mut lines = Vec::with_capacity(alloc, rows.len())?;
    'rows: for row in rows {
        let line = line_on(alloc, tx, row)?;
        lines.push(line)?;
    }
    Ok(lines)
}

/// The movement in a row with its lines, by their numbers.
pub fn movement_with_lines<S: Alter>(
    alloc: Global,
    tx: &mut Transaction<'_, S>,
    stored: StoredMovement,
) -> Result<Movement, Error>
    ensures same_reference { tx.new.conn.ghost_name ≡ tx.old.conn.ghost_name }
    ensures whole { HasCleanDisk (state S.Store tx.new.conn.now)
        → IfOk result (IsOfTables (λ t. with_lines t (movement_row_of stored)) (state S.Store tx.old.conn.now)) }
    ensures reads { ReadsNewest (is_ok result) (state S.Store tx.old.conn.now) (state S.Store tx.new.conn.now) }
{
    let rows = lines_of(alloc, tx, stored.holder, stored.serial)?;
    let lines = lines_on(alloc, tx, &rows)?;
    let mut movement = stored.movement;
    movement.lines = MovementLines::new(lines);
    Ok(movement)
}

/// The holder's movement with an MRN at an office of that country, if there is one, with its lines.
pub fn load_movement_by_mrn<S: Alter>(
    alloc: Global,
    tx: &mut Transaction<'_, S>,
    country: Country,
    holder: HolderNo,
    mrn: &Mrn,
) -> Result<Option<Movement>, Error>
    ensures same_reference { tx.new.conn.ghost_name ≡ tx.old.conn.ghost_name }
    ensures found { HasCleanDisk (state S.Store tx.new.conn.now)
        → IfOk result (IsOfContent country (λ c. movement_by_mrn mrn.now (account_in holder c).movements)
        (state S.Store tx.old.conn.now)) }
    ensures reads { ReadsNewest (is_ok result) (state S.Store tx.old.conn.now) (state S.Store tx.new.conn.now) }
{
    let serial = mrn.serial(country).unwrap_or(0);
    let Some(stored) = find_by_mrn(alloc, tx, holder, serial, mrn)? else {
        return Ok(None);
    };
    Ok(Some(movement_with_lines(alloc, tx, stored)?))
}

/// The holder's movement with an MRN at an office of that country, if there is one, without its lines.
pub fn load_status_by_mrn<S: Alter>(
    alloc: Global,
    tx: &mut Transaction<'_, S>,
    country: Country,
    holder: HolderNo,
    mrn: &Mrn,
) -> Result<Option<Movement>, Error>
    ensures same_reference { tx.new.conn.ghost_name ≡ tx.old.conn.ghost_name }
    ensures found { HasCleanDisk (state S.Store tx.new.conn.now)
        → IfOk result (IsOfContent country
        (λ c. option_map without_lines (movement_by_mrn mrn.now (account_in holder c).movements))
        (state S.Store tx.old.conn.now)) }
    ensures reads { ReadsNewest (is_ok result) (state S.Store tx.old.conn.now) (state S.Store tx.new.conn.now) }
{
    let serial = mrn.serial(country).unwrap_or(0);
    let Some(row) = find_by_mrn(alloc, tx, holder, serial, mrn)? else {
        return Ok(None);
    };
    Ok(Some(row.movement.without_lines(alloc)))
}

/// The holder's movement with an LRN, if there is one, with its lines.
pub fn load_movement_by_lrn<S: Alter>(
    alloc: Global,
    tx: &mut Transaction<'_, S>,
    holder: HolderNo,
    lrn: &Lrn,
) -> Result<Option<Movement>, Error>
    ensures same_reference { tx.new.conn.ghost_name ≡ tx.old.conn.ghost_name }
    ensures found { HasCleanDisk (state S.Store tx.new.conn.now)
        → IfOk result (λ found. (c : Content) → HoldsContent c (state S.Store tx.old.conn.now)
        → found ≡ movement_by_lrn lrn.now (account_in holder c).movements) }
    ensures reads { ReadsNewest (is_ok result) (state S.Store tx.old.conn.now) (state S.Store tx.new.conn.now) }
{
    let Some(stored) = find_by_lrn(alloc, tx, holder, lrn)? else {
        return Ok(None);
    };
    Ok(Some(movement_with_lines(alloc, tx, stored)?))
}
