//! Rows as they were read of one desk's file, put into the tables of another. An error is the database's own, and commits nothing.
ghost use Rattle.std.specs.Prelude.{◌≡◌, map, OnOk, is_ok};
ghost use Rattle.sqlite.specs.Held.{state};
ghost use Rattle.sqlite.specs.State.{HasCleanDisk};
ghost use Rattle.typed_sql.specs.Reading.{StaysInside};
ghost use Rattle.td_store_rows.specs.CodeTable.{code_row_of};
ghost use Rattle.td_store_rows.specs.LineTable.{line_row_of};
ghost use Rattle.td_store_rows.specs.StoreTables.{TurnsTables};
ghost use Rattle.td_extract.specs.Copied.{bare_kept, bare_movement, no_rows, with_rows};

use sqlite::{Error, Transaction};
use sqlite_trees::store::Alter;
use td_store_rows::{
    KeptGuarantee, StoredCode, StoredLine, StoredMovement, insert_code, insert_guarantee,
    insert_line, insert_movement,
};

/// The rows of guarantees, with the amounts in use on them and without their codes.
pub(crate) fn put_guarantees<T: Alter>(
    tx: &mut Transaction<'_, T>,
    rows: &[KeptGuarantee],
) -> Result<(), Error>
    ensures same_reference { tx.new.conn.ghost_name ≡ tx.old.conn.ghost_name }
    ensures put { HasCleanDisk (state T.Store tx.new.conn.now) → OnOk result (TurnsTables
        (with_rows (record no_rows { kept = map bare_kept rows.now })) (state T.Store tx.old.conn.now) (state T.Store tx.new.conn.now)) }
    ensures within { StaysInside (is_ok result) (state T.Store tx.old.conn.now) (state T.Store tx.new.conn.now) }
{
    'rows: for row in rows {
        insert_guarantee(tx, row.holder, row.serial, &row.guarantee, row.used)?;
    }
    Ok(())
}

/// The rows of codes.
pub(crate) fn put_codes<T: Alter>(
    tx: &mut Transaction<'_, T>,
    rows: &[StoredCode],
) -> Result<(), Error>
    ensures same_reference { tx.new.conn.ghost_name ≡ tx.old.conn.ghost_name }
    ensures put { HasCleanDisk (state T.Store tx.new.conn.now) → OnOk result (TurnsTables
        (with_rows (record no_rows { codes = map code_row_of rows.now })) (state T.Store tx.old.conn.now) (state T.Store tx.new.conn.now)) }
    ensures within { StaysInside (is_ok result) (state T.Store tx.old.conn.now) (state T.Store tx.new.conn.now) }
{
    'rows: for row in rows {
        insert_code(tx, row)?;
    }
    Ok(())
}

/// The rows of movements, without their lines.
pub(crate) fn put_movements<T: Alter>(
    tx: &mut Transaction<'_, T>,
    rows: &[StoredMovement],
) -> Result<(), Error>
    ensures same_reference { tx.new.conn.ghost_name ≡ tx.old.conn.ghost_name }
    ensures put { HasCleanDisk (state T.Store tx.new.conn.now) → OnOk result (TurnsTables
        (with_rows (record no_rows { movements = map bare_movement rows.now })) (state T.Store tx.old.conn.now) (state T.Store tx.new.conn.now)) }
    ensures within { StaysInside (is_ok result) (state T.Store tx.old.conn.now) (state T.Store tx.new.conn.now) }
{
    'rows: for row in rows {
        insert_movement(tx, row.holder, row.serial, &row.movement)?;
    }
    Ok(())
}

/// The rows of lines.
pub(crate) fn put_lines<T: Alter>(
    tx: &mut Transaction<'_, T>,
    rows: &[StoredLine],
) -> Result<(), Error>
    ensures same_reference { tx.new.conn.ghost_name ≡ tx.old.conn.ghost_name }
    ensures put { HasCleanDisk (state T.Store tx.new.conn.now) → OnOk result (TurnsTables
        (with_rows (record no_rows { lines = map line_row_of rows.now })) (state T.Store tx.old.conn.now) (state T.Store tx.new.conn.now)) }
    ensures within { StaysInside (is_ok result) (state T.Store tx.old.conn.now) (state T.Store tx.new.conn.now) }
{
    'rows: for row in rows {
        insert_line(tx, row)?;
    }
    Ok(())
}
