//! What is written into the table of codes. An error is the database's own, and commits nothing.
ghost use Rattle.std.specs.Prelude.{◌≡◌, ◌∷◌, true, not, filter, OnOk, is_ok};
ghost use Rattle.sqlite.specs.Held.{state};
ghost use Rattle.sqlite.specs.State.{HasCleanDisk, Shows};
ghost use Rattle.sqlite.specs.Values.{bound};
ghost use Rattle.td_table_model.specs.Changes.{is_code_of};
ghost use Rattle.typed_sql.specs.Reading.{StaysInside};
ghost use Rattle.td_store_rows.specs.Columns.{code_cells};
ghost use Rattle.td_store_rows.specs.CodeTable.{TurnsCodes, code_row_of};

use crate::codes::stored::StoredCode;
use crate::codes::texts::{DELETE, INSERT};
use sqlite::{Error, Transaction};
use sqlite_trees::store::Alter;
use sqlite_value::value::ValueRef;
use td_schema::number_of;

// The columns of a code's row.
fn columns(code: &StoredCode) -> [ValueRef<'_>; 3]
    ensures { bound result ≡ code_cells (code_row_of code.now) }
{
    [
        number_of(code.holder.number()),
        number_of(code.serial),
        ValueRef::Text(code.code.as_bytes()),
    ]
}

/// Inserts the row of a code.
pub fn insert_code<S: Alter>(tx: &mut Transaction<'_, S>, code: &StoredCode) -> Result<(), Error>
    ensures same_reference { tx.new.conn.ghost_name ≡ tx.old.conn.ghost_name }
    ensures inserted { HasCleanDisk (state S.Store tx.new.conn.now)
        → OnOk result (TurnsCodes (λ rows. code_row_of code.now ∷ rows)
        (state S.Store tx.old.conn.now) (state S.Store tx.new.conn.now)) }
    ensures inside { HasCleanDisk (state S.Store tx.new.conn.now) → OnOk result (Shows (state S.Store tx.old.conn.now)
        (state S.Store tx.new.conn.now) (state S.Store tx.new.conn.now).now (state S.Store tx.old.conn.now).committed true) }
    ensures within { StaysInside (is_ok result) (state S.Store tx.old.conn.now) (state S.Store tx.new.conn.now) }
{
    typed_sql::insert(tx, INSERT, &columns(code))
}

/// Deletes the row of a code. `DatabaseCorrupt`: there isn't just one such row.
pub fn delete_code<S: Alter>(tx: &mut Transaction<'_, S>, code: &StoredCode) -> Result<(), Error>
    ensures same_reference { tx.new.conn.ghost_name ≡ tx.old.conn.ghost_name }
    ensures deleted { HasCleanDisk (state S.Store tx.new.conn.now)
        → OnOk result (TurnsCodes (filter (λ r. not (is_code_of code.now.holder code.now.serial code.now.code r)))
        (state S.Store tx.old.conn.now) (state S.Store tx.new.conn.now)) }
    ensures inside { HasCleanDisk (state S.Store tx.new.conn.now) → OnOk result (Shows (state S.Store tx.old.conn.now)
        (state S.Store tx.new.conn.now) (state S.Store tx.new.conn.now).now (state S.Store tx.old.conn.now).committed true) }
    ensures within { StaysInside (is_ok result) (state S.Store tx.old.conn.now) (state S.Store tx.new.conn.now) }
{
    typed_sql::delete(tx, DELETE, &columns(code))
}
