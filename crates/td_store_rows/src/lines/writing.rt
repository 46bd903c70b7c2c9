//! What is written into the table of lines. An error is the database's own, and commits nothing.
ghost use Rattle.std.specs.Prelude.{◌≡◌, ◌∷◌, true, OnOk, is_ok};
ghost use Rattle.sqlite.specs.Held.{state};
ghost use Rattle.sqlite.specs.State.{HasCleanDisk, Shows};
ghost use Rattle.sqlite.specs.Values.{bound};
ghost use Rattle.typed_sql.specs.Reading.{StaysInside};
ghost use Rattle.td_store_rows.specs.Columns.{line_cells};
ghost use Rattle.td_store_rows.specs.LineTable.{EmptiesFirstLines, TurnsLines, line_row_of};

use crate::lines::stored::StoredLine;
use crate::lines::texts::{EMPTY_FIRST, INSERT};
use sqlite::{Error, Transaction};
use sqlite_trees::store::Alter;
use sqlite_value::value::ValueRef;
use td_schema::{amount_of, number_of};

// The columns of a line's row.
fn columns(line: &StoredLine) -> [ValueRef<'static>; 5]
    ensures { bound result ≡ line_cells (line_row_of line.now) }
{
    [
        number_of(line.holder.number()),
        number_of(line.serial),
        number_of(line.no),
        number_of(line.guarantee),
        amount_of(line.cents),
    ]
}

/// Inserts the row of a line, in a file of version 3 or later.
pub fn insert_line<S: Alter>(tx: &mut Transaction<'_, S>, line: &StoredLine) -> Result<(), Error>
    ensures same_reference { tx.new.conn.ghost_name ≡ tx.old.conn.ghost_name }
    ensures inserted { HasCleanDisk (state S.Store tx.new.conn.now)
        → OnOk result (TurnsLines (λ rows. line_row_of line.now ∷ rows)
        (state S.Store tx.old.conn.now) (state S.Store tx.new.conn.now)) }
    ensures inside { HasCleanDisk (state S.Store tx.new.conn.now) → OnOk result (Shows (state S.Store tx.old.conn.now)
        (state S.Store tx.new.conn.now) (state S.Store tx.new.conn.now).now (state S.Store tx.old.conn.now).committed true) }
    ensures within { StaysInside (is_ok result) (state S.Store tx.old.conn.now) (state S.Store tx.new.conn.now) }
{
    typed_sql::insert(tx, INSERT, &columns(line))
}

/// Empties the table of lines of the versions below 3, in a file that is migrated from there: it has no row then, and the
/// other tables are as they were.
pub fn empty_lines1<S: Alter>(tx: &mut Transaction<'_, S>) -> Result<(), Error>
    ensures same_reference { tx.new.conn.ghost_name ≡ tx.old.conn.ghost_name }
    ensures emptied { HasCleanDisk (state S.Store tx.new.conn.now)
        → OnOk result (EmptiesFirstLines (state S.Store tx.old.conn.now) (state S.Store tx.new.conn.now)) }
    ensures inside { HasCleanDisk (state S.Store tx.new.conn.now) → OnOk result (Shows (state S.Store tx.old.conn.now)
        (state S.Store tx.new.conn.now) (state S.Store tx.new.conn.now).now (state S.Store tx.old.conn.now).committed true) }
    ensures within { StaysInside (is_ok result) (state S.Store tx.old.conn.now) (state S.Store tx.new.conn.now) }
{
    typed_sql::empty(tx, EMPTY_FIRST)
}
