//! The five statements, each inside a transaction that the caller commits. An error is the database's own, and commits
//! nothing.
ghost use Rattle.std.specs.Prelude.{◌≡◌, true, Ok, IfOk, OnOk, is_ok};
ghost use Rattle.sqlite.specs.Held.{state};
ghost use Rattle.sqlite.specs.State.{Executes, HasCleanDisk, Shows};
ghost use Rattle.sqlite.specs.Values.{bound};
ghost use Rattle.typed_sql.specs.Reading.{OnlyReads, Selects, StaysInside};
ghost use Rattle.typed_sql.specs.Visited.{FetchesFirst};
ghost use Rattle.typed_sql.specs.Writing.{Deletes, Empties, Inserts, Updates};

use sqlite::{Error, ErrorCode, Row, Transaction};
use sqlite_trees::store::Alter;
use sqlite_value::value::ValueRef;

/// Inserts a row. The text is an INSERT of one row into a table, whose `?1`, `?2` .. are the values.
pub fn insert<S: Alter>(
    tx: &mut Transaction<'_, S>,
    text: &str,
    values: &[ValueRef<'_>],
) -> Result<(), Error>
    ensures same_reference { tx.new.conn.ghost_name ≡ tx.old.conn.ghost_name }
    ensures inserted { HasCleanDisk (state S.Store tx.new.conn.now)
        → OnOk result (Inserts text.now (bound values.now) (state S.Store tx.old.conn.now) (state S.Store tx.new.conn.now)) }
    ensures inside { HasCleanDisk (state S.Store tx.new.conn.now) → OnOk result (Shows (state S.Store tx.old.conn.now)
        (state S.Store tx.new.conn.now) (state S.Store tx.new.conn.now).now (state S.Store tx.old.conn.now).committed true) }
    ensures within { StaysInside (is_ok result) (state S.Store tx.old.conn.now) (state S.Store tx.new.conn.now) }
{
    tx.execute(text, values)?;
    Ok(())
}

// Runs a statement that has to change just one row: a count other than 1 is an error, and the caller's transaction
// isn't to be committed then.
fn change_one<S: Alter>(
    tx: &mut Transaction<'_, S>,
    text: &str,
    values: &[ValueRef<'_>],
) -> Result<(), Error>
    ensures same_reference { tx.new.conn.ghost_name ≡ tx.old.conn.ghost_name }
    ensures ran { HasCleanDisk (state S.Store tx.new.conn.now) → OnOk result (Executes text.now (bound values.now)
        (state S.Store tx.old.conn.now) (state S.Store tx.new.conn.now) (Ok 1)) }
    ensures inside { HasCleanDisk (state S.Store tx.new.conn.now) → OnOk result (Shows (state S.Store tx.old.conn.now)
        (state S.Store tx.new.conn.now) (state S.Store tx.new.conn.now).now (state S.Store tx.old.conn.now).committed true) }
    ensures within { StaysInside (is_ok result) (state S.Store tx.old.conn.now) (state S.Store tx.new.conn.now) }
{
    let count = tx.execute(text, values)?;
    if count != 1 {
        return Err(Error::SqliteFailure(ErrorCode::DatabaseCorrupt));
    }
    Ok(())
}

/// Sets columns of just one row anew. The text is an UPDATE of one table, whose `?1`, `?2` .. are the values. Where it
/// changes no row, or several, the answer is `DatabaseCorrupt`, and the caller isn't to commit.
pub fn update<S: Alter>(
    tx: &mut Transaction<'_, S>,
    text: &str,
    values: &[ValueRef<'_>],
) -> Result<(), Error>
    ensures same_reference { tx.new.conn.ghost_name ≡ tx.old.conn.ghost_name }
    ensures updated { HasCleanDisk (state S.Store tx.new.conn.now)
        → OnOk result (Updates text.now (bound values.now) (state S.Store tx.old.conn.now) (state S.Store tx.new.conn.now)) }
    ensures inside { HasCleanDisk (state S.Store tx.new.conn.now) → OnOk result (Shows (state S.Store tx.old.conn.now)
        (state S.Store tx.new.conn.now) (state S.Store tx.new.conn.now).now (state S.Store tx.old.conn.now).committed true) }
    ensures within { StaysInside (is_ok result) (state S.Store tx.old.conn.now) (state S.Store tx.new.conn.now) }
{
    change_one(tx, text, values)
}

/// Deletes just one row. The text is a DELETE from one table, whose `?1`, `?2` .. are the values. Where it deletes no
/// row, or several, the answer is `DatabaseCorrupt`, and the caller isn't to commit.
pub fn delete<S: Alter>(
    tx: &mut Transaction<'_, S>,
    text: &str,
    values: &[ValueRef<'_>],
) -> Result<(), Error>
    ensures same_reference { tx.new.conn.ghost_name ≡ tx.old.conn.ghost_name }
    ensures deleted { HasCleanDisk (state S.Store tx.new.conn.now)
        → OnOk result (Deletes text.now (bound values.now) (state S.Store tx.old.conn.now) (state S.Store tx.new.conn.now)) }
    ensures inside { HasCleanDisk (state S.Store tx.new.conn.now) → OnOk result (Shows (state S.Store tx.old.conn.now)
        (state S.Store tx.new.conn.now) (state S.Store tx.new.conn.now).now (state S.Store tx.old.conn.now).committed true) }
    ensures within { StaysInside (is_ok result) (state S.Store tx.old.conn.now) (state S.Store tx.new.conn.now) }
{
    change_one(tx, text, values)
}

/// Deletes all rows of a table. The text is a DELETE from one table, without a test.
pub fn empty<S: Alter>(tx: &mut Transaction<'_, S>, text: &str) -> Result<(), Error>
    ensures same_reference { tx.new.conn.ghost_name ≡ tx.old.conn.ghost_name }
    ensures emptied { HasCleanDisk (state S.Store tx.new.conn.now)
        → OnOk result (Empties text.now (state S.Store tx.old.conn.now) (state S.Store tx.new.conn.now)) }
    ensures inside { HasCleanDisk (state S.Store tx.new.conn.now) → OnOk result (Shows (state S.Store tx.old.conn.now)
        (state S.Store tx.new.conn.now) (state S.Store tx.new.conn.now).now (state S.Store tx.old.conn.now).committed true) }
    ensures within { StaysInside (is_ok result) (state S.Store tx.old.conn.now) (state S.Store tx.new.conn.now) }
{
    tx.execute(text, &[])?;
    Ok(())
}

/// The rows that a text shows, which is a SELECT over one table, whose `?1`, `?2` .. are the values. It changes nothing.
pub fn select<S: Alter>(
    tx: &mut Transaction<'_, S>,
    text: &str,
    values: &[ValueRef<'_>],
) -> Result<Vec<Row>, Error>
    ensures same_reference { tx.new.conn.ghost_name ≡ tx.old.conn.ghost_name }
    ensures selected { HasCleanDisk (state S.Store tx.new.conn.now)
        → IfOk result (λ rows. Selects text.now (bound values.now) (state S.Store tx.old.conn.now) rows.items) }
    ensures still { HasCleanDisk (state S.Store tx.new.conn.now)
        → OnOk result (OnlyReads text.now (state S.Store tx.old.conn.now) (state S.Store tx.new.conn.now)) }
    ensures within { StaysInside (is_ok result) (state S.Store tx.old.conn.now) (state S.Store tx.new.conn.now) }
{
    tx.query_all(text, values)
}

/// The first row that a text shows, if it shows any: no other is fetched. The text is a SELECT over one table, whose `?1`, `?2` ..
/// are the values. It changes nothing.
pub(crate) fn select_first<S: Alter>(
    tx: &mut Transaction<'_, S>,
    text: &str,
    values: &[ValueRef<'_>],
) -> Result<Option<Row>, Error>
    ensures same_reference { tx.new.conn.ghost_name ≡ tx.old.conn.ghost_name }
    ensures selected { HasCleanDisk (state S.Store tx.new.conn.now)
        → IfOk result (FetchesFirst (λ r. r) (λ r. r) text.now (bound values.now) (state S.Store tx.old.conn.now)) }
    ensures still { HasCleanDisk (state S.Store tx.new.conn.now)
        → OnOk result (OnlyReads text.now (state S.Store tx.old.conn.now) (state S.Store tx.new.conn.now)) }
    ensures within { StaysInside (is_ok result) (state S.Store tx.old.conn.now) (state S.Store tx.new.conn.now) }
{
    match tx.query_row(text, values) {
        Ok(row) => Ok(Some(row)),
        Err(Error::QueryReturnedNoRows) => Ok(None),
        Err(error) => Err(error),
    }
}
