//! What is read of the rows that a SELECT shows, inside a transaction. It changes nothing. `DatabaseCorrupt`: a column can't
//! be that of such a row; `OutOfMemory`: want of memory; any other error is the database's own.
ghost use Rattle.std.specs.Prelude.{◌≡◌, IfOk, OnOk, is_ok};
ghost use Rattle.std.specs.Option.{option_to_list};
ghost use Rattle.sqlite.specs.Held.{state};
ghost use Rattle.sqlite.specs.State.{HasCleanDisk};
ghost use Rattle.sqlite.specs.Values.{bound};
ghost use Rattle.typed_sql.specs.Reading.{Fetches, OnlyReads, StaysInside};
ghost use Rattle.typed_sql.specs.Visited.{FetchesFirst};

use crate::rows::{FromRow, only, read_rows};
use crate::statements::{select, select_first};
use sqlite::{Error, ErrorCode, Transaction};
use sqlite_trees::store::Alter;
use sqlite_value::value::ValueRef;
use std::alloc::Global;

/// What the rows say, each in its place. The text is a SELECT over one table, whose `?1`, `?2` .. are the values.
pub fn fetch<S: Alter, T: FromRow>(
    alloc: Global,
    tx: &mut Transaction<'_, S>,
    text: &str,
    values: &[ValueRef<'_>],
) -> Result<Vec<T>, Error>
    ensures same_reference { tx.new.conn.ghost_name ≡ tx.old.conn.ghost_name }
    ensures found { HasCleanDisk (state S.Store tx.new.conn.now) → IfOk result (λ found.
        Fetches T.typed T.from text.now (bound values.now) (state S.Store tx.old.conn.now) found.items) }
    ensures still { HasCleanDisk (state S.Store tx.new.conn.now)
        → OnOk result (OnlyReads text.now (state S.Store tx.old.conn.now) (state S.Store tx.new.conn.now)) }
    ensures within { StaysInside (is_ok result) (state S.Store tx.old.conn.now) (state S.Store tx.new.conn.now) }
{
    let rows = select(tx, text, values)?;
    read_rows(alloc, &rows)
}

/// What the row says, if one is shown. The text is a SELECT over one table, whose `?1`, `?2` .. are the values.
/// `DatabaseCorrupt`, too, where it shows several.
pub fn fetch_one<S: Alter, T: FromRow>(
    alloc: Global,
    tx: &mut Transaction<'_, S>,
    text: &str,
    values: &[ValueRef<'_>],
) -> Result<Option<T>, Error>
    ensures same_reference { tx.new.conn.ghost_name ≡ tx.old.conn.ghost_name }
    ensures found { HasCleanDisk (state S.Store tx.new.conn.now) → IfOk result (λ found.
        Fetches T.typed T.from text.now (bound values.now) (state S.Store tx.old.conn.now) (option_to_list found)) }
    ensures still { HasCleanDisk (state S.Store tx.new.conn.now)
        → OnOk result (OnlyReads text.now (state S.Store tx.old.conn.now) (state S.Store tx.new.conn.now)) }
    ensures within { StaysInside (is_ok result) (state S.Store tx.old.conn.now) (state S.Store tx.new.conn.now) }
{
    only(fetch(alloc, tx, text, values)?)
}

/// What the first row says that the text shows, if it shows any: no other row is fetched. The text is a SELECT over one table, whose
/// `?1`, `?2` .. are the values.
pub fn fetch_first<S: Alter, T: FromRow>(
    alloc: Global,
    tx: &mut Transaction<'_, S>,
    text: &str,
    values: &[ValueRef<'_>],
) -> Result<Option<T>, Error>
    ensures same_reference { tx.new.conn.ghost_name ≡ tx.old.conn.ghost_name }
    ensures found { HasCleanDisk (state S.Store tx.new.conn.now)
        → IfOk result (FetchesFirst T.typed T.from text.now (bound values.now) (state S.Store tx.old.conn.now)) }
    ensures still { HasCleanDisk (state S.Store tx.new.conn.now)
        → OnOk result (OnlyReads text.now (state S.Store tx.old.conn.now) (state S.Store tx.new.conn.now)) }
    ensures within { StaysInside (is_ok result) (state S.Store tx.old.conn.now) (state S.Store tx.new.conn.now) }
{
    let Some(row) = select_first(tx, text, values)? else {
        return Ok(None);
    };
    let Some(read) = T::from_row(alloc, &row) else {
        return Err(Error::SqliteFailure(ErrorCode::DatabaseCorrupt));
    };
    Ok(Some(read))
}
