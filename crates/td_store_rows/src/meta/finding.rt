//! What is looked up in the table `meta`. It changes nothing.
ghost use Rattle.std.specs.Prelude.{◌≡◌, IsTrue, IfOk, OnOk, is_ok};
ghost use Rattle.sqlite.specs.Held.{state};
ghost use Rattle.sqlite.specs.State.{HasCleanDisk};
ghost use Rattle.sqlite_schema.specs.declared.schema.Schema.{Schema};
ghost use Rattle.typed_sql.specs.Reading.{OnlyRead, StaysInside};
ghost use Rattle.typed_sql.specs.Writing.{HasSchema};
ghost use Rattle.td_store_rows.specs.Columns.{MetaIsFirst};
ghost use Rattle.td_store_rows.specs.MetaTable.{IsTheMeta};

use crate::meta::stored::{StoredMeta, only_meta};
use crate::meta::texts::FIND;
use sqlite::{Error, Transaction};
use sqlite_trees::store::Alter;

/// The office's own row, if it has been written: the table has to be the first, whatever others there are. `DatabaseCorrupt`:
/// there are several rows, or the version is no integer or the country no text; any other error is the database's own.
pub fn find_meta<S: Alter>(tx: &mut Transaction<'_, S>) -> Result<Option<StoredMeta>, Error>
    ensures same_reference { tx.new.conn.ghost_name ≡ tx.old.conn.ghost_name }
    ensures found { HasCleanDisk (state S.Store tx.new.conn.now)
        → IfOk result (IsTheMeta (state S.Store tx.old.conn.now)) }
    ensures still { HasCleanDisk (state S.Store tx.new.conn.now) → OnOk result ((s : Schema) → MetaIsFirst s
        → OnlyRead s (state S.Store tx.old.conn.now) (state S.Store tx.new.conn.now)) }
    ensures within { StaysInside (is_ok result) (state S.Store tx.old.conn.now) (state S.Store tx.new.conn.now) }
    ensures was_open { HasCleanDisk (state S.Store tx.new.conn.now)
        → OnOk result ((s : Schema) → MetaIsFirst s → HasSchema (state S.Store tx.old.conn.now) s → IsTrue (state S.Store tx.old.conn.now).is_open) }
{
    let rows = typed_sql::select(tx, FIND, &[])?;
    only_meta(rows)
}
