//! What is looked up in the table of holders. It changes nothing. `DatabaseCorrupt`: the row is no holder's, or there are
//! several; `OutOfMemory`: want of memory; any other error is the database's own.
ghost use Rattle.std.specs.Prelude.{◌≡◌, IfOk, is_ok};
ghost use Rattle.sqlite.specs.Held.{state};
ghost use Rattle.sqlite.specs.State.{HasCleanDisk};
ghost use Rattle.td_store_rows.specs.StoreReads.{ReadsStore};
ghost use Rattle.td_store_rows.specs.HolderTable.{IsTheHolder};

use crate::holders::stored::StoredHolder;
use crate::holders::texts::BY_NUMBER;
use sqlite::{Error, Transaction};
use sqlite_trees::store::Alter;
use std::alloc::Global;
use td_base::HolderNo;
use td_model::HolderRow;
use td_schema::holder_key;

/// The holder with a number, if one is registered under it.
pub fn find_holder<S: Alter>(
    alloc: Global,
    tx: &mut Transaction<'_, S>,
    holder: HolderNo,
) -> Result<Option<HolderRow>, Error>
    ensures same_reference { tx.new.conn.ghost_name ≡ tx.old.conn.ghost_name }
    ensures found { HasCleanDisk (state S.Store tx.new.conn.now)
        → IfOk result (IsTheHolder holder (state S.Store tx.old.conn.now)) }
    ensures reads { ReadsStore (is_ok result) (state S.Store tx.old.conn.now) (state S.Store tx.new.conn.now) }
{
    let found: Option<StoredHolder> = typed_sql::fetch_one(
        alloc,
        tx,
        BY_NUMBER,
        &holder_key(holder),
    )?;
    Ok(found.map(|stored| stored.row))
}
