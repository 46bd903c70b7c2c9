//! What is looked up in the table of codes. It changes nothing. `DatabaseCorrupt`: a row is no code's; `OutOfMemory`: want
//! of memory; any other error is the database's own.
ghost use Rattle.std.specs.Prelude.{◌≡◌, IfOk, is_ok};
ghost use Rattle.sqlite.specs.Held.{state};
ghost use Rattle.sqlite.specs.State.{HasCleanDisk};
ghost use Rattle.td_store_rows.specs.StoreReads.{ReadsStore};
ghost use Rattle.td_store_rows.specs.CodeTable.{AreByCode, AreCodes, is_code_of_guarantee};

use crate::codes::stored::StoredCode;
use crate::codes::texts::OF_GUARANTEE;
use sqlite::{Error, Transaction};
use sqlite_trees::store::Alter;
use std::alloc::Global;
use td_base::HolderNo;
use td_schema::serial_key;

/// The codes of the guarantee of a holder with a serial, in ascending order.
pub fn codes_of<S: Alter>(
    alloc: Global,
    tx: &mut Transaction<'_, S>,
    holder: HolderNo,
    serial: u32,
) -> Result<Vec<StoredCode>, Error>
    ensures same_reference { tx.new.conn.ghost_name ≡ tx.old.conn.ghost_name }
    ensures found { HasCleanDisk (state S.Store tx.new.conn.now)
        → IfOk result (λ found. AreCodes (is_code_of_guarantee holder serial) (state S.Store tx.old.conn.now) found.items) }
    ensures order { HasCleanDisk (state S.Store tx.new.conn.now)
        → IfOk result (λ found. AreByCode holder serial (state S.Store tx.old.conn.now) found.items) }
    ensures reads { ReadsStore (is_ok result) (state S.Store tx.old.conn.now) (state S.Store tx.new.conn.now) }
{
    typed_sql::fetch(alloc, tx, OF_GUARANTEE, &serial_key(holder, serial))
}
