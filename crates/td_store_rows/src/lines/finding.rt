//! What is looked up in the table of lines. It changes nothing. `DatabaseCorrupt`: a row is no line's; `OutOfMemory`: want
//! of memory; any other error is the database's own.
ghost use Rattle.std.specs.Prelude.{◌≡◌, true, IfOk, is_ok};
ghost use Rattle.sqlite.specs.Held.{state};
ghost use Rattle.sqlite.specs.State.{HasCleanDisk};
ghost use Rattle.td_store_rows.specs.StoreReads.{ReadsFew, ReadsMore};
ghost use Rattle.td_store_rows.specs.LineTable.{AreByNumber, AreFewLines, AreLines, is_line_of, is_line_on};

use crate::lines::stored::StoredLine;
use crate::lines::texts::{ALL_FIRST, OF_MOVEMENT, ON_GUARANTEE};
use sqlite::{Error, Transaction};
use sqlite_trees::store::Alter;
use std::alloc::Global;
use td_base::HolderNo;
use td_schema::serial_key;

/// The lines of the movement of a holder with a serial, by their numbers, in a file of version 3 or later.
pub fn lines_of<S: Alter>(
    alloc: Global,
    tx: &mut Transaction<'_, S>,
    holder: HolderNo,
    serial: u32,
) -> Result<Vec<StoredLine>, Error>
    ensures same_reference { tx.new.conn.ghost_name ≡ tx.old.conn.ghost_name }
    ensures found { HasCleanDisk (state S.Store tx.new.conn.now)
        → IfOk result (λ found. AreLines (is_line_of holder serial) (state S.Store tx.old.conn.now) found.items) }
    ensures order { HasCleanDisk (state S.Store tx.new.conn.now)
        → IfOk result (λ found. AreByNumber holder serial (state S.Store tx.old.conn.now) found.items) }
    ensures reads { ReadsMore (is_ok result) (state S.Store tx.old.conn.now) (state S.Store tx.new.conn.now) }
{
    typed_sql::fetch(alloc, tx, OF_MOVEMENT, &serial_key(holder, serial))
}

/// The lines of a holder's movements on the holder's guarantee with a serial, in no order, in a file below version 3.
pub fn lines_on<S: Alter>(
    alloc: Global,
    tx: &mut Transaction<'_, S>,
    holder: HolderNo,
    guarantee: u32,
) -> Result<Vec<StoredLine>, Error>
    ensures same_reference { tx.new.conn.ghost_name ≡ tx.old.conn.ghost_name }
    ensures found { HasCleanDisk (state S.Store tx.new.conn.now)
        → IfOk result (λ found. AreFewLines (is_line_on holder guarantee) (state S.Store tx.old.conn.now) found.items) }
    ensures reads { ReadsFew (is_ok result) (state S.Store tx.old.conn.now) (state S.Store tx.new.conn.now) }
{
    typed_sql::fetch(alloc, tx, ON_GUARANTEE, &serial_key(holder, guarantee))
}

/// All lines, in no order, in a file below version 3.
pub fn older_lines<S: Alter>(
    alloc: Global,
    tx: &mut Transaction<'_, S>,
) -> Result<Vec<StoredLine>, Error>
    ensures same_reference { tx.new.conn.ghost_name ≡ tx.old.conn.ghost_name }
    ensures found { HasCleanDisk (state S.Store tx.new.conn.now)
        → IfOk result (λ found. AreFewLines (λ line. true) (state S.Store tx.old.conn.now) found.items) }
    ensures reads { ReadsFew (is_ok result) (state S.Store tx.old.conn.now) (state S.Store tx.new.conn.now) }
{
    typed_sql::fetch(alloc, tx, ALL_FIRST, &[])
}
