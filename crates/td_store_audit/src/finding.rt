//! What is looked up of a holder's parts. It changes nothing. `DatabaseCorrupt`: a row is no code's, or no
//! line's; `OutOfMemory`: want of memory; any other error is the database's own.
ghost use Rattle.std.specs.Prelude.{◌≡◌, IfOk, is_ok};
ghost use Rattle.sqlite.specs.Held.{state};
ghost use Rattle.sqlite.specs.State.{HasCleanDisk};
ghost use Rattle.td_store_rows.specs.StoreReads.{ReadsStore, ReadsVersion};
ghost use Rattle.td_store_rows.specs.CodeTable.{AreCodes};
ghost use Rattle.td_store_rows.specs.Places.{is_within};
ghost use Rattle.td_store_audit.specs.Found.{AreInCodeOrder, AreInLineOrder, AreLinesWithin, TellsBehind, TellsCodeBehind};

use crate::texts::{CODES_BEHIND, CODES_WITHIN, lines_behind_at, lines_within_at};
use sqlite::{Error, Transaction};
use sqlite_trees::store::Alter;
use std::alloc::Global;
use td_base::HolderNo;
use td_store_rows::{StoredCode, StoredLine, place_key, range_key};
use typed_sql::{fetch, fetch_first};

/// A holder's codes of the guarantees with serials from `first` on and below `end`: by these, those of one guarantee in
/// ascending order.
pub fn codes_within<S: Alter>(
    alloc: Global,
    tx: &mut Transaction<'_, S>,
    holder: HolderNo,
    first: u32,
    end: u32,
) -> Result<Vec<StoredCode>, Error>
    ensures same_reference { tx.new.conn.ghost_name ≡ tx.old.conn.ghost_name }
    ensures found { HasCleanDisk (state S.Store tx.new.conn.now)
        → IfOk result (λ found. AreCodes (is_within holder first end) (state S.Store tx.old.conn.now) found.items) }
    ensures order { HasCleanDisk (state S.Store tx.new.conn.now)
        → IfOk result (λ found. AreInCodeOrder (state S.Store tx.old.conn.now) found.items) }
    ensures reads { ReadsStore (is_ok result) (state S.Store tx.old.conn.now) (state S.Store tx.new.conn.now) }
{
    fetch(alloc, tx, CODES_WITHIN, &range_key(holder, first, end))
}

/// Whether a holder has a code of a guarantee behind that serial: one such code is read at most.
pub fn has_code_behind<S: Alter>(
    alloc: Global,
    tx: &mut Transaction<'_, S>,
    holder: HolderNo,
    serial: u32,
) -> Result<bool, Error>
    ensures same_reference { tx.new.conn.ghost_name ≡ tx.old.conn.ghost_name }
    ensures told { HasCleanDisk (state S.Store tx.new.conn.now)
        → IfOk result (TellsCodeBehind holder serial (state S.Store tx.old.conn.now)) }
    ensures reads { ReadsStore (is_ok result) (state S.Store tx.old.conn.now) (state S.Store tx.new.conn.now) }
{
    let code: Option<StoredCode> = fetch_first(
        alloc,
        tx,
        CODES_BEHIND,
        &place_key(holder.number(), serial),
    )?;
    Ok(code.is_some())
}

/// A holder's lines of the movements with serials from `first` on and below `end`, in a file of that version: by the
/// serials of their movements, those of one movement by their numbers.
pub fn lines_within<S: Alter>(
    alloc: Global,
    tx: &mut Transaction<'_, S>,
    version: u32,
    holder: HolderNo,
    first: u32,
    end: u32,
) -> Result<Vec<StoredLine>, Error>
    ensures same_reference { tx.new.conn.ghost_name ≡ tx.old.conn.ghost_name }
    ensures found { HasCleanDisk (state S.Store tx.new.conn.now)
        → IfOk result (λ found. AreLinesWithin version holder first end (state S.Store tx.old.conn.now) found.items) }
    ensures order { HasCleanDisk (state S.Store tx.new.conn.now)
        → IfOk result (λ found. AreInLineOrder version (state S.Store tx.old.conn.now) found.items) }
    ensures reads { ReadsVersion version (is_ok result) (state S.Store tx.old.conn.now) (state S.Store tx.new.conn.now) }
{
    fetch(
        alloc,
        tx,
        lines_within_at(version),
        &range_key(holder, first, end),
    )
}

/// Whether a holder has a line of a movement behind that serial, in a file of that version: one such line is read at most.
pub fn has_line_behind<S: Alter>(
    alloc: Global,
    tx: &mut Transaction<'_, S>,
    version: u32,
    holder: HolderNo,
    serial: u32,
) -> Result<bool, Error>
    ensures same_reference { tx.new.conn.ghost_name ≡ tx.old.conn.ghost_name }
    ensures told { HasCleanDisk (state S.Store tx.new.conn.now)
        → IfOk result (TellsBehind version holder serial (state S.Store tx.old.conn.now)) }
    ensures reads { ReadsVersion version (is_ok result) (state S.Store tx.old.conn.now) (state S.Store tx.new.conn.now) }
{
    let line: Option<StoredLine> = fetch_first(
        alloc,
        tx,
        lines_behind_at(version),
        &place_key(holder.number(), serial),
    )?;
    Ok(line.is_some())
}
