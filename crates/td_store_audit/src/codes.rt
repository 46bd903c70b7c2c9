//! S4: each code is of a guarantee of its holder's, and each guarantee has 1 to 20.
ghost use Rattle.std.specs.Prelude.{◌≡◌, IfOk, is_ok};
ghost use Rattle.sqlite.specs.Held.{state};
ghost use Rattle.sqlite.specs.State.{HasCleanDisk};
ghost use Rattle.typed_sql.specs.Typed.{AreTyped};
ghost use Rattle.td_store_rows.specs.StoreReads.{IsAny, ReadsStore};
ghost use Rattle.td_store_audit.specs.InFile.{TellsWhere};
ghost use Rattle.td_store_rows.specs.Columns.{code_typing};
ghost use Rattle.td_store_audit.specs.Premises.{HasCodesInPlace, TellsCodesWithin};

use crate::codes_in_place::codes_within_are_in_place;
use crate::finding::{codes_within, has_code_behind};
use sqlite::{Error, ErrorCode, Transaction};
use sqlite_trees::store::Alter;
use std::alloc::Global;
use td_base::HolderNo;
use td_store_audit_rows::RawHolder;
use td_store_rows::range_end;

/// Whether a holder's count of guarantees can be read, and the holder's codes are in their places by it: each is of a
/// guarantee of the holder's, and each guarantee has 1 to 20. The codes of few guarantees are read at once.
/// `DatabaseCorrupt`: the count is 2^32 - 1, which no sound table has; `OutOfMemory`: want of memory; any other error is
/// the database's own.
pub fn has_codes<S: Alter>(
    alloc: Global,
    tx: &mut Transaction<'_, S>,
    raw: &RawHolder,
) -> Result<bool, Error>
    ensures same_reference { tx.new.conn.ghost_name ≡ tx.old.conn.ghost_name }
    ensures told { HasCleanDisk (state S.Store tx.new.conn.now)
        → IfOk result (TellsWhere IsAny (λ layout. AreTyped code_typing) (λ layout trees. HasCodesInPlace trees raw.now)
        (state S.Store tx.old.conn.now)) }
    ensures reads { ReadsStore (is_ok result) (state S.Store tx.old.conn.now) (state S.Store tx.new.conn.now) }
{
    let Some(count) = raw.grn_count else {
        return Ok(false);
    };
    let Some(end) = count.checked_add(1) else {
        return Err(Error::SqliteFailure(ErrorCode::DatabaseCorrupt));
    };
    if !has_codes_below(alloc, tx, raw.holder, end)? {
        return Ok(false);
    }
    Ok(!has_code_behind(alloc, tx, raw.holder, count)?)
}

// Whether a holder's codes of the guarantees with serials below `end` are in their places, read range by range.
fn has_codes_below<S: Alter>(
    alloc: Global,
    tx: &mut Transaction<'_, S>,
    holder: HolderNo,
    end: u32,
) -> Result<bool, Error>
    ensures same_reference { tx.new.conn.ghost_name ≡ tx.old.conn.ghost_name }
    ensures told { HasCleanDisk (state S.Store tx.new.conn.now)
        → IfOk result (TellsCodesWithin holder 0 end (state S.Store tx.old.conn.now)) }
    ensures reads { ReadsStore (is_ok result) (state S.Store tx.old.conn.now) (state S.Store tx.new.conn.now) }
{
    let mut first = 0;
    'parts: while first < end {
        let next = range_end(first, end);
        let rows = codes_within(alloc, tx, holder, first, next)?;
        if !codes_within_are_in_place(first, next, &rows) {
            return Ok(false);
        }
        first = next;
    }
    Ok(true)
}
