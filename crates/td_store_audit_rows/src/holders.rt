//! The holders, whatever stands in their columns.
ghost use Rattle.std.specs.Prelude.{◌≡◌, ◌<◌, IfOk, IfSome, is_ok};
ghost use Rattle.sqlite.specs.Held.{state};
ghost use Rattle.sqlite.specs.State.{HasCleanDisk};
ghost use Rattle.td_store_rows.specs.StoreReads.{ReadsStore};
ghost use Rattle.td_store_audit_rows.specs.NextHolder.{IsNextHolder};

use crate::texts::HOLDERS_ABOVE;
use sqlite::{Error, ErrorCode, Row, Transaction};
use sqlite_trees::store::Alter;
use std::alloc::Global;
use td_base::{Eori, HolderNo, Moment};
use td_schema::{eori_at, holder_at, moment_at, serial_at};
use td_store_rows::above_key;
use typed_sql::{FromRow, fetch_first};

/// A holder as the row has it: each field is `None` where the column holds no such field.
#[derive(Clone, Copy, Debug, PartialEq, Eq)]
pub struct RawHolder {
    pub holder: HolderNo,
    pub eori: Option<Eori>,
    pub last_at: Option<Moment>,
    pub grn_count: Option<u32>,
    pub mrn_count: Option<u32>,
}

impl FromRow for RawHolder {
    ghost use Rattle.td_store_audit_rows.specs.Holders.{HolderFields, fields_from, fields_of_raw};

    ghost Typed = { HolderFields };

    ghost typed = { fields_of_raw };

    ghost from = { fields_from };

    // A row of five columns: `None` where the first is no holder's number.
    fn from_row(_alloc: Global, row: &Row) -> Option<Self> {
        Some(RawHolder {
            holder: holder_at(row, 0)?,
            eori: eori_at(row, 1),
            last_at: moment_at(row, 2),
            grn_count: serial_at(row, 3),
            mrn_count: serial_at(row, 4),
        })
    }
}

/// The holder with the least number above that one, if there is one: no other row is fetched. The number found is above
/// that one whatever the disk returns. `DatabaseCorrupt`: the row's number is no holder's, or isn't above; `OutOfMemory`:
/// want of memory; any other error is the database's own. It changes nothing.
pub fn holder_above<S: Alter>(
    alloc: Global,
    tx: &mut Transaction<'_, S>,
    number: u32,
) -> Result<Option<RawHolder>, Error>
    ensures same_reference { tx.new.conn.ghost_name ≡ tx.old.conn.ghost_name }
    ensures found { HasCleanDisk (state S.Store tx.new.conn.now)
        → IfOk result (IsNextHolder number (state S.Store tx.old.conn.now)) }
    ensures above { IfOk result (λ found. IfSome found (λ raw. number < raw.holder)) }
    ensures reads { ReadsStore (is_ok result) (state S.Store tx.old.conn.now) (state S.Store tx.new.conn.now) }
{
    let Some(raw) = fetch_first::<S, RawHolder>(alloc, tx, HOLDERS_ABOVE, &above_key(number))?
    else {
        return Ok(None);
    };
    if raw.holder.number() <= number {
        return Err(Error::SqliteFailure(ErrorCode::DatabaseCorrupt));
    }
    Ok(Some(raw))
}
