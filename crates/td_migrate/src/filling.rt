//! The guarantees of version 1 put into the table of version 2, each with the amount in use on it, holder by holder: one holder's sums
//! and few of the holder's guarantees are held at once.
ghost use Rattle.std.specs.Prelude.{◌≡◌, ℕ, [], ◌∷◌, map, IfOk, OnOk, is_ok};
ghost use Rattle.sqlite.specs.Held.{state};
ghost use Rattle.sqlite.specs.State.{HasCleanDisk};
ghost use Rattle.typed_sql.specs.Reading.{StaysInside};
ghost use Rattle.td_store_rows.specs.GuaranteeTable.{guarantee_row_of};
ghost use Rattle.td_store_rows.specs.StoreReads.{ReadsIn};
ghost use Rattle.td_store_audit.specs.Totals.{AreTotals};
ghost use Rattle.td_migrate.specs.Put.{IsGrownFrom};
ghost use Rattle.td_migrate.specs.Filled.{AreFirstWithin, FillsAll, FillsOf, FillsWith, FillsWithin, IsFirst};

use crate::amounts::amounts_in_use;
use crate::serials::end_of;
use sqlite::{Error, ErrorCode, Transaction};
use sqlite_trees::store::Alter;
use std::alloc::Global;
use td_base::HolderNo;
use td_store_audit::Totals;
use td_store_audit_rows::{RawHolder, holder_above};
use td_store_rows::{StoredGuarantee, insert_guarantee, range_end, range_key};
use typed_sql::fetch;

/// The rows of a holder with serials from one on and below another, in the table of version 1.
const FIRST_WITHIN: &str =
    "SELECT holder, serial, grn, reference, cover, ends FROM guarantees1 WHERE holder = ?1 AND serial >= ?2 AND serial < ?3";

// A holder's guarantees of version 1 with serials from `first` on and below `end`, in no order. It changes nothing. `DatabaseCorrupt`:
// a row is no guarantee's; `OutOfMemory`: want of memory; any other error is the database's own.
fn first_within<S: Alter>(
    alloc: Global,
    tx: &mut Transaction<'_, S>,
    holder: HolderNo,
    first: u32,
    end: u32,
) -> Result<Vec<StoredGuarantee>, Error>
    ensures same_reference { tx.new.conn.ghost_name ≡ tx.old.conn.ghost_name }
    ensures found { HasCleanDisk (state S.Store tx.new.conn.now)
        → IfOk result (λ found. AreFirstWithin holder first end (state S.Store tx.old.conn.now) (map guarantee_row_of found.items)) }
    ensures reads { ReadsIn (IsGrownFrom IsFirst) (is_ok result) (state S.Store tx.old.conn.now) (state S.Store tx.new.conn.now) }
{
    fetch(alloc, tx, FIRST_WITHIN, &range_key(holder, first, end))
}

// Puts one guarantee into the table of version 2, with what is added up on it. `DatabaseCorrupt`: that is more than an amount can be.
fn put_row<S: Alter>(
    tx: &mut Transaction<'_, S>,
    totals: &Totals,
    row: &StoredGuarantee,
) -> Result<(), Error>
    ensures same_reference { tx.new.conn.ghost_name ≡ tx.old.conn.ghost_name }
    ensures filled { HasCleanDisk (state S.Store tx.new.conn.now) → OnOk result ((sums : ℕ → ℕ) → AreTotals sums totals.now
        → FillsWith sums (guarantee_row_of row.now ∷ []) (state S.Store tx.old.conn.now) (state S.Store tx.new.conn.now)) }
    ensures within { StaysInside (is_ok result) (state S.Store tx.old.conn.now) (state S.Store tx.new.conn.now) }
{
    let Some(used) = totals.on(row.serial) else {
        return Err(Error::SqliteFailure(ErrorCode::DatabaseCorrupt));
    };
    insert_guarantee(tx, row.holder, row.serial, &row.guarantee, used)
}

// Puts guarantees into the table of version 2, each with what is added up on it.
fn put_rows<S: Alter>(
    tx: &mut Transaction<'_, S>,
    totals: &Totals,
    rows: &[StoredGuarantee],
) -> Result<(), Error>
    ensures same_reference { tx.new.conn.ghost_name ≡ tx.old.conn.ghost_name }
    ensures filled { HasCleanDisk (state S.Store tx.new.conn.now) → OnOk result ((sums : ℕ → ℕ) → AreTotals sums totals.now
        → FillsWith sums (map guarantee_row_of rows.now) (state S.Store tx.old.conn.now) (state S.Store tx.new.conn.now)) }
    ensures within { StaysInside (is_ok result) (state S.Store tx.old.conn.now) (state S.Store tx.new.conn.now) }
{
    'rows: for row in rows {
        put_row(tx, totals, row)?;
    }
    Ok(())
}

// Puts a holder's guarantees of version 1 with serials below `end` into the table of version 2, each with what is added up on it.
fn put_below<S: Alter>(
    alloc: Global,
    tx: &mut Transaction<'_, S>,
    holder: HolderNo,
    end: u32,
    totals: &Totals,
) -> Result<(), Error>
    ensures same_reference { tx.new.conn.ghost_name ≡ tx.old.conn.ghost_name }
    ensures filled { HasCleanDisk (state S.Store tx.new.conn.now) → OnOk result ((sums : ℕ → ℕ) → AreTotals sums totals.now
        → FillsWithin sums holder end (state S.Store tx.old.conn.now) (state S.Store tx.new.conn.now)) }
    ensures within { StaysInside (is_ok result) (state S.Store tx.old.conn.now) (state S.Store tx.new.conn.now) }
{
    let mut first = 0;
    'parts: while first < end {
        let next = range_end(first, end);
        let rows = first_within(alloc, tx, holder, first, next)?;
        put_rows(tx, totals, &rows)?;
        first = next;
    }
    Ok(())
}

// Puts a holder's guarantees of version 1 up to the holder's count into the table of version 2, each with the amount in use on it.
fn put_of<S: Alter>(
    alloc: Global,
    tx: &mut Transaction<'_, S>,
    raw: &RawHolder,
) -> Result<(), Error>
    ensures same_reference { tx.new.conn.ghost_name ≡ tx.old.conn.ghost_name }
    ensures filled { HasCleanDisk (state S.Store tx.new.conn.now)
        → OnOk result (FillsOf raw.now (state S.Store tx.old.conn.now) (state S.Store tx.new.conn.now)) }
    ensures within { StaysInside (is_ok result) (state S.Store tx.old.conn.now) (state S.Store tx.new.conn.now) }
{
    let end = end_of(raw.grn_count)?;
    let totals = amounts_in_use(alloc, tx, raw, end - 1)?;
    put_below(alloc, tx, raw.holder, end, &totals)
}

/// Puts all guarantees of version 1, in a file whose rows keep the rules, into the table of version 2, each with the amount in use on
/// it. `DatabaseCorrupt`: a row of a holder, a guarantee, a movement or a line is none, or what is in use on a guarantee is no amount;
/// `OutOfMemory`: want of memory; any other error is the database's own: so it is where more is in use on a guarantee than its
/// reference amount.
pub(crate) fn fill<S: Alter>(alloc: Global, tx: &mut Transaction<'_, S>) -> Result<(), Error>
    ensures same_reference { tx.new.conn.ghost_name ≡ tx.old.conn.ghost_name }
    ensures filled { HasCleanDisk (state S.Store tx.new.conn.now)
        → OnOk result (FillsAll (state S.Store tx.old.conn.now) (state S.Store tx.new.conn.now)) }
    ensures within { StaysInside (is_ok result) (state S.Store tx.old.conn.now) (state S.Store tx.new.conn.now) }
{
    let mut number = 0;
    'holders: while let Some(raw) = holder_above(alloc, tx, number)? {
        put_of(alloc, tx, &raw)?;
        number = raw.holder.number();
    }
    Ok(())
}
