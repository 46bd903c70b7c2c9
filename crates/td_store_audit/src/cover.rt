//! S8: on each guarantee the amount in use is at most the reference amount.
ghost use Rattle.std.specs.Prelude.{◌≡◌, ◌↔◌, ℕ, IsTrue, IfOk, is_ok};
ghost use Rattle.std.specs.List.{AllByRecursion};
ghost use Rattle.sqlite.specs.Held.{state};
ghost use Rattle.sqlite.specs.State.{HasCleanDisk};
ghost use Rattle.td_store_rows.specs.StoreReads.{IsOfVersion, ReadsVersion};
ghost use Rattle.td_store_audit.specs.Tallies.{IsCoveredBy, IsHandedOn, raw_holder_of};
ghost use Rattle.td_store_audit.specs.Totals.{AreTotals};
ghost use Rattle.td_store_audit.specs.InFile.{IsHolderCoveredInFile, TellsWhere};

use crate::tallies::HolderTotals;
use sqlite::{Error, Transaction};
use sqlite_trees::store::Alter;
use std::alloc::Global;
use td_store_rows::{StoredGuarantee, guarantees_within, range_end};

/// Whether each of a holder's guarantees is covered, in a file of that version. It is given what the rules of movements and
/// of lines hand on of the holder, and reads the guarantees alone. `OutOfMemory`: want of memory; any other error is the
/// database's own.
pub fn is_holder_covered<S: Alter>(
    alloc: Global,
    tx: &mut Transaction<'_, S>,
    version: u32,
    parts: &HolderTotals,
) -> Result<bool, Error>
    ensures same_reference { tx.new.conn.ghost_name ≡ tx.old.conn.ghost_name }
    ensures told { HasCleanDisk (state S.Store tx.new.conn.now)
        → IfOk result (TellsWhere (IsOfVersion version) (λ layout trees. IsHandedOn layout trees parts.now)
        (λ layout trees. IsHolderCoveredInFile layout trees (raw_holder_of parts.now)) (state S.Store tx.old.conn.now)) }
    ensures reads { ReadsVersion version (is_ok result) (state S.Store tx.old.conn.now) (state S.Store tx.new.conn.now) }
{
    let raw = &parts.movements.raw;
    let Some(count) = raw.grn_count else {
        return Ok(false);
    };
    let Some(end) = count.checked_add(1) else {
        return Ok(false);
    };
    let mut first = 0;
    'parts: while first < end {
        let next = range_end(first, end);
        let rows = guarantees_within(alloc, tx, version, raw.holder, first, next)?;
        if !all_rows_covered(parts, &rows) {
            return Ok(false);
        }
        first = next;
    }
    Ok(true)
}

// Whether each of the guarantees in rows is, by what the holder's lines add up to.
fn all_rows_covered(parts: &HolderTotals, rows: &[StoredGuarantee]) -> bool
    ensures { (sums : ℕ → ℕ) → AreTotals sums parts.now.totals → IsTrue result ↔ AllByRecursion (IsCoveredBy sums) rows.now }
{
    'rows: for row in rows {
        if !is_row_covered(parts, row) {
            return false;
        }
    }
    true
}

// Whether the guarantee in a row is.
fn is_row_covered(parts: &HolderTotals, row: &StoredGuarantee) -> bool
    ensures { (sums : ℕ → ℕ) → AreTotals sums parts.now.totals → IsTrue result ↔ IsCoveredBy sums row.now }
{
    let reference = row.guarantee.reference.get();
    let Some(used) = parts.totals.on(row.serial) else {
        return false;
    };
    used.get() <= reference
}
