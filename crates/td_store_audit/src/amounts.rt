//! S7: the rows of guarantees keep the amounts in use, from version 2 on, and each is what is in use on its guarantee.
ghost use Rattle.std.specs.Prelude.{◌≡◌, ◌↔◌, ℕ, IsTrue, IfOk, is_ok};
ghost use Rattle.std.specs.List.{AllByRecursion};
ghost use Rattle.sqlite.specs.Held.{state};
ghost use Rattle.sqlite.specs.State.{HasCleanDisk};
ghost use Rattle.td_store_rows.specs.StoreReads.{KeepsUse, ReadsKept};
ghost use Rattle.td_store_audit.specs.Tallies.{IsHandedOn, IsKeptBy, raw_holder_of};
ghost use Rattle.td_store_audit.specs.Totals.{AreTotals};
ghost use Rattle.td_store_audit.specs.InFile.{IsHolderKeptInFile, TellsWhere};

use crate::tallies::HolderTotals;
use sqlite::{Error, Transaction};
use sqlite_trees::store::Alter;
use std::alloc::Global;
use td_store_rows::{KeptGuarantee, kept_within, range_end};

/// Whether the amounts on a holder's guarantees are what is in use on them, in a file that keeps them. It is given what the
/// rules of movements and of lines hand on of the holder, and reads the guarantees alone. `OutOfMemory`: want of memory;
/// any other error is the database's own.
pub fn is_holder_kept<S: Alter>(
    alloc: Global,
    tx: &mut Transaction<'_, S>,
    parts: &HolderTotals,
) -> Result<bool, Error>
    ensures same_reference { tx.new.conn.ghost_name ≡ tx.old.conn.ghost_name }
    ensures told { HasCleanDisk (state S.Store tx.new.conn.now)
        → IfOk result (TellsWhere KeepsUse (λ layout trees. IsHandedOn layout trees parts.now)
        (λ layout trees. IsHolderKeptInFile layout trees (raw_holder_of parts.now)) (state S.Store tx.old.conn.now)) }
    ensures reads { ReadsKept (is_ok result) (state S.Store tx.old.conn.now) (state S.Store tx.new.conn.now) }
{
    let raw = &parts.movements.raw;
    let Some(count) = raw.grn_count else {
        return Ok(false);
    };
    let Some(end) = count.checked_add(1) else {
        return Ok(false);
    };
    let mut first = 0;
    'parts: while first < end {
        let next = range_end(first, end);
        let rows = kept_within(alloc, tx, raw.holder, first, next)?;
        if !all_rows_kept(parts, &rows) {
            return Ok(false);
        }
        first = next;
    }
    Ok(true)
}

// Whether those in rows are, by what the holder's lines add up to.
fn all_rows_kept(parts: &HolderTotals, rows: &[KeptGuarantee]) -> bool
    ensures { (sums : ℕ → ℕ) → AreTotals sums parts.now.totals → IsTrue result ↔ AllByRecursion (IsKeptBy sums) rows.now }
{
    'rows: for row in rows {
        if !is_row_kept(parts, row) {
            return false;
        }
    }
    true
}

// Whether the amount in a row is.
fn is_row_kept(parts: &HolderTotals, row: &KeptGuarantee) -> bool
    ensures { (sums : ℕ → ℕ) → AreTotals sums parts.now.totals → IsTrue result ↔ IsKeptBy sums row.now }
{
    let kept = row.used.get();
    let Some(used) = parts.totals.on(row.serial) else {
        return false;
    };
    used.get() == kept
}
