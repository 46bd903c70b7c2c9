//! S3: each holder's guarantees have the serials from 1 to their count in the holder's row, and their columns are in range.
ghost use Rattle.std.specs.Prelude.{◌≡◌, ◌-◌, IfOk, is_ok};
ghost use Rattle.sqlite.specs.Held.{state};
ghost use Rattle.sqlite.specs.State.{HasCleanDisk};
ghost use Rattle.td_store_rows.specs.Columns.{guarantee_typing};
ghost use Rattle.td_store_rows.specs.StoreReads.{IsOfVersion, ReadsVersion};
ghost use Rattle.td_store_audit_rows.specs.InPlace.{AreGuaranteesInPlace};
ghost use Rattle.td_store_audit.specs.Ranges.{guarantees_below};
ghost use Rattle.td_store_audit.specs.InFile.{AreTypedApart, HasGuaranteesInPlace, TellsWhere};

use sqlite::{Error, Transaction};
use sqlite_trees::store::Alter;
use std::alloc::Global;
use td_base::{Country, HolderNo};
use td_store_audit_rows::{RawHolder, guarantees_are_in_place};
use td_store_rows::{guarantees_within, next_guarantee_of, range_end};

/// Whether a holder's guarantees are counted, and in their places, at an office of that country, in a file of that version.
/// `OutOfMemory`: want of memory; any other error is the database's own.
pub fn has_guarantees<S: Alter>(
    alloc: Global,
    tx: &mut Transaction<'_, S>,
    version: u32,
    country: Country,
    raw: &RawHolder,
) -> Result<bool, Error>
    ensures same_reference { tx.new.conn.ghost_name ≡ tx.old.conn.ghost_name }
    ensures told { HasCleanDisk (state S.Store tx.new.conn.now)
        → IfOk result (TellsWhere (IsOfVersion version) (λ layout. AreTypedApart (guarantee_typing layout))
        (λ layout trees. HasGuaranteesInPlace layout country trees raw.now) (state S.Store tx.old.conn.now)) }
    ensures reads { ReadsVersion version (is_ok result) (state S.Store tx.old.conn.now) (state S.Store tx.new.conn.now) }
{
    let Some(count) = raw.grn_count else {
        return Ok(false);
    };
    let Some(end) = count.checked_add(1) else {
        return Ok(false);
    };
    if !has_guarantees_below(alloc, tx, version, country, raw.holder, end)? {
        return Ok(false);
    }
    Ok(next_guarantee_of(alloc, tx, version, raw.holder.number(), count)?.is_none())
}

// Whether a holder's guarantees with serials below `end` are in their places, read range by range.
fn has_guarantees_below<S: Alter>(
    alloc: Global,
    tx: &mut Transaction<'_, S>,
    version: u32,
    country: Country,
    holder: HolderNo,
    end: u32,
) -> Result<bool, Error>
    ensures same_reference { tx.new.conn.ghost_name ≡ tx.old.conn.ghost_name }
    ensures told { HasCleanDisk (state S.Store tx.new.conn.now)
        → IfOk result (TellsWhere (IsOfVersion version) (λ layout. AreTypedApart (guarantee_typing layout))
        (λ layout trees. AreGuaranteesInPlace country (end - 1) (guarantees_below layout trees holder end)) (state S.Store tx.old.conn.now)) }
    ensures reads { ReadsVersion version (is_ok result) (state S.Store tx.old.conn.now) (state S.Store tx.new.conn.now) }
{
    let mut first = 0;
    'parts: while first < end {
        let next = range_end(first, end);
        let rows = guarantees_within(alloc, tx, version, holder, first, next)?;
        if !guarantees_are_in_place(country, first.saturating_sub(1), next - 1, &rows) {
            return Ok(false);
        }
        first = next;
    }
    Ok(true)
}
