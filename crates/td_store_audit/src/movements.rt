//! S5: each holder's movements have the serials from 1 to their count in the holder's row, and their columns are in range.
ghost use Rattle.std.specs.Prelude.{◌≡◌, ◌-◌, ◌++◌, filter, is_some, map, IfOk, IfSome, OnOk, is_ok};
ghost use Rattle.sqlite.specs.Held.{state};
ghost use Rattle.sqlite.specs.State.{HasCleanDisk};
ghost use Rattle.td_store_rows.specs.StoreReads.{IsAny, ReadsStore};
ghost use Rattle.td_store_rows.specs.Columns.{movement_typing};
ghost use Rattle.td_store_rows.specs.MovementTable.{movement_row_of, serial_of_stored};
ghost use Rattle.td_table_model.specs.Gathering.{place};
ghost use Rattle.keyed_rows.specs.Rows.{Rises};
ghost use Rattle.td_store_audit_rows.specs.InPlace.{AreMovementsInPlace};
ghost use Rattle.td_store_audit.specs.Ranges.{AreSerialsIn, movements_below};
ghost use Rattle.td_store_audit.specs.Tallies.{AreCounting, is_counting_row, raw_of};
ghost use Rattle.td_store_audit.specs.InFile.{AreTypedApart, HasMovementsInPlace, IsSoWhere, TellsWhere};

use crate::tallies::CountingSerials;
use sqlite::{Error, Transaction};
use sqlite_trees::store::Alter;
use std::alloc::{AllocError, Global};
use td_base::{Country, HolderNo};
use td_movement::counts;
use td_store_audit_rows::{RawHolder, movements_are_in_place};
use td_store_rows::{
    MovementSerial, StoredMovement, movements_within, next_movement_of, range_end,
};

/// Which movements of a holder count, where the holder's movements are counted and in their places, at an office of that
/// country. `OutOfMemory`: want of memory; any other error is the database's own.
pub fn kept_movements<S: Alter>(
    alloc: Global,
    tx: &mut Transaction<'_, S>,
    country: Country,
    raw: &RawHolder,
) -> Result<Option<CountingSerials>, Error>
    ensures same_reference { tx.new.conn.ghost_name ≡ tx.old.conn.ghost_name }
    ensures told { HasCleanDisk (state S.Store tx.new.conn.now)
        → IfOk result (λ found. TellsWhere IsAny (λ layout. AreTypedApart movement_typing)
        (λ layout trees. HasMovementsInPlace layout country trees raw.now)
        (state S.Store tx.old.conn.now) (is_some found)) }
    ensures holder { IfOk result (λ found. IfSome found (λ h. raw_of h ≡ raw.now)) }
    ensures handed { HasCleanDisk (state S.Store tx.new.conn.now)
        → IfOk result (λ found. IfSome found (λ h. IsSoWhere IsAny (λ layout. AreTypedApart movement_typing)
        (λ layout trees. AreCounting layout trees h) (state S.Store tx.old.conn.now))) }
    ensures reads { ReadsStore (is_ok result) (state S.Store tx.old.conn.now) (state S.Store tx.new.conn.now) }
{
    let Some(count) = raw.mrn_count else {
        return Ok(None);
    };
    let Some(end) = count.checked_add(1) else {
        return Ok(None);
    };
    let Some(serials) = counting_below(alloc, tx, country, raw.holder, end)? else {
        return Ok(None);
    };
    if next_movement_of(alloc, tx, raw.holder.number(), count)?.is_some() {
        return Ok(None);
    }
    Ok(Some(CountingSerials { raw: *raw, serials }))
}

// The serials that count of a holder's movements with serials below `end`, where these are in their places, read range by range.
fn counting_below<S: Alter>(
    alloc: Global,
    tx: &mut Transaction<'_, S>,
    country: Country,
    holder: HolderNo,
    end: u32,
) -> Result<Option<Vec<MovementSerial>>, Error>
    ensures same_reference { tx.new.conn.ghost_name ≡ tx.old.conn.ghost_name }
    ensures told { HasCleanDisk (state S.Store tx.new.conn.now)
        → IfOk result (λ found. TellsWhere IsAny (λ layout. AreTypedApart movement_typing)
        (λ layout trees. AreMovementsInPlace country (end - 1) (movements_below layout trees holder end))
        (state S.Store tx.old.conn.now) (is_some found)) }
    ensures rise { IfOk result (λ found. IfSome found (λ serials. Rises serial_of_stored 0 serials.items)) }
    ensures handed { HasCleanDisk (state S.Store tx.new.conn.now)
        → IfOk result (λ found. IfSome found (λ serials. IsSoWhere IsAny (λ layout. AreTypedApart movement_typing)
        (λ layout trees. AreSerialsIn (movements_below layout trees holder end) serials.items) (state S.Store tx.old.conn.now))) }
    ensures reads { ReadsStore (is_ok result) (state S.Store tx.old.conn.now) (state S.Store tx.new.conn.now) }
{
    let mut serials = Vec::new(alloc);
    let mut first = 0;
    'parts: while first < end {
        let next = range_end(first, end);
        let rows = movements_within(alloc, tx, holder, first, next)?;
        if !movements_are_in_place(country, first.saturating_sub(1), next - 1, &rows) {
            return Ok(None);
        }
        push_counting(&mut serials, &rows)?;
        first = next;
    }
    Ok(Some(serials))
}

// The serials of the movements in rows that count go behind others, in their order. `AllocError`: want of memory.
fn push_counting(
    serials: &mut Vec<MovementSerial>,
    rows: &[StoredMovement],
) -> Result<(), AllocError>
    ensures { OnOk result (map serial_of_stored serials.new.items
        ≡ map serial_of_stored serials.old.items ++ map place (filter is_counting_row (map movement_row_of rows.now))) }
{
    'rows: for row in rows {
        if counts(row.movement.state) {
            serials.push(MovementSerial { serial: row.serial })?;
        }
    }
    Ok(())
}
