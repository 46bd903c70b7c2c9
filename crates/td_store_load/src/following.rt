//! What stands next behind a place: the first movement, and the first guarantee, by holder and then by serial. A place is a holder's
//! number, whether it is one or not, and a serial; (0, 0) is before all. `DatabaseCorrupt`: a row is no such row, or the guarantee of
//! a line isn't there; `OutOfMemory`: want of memory; any other error is the database's own.
ghost use Rattle.std.specs.Prelude.{◌≡◌, IfOk, is_ok};
ghost use Rattle.std.specs.Option.{option_map};
ghost use Rattle.sqlite.specs.Held.{state};
ghost use Rattle.sqlite.specs.State.{HasCleanDisk};
ghost use Rattle.td_store_rows.specs.StoreReads.{ReadsNewest};
ghost use Rattle.td_store_rows.specs.KeptTable.{kept_row_of};
ghost use Rattle.td_store_rows.specs.MovementTable.{movement_row_of};
ghost use Rattle.td_store_load.specs.Placed.{IsFirstBehind, found_at, guarantees_placed, kept_rows, movement_rows, movements_placed};

use crate::entries::entry_in_row;
use crate::movements::movement_with_lines;
use sqlite::{Error, Transaction};
use sqlite_trees::store::Alter;
use std::alloc::Global;
use td_base::{Cents, HolderNo};
use td_guarantee::Guarantee;
use td_movement::Movement;
use td_store_rows::{
    KeptGuarantee, StoredMovement, first_kept_above, first_movement_above, next_kept_of,
    next_movement_of,
};

// The row of the first movement behind a place, if there is one.
fn next_movement<S: Alter>(
    alloc: Global,
    tx: &mut Transaction<'_, S>,
    holder: u32,
    serial: u32,
) -> Result<Option<StoredMovement>, Error>
    ensures same_reference { tx.new.conn.ghost_name ≡ tx.old.conn.ghost_name }
    ensures first { HasCleanDisk (state S.Store tx.new.conn.now)
        → IfOk result (λ found. IsFirstBehind movement_rows holder serial (state S.Store tx.old.conn.now) (option_map movement_row_of found)) }
    ensures reads { ReadsNewest (is_ok result) (state S.Store tx.old.conn.now) (state S.Store tx.new.conn.now) }
{
    if let Some(row) = next_movement_of(alloc, tx, holder, serial)? {
        return Ok(Some(row));
    }
    first_movement_above(alloc, tx, holder)
}

/// The first movement behind the place of a holder's number and a serial, if there is one, with its holder, its serial and its
/// lines. No row of another movement is kept.
pub fn following_movement<S: Alter>(
    alloc: Global,
    tx: &mut Transaction<'_, S>,
    holder: u32,
    serial: u32,
) -> Result<Option<(HolderNo, u32, Movement)>, Error>
    ensures same_reference { tx.new.conn.ghost_name ≡ tx.old.conn.ghost_name }
    ensures found { HasCleanDisk (state S.Store tx.new.conn.now)
        → IfOk result (λ found. IsFirstBehind movements_placed holder serial (state S.Store tx.old.conn.now)
        (option_map found_at found)) }
    ensures reads { ReadsNewest (is_ok result) (state S.Store tx.old.conn.now) (state S.Store tx.new.conn.now) }
{
    let Some(row) = next_movement(alloc, tx, holder, serial)? else {
        return Ok(None);
    };
    let (holder, serial) = (row.holder, row.serial);
    let movement = movement_with_lines(alloc, tx, row)?;
    Ok(Some((holder, serial, movement)))
}

// The row of the first guarantee behind a place, if there is one, with the amount in use on it.
fn next_kept<S: Alter>(
    alloc: Global,
    tx: &mut Transaction<'_, S>,
    holder: u32,
    serial: u32,
) -> Result<Option<KeptGuarantee>, Error>
    ensures same_reference { tx.new.conn.ghost_name ≡ tx.old.conn.ghost_name }
    ensures first { HasCleanDisk (state S.Store tx.new.conn.now)
        → IfOk result (λ found. IsFirstBehind kept_rows holder serial (state S.Store tx.old.conn.now) (option_map kept_row_of found)) }
    ensures reads { ReadsNewest (is_ok result) (state S.Store tx.old.conn.now) (state S.Store tx.new.conn.now) }
{
    if let Some(row) = next_kept_of(alloc, tx, holder, serial)? {
        return Ok(Some(row));
    }
    first_kept_above(alloc, tx, holder)
}

/// The first guarantee behind the place of a holder's number and a serial, if there is one, with its holder, its serial, its codes and
/// the amount in use on it. No row of another guarantee is kept.
pub fn following_guarantee<S: Alter>(
    alloc: Global,
    tx: &mut Transaction<'_, S>,
    holder: u32,
    serial: u32,
) -> Result<Option<(HolderNo, u32, (Guarantee, Cents))>, Error>
    ensures same_reference { tx.new.conn.ghost_name ≡ tx.old.conn.ghost_name }
    ensures found { HasCleanDisk (state S.Store tx.new.conn.now)
        → IfOk result (λ found. IsFirstBehind guarantees_placed holder serial (state S.Store tx.old.conn.now)
        (option_map found_at found)) }
    ensures reads { ReadsNewest (is_ok result) (state S.Store tx.old.conn.now) (state S.Store tx.new.conn.now) }
{
    let Some(row) = next_kept(alloc, tx, holder, serial)? else {
        return Ok(None);
    };
    let entry = entry_in_row(alloc, tx, &row)?;
    Ok(Some((row.holder, row.serial, entry)))
}
