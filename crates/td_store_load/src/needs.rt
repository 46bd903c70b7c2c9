//! What each shape of needs asks for. `DatabaseCorrupt`: a row is no such row, there are several where there can be
//! one, one doesn't stand where it was asked for, or the guarantee of a line isn't there; `OutOfMemory`: want of memory; any
//! other error is the database's own.
ghost use Rattle.std.specs.Prelude.{◌≡◌, [], Some, option_to_list, IfOk, is_ok};
ghost use Rattle.sqlite.specs.Held.{state};
ghost use Rattle.sqlite.specs.State.{HasCleanDisk};
ghost use Rattle.td_commands.specs.Commands.{need_said, lodging, movement, status, release, all_movements, guarantee, all_guarantees};
ghost use Rattle.td_acts.specs.Deciding.{IsLoaded};
ghost use Rattle.td_model.specs.Content.{Content};
ghost use Rattle.td_acts.specs.Weighing.{kept_for};
ghost use Rattle.td_store_rows.specs.StoreReads.{ReadsNewest};
ghost use Rattle.td_store_rows.specs.StoreTables.{HoldsContent};
ghost use Rattle.td_store_load.specs.Needed.{IsLoadedFor};

use crate::entries::{load_declared_on, load_entry};
use crate::lists::{list_guarantees, list_movements};
use crate::movements::{load_movement_by_lrn, load_movement_by_mrn, load_status_by_mrn};
use crate::releases::load_released;
use sqlite::{Error, Transaction};
use sqlite_trees::store::Alter;
use std::alloc::{AllocError, Global};
use td_acts::{HolderRow, Lines, Loaded, Needs};
use td_base::{Country, Grn, HolderNo, Lrn, Mrn};
use td_store_rows::find_holder;

/// What a verdict needs of the rows of a command's owner, at an office of that country: of a registered holder the holder's row and
/// what is needed beside it, of another number, and where nobody owns the command, nothing.
pub fn load<S: Alter>(
    alloc: Global,
    tx: &mut Transaction<'_, S>,
    country: Country,
    owner: Option<HolderNo>,
    needs: &Needs<'_>,
) -> Result<Loaded, Error>
    ensures same_reference { tx.new.conn.ghost_name ≡ tx.old.conn.ghost_name }
    ensures loaded { HasCleanDisk (state S.Store tx.new.conn.now)
        → IfOk result (λ loaded. (c : Content) → HoldsContent c (state S.Store tx.old.conn.now) → c.country ≡ country
        → IsLoaded (kept_for owner c) (need_said needs.now) loaded) }
    ensures reads { ReadsNewest (is_ok result) (state S.Store tx.old.conn.now) (state S.Store tx.new.conn.now) }
{
    let Some(holder) = owner else {
        return Ok(Loaded::nothing(alloc, country));
    };
    let Some(row) = find_holder(alloc, tx, holder)? else {
        return Ok(Loaded::nothing(alloc, country));
    };
    load_for(alloc, tx, country, row, needs)
}

// What is needed of the holder with this row.
fn load_for<S: Alter>(
    alloc: Global,
    tx: &mut Transaction<'_, S>,
    country: Country,
    row: HolderRow,
    needs: &Needs<'_>,
) -> Result<Loaded, Error>
    ensures same_reference { tx.new.conn.ghost_name ≡ tx.old.conn.ghost_name }
    ensures loaded { HasCleanDisk (state S.Store tx.new.conn.now)
        → IfOk result (IsLoadedFor country row (need_said needs.now) (state S.Store tx.old.conn.now)) }
    ensures reads { ReadsNewest (is_ok result) (state S.Store tx.old.conn.now) (state S.Store tx.new.conn.now) }
{
    match needs {
        Needs::Nothing => Ok(row_alone(alloc, country, row)),
        Needs::Lodging(lrn, lines) => load_lodging(alloc, tx, country, row, lrn, lines),
        Needs::Movement(mrn) => load_movement(alloc, tx, country, row, mrn),
        Needs::Status(mrn) => load_status(alloc, tx, country, row, mrn),
        Needs::Release(mrn) => load_release(alloc, tx, country, row, mrn),
        Needs::AllMovements => load_movements(alloc, tx, country, row),
        Needs::Guarantee(grn) => load_guarantee(alloc, tx, country, row, grn),
        Needs::AllGuarantees => load_guarantees(alloc, tx, country, row),
    }
}

// The holder's row, and nothing beside it.
fn row_alone(alloc: Global, country: Country, row: HolderRow) -> Loaded
    ensures country { result.country ≡ country }
    ensures row { result.holder ≡ Some row }
    ensures movements { result.movements.items ≡ [] }
    ensures guarantees { result.guarantees.items ≡ [] }
{
    Loaded {
        country,
        holder: Some(row),
        movements: Vec::new(alloc),
        listed: Vec::new(alloc),
        guarantees: Vec::new(alloc),
    }
}

// One thing in a list, or none. `AllocError`: want of memory.
fn in_list<T: Drop>(alloc: Global, thing: Option<T>) -> Result<Vec<T>, AllocError>
    ensures { IfOk result (λ list. list.items ≡ option_to_list thing) }
{
    let mut list = Vec::new(alloc);
    if let Some(thing) = thing {
        list.push(thing)?;
    }
    Ok(list)
}

// The movement with an LRN, and the guarantees that lines name.
fn load_lodging<S: Alter>(
    alloc: Global,
    tx: &mut Transaction<'_, S>,
    country: Country,
    row: HolderRow,
    lrn: &Lrn,
    lines: &Lines,
) -> Result<Loaded, Error>
    ensures same_reference { tx.new.conn.ghost_name ≡ tx.old.conn.ghost_name }
    ensures loaded { HasCleanDisk (state S.Store tx.new.conn.now)
        → IfOk result (IsLoadedFor country row (lodging lrn.now lines.now) (state S.Store tx.old.conn.now)) }
    ensures reads { ReadsNewest (is_ok result) (state S.Store tx.old.conn.now) (state S.Store tx.new.conn.now) }
{
    let found = load_movement_by_lrn(alloc, tx, row.holder, lrn)?;
    let movements = in_list(alloc, found)?;
    let guarantees = load_declared_on(alloc, tx, country, row.holder, lines)?;
    Ok(Loaded {
        country,
        holder: Some(row),
        movements,
        listed: Vec::new(alloc),
        guarantees,
    })
}

// The movement with an MRN.
fn load_movement<S: Alter>(
    alloc: Global,
    tx: &mut Transaction<'_, S>,
    country: Country,
    row: HolderRow,
    mrn: &Mrn,
) -> Result<Loaded, Error>
    ensures same_reference { tx.new.conn.ghost_name ≡ tx.old.conn.ghost_name }
    ensures loaded { HasCleanDisk (state S.Store tx.new.conn.now)
        → IfOk result (IsLoadedFor country row (movement mrn.now) (state S.Store tx.old.conn.now)) }
    ensures reads { ReadsNewest (is_ok result) (state S.Store tx.old.conn.now) (state S.Store tx.new.conn.now) }
{
    let found = load_movement_by_mrn(alloc, tx, country, row.holder, mrn)?;
    let mut loaded = row_alone(alloc, country, row);
    loaded.movements = in_list(alloc, found)?;
    Ok(loaded)
}

// The movement with an MRN, without its lines.
fn load_status<S: Alter>(
    alloc: Global,
    tx: &mut Transaction<'_, S>,
    country: Country,
    row: HolderRow,
    mrn: &Mrn,
) -> Result<Loaded, Error>
    ensures same_reference { tx.new.conn.ghost_name ≡ tx.old.conn.ghost_name }
    ensures loaded { HasCleanDisk (state S.Store tx.new.conn.now)
        → IfOk result (IsLoadedFor country row (status mrn.now) (state S.Store tx.old.conn.now)) }
    ensures reads { ReadsNewest (is_ok result) (state S.Store tx.old.conn.now) (state S.Store tx.new.conn.now) }
{
    let found = load_status_by_mrn(alloc, tx, country, row.holder, mrn)?;
    let mut loaded = row_alone(alloc, country, row);
    loaded.movements = in_list(alloc, found)?;
    Ok(loaded)
}

// The movement with an MRN, and the guarantees of its lines without codes, with the amounts in use on them.
fn load_release<S: Alter>(
    alloc: Global,
    tx: &mut Transaction<'_, S>,
    country: Country,
    row: HolderRow,
    mrn: &Mrn,
) -> Result<Loaded, Error>
    ensures same_reference { tx.new.conn.ghost_name ≡ tx.old.conn.ghost_name }
    ensures loaded { HasCleanDisk (state S.Store tx.new.conn.now)
        → IfOk result (IsLoadedFor country row (release mrn.now) (state S.Store tx.old.conn.now)) }
    ensures reads { ReadsNewest (is_ok result) (state S.Store tx.old.conn.now) (state S.Store tx.new.conn.now) }
{
    let Some(released) = load_released(alloc, tx, country, row.holder, mrn)? else {
        return Ok(row_alone(alloc, country, row));
    };
    let (found, guarantees) = released;
    let movements = vec![in alloc; found]?;
    Ok(Loaded {
        country,
        holder: Some(row),
        movements,
        listed: Vec::new(alloc),
        guarantees,
    })
}

// All movements, as a list shows them.
fn load_movements<S: Alter>(
    alloc: Global,
    tx: &mut Transaction<'_, S>,
    country: Country,
    row: HolderRow,
) -> Result<Loaded, Error>
    ensures same_reference { tx.new.conn.ghost_name ≡ tx.old.conn.ghost_name }
    ensures loaded { HasCleanDisk (state S.Store tx.new.conn.now)
        → IfOk result (IsLoadedFor country row all_movements (state S.Store tx.old.conn.now)) }
    ensures reads { ReadsNewest (is_ok result) (state S.Store tx.old.conn.now) (state S.Store tx.new.conn.now) }
{
    let listed = list_movements(alloc, tx, &row)?;
    let mut loaded = row_alone(alloc, country, row);
    loaded.listed = listed;
    Ok(loaded)
}

// The guarantee with a GRN, and the amount in use on it.
fn load_guarantee<S: Alter>(
    alloc: Global,
    tx: &mut Transaction<'_, S>,
    country: Country,
    row: HolderRow,
    grn: &Grn,
) -> Result<Loaded, Error>
    ensures same_reference { tx.new.conn.ghost_name ≡ tx.old.conn.ghost_name }
    ensures loaded { HasCleanDisk (state S.Store tx.new.conn.now)
        → IfOk result (IsLoadedFor country row (guarantee grn.now) (state S.Store tx.old.conn.now)) }
    ensures reads { ReadsNewest (is_ok result) (state S.Store tx.old.conn.now) (state S.Store tx.new.conn.now) }
{
    let found = load_entry(alloc, tx, country, row.holder, grn)?;
    let mut loaded = row_alone(alloc, country, row);
    loaded.guarantees = in_list(alloc, found)?;
    Ok(loaded)
}

// All guarantees, and the amounts in use on them.
fn load_guarantees<S: Alter>(
    alloc: Global,
    tx: &mut Transaction<'_, S>,
    country: Country,
    row: HolderRow,
) -> Result<Loaded, Error>
    ensures same_reference { tx.new.conn.ghost_name ≡ tx.old.conn.ghost_name }
    ensures loaded { HasCleanDisk (state S.Store tx.new.conn.now)
        → IfOk result (IsLoadedFor country row all_guarantees (state S.Store tx.old.conn.now)) }
    ensures reads { ReadsNewest (is_ok result) (state S.Store tx.old.conn.now) (state S.Store tx.new.conn.now) }
{
    let guarantees = list_guarantees(alloc, tx, &row)?;
    let mut loaded = row_alone(alloc, country, row);
    loaded.guarantees = guarantees;
    Ok(loaded)
}
