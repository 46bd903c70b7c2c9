//! What is written into the table of movements. An error is the database's own, and commits nothing.
ghost use Rattle.std.specs.Prelude.{◌≡◌, ◌∷◌, true, if◌then◌else◌, map, OnOk, is_ok};
ghost use Rattle.sqlite.specs.Held.{state};
ghost use Rattle.sqlite.specs.State.{HasCleanDisk, Shows};
ghost use Rattle.sqlite.specs.Values.{bound};
ghost use Rattle.td_movement.specs.States.{state_name};
ghost use Rattle.td_table_model.specs.Tables.{movement_row};
ghost use Rattle.typed_sql.specs.Reading.{StaysInside};
ghost use Rattle.td_store_rows.specs.Columns.{movement_cells};
ghost use Rattle.td_store_rows.specs.MovementTable.{TurnsMovements, has_mrn, with_new_status, status_values};

use crate::movements::texts::{INSERT, SET_STATUS};
use sqlite::{Error, Transaction};
use sqlite_trees::store::Alter;
use sqlite_value::value::ValueRef;
use td_base::HolderNo;
use td_model::NewStatus;
use td_movement::Movement;
use td_schema::{day_of, day_or_null, number_of, office_or_null};

// The columns of a movement's row.
fn columns(holder: HolderNo, serial: u32, movement: &Movement) -> [ValueRef<'_>; 11]
    ensures { bound result ≡ movement_cells (movement_row holder (serial, movement.now)) }
{
    [
        number_of(holder.number()),
        number_of(serial),
        ValueRef::Text(movement.mrn.as_bytes()),
        ValueRef::Text(movement.lrn.as_bytes()),
        ValueRef::Text(movement.departure.as_bytes()),
        ValueRef::Text(movement.destination.as_bytes()),
        day_of(movement.accepted),
        ValueRef::Text(movement.state.name().as_bytes()),
        day_or_null(movement.limit),
        day_or_null(movement.arrival),
        office_or_null(&movement.actual),
    ]
}

// What a new status is written by: the key and the MRN, and then the columns.
fn status_columns(holder: HolderNo, serial: u32, status: &NewStatus) -> [ValueRef<'_>; 7]
    ensures { bound result ≡ status_values holder serial status.now }
{
    [
        number_of(holder.number()),
        number_of(serial),
        ValueRef::Text(status.mrn.as_bytes()),
        ValueRef::Text(status.state.name().as_bytes()),
        day_or_null(status.limit),
        day_or_null(status.arrival),
        office_or_null(&status.actual),
    ]
}

/// Inserts the row of a holder's movement under a serial, without its lines.
pub fn insert_movement<S: Alter>(
    tx: &mut Transaction<'_, S>,
    holder: HolderNo,
    serial: u32,
    movement: &Movement,
) -> Result<(), Error>
    ensures same_reference { tx.new.conn.ghost_name ≡ tx.old.conn.ghost_name }
    ensures inserted { HasCleanDisk (state S.Store tx.new.conn.now)
        → OnOk result (TurnsMovements (λ rows. movement_row holder (serial, movement.now) ∷ rows)
        (state S.Store tx.old.conn.now) (state S.Store tx.new.conn.now)) }
    ensures inside { HasCleanDisk (state S.Store tx.new.conn.now) → OnOk result (Shows (state S.Store tx.old.conn.now)
        (state S.Store tx.new.conn.now) (state S.Store tx.new.conn.now).now (state S.Store tx.old.conn.now).committed true) }
    ensures within { StaysInside (is_ok result) (state S.Store tx.old.conn.now) (state S.Store tx.new.conn.now) }
{
    typed_sql::insert(tx, INSERT, &columns(holder, serial, movement))
}

/// Puts the movement of a holder with a serial and the MRN of the status into that status: the days and the office that
/// come with it are set, and the others stay. `DatabaseCorrupt`: there isn't just one such movement.
pub fn set_status<S: Alter>(
    tx: &mut Transaction<'_, S>,
    holder: HolderNo,
    serial: u32,
    status: &NewStatus,
) -> Result<(), Error>
    ensures same_reference { tx.new.conn.ghost_name ≡ tx.old.conn.ghost_name }
    ensures set { HasCleanDisk (state S.Store tx.new.conn.now) → OnOk result (TurnsMovements
        (map (λ m. if has_mrn holder serial status.now.mrn m then with_new_status status.now m else m))
        (state S.Store tx.old.conn.now) (state S.Store tx.new.conn.now)) }
    ensures inside { HasCleanDisk (state S.Store tx.new.conn.now) → OnOk result (Shows (state S.Store tx.old.conn.now)
        (state S.Store tx.new.conn.now) (state S.Store tx.new.conn.now).now (state S.Store tx.old.conn.now).committed true) }
    ensures within { StaysInside (is_ok result) (state S.Store tx.old.conn.now) (state S.Store tx.new.conn.now) }
{
    typed_sql::update(tx, SET_STATUS, &status_columns(holder, serial, status))
}
