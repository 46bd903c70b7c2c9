//! A change of a holder's rows, written. An error is the database's own or want of memory, and commits nothing.
ghost use Rattle.std.specs.Prelude.{◌≡◌, ◌∷◌, ◌++◌, not, map, filter, OnOk, is_ok};
ghost use Rattle.sqlite.specs.Held.{state};
ghost use Rattle.sqlite.specs.State.{HasCleanDisk};
ghost use Rattle.td_model.specs.declared.change.Change.{Change};
ghost use Rattle.td_model.specs.declared.change.Change.TheVariants as change;
ghost use Rattle.td_table_model.specs.Tables.{Tables, code_row, guarantee_no, guarantee_row, line_rows, movement_row};
ghost use Rattle.td_table_model.specs.Changes.{is_code_of, tables_after, with_row};
ghost use Rattle.td_table_model.specs.Looking.{movement_no};
ghost use Rattle.typed_sql.specs.Reading.{StaysInside};
ghost use Rattle.td_store_rows.specs.CodeTable.{code_row_of};
ghost use Rattle.td_store_rows.specs.StoreTables.{TurnsTables};
ghost use Rattle.td_store_write.specs.InUse.{FitsMovement, TurnsFitting};
ghost use Rattle.td_store_write.specs.Written.{WritesChange, kept_terms_by_key, terms_by_key, with_move, with_status_set};

use crate::amounts::{change_by_lines, changes_use};
use crate::lists::{insert_codes, insert_lines};
use sqlite::{Error, Transaction};
use sqlite_trees::store::Alter;
use std::alloc::Global;
use td_base::{AccessCode, Cents, Country, Grn};
use td_guarantee::Guarantee;
use td_model::{Change, HolderRow, NewStatus, NewTerms};
use td_movement::Movement;
use td_store_rows::{
    StoredCode, delete_code, insert_code, insert_guarantee, insert_holder, insert_movement,
    lines_of, set_holder, set_status, set_terms,
};

/// Writes a change, at an office of that country, whose tables hold sound content; `Change::Nothing` writes nothing.
pub fn write_change<S: Alter>(
    alloc: Global,
    tx: &mut Transaction<'_, S>,
    country: Country,
    change: &Change,
) -> Result<(), Error>
    ensures same_reference { tx.new.conn.ghost_name ≡ tx.old.conn.ghost_name }
    ensures written { HasCleanDisk (state S.Store tx.new.conn.now) → OnOk result (WritesChange country change.now
        (state S.Store tx.old.conn.now) (state S.Store tx.new.conn.now)) }
    ensures within { StaysInside (is_ok result) (state S.Store tx.old.conn.now) (state S.Store tx.new.conn.now) }
{
    match change {
        Change::Nothing => Ok(()),
        Change::Registered(row) => insert_holder(tx, row),
        Change::Opened(row, guarantee) => write_opened(tx, row, guarantee),
        Change::Declared(row, movement) => write_declared(tx, country, row, movement),
        Change::Moved(row, status) => write_moved(alloc, tx, country, row, status),
        Change::TermsSet(row, terms) => write_terms(tx, country, row, terms),
        Change::CodeAdded(row, grn, code) => add_code(tx, country, row, grn, *code),
        Change::CodeRemoved(row, grn, code) => remove_code(tx, country, row, grn, *code),
    }
}

// The holder's row as it is now, and a new guarantee with its codes, on which nothing is in use.
fn write_opened<S: Alter>(
    tx: &mut Transaction<'_, S>,
    row: &HolderRow,
    guarantee: &Guarantee,
) -> Result<(), Error>
    ensures same_reference { tx.new.conn.ghost_name ≡ tx.old.conn.ghost_name }
    ensures written { HasCleanDisk (state S.Store tx.new.conn.now) → OnOk result (TurnsTables
        (tables_after (change.Opened row.now guarantee.now))
        (state S.Store tx.old.conn.now) (state S.Store tx.new.conn.now)) }
    ensures within { StaysInside (is_ok result) (state S.Store tx.old.conn.now) (state S.Store tx.new.conn.now) }
{
    set_holder(tx, row)?;
    let unused = Cents::new(0).unwrap();
    insert_guarantee(tx, row.holder, row.grn_count, guarantee, unused)?;
    insert_codes(tx, row.holder, row.grn_count, guarantee.codes.as_slice())
}

// The holder's row as it is now, and a new movement with its lines.
fn write_declared<S: Alter>(
    tx: &mut Transaction<'_, S>,
    country: Country,
    row: &HolderRow,
    movement: &Movement,
) -> Result<(), Error>
    ensures same_reference { tx.new.conn.ghost_name ≡ tx.old.conn.ghost_name }
    ensures written { HasCleanDisk (state S.Store tx.new.conn.now) → OnOk result (TurnsTables
        (λ t. record t {
          holders = map (with_row row.now) t.holders;
          movements = movement_row row.now.holder (row.now.mrn_count, movement.now) ∷ t.movements;
          lines = line_rows country row.now.holder (row.now.mrn_count, movement.now) ++ t.lines;
        })
        (state S.Store tx.old.conn.now) (state S.Store tx.new.conn.now)) }
    ensures within { StaysInside (is_ok result) (state S.Store tx.old.conn.now) (state S.Store tx.new.conn.now) }
{
    set_holder(tx, row)?;
    insert_movement(tx, row.holder, row.mrn_count, movement)?;
    insert_lines(
        tx,
        country,
        row.holder,
        row.mrn_count,
        movement.lines.as_slice(),
    )
}

// The holder's row as it is now, a movement of the holder's in its new status, and what that does to the amounts in use
// on the guarantees of its lines.
fn write_moved<S: Alter>(
    alloc: Global,
    tx: &mut Transaction<'_, S>,
    country: Country,
    row: &HolderRow,
    status: &NewStatus,
) -> Result<(), Error>
    ensures same_reference { tx.new.conn.ghost_name ≡ tx.old.conn.ghost_name }
    ensures written { HasCleanDisk (state S.Store tx.new.conn.now) → OnOk result (TurnsFitting
        (FitsMovement row.now.holder (movement_no country status.now.mrn) status.now.state)
        (with_move country row.now status.now) (state S.Store tx.old.conn.now) (state S.Store tx.new.conn.now)) }
    ensures within { StaysInside (is_ok result) (state S.Store tx.old.conn.now) (state S.Store tx.new.conn.now) }
{
    if changes_use(status.state) {
        return write_with_use(alloc, tx, country, row, status);
    }
    write_status(tx, country, row, status)
}

// The same by the movement's lines, whatever its state.
fn write_with_use<S: Alter>(
    alloc: Global,
    tx: &mut Transaction<'_, S>,
    country: Country,
    row: &HolderRow,
    status: &NewStatus,
) -> Result<(), Error>
    ensures same_reference { tx.new.conn.ghost_name ≡ tx.old.conn.ghost_name }
    ensures written { HasCleanDisk (state S.Store tx.new.conn.now) → OnOk result (TurnsFitting
        (FitsMovement row.now.holder (movement_no country status.now.mrn) status.now.state)
        (with_move country row.now status.now) (state S.Store tx.old.conn.now) (state S.Store tx.new.conn.now)) }
    ensures within { StaysInside (is_ok result) (state S.Store tx.old.conn.now) (state S.Store tx.new.conn.now) }
{
    let serial = status.mrn.serial(country).unwrap_or(0);
    let lines = lines_of(alloc, tx, row.holder, serial)?;
    write_status(tx, country, row, status)?;
    change_by_lines(tx, row.holder, status.state, &lines)
}

// The holder's row as it is now, and a movement of the holder's in its new status.
fn write_status<S: Alter>(
    tx: &mut Transaction<'_, S>,
    country: Country,
    row: &HolderRow,
    status: &NewStatus,
) -> Result<(), Error>
    ensures same_reference { tx.new.conn.ghost_name ≡ tx.old.conn.ghost_name }
    ensures written { HasCleanDisk (state S.Store tx.new.conn.now) → OnOk result (TurnsTables
        (with_status_set country row.now status.now) (state S.Store tx.old.conn.now) (state S.Store tx.new.conn.now)) }
    ensures within { StaysInside (is_ok result) (state S.Store tx.old.conn.now) (state S.Store tx.new.conn.now) }
{
    set_holder(tx, row)?;
    let serial = status.mrn.serial(country).unwrap_or(0);
    set_status(tx, row.holder, serial, status)
}

// The holder's row as it is now, and the new terms of a guarantee of the holder's, which leave the amount in use.
fn write_terms<S: Alter>(
    tx: &mut Transaction<'_, S>,
    country: Country,
    row: &HolderRow,
    terms: &NewTerms,
) -> Result<(), Error>
    ensures same_reference { tx.new.conn.ghost_name ≡ tx.old.conn.ghost_name }
    ensures written { HasCleanDisk (state S.Store tx.new.conn.now) → OnOk result (TurnsTables
        (λ t. record t {
          holders = map (with_row row.now) t.holders;
          guarantees = map (terms_by_key row.now.holder (guarantee_no country terms.now.grn) terms.now) t.guarantees;
          kept = map (kept_terms_by_key row.now.holder (guarantee_no country terms.now.grn) terms.now) t.kept;
        })
        (state S.Store tx.old.conn.now) (state S.Store tx.new.conn.now)) }
    ensures within { StaysInside (is_ok result) (state S.Store tx.old.conn.now) (state S.Store tx.new.conn.now) }
{
    set_holder(tx, row)?;
    let serial = terms.grn.serial(country).unwrap_or(0);
    set_terms(tx, row.holder, serial, terms)
}

// The holder's row as it is now, and a code that a guarantee of the holder's gets.
fn add_code<S: Alter>(
    tx: &mut Transaction<'_, S>,
    country: Country,
    row: &HolderRow,
    grn: &Grn,
    code: AccessCode,
) -> Result<(), Error>
    ensures same_reference { tx.new.conn.ghost_name ≡ tx.old.conn.ghost_name }
    ensures written { HasCleanDisk (state S.Store tx.new.conn.now) → OnOk result (TurnsTables
        (λ t. record t {
          holders = map (with_row row.now) t.holders;
          codes = code_row row.now.holder (guarantee_no country grn.now) code ∷ t.codes;
        })
        (state S.Store tx.old.conn.now) (state S.Store tx.new.conn.now)) }
    ensures within { StaysInside (is_ok result) (state S.Store tx.old.conn.now) (state S.Store tx.new.conn.now) }
{
    set_holder(tx, row)?;
    insert_code(tx, &code_of(country, row, grn, code))
}

// The holder's row as it is now, and a code that a guarantee of the holder's loses.
fn remove_code<S: Alter>(
    tx: &mut Transaction<'_, S>,
    country: Country,
    row: &HolderRow,
    grn: &Grn,
    code: AccessCode,
) -> Result<(), Error>
    ensures same_reference { tx.new.conn.ghost_name ≡ tx.old.conn.ghost_name }
    ensures written { HasCleanDisk (state S.Store tx.new.conn.now) → OnOk result (TurnsTables
        (λ t. record t {
          holders = map (with_row row.now) t.holders;
          codes = filter (λ r. not (is_code_of row.now.holder (guarantee_no country grn.now) code r)) t.codes;
        })
        (state S.Store tx.old.conn.now) (state S.Store tx.new.conn.now)) }
    ensures within { StaysInside (is_ok result) (state S.Store tx.old.conn.now) (state S.Store tx.new.conn.now) }
{
    set_holder(tx, row)?;
    delete_code(tx, &code_of(country, row, grn, code))
}

// The row of a code of a holder's guarantee.
fn code_of(country: Country, row: &HolderRow, grn: &Grn, code: AccessCode) -> StoredCode
    ensures { code_row_of result ≡ code_row row.now.holder (guarantee_no country grn.now) code }
{
    StoredCode {
        holder: row.holder,
        serial: grn.serial(country).unwrap_or(0),
        code,
    }
}
