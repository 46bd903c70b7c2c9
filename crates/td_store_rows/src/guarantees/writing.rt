//! What is written into the tables of guarantees. An error is the database's own, and commits nothing.
ghost use Rattle.std.specs.Prelude.{◌≡◌, [], ◌∷◌, true, if◌then◌else◌, map, OnOk, is_ok};
ghost use Rattle.sqlite.specs.Held.{state};
ghost use Rattle.sqlite.specs.State.{HasCleanDisk, Shows};
ghost use Rattle.sqlite.specs.Values.{bound};
ghost use Rattle.td_table_model.specs.Tables.{guarantee_row, with_amount};
ghost use Rattle.typed_sql.specs.Reading.{StaysInside};
ghost use Rattle.typed_sql.specs.Values.{number_value};
ghost use Rattle.td_store_rows.specs.Columns.{kept_cells};
ghost use Rattle.td_store_rows.specs.GuaranteeTable.{has_serial};
ghost use Rattle.td_store_rows.specs.KeptTable.{EmptiesFirst, HasInUse, HasRoom, TurnsKept, TurnsWhere};
ghost use Rattle.td_store_rows.specs.KeptTable.{has_kept_grn, terms_values, with_less, with_more, with_new_kept_terms};

use crate::guarantees::texts::{ADD_USED, EMPTY_FIRST, INSERT, SET_TERMS, TAKE_USED};
use sqlite::{Error, Transaction};
use sqlite_trees::store::Alter;
use sqlite_value::value::ValueRef;
use td_base::{Cents, HolderNo};
use td_guarantee::Guarantee;
use td_model::NewTerms;
use td_schema::{amount_of, amount_or_null, cover_of, cover_or_null, day_or_null, number_of};

// The columns of a guarantee's row with the amount in use.
fn columns(holder: HolderNo, serial: u32, guarantee: &Guarantee, used: Cents) -> [ValueRef<'_>; 7]
    ensures { bound result ≡ kept_cells (with_amount used (guarantee_row holder (serial, guarantee.now))) }
{
    [
        number_of(holder.number()),
        number_of(serial),
        ValueRef::Text(guarantee.grn.as_bytes()),
        amount_of(guarantee.reference),
        cover_of(guarantee.cover),
        day_or_null(guarantee.ends),
        amount_of(used),
    ]
}

// What new terms are written by: the key and the GRN, and then the terms.
fn terms_columns(holder: HolderNo, serial: u32, terms: &NewTerms) -> [ValueRef<'_>; 6]
    ensures { bound result ≡ terms_values holder serial terms.now }
{
    [
        number_of(holder.number()),
        number_of(serial),
        ValueRef::Text(terms.grn.as_bytes()),
        amount_or_null(terms.reference),
        cover_or_null(terms.cover),
        day_or_null(terms.ends),
    ]
}

// What an amount in use is changed by: the key, and the cents.
fn amount_columns(holder: HolderNo, serial: u32, cents: Cents) -> [ValueRef<'static>; 3]
    ensures { bound result ≡ number_value holder ∷ number_value serial ∷ number_value cents ∷ [] }
{
    [
        number_of(holder.number()),
        number_of(serial),
        amount_of(cents),
    ]
}

/// Inserts the row of a holder's guarantee under a serial, with the amount in use on it in cents, and without its
/// codes.
pub fn insert_guarantee<S: Alter>(
    tx: &mut Transaction<'_, S>,
    holder: HolderNo,
    serial: u32,
    guarantee: &Guarantee,
    used: Cents,
) -> Result<(), Error>
    ensures same_reference { tx.new.conn.ghost_name ≡ tx.old.conn.ghost_name }
    ensures inserted { HasCleanDisk (state S.Store tx.new.conn.now)
        → OnOk result (TurnsKept (λ rows. with_amount used (guarantee_row holder (serial, guarantee.now)) ∷ rows)
        (state S.Store tx.old.conn.now) (state S.Store tx.new.conn.now)) }
    ensures inside { HasCleanDisk (state S.Store tx.new.conn.now) → OnOk result (Shows (state S.Store tx.old.conn.now)
        (state S.Store tx.new.conn.now) (state S.Store tx.new.conn.now).now (state S.Store tx.old.conn.now).committed true) }
    ensures within { StaysInside (is_ok result) (state S.Store tx.old.conn.now) (state S.Store tx.new.conn.now) }
{
    typed_sql::insert(tx, INSERT, &columns(holder, serial, guarantee, used))
}

/// Sets the terms of the guarantee of a holder with a serial and the GRN of the terms: those that are said are set, and the
/// others stay, as the amount in use does. `DatabaseCorrupt`: there isn't just one such guarantee.
pub fn set_terms<S: Alter>(
    tx: &mut Transaction<'_, S>,
    holder: HolderNo,
    serial: u32,
    terms: &NewTerms,
) -> Result<(), Error>
    ensures same_reference { tx.new.conn.ghost_name ≡ tx.old.conn.ghost_name }
    ensures set { HasCleanDisk (state S.Store tx.new.conn.now) → OnOk result (TurnsKept
        (map (λ k. if has_kept_grn holder serial terms.now.grn k then with_new_kept_terms terms.now k else k))
        (state S.Store tx.old.conn.now) (state S.Store tx.new.conn.now)) }
    ensures inside { HasCleanDisk (state S.Store tx.new.conn.now) → OnOk result (Shows (state S.Store tx.old.conn.now)
        (state S.Store tx.new.conn.now) (state S.Store tx.new.conn.now).now (state S.Store tx.old.conn.now).committed true) }
    ensures within { StaysInside (is_ok result) (state S.Store tx.old.conn.now) (state S.Store tx.new.conn.now) }
{
    typed_sql::update(tx, SET_TERMS, &terms_columns(holder, serial, terms))
}

/// Puts so many cents to the amount in use on the guarantee of a holder with a serial. `DatabaseCorrupt`: there isn't
/// just one such guarantee. The database refuses an amount above the reference amount.
pub fn add_used<S: Alter>(
    tx: &mut Transaction<'_, S>,
    holder: HolderNo,
    serial: u32,
    cents: Cents,
) -> Result<(), Error>
    ensures same_reference { tx.new.conn.ghost_name ≡ tx.old.conn.ghost_name }
    ensures added { HasCleanDisk (state S.Store tx.new.conn.now)
        → OnOk result (TurnsWhere (has_serial holder serial) (HasRoom cents) (with_more cents)
        (state S.Store tx.old.conn.now) (state S.Store tx.new.conn.now)) }
    ensures inside { HasCleanDisk (state S.Store tx.new.conn.now) → OnOk result (Shows (state S.Store tx.old.conn.now)
        (state S.Store tx.new.conn.now) (state S.Store tx.new.conn.now).now (state S.Store tx.old.conn.now).committed true) }
    ensures within { StaysInside (is_ok result) (state S.Store tx.old.conn.now) (state S.Store tx.new.conn.now) }
{
    typed_sql::update(tx, ADD_USED, &amount_columns(holder, serial, cents))
}

/// Takes so many cents off the amount in use on the guarantee of a holder with a serial. `DatabaseCorrupt`: there isn't
/// just one such guarantee. The database refuses an amount below 0.
pub fn take_used<S: Alter>(
    tx: &mut Transaction<'_, S>,
    holder: HolderNo,
    serial: u32,
    cents: Cents,
) -> Result<(), Error>
    ensures same_reference { tx.new.conn.ghost_name ≡ tx.old.conn.ghost_name }
    ensures taken { HasCleanDisk (state S.Store tx.new.conn.now)
        → OnOk result (TurnsWhere (has_serial holder serial) (HasInUse cents) (with_less cents)
        (state S.Store tx.old.conn.now) (state S.Store tx.new.conn.now)) }
    ensures inside { HasCleanDisk (state S.Store tx.new.conn.now) → OnOk result (Shows (state S.Store tx.old.conn.now)
        (state S.Store tx.new.conn.now) (state S.Store tx.new.conn.now).now (state S.Store tx.old.conn.now).committed true) }
    ensures within { StaysInside (is_ok result) (state S.Store tx.old.conn.now) (state S.Store tx.new.conn.now) }
{
    typed_sql::update(tx, TAKE_USED, &amount_columns(holder, serial, cents))
}

/// Empties the table of guarantees of version 1, in a file that is migrated from there: it has no row then, and the
/// other tables are as they were.
pub fn empty_guarantees1<S: Alter>(tx: &mut Transaction<'_, S>) -> Result<(), Error>
    ensures same_reference { tx.new.conn.ghost_name ≡ tx.old.conn.ghost_name }
    ensures emptied { HasCleanDisk (state S.Store tx.new.conn.now)
        → OnOk result (EmptiesFirst (state S.Store tx.old.conn.now) (state S.Store tx.new.conn.now)) }
    ensures inside { HasCleanDisk (state S.Store tx.new.conn.now) → OnOk result (Shows (state S.Store tx.old.conn.now)
        (state S.Store tx.new.conn.now) (state S.Store tx.new.conn.now).now (state S.Store tx.old.conn.now).committed true) }
    ensures within { StaysInside (is_ok result) (state S.Store tx.old.conn.now) (state S.Store tx.new.conn.now) }
{
    typed_sql::empty(tx, EMPTY_FIRST)
}
