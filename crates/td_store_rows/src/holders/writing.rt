//! What is written into the table of holders. An error is the database's own, and commits nothing.
ghost use Rattle.std.specs.Prelude.{◌≡◌, ◌∷◌, true, map, OnOk, is_ok};
ghost use Rattle.sqlite.specs.Held.{state};
ghost use Rattle.sqlite.specs.State.{HasCleanDisk, Shows};
ghost use Rattle.sqlite.specs.Values.{bound};
ghost use Rattle.td_table_model.specs.Changes.{with_row};
ghost use Rattle.typed_sql.specs.Reading.{StaysInside};
ghost use Rattle.td_store_rows.specs.Columns.{holder_cells};
ghost use Rattle.td_store_rows.specs.HolderTable.{TurnsHolders};

use crate::holders::texts::{INSERT, SET};
use sqlite::{Error, Transaction};
use sqlite_trees::store::Alter;
use sqlite_value::value::ValueRef;
use td_model::HolderRow;
use td_schema::number_of;

// The columns of a holder's row.
fn columns(row: &HolderRow) -> [ValueRef<'_>; 5]
    ensures { bound result ≡ holder_cells row.now }
{
    [
        number_of(row.holder.number()),
        ValueRef::Text(row.eori.as_bytes()),
        ValueRef::Int(row.last_at.get()),
        number_of(row.grn_count),
        number_of(row.mrn_count),
    ]
}

/// Inserts the row of a holder whose number is new.
pub fn insert_holder<S: Alter>(tx: &mut Transaction<'_, S>, row: &HolderRow) -> Result<(), Error>
    ensures same_reference { tx.new.conn.ghost_name ≡ tx.old.conn.ghost_name }
    ensures inserted { HasCleanDisk (state S.Store tx.new.conn.now) → OnOk result (TurnsHolders (λ rows. row.now ∷ rows)
        (state S.Store tx.old.conn.now) (state S.Store tx.new.conn.now)) }
    ensures inside { HasCleanDisk (state S.Store tx.new.conn.now) → OnOk result (Shows (state S.Store tx.old.conn.now)
        (state S.Store tx.new.conn.now) (state S.Store tx.new.conn.now).now (state S.Store tx.old.conn.now).committed true) }
    ensures within { StaysInside (is_ok result) (state S.Store tx.old.conn.now) (state S.Store tx.new.conn.now) }
{
    typed_sql::insert(tx, INSERT, &columns(row))
}

/// Sets the row of a holder who is registered. `DatabaseCorrupt`: nobody is registered under this number.
pub fn set_holder<S: Alter>(tx: &mut Transaction<'_, S>, row: &HolderRow) -> Result<(), Error>
    ensures same_reference { tx.new.conn.ghost_name ≡ tx.old.conn.ghost_name }
    ensures set { HasCleanDisk (state S.Store tx.new.conn.now) → OnOk result (TurnsHolders (map (with_row row.now))
        (state S.Store tx.old.conn.now) (state S.Store tx.new.conn.now)) }
    ensures inside { HasCleanDisk (state S.Store tx.new.conn.now) → OnOk result (Shows (state S.Store tx.old.conn.now)
        (state S.Store tx.new.conn.now) (state S.Store tx.new.conn.now).now (state S.Store tx.old.conn.now).committed true) }
    ensures within { StaysInside (is_ok result) (state S.Store tx.old.conn.now) (state S.Store tx.new.conn.now) }
{
    typed_sql::update(tx, SET, &columns(row))
}
