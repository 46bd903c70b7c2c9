//! What is written into the table `meta`. An error is the database's own, and commits nothing.
ghost use Rattle.std.specs.Prelude.{◌≡◌, [], ◌∷◌, map, true, OnOk, is_ok};
ghost use Rattle.sqlite.specs.Held.{state};
ghost use Rattle.sqlite.specs.State.{HasCleanDisk, Shows};
ghost use Rattle.sqlite.specs.Values.{bound};
ghost use Rattle.typed_sql.specs.Reading.{StaysInside};
ghost use Rattle.td_store_rows.specs.Columns.{meta_cells, meta_row};
ghost use Rattle.typed_sql.specs.Values.{number_value};
ghost use Rattle.td_store_rows.specs.MetaTable.{TurnsMeta, with_version};

use crate::meta::texts::{INSERT, SET_VERSION};
use sqlite::{Error, Transaction};
use sqlite_trees::store::Alter;
use sqlite_value::value::ValueRef;
use td_base::Country;
use td_schema::number_of;

// The columns of the office's own row.
fn columns(version: u32, country: &Country) -> [ValueRef<'_>; 2]
    ensures { bound result ≡ meta_cells (meta_row version country.now) }
{
    [number_of(version), ValueRef::Text(country.as_bytes())]
}

// What a version is set by.
fn version_value(version: u32) -> [ValueRef<'static>; 1]
    ensures { bound result ≡ number_value version ∷ [] }
{
    [number_of(version)]
}

/// Inserts the office's own row, with the version of the tables. The database refuses a second row.
pub fn insert_meta<S: Alter>(
    tx: &mut Transaction<'_, S>,
    version: u32,
    country: Country,
) -> Result<(), Error>
    ensures same_reference { tx.new.conn.ghost_name ≡ tx.old.conn.ghost_name }
    ensures inserted { HasCleanDisk (state S.Store tx.new.conn.now)
        → OnOk result (TurnsMeta (λ rows. meta_row version country ∷ rows)
        (state S.Store tx.old.conn.now) (state S.Store tx.new.conn.now)) }
    ensures inside { HasCleanDisk (state S.Store tx.new.conn.now) → OnOk result (Shows (state S.Store tx.old.conn.now)
        (state S.Store tx.new.conn.now) (state S.Store tx.new.conn.now).now (state S.Store tx.old.conn.now).committed true) }
    ensures within { StaysInside (is_ok result) (state S.Store tx.old.conn.now) (state S.Store tx.new.conn.now) }
{
    typed_sql::insert(tx, INSERT, &columns(version, &country))
}

/// Sets the version of the tables in the office's own row; the country stays. `DatabaseCorrupt`: there is no such row.
pub fn set_version<S: Alter>(tx: &mut Transaction<'_, S>, version: u32) -> Result<(), Error>
    ensures same_reference { tx.new.conn.ghost_name ≡ tx.old.conn.ghost_name }
    ensures set { HasCleanDisk (state S.Store tx.new.conn.now)
        → OnOk result (TurnsMeta (map (with_version version)) (state S.Store tx.old.conn.now) (state S.Store tx.new.conn.now)) }
    ensures inside { HasCleanDisk (state S.Store tx.new.conn.now) → OnOk result (Shows (state S.Store tx.old.conn.now)
        (state S.Store tx.new.conn.now) (state S.Store tx.new.conn.now).now (state S.Store tx.old.conn.now).committed true) }
    ensures within { StaysInside (is_ok result) (state S.Store tx.old.conn.now) (state S.Store tx.new.conn.now) }
{
    typed_sql::update(tx, SET_VERSION, &version_value(version))
}
