//! How the tables are made.
ghost use Rattle.std.specs.Prelude.{◌≡◌, ◌↔◌, IsTrue, OnOk, is_ok};
ghost use Rattle.sqlite.specs.Held.{state};
ghost use Rattle.sqlite.specs.State.{HasCleanDisk};
ghost use Rattle.sqlite_catalog.specs.Change.{created};
ghost use Rattle.sqlite_schema.specs.declared.schema.Schema.{Schema};
ghost use Rattle.sqlite_schema.specs.declared.schema.Table.{Table};
ghost use Rattle.typed_sql.specs.Reading.{StaysInside};
ghost use Rattle.typed_sql.specs.Writing.{HasSchema};
ghost use Rattle.td_schema.specs.Tables.{no_schema, guarantees2, lines3, IsEmptyOf};
ghost use Rattle.td_schema.specs.Layouts.{base_schema, grown, schema_of, version_of};
ghost use Rattle.td_schema.specs.declared.layout.Layout.{Layout};
ghost use Rattle.td_schema.specs.declared.layout.Layout.TheVariants as variant;
ghost use Rattle.td_schema.specs.Making.{MakesOne, IsMade};

use crate::layout::Layout;
use crate::texts::{CODES, GUARANTEES, GUARANTEES2, HOLDERS, LINES, LINES3, META, MOVEMENTS};
use sqlite::{Connection, Error, Transaction};
use sqlite_trees::store::Alter;

/// Whether the database has no table.
pub fn is_blank<S: Alter>(conn: &Connection<S>) -> bool
    ensures { IsTrue result ↔ IsEmptyOf no_schema (state S.Store conn.now).now }
{
    let schema = conn.schema();
    schema.tables.is_empty() && schema.indexes.is_empty() && schema.views.is_empty()
}

// Makes a table beside those that there are, inside a transaction.
fn make<S: Alter>(tx: &mut Transaction<'_, S>, text: &str) -> Result<(), Error>
    ensures same_reference { tx.new.conn.ghost_name ≡ tx.old.conn.ghost_name }
    ensures made { HasCleanDisk (state S.Store tx.new.conn.now)
        → OnOk result ((s : Schema) (t : Table) → MakesOne s text.now t → HasSchema (state S.Store tx.old.conn.now) s
        → IsMade s t (state S.Store tx.old.conn.now).now (state S.Store tx.new.conn.now).now) }
    ensures within { StaysInside (is_ok result) (state S.Store tx.old.conn.now) (state S.Store tx.new.conn.now) }
{
    tx.execute(text, &[])?;
    Ok(())
}

// Makes the tables that no version changes, where there is none.
fn make_base<S: Alter>(tx: &mut Transaction<'_, S>) -> Result<(), Error>
    ensures same_reference { tx.new.conn.ghost_name ≡ tx.old.conn.ghost_name }
    ensures made { HasCleanDisk (state S.Store tx.new.conn.now)
        → OnOk result (IsEmptyOf no_schema (state S.Store tx.old.conn.now).now → IsEmptyOf base_schema (state S.Store tx.new.conn.now).now) }
    ensures within { StaysInside (is_ok result) (state S.Store tx.old.conn.now) (state S.Store tx.new.conn.now) }
{
    make(tx, META)?;
    make(tx, HOLDERS)?;
    make(tx, CODES)?;
    make(tx, MOVEMENTS)
}

// Makes two tables, one after the other, where no table has a row.
fn make_two<S: Alter>(tx: &mut Transaction<'_, S>, first: &str, second: &str) -> Result<(), Error>
    ensures same_reference { tx.new.conn.ghost_name ≡ tx.old.conn.ghost_name }
    ensures made { HasCleanDisk (state S.Store tx.new.conn.now)
        → OnOk result ((s : Schema) (t u : Table) → MakesOne s first.now t → MakesOne (created s t) second.now u
        → IsEmptyOf s (state S.Store tx.old.conn.now).now → IsEmptyOf (created (created s t) u) (state S.Store tx.new.conn.now).now) }
    ensures within { StaysInside (is_ok result) (state S.Store tx.old.conn.now) (state S.Store tx.new.conn.now) }
{
    make(tx, first)?;
    make(tx, second)
}

// Makes the tables of a layout behind those that no version changes.
fn make_rest<S: Alter>(tx: &mut Transaction<'_, S>, layout: Layout) -> Result<(), Error>
    ensures same_reference { tx.new.conn.ghost_name ≡ tx.old.conn.ghost_name }
    ensures made { HasCleanDisk (state S.Store tx.new.conn.now)
        → OnOk result (IsEmptyOf base_schema (state S.Store tx.old.conn.now).now → IsEmptyOf (schema_of layout) (state S.Store tx.new.conn.now).now) }
    ensures within { StaysInside (is_ok result) (state S.Store tx.old.conn.now) (state S.Store tx.new.conn.now) }
{
    match layout {
        Layout::Made1 => make_two(tx, GUARANTEES, LINES),
        Layout::Made2 => make_two(tx, GUARANTEES2, LINES),
        Layout::Grown2 => {
            make_two(tx, GUARANTEES, LINES)?;
            make(tx, GUARANTEES2)
        }
        Layout::Made3 => make_two(tx, GUARANTEES2, LINES3),
        Layout::Grown3From2 => {
            make_two(tx, GUARANTEES2, LINES)?;
            make(tx, LINES3)
        }
        Layout::Grown3From1 => {
            make_two(tx, GUARANTEES, LINES)?;
            make_two(tx, GUARANTEES2, LINES3)
        }
    }
}

/// Makes the tables of a layout where there is none, inside a transaction that the caller commits: none has a row then. An
/// error is the database's own, and commits nothing.
pub fn make_tables<S: Alter>(tx: &mut Transaction<'_, S>, layout: Layout) -> Result<(), Error>
    ensures same_reference { tx.new.conn.ghost_name ≡ tx.old.conn.ghost_name }
    ensures made { HasCleanDisk (state S.Store tx.new.conn.now)
        → OnOk result (IsEmptyOf no_schema (state S.Store tx.old.conn.now).now → IsEmptyOf (schema_of layout) (state S.Store tx.new.conn.now).now) }
    ensures within { StaysInside (is_ok result) (state S.Store tx.old.conn.now) (state S.Store tx.new.conn.now) }
{
    make_base(tx)?;
    make_rest(tx, layout)
}

/// Makes the table of guarantees of version 2 in a file that was made at version 1, inside a transaction that the
/// caller commits: the table has no row then, the others are as they were, and the tables are those of
/// `Layout::Grown2`. An error is the database's own, and commits nothing.
pub fn make_guarantees2<S: Alter>(tx: &mut Transaction<'_, S>) -> Result<(), Error>
    ensures same_reference { tx.new.conn.ghost_name ≡ tx.old.conn.ghost_name }
    ensures made { HasCleanDisk (state S.Store tx.new.conn.now)
        → OnOk result (HasSchema (state S.Store tx.old.conn.now) (schema_of variant.Made1)
        → IsMade (schema_of variant.Made1) guarantees2 (state S.Store tx.old.conn.now).now (state S.Store tx.new.conn.now).now) }
    ensures grown { HasCleanDisk (state S.Store tx.new.conn.now)
        → OnOk result (HasSchema (state S.Store tx.old.conn.now) (schema_of variant.Made1)
        → (state S.Store tx.new.conn.now).now.schema ≡ schema_of variant.Grown2) }
    ensures within { StaysInside (is_ok result) (state S.Store tx.old.conn.now) (state S.Store tx.new.conn.now) }
{
    make(tx, GUARANTEES2)
}

/// Makes the table of lines of version 3 in a file of version 2, of whichever layout, inside a transaction that the
/// caller commits: the table has no row then, the others are as they were, and the tables are those of the layout that
/// the file's own grows to. An error is the database's own, and commits nothing.
pub fn make_lines3<S: Alter>(tx: &mut Transaction<'_, S>) -> Result<(), Error>
    ensures same_reference { tx.new.conn.ghost_name ≡ tx.old.conn.ghost_name }
    ensures made { HasCleanDisk (state S.Store tx.new.conn.now)
        → OnOk result ((l : Layout) → version_of l ≡ 2 → HasSchema (state S.Store tx.old.conn.now) (schema_of l)
        → IsMade (schema_of l) lines3 (state S.Store tx.old.conn.now).now (state S.Store tx.new.conn.now).now) }
    ensures grown { HasCleanDisk (state S.Store tx.new.conn.now)
        → OnOk result ((l : Layout) → version_of l ≡ 2 → HasSchema (state S.Store tx.old.conn.now) (schema_of l)
        → (state S.Store tx.new.conn.now).now.schema ≡ schema_of (grown l)) }
    ensures within { StaysInside (is_ok result) (state S.Store tx.old.conn.now) (state S.Store tx.new.conn.now) }
{
    make(tx, LINES3)
}
