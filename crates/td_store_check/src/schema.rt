//! Which tables a database has.
ghost use Rattle.std.specs.Prelude.{◌≡◌, ◌↔◌, false, IsTrue, IfOk, OnOk};
ghost use Rattle.sqlite.specs.Held.{state};
ghost use Rattle.sqlite.specs.State.{HasCleanDisk};
ghost use Rattle.sqlite.specs.Steps.{over_memory};
ghost use Rattle.td_schema.specs.Layouts.{schema_of, version_of};
ghost use Rattle.td_schema.specs.declared.layout.Layout.{Layout};
ghost use Rattle.td_schema.specs.Tables.{IsEmptyOf, no_schema};
ghost use Rattle.td_store_check.specs.Opened.{AreTold, LacksMeta};

use same_schema::{has_same_first_table, is_same_schema};
use sqlite::{Connection, Error, MemStore};
use sqlite_schema::schema::Schema;
use sqlite_trees::store::Alter;
use std::alloc::Global;
use td_schema::{
    FIRST_VERSION, Layout, VERSION_WITH_AMOUNTS, VERSION_WITH_MORE_LINES, make_tables,
};

/// Whether the database has no table `meta`.
pub(crate) fn lacks_meta<S: Alter>(conn: &Connection<S>) -> bool
    ensures { IsTrue result ↔ LacksMeta (state S.Store conn.now).now.schema }
{
    conn.schema().table_named(b"meta").is_none()
}

// The one layout that the tables may have, by which tables of guarantees and of lines there are.
fn named_layout(schema: &Schema) -> Layout
    ensures { (layout : Layout) → schema.now ≡ schema_of layout → result ≡ layout }
{
    let has_first = schema.table_named(b"guarantees1").is_some();
    let has_kept = schema.table_named(b"guarantees2").is_some();
    let has_few_lines = schema.table_named(b"lines1").is_some();
    let has_more_lines = schema.table_named(b"lines3").is_some();
    match (has_first, has_kept, has_few_lines, has_more_lines) {
        (true, true, _, true) => Layout::Grown3From1,
        (true, true, _, false) => Layout::Grown2,
        (true, false, _, _) => Layout::Made1,
        (false, _, true, true) => Layout::Grown3From2,
        (false, _, true, false) => Layout::Made2,
        (false, _, false, _) => Layout::Made3,
    }
}

/// The version of the tables in a file of this layout.
pub(crate) fn version_in(layout: Layout) -> u32
    ensures { result ≡ version_of layout }
{
    match layout {
        Layout::Made1 => FIRST_VERSION,
        Layout::Made2 | Layout::Grown2 => VERSION_WITH_AMOUNTS,
        Layout::Made3 | Layout::Grown3From2 | Layout::Grown3From1 => VERSION_WITH_MORE_LINES,
    }
}

// Makes the tables of a layout in a database that has none. An error is the database's own.
fn make_store_tables<S: Alter>(conn: &mut Connection<S>, layout: Layout) -> Result<(), Error>
    requires { conn.old.in_transaction ≡ false }
    ensures { HasCleanDisk (state S.Store conn.new) → OnOk result (IsEmptyOf no_schema (state S.Store conn.old).now
        → (state S.Store conn.new).now.schema ≡ schema_of layout) }
{
    let mut tx = conn.transaction();
    make_tables(&mut tx, layout)?;
    tx.commit()
}

// A database in memory that has the tables of a layout. An error is the database's own, or want of memory.
fn model(alloc: Global, layout: Layout) -> Result<Connection<MemStore>, Error>
    ensures { IfOk result (λ conn. (state over_memory conn).now.schema ≡ schema_of layout) }
{
    let mut conn = Connection::open_in_memory(alloc)?;
    make_store_tables(&mut conn, layout)?;
    Ok(conn)
}

/// The tables of a database.
#[derive(Clone, Copy)]
pub(crate) enum Tables {
    /// Those of a store of this layout, and no others.
    Store(Layout),
    /// Others, but the first is the table `meta` that a store of any version begins with.
    OtherVersion,
    /// It may have any.
    Unknown,
}

/// Which tables the database has. An error is want of memory, or that of a database in memory.
pub(crate) fn tables_of<S: Alter>(alloc: Global, conn: &Connection<S>) -> Result<Tables, Error>
    ensures { IfOk result (AreTold (state S.Store conn.now).now.schema) }
{
    let layout = named_layout(conn.schema());
    let model = model(alloc, layout)?;
    if is_same_schema(conn.schema(), model.schema()) {
        return Ok(Tables::Store(layout));
    }
    if has_same_first_table(conn.schema(), model.schema()) {
        return Ok(Tables::OtherVersion);
    }
    Ok(Tables::Unknown)
}
