//! What an open connection's database keeps of its tables.
ghost use Rattle.sqlite.specs.Held.{state};
ghost use Rattle.td_store_audit.specs.Keeping.{KeepsTables};

use sqlite::Connection;
use sqlite_trees::store::Alter;

/// Tells what the database keeps of the tables that a connection shows, if it is open and they are a store's. It reads no row.
pub fn database_keeps<S: Alter>(conn: &Connection<S>)
    ensures { KeepsTables (state S.Store conn.now) }
{
    let _ = conn.schema();
}
