//! What a crash leaves of a connection, and whether it still answers.
ghost use Rattle.std.specs.Prelude.{◌≡◌, false, IsTrue, OnOk, is_ok};
ghost use Rattle.sqlite.specs.Held.{state};
ghost use Rattle.sqlite.specs.State.{HasCleanDisk, IsLive, IsUnchanged};
ghost use Rattle.typed_sql.specs.Outside.{CrashLeavesShown, Looks};
ghost use Rattle.typed_sql.specs.Reading.{StaysInside};

use sqlite::{Connection, Error, Transaction};
use sqlite_trees::store::Alter;

/// Sees that the connection is open, inside a transaction: it runs the empty statement, which does nothing. Once that was
/// compiled, no memory is taken. An error is the database's own.
pub fn see_open<S: Alter>(tx: &mut Transaction<'_, S>) -> Result<(), Error>
    ensures same_reference { tx.new.conn.ghost_name ≡ tx.old.conn.ghost_name }
    ensures still { HasCleanDisk (state S.Store tx.new.conn.now)
        → OnOk result (IsUnchanged (state S.Store tx.old.conn.now) (state S.Store tx.new.conn.now)) }
    ensures within { StaysInside (is_ok result) (state S.Store tx.old.conn.now) (state S.Store tx.new.conn.now) }
{
    tx.execute("", &[])?;
    Ok(())
}

/// Sees that a crash leaves what the connection shows outside a transaction: nothing is waiting to be committed; and that its trees
/// obey its schema. It does nothing.
pub fn see_settled<S: Alter>(conn: &Connection<S>)
    requires { conn.now.in_transaction ≡ false }
    ensures settled { CrashLeavesShown (state S.Store conn.now) }
    ensures committed { IsTrue (state S.Store conn.now).is_open → (state S.Store conn.now).now ≡ (state S.Store conn.now).committed }
    ensures sound { IsLive (state S.Store conn.now) }
{
    let _settled = conn.is_autocommit();
    let _schema = conn.schema();
}

/// Asks the connection, outside a transaction, whether it still answers. No memory is taken for it, once it was asked before. An
/// error is the database's own.
pub fn ask<S: Alter>(conn: &mut Connection<S>) -> Result<(), Error>
    requires { conn.old.in_transaction ≡ false }
    ensures ended { conn.new.in_transaction ≡ false }
    ensures looks { Looks (is_ok result) (state S.Store conn.old) (state S.Store conn.new) }
{
    see_settled(conn);
    let mut tx = conn.transaction();
    see_open(&mut tx)?;
    tx.commit()
}
