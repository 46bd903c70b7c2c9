//! A store's file made new.
ghost use Rattle.std.specs.Prelude.{◌≡◌, false, IsTrue, OnOk, OnErr};
ghost use Rattle.sqlite.specs.Held.{state};
ghost use Rattle.sqlite.specs.State.{HasCleanDisk, Survives};
ghost use Rattle.td_store_write.specs.Created.{CreatesTables, MayLeaveEmpty};

use sqlite::{Connection, Error};
use sqlite_trees::store::Alter;
use td_base::Country;
use td_schema::{NEWEST_LAYOUT, NEWEST_VERSION, make_tables};
use td_store_rows::insert_meta;
use typed_sql::see_open;

/// Makes the tables of an office of that country, which has no holders yet, in a database that has no table; all of it or,
/// where it answers `Err`, nothing. An error is the database's own. A crash during the call leaves what it could leave
/// before, or, if the connection was open, the file of an empty desk.
pub fn create_tables<S: Alter>(conn: &mut Connection<S>, country: Country) -> Result<(), Error>
    requires { conn.old.in_transaction ≡ false }
    ensures ended { conn.new.in_transaction ≡ false }
    ensures live { HasCleanDisk (state S.Store conn.new) → IsTrue (state S.Store conn.new).is_open → IsTrue (state S.Store conn.old).is_open }
    ensures shown { HasCleanDisk (state S.Store conn.new)
        → OnOk result (IsTrue (state S.Store conn.old).is_open × IsTrue (state S.Store conn.new).is_open) }
    ensures created { HasCleanDisk (state S.Store conn.new)
        → OnOk result (CreatesTables country (state S.Store conn.old) (state S.Store conn.new)) }
    ensures err { HasCleanDisk (state S.Store conn.new) → IsTrue (state S.Store conn.new).is_open
        → OnErr result ((state S.Store conn.new).now ≡ (state S.Store conn.old).now) }
    ensures crash { Survives (state S.Store conn.old) (state S.Store conn.new) (MayLeaveEmpty country (state S.Store conn.old)) }
{
    let _settled = conn.is_autocommit();
    let _letters = country.as_bytes();
    let mut tx = conn.transaction();
    make_tables(&mut tx, NEWEST_LAYOUT)?;
    insert_meta(&mut tx, NEWEST_VERSION, country)?;
    // (compiled over these tables, it takes no memory when it is asked again)
    see_open(&mut tx)?;
    tx.commit()
}
