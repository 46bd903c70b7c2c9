//! A change carried.
ghost use Rattle.std.specs.Prelude.{◌≡◌, false, IsTrue, OnOk, OnErr};
ghost use Rattle.sqlite.specs.Held.{state};
ghost use Rattle.sqlite.specs.State.{HasCleanDisk, Survives};
ghost use Rattle.td_store_write.specs.Carried.{CarriesChange, MayLeave};

use crate::changes::write_change;
use sqlite::{Connection, Error};
use sqlite_trees::store::Alter;
use std::alloc::Global;
use td_base::Country;
use td_model::Change;
use typed_sql::see_open;

/// Carries a change that was decided on over the content of the tables, at an office of that country: all of it or,
/// where it answers `Err`, nothing. An error is the database's own; `DatabaseCorrupt`, too, where a row that changes
/// isn't there or a line can't be read; `OutOfMemory`: want of memory. A crash during the call leaves what it could
/// leave before, or, if the connection was open, a desk's file of the content after the change.
pub fn carry_change<S: Alter>(
    alloc: Global,
    conn: &mut Connection<S>,
    country: Country,
    change: &Change,
) -> Result<(), Error>
    requires { conn.old.in_transaction ≡ false }
    ensures ended { conn.new.in_transaction ≡ false }
    ensures live { HasCleanDisk (state S.Store conn.new) → IsTrue (state S.Store conn.new).is_open → IsTrue (state S.Store conn.old).is_open }
    ensures shown { HasCleanDisk (state S.Store conn.new)
        → OnOk result (IsTrue (state S.Store conn.old).is_open × IsTrue (state S.Store conn.new).is_open) }
    ensures carried { HasCleanDisk (state S.Store conn.new)
        → OnOk result (CarriesChange country change.now (state S.Store conn.old) (state S.Store conn.new)) }
    ensures err { HasCleanDisk (state S.Store conn.new) → IsTrue (state S.Store conn.new).is_open
        → OnErr result ((state S.Store conn.new).now ≡ (state S.Store conn.old).now) }
    ensures crash { Survives (state S.Store conn.old) (state S.Store conn.new) (MayLeave country change.now (state S.Store conn.old)) }
{
    let _settled = conn.is_autocommit();
    let mut tx = conn.transaction();
    see_open(&mut tx)?;
    write_change(alloc, &mut tx, country, change)?;
    tx.commit()
}
