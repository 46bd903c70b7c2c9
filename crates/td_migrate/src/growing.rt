//! A file taken from a version to the next.
ghost use Rattle.std.specs.Prelude.{◌≡◌, false, IsTrue, OnOk, OnErr, is_ok};
ghost use Rattle.sqlite.specs.Held.{state};
ghost use Rattle.sqlite.specs.State.{HasCleanDisk, Survives};
ghost use Rattle.typed_sql.specs.Reading.{StaysInside};
ghost use Rattle.td_migrate.specs.Grown.{GrowsFrom, MayLeaveGrown};
ghost use Rattle.td_store_check.specs.Opened.{IsEarlier};
ghost use Rattle.td_migrate.specs.Moved.{BecomesSecond, MovesTo2};

use crate::filling::fill;
use crate::lines::write_3;
use sqlite::{Connection, Error, Transaction};
use sqlite_trees::store::Alter;
use std::alloc::Global;
use td_schema::{VERSION_WITH_AMOUNTS, make_guarantees2};
use td_store_rows::{empty_guarantees1, set_version};

// Makes the table of guarantees of version 2, puts all guarantees into it, each with the amount in use on it, and empties the one of
// version 1.
fn move_guarantees<S: Alter>(alloc: Global, tx: &mut Transaction<'_, S>) -> Result<(), Error>
    ensures same_reference { tx.new.conn.ghost_name ≡ tx.old.conn.ghost_name }
    ensures moved { HasCleanDisk (state S.Store tx.new.conn.now)
        → OnOk result (MovesTo2 (state S.Store tx.old.conn.now) (state S.Store tx.new.conn.now)) }
    ensures within { StaysInside (is_ok result) (state S.Store tx.old.conn.now) (state S.Store tx.new.conn.now) }
{
    make_guarantees2(tx)?;
    fill(alloc, tx)?;
    empty_guarantees1(tx)
}

// Writes what version 2 has that version 1 has not.
fn write_2<S: Alter>(alloc: Global, tx: &mut Transaction<'_, S>) -> Result<(), Error>
    ensures same_reference { tx.new.conn.ghost_name ≡ tx.old.conn.ghost_name }
    ensures written { HasCleanDisk (state S.Store tx.new.conn.now)
        → OnOk result (BecomesSecond (state S.Store tx.old.conn.now) (state S.Store tx.new.conn.now)) }
    ensures within { StaysInside (is_ok result) (state S.Store tx.old.conn.now) (state S.Store tx.new.conn.now) }
{
    move_guarantees(alloc, tx)?;
    set_version(tx, VERSION_WITH_AMOUNTS)
}

// Writes what the version behind this one has that this one has not, from 1 on: a file of this version, whatever content it holds, is
// then one of the next with the same.
fn write_next<S: Alter>(
    alloc: Global,
    tx: &mut Transaction<'_, S>,
    version: u32,
) -> Result<(), Error>
    requires earlier { IsEarlier version }
    ensures same_reference { tx.new.conn.ghost_name ≡ tx.old.conn.ghost_name }
    ensures written { HasCleanDisk (state S.Store tx.new.conn.now)
        → OnOk result (GrowsFrom version (state S.Store tx.old.conn.now).now (state S.Store tx.new.conn.now).now) }
    ensures within { StaysInside (is_ok result) (state S.Store tx.old.conn.now) (state S.Store tx.new.conn.now) }
{
    if version < VERSION_WITH_AMOUNTS {
        return write_2(alloc, tx);
    }
    write_3(alloc, tx)
}

/// Takes a file of this version to the next, in one transaction: all of it or, where it answers `Err`, nothing. A crash during the call
/// leaves what it could leave before, or the file of the next version. `OutOfMemory`: want of memory; any other error is the database's
/// own, or `DatabaseCorrupt` for a row that is none.
pub(crate) fn grow<S: Alter>(
    alloc: Global,
    conn: &mut Connection<S>,
    version: u32,
) -> Result<(), Error>
    requires outside { conn.old.in_transaction ≡ false }
    requires earlier { IsEarlier version }
    ensures ended { conn.new.in_transaction ≡ false }
    ensures live { HasCleanDisk (state S.Store conn.new) → IsTrue (state S.Store conn.new).is_open → IsTrue (state S.Store conn.old).is_open }
    ensures shown { HasCleanDisk (state S.Store conn.new)
        → OnOk result (IsTrue (state S.Store conn.old).is_open × IsTrue (state S.Store conn.new).is_open) }
    ensures grown { HasCleanDisk (state S.Store conn.new)
        → OnOk result (GrowsFrom version (state S.Store conn.old).now (state S.Store conn.new).now) }
    ensures err { HasCleanDisk (state S.Store conn.new) → IsTrue (state S.Store conn.new).is_open
        → OnErr result ((state S.Store conn.new).now ≡ (state S.Store conn.old).now) }
    ensures crash { Survives (state S.Store conn.old) (state S.Store conn.new) (MayLeaveGrown version (state S.Store conn.old).now) }
{
    let _settled = conn.is_autocommit();
    let mut tx = conn.transaction();
    write_next(alloc, &mut tx, version)?;
    tx.commit()
}
