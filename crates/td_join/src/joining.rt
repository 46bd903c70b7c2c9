//! One desk's file put into another of the same office's, which has none of its holders.
ghost use Rattle.std.specs.Prelude.{◌≡◌, false, IfErr, IsTrue, OnErr, OnOk, is_ok};
ghost use Rattle.sqlite.specs.Held.{state};
ghost use Rattle.sqlite.specs.State.{HasCleanDisk, Survives};
ghost use Rattle.typed_sql.specs.Outside.{CrashLeavesShown, Looks};
ghost use Rattle.typed_sql.specs.Reading.{StaysInside};
ghost use Rattle.td_store_rows.specs.StoreReads.{HasNewestTables, ReadsNewest};
ghost use Rattle.td_join.specs.Joining.{Joins, MayLeaveJoined, TellsWhoStood, WereApart};

use crate::both::{FIRST_NUMBER, LAST_NUMBER, first_of_both};
use crate::fault::JoinFault;
use sqlite::{Connection, Transaction};
use sqlite_trees::store::Alter;
use std::alloc::Global;
use td_extract::copy_holders;
use typed_sql::{see_open, see_settled};

// Puts the rows of all holders of the first file into the second, where no holder stands in both.
fn join_rows<S: Alter, T: Alter>(
    alloc: Global,
    from: &mut Transaction<'_, S>,
    to: &mut Transaction<'_, T>,
) -> Result<(), JoinFault>
    ensures same_source { from.new.conn.ghost_name ≡ from.old.conn.ghost_name }
    ensures same_target { to.new.conn.ghost_name ≡ to.old.conn.ghost_name }
    ensures joined { HasCleanDisk (state S.Store from.new.conn.now) → HasCleanDisk (state T.Store to.new.conn.now)
        → OnOk result (Joins (state S.Store from.old.conn.now) (state T.Store to.old.conn.now) (state T.Store to.new.conn.now)) }
    ensures apart { HasCleanDisk (state S.Store from.new.conn.now) → HasCleanDisk (state T.Store to.new.conn.now)
        → OnOk result (WereApart (state S.Store from.old.conn.now) (state T.Store to.old.conn.now)) }
    ensures stands { HasCleanDisk (state S.Store from.new.conn.now) → HasCleanDisk (state T.Store to.new.conn.now)
        → IfErr result (TellsWhoStood (state S.Store from.old.conn.now) (state T.Store to.old.conn.now)) }
    ensures reads { ReadsNewest (is_ok result) (state S.Store from.old.conn.now) (state S.Store from.new.conn.now) }
    ensures within { StaysInside (is_ok result) (state T.Store to.old.conn.now) (state T.Store to.new.conn.now) }
{
    if let Some(holder) = first_of_both(alloc, from, to)? {
        return Err(JoinFault::Stands(holder));
    }
    copy_holders(alloc, from, to, FIRST_NUMBER, LAST_NUMBER)?;
    Ok(())
}

// The same of a connection to the first file, in a transaction that only reads.
fn join_from<S: Alter, T: Alter>(
    alloc: Global,
    from: &mut Connection<S>,
    to: &mut Transaction<'_, T>,
) -> Result<(), JoinFault>
    requires outside { from.old.in_transaction ≡ false }
    requires tables { HasCleanDisk (state S.Store from.old) → HasNewestTables (state S.Store from.old) }
    ensures ended { from.new.in_transaction ≡ false }
    ensures looks { Looks (is_ok result) (state S.Store from.old) (state S.Store from.new) }
    ensures same_target { to.new.conn.ghost_name ≡ to.old.conn.ghost_name }
    ensures joined { HasCleanDisk (state S.Store from.new) → HasCleanDisk (state T.Store to.new.conn.now)
        → OnOk result (Joins (state S.Store from.old) (state T.Store to.old.conn.now) (state T.Store to.new.conn.now)) }
    ensures apart { HasCleanDisk (state S.Store from.new) → HasCleanDisk (state T.Store to.new.conn.now)
        → OnOk result (WereApart (state S.Store from.old) (state T.Store to.old.conn.now)) }
    ensures stands { HasCleanDisk (state S.Store from.new) → HasCleanDisk (state T.Store to.new.conn.now)
        → IfErr result (TellsWhoStood (state S.Store from.old) (state T.Store to.old.conn.now)) }
    ensures within { StaysInside (is_ok result) (state T.Store to.old.conn.now) (state T.Store to.new.conn.now) }
{
    see_settled(from);
    let mut tx = from.transaction();
    join_rows(alloc, &mut tx, to)?;
    see_open(&mut tx)?;
    tx.commit()?;
    Ok(())
}

// The same of connections to both, in one transaction of the second: all of it or, where it answers `Err`, nothing.
fn join_into<S: Alter, T: Alter>(
    alloc: Global,
    from: &mut Connection<S>,
    to: &mut Connection<T>,
) -> Result<(), JoinFault>
    requires reading { from.old.in_transaction ≡ false }
    requires writing { to.old.in_transaction ≡ false }
    requires tables { HasCleanDisk (state S.Store from.old) → HasNewestTables (state S.Store from.old) }
    ensures read { from.new.in_transaction ≡ false }
    ensures ended { to.new.in_transaction ≡ false }
    ensures looks { Looks (is_ok result) (state S.Store from.old) (state S.Store from.new) }
    ensures live { HasCleanDisk (state T.Store to.new) → IsTrue (state T.Store to.new).is_open → IsTrue (state T.Store to.old).is_open }
    ensures shown { HasCleanDisk (state T.Store to.new)
        → OnOk result (IsTrue (state T.Store to.old).is_open × IsTrue (state T.Store to.new).is_open) }
    ensures joined { HasCleanDisk (state S.Store from.new) → HasCleanDisk (state T.Store to.new)
        → OnOk result (Joins (state S.Store from.old) (state T.Store to.old) (state T.Store to.new)) }
    ensures apart { HasCleanDisk (state S.Store from.new) → HasCleanDisk (state T.Store to.new)
        → OnOk result (WereApart (state S.Store from.old) (state T.Store to.old)) }
    ensures stands { HasCleanDisk (state S.Store from.new) → HasCleanDisk (state T.Store to.new)
        → IfErr result (TellsWhoStood (state S.Store from.old) (state T.Store to.old)) }
    ensures err { HasCleanDisk (state T.Store to.new) → IsTrue (state T.Store to.new).is_open
        → OnErr result ((state T.Store to.new).now ≡ (state T.Store to.old).now) }
    ensures crash { Survives (state T.Store to.old) (state T.Store to.new)
        (MayLeaveJoined (state S.Store from.old) (state S.Store from.new) (state T.Store to.old)) }
{
    let _settled = to.is_autocommit();
    let mut tx = to.transaction();
    join_from(alloc, from, &mut tx)?;
    see_open(&mut tx)?;
    tx.commit()?;
    Ok(())
}

/// Puts the rows of all holders of the first desk's file into the second, another one of the same office's that has none of these
/// holders; in one transaction. `Stands`: a holder of the first file stands in the second, too, the one with the least number of
/// those; `Store`: one of the databases answered an error other than want of memory, or a row that is read is none; `NoMemory`: want of
/// memory. With a fault the second file is as it was. The first file is only read. A crash during the call leaves of the second file
/// what it could leave before, or the desk's file of the holders of both; after it exactly what the connection shows.
pub fn join<S: Alter, T: Alter>(
    alloc: Global,
    from: &mut Connection<S>,
    to: &mut Connection<T>,
) -> Result<(), JoinFault>
    requires reading { from.old.in_transaction ≡ false }
    requires writing { to.old.in_transaction ≡ false }
    requires tables { HasCleanDisk (state S.Store from.old) → HasNewestTables (state S.Store from.old) }
    ensures read { from.new.in_transaction ≡ false }
    ensures ended { to.new.in_transaction ≡ false }
    ensures looks { Looks (is_ok result) (state S.Store from.old) (state S.Store from.new) }
    ensures live { HasCleanDisk (state T.Store to.new) → IsTrue (state T.Store to.new).is_open → IsTrue (state T.Store to.old).is_open }
    ensures shown { HasCleanDisk (state T.Store to.new)
        → OnOk result (IsTrue (state T.Store to.old).is_open × IsTrue (state T.Store to.new).is_open) }
    ensures joined { HasCleanDisk (state S.Store from.new) → HasCleanDisk (state T.Store to.new)
        → OnOk result (Joins (state S.Store from.old) (state T.Store to.old) (state T.Store to.new)) }
    ensures apart { HasCleanDisk (state S.Store from.new) → HasCleanDisk (state T.Store to.new)
        → OnOk result (WereApart (state S.Store from.old) (state T.Store to.old)) }
    ensures stands { HasCleanDisk (state S.Store from.new) → HasCleanDisk (state T.Store to.new)
        → IfErr result (TellsWhoStood (state S.Store from.old) (state T.Store to.old)) }
    ensures err { HasCleanDisk (state T.Store to.new) → IsTrue (state T.Store to.new).is_open
        → OnErr result ((state T.Store to.new).now ≡ (state T.Store to.old).now) }
    ensures crash { Survives (state T.Store to.old) (state T.Store to.new)
        (MayLeaveJoined (state S.Store from.old) (state S.Store from.new) (state T.Store to.old)) }
    ensures read_settled { CrashLeavesShown (state S.Store from.new) }
    ensures settled { CrashLeavesShown (state T.Store to.new) }
{
    let result = join_into(alloc, from, to);
    see_settled(from);
    see_settled(to);
    result
}
