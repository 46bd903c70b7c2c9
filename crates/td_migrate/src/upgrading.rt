//! A file's version, and a file brought to the newest.
ghost use Rattle.std.specs.Prelude.{◌≡◌, false, IsTrue, IfErr, OnErr, OnOk, is_ok};
ghost use Rattle.sqlite.specs.Held.{state};
ghost use Rattle.sqlite.specs.State.{HasCleanDisk, Survives};
ghost use Rattle.typed_sql.specs.Outside.{CrashLeavesShown, Looks};
ghost use Rattle.td_store_check.specs.Opened.{IsEarlier, IsOfEarlier, MaySay};
ghost use Rattle.td_table_model.specs.Tables.{first_version, version_with_amounts};
ghost use Rattle.td_migrate.specs.Upgraded.{HeldVersion, LeavesReached, LeavesShown, LeavesWithFault, MayLeaveStep, MayLeaveUpgraded, TellsStep, SaysNothing, TellsUpgrade, TellsVersion, WasGrown};

use crate::fault::{MigrateFault, fault_of, fault_of_error};
use crate::growing::grow;
use sqlite::Connection;
use sqlite_trees::store::Alter;
use std::alloc::Global;
use td_schema::{FIRST_VERSION, NEWEST_VERSION, VERSION_WITH_AMOUNTS};
use td_store_check::{audit, file_version};
use typed_sql::see_settled;

/// The version of the tables in a file, from 1 to the newest, as the office's own row says it. `UnknownVersion`: there is no table
/// `meta`, or it is the first and has no such row; `Store`: the tables are none of a store, or are of another version than the row says,
/// or the database answered an error other than want of memory; `NoMemory`: want of memory. Nothing is changed, and a crash leaves what
/// it could before.
pub fn version<S: Alter>(alloc: Global, conn: &mut Connection<S>) -> Result<u32, MigrateFault>
    requires { conn.old.in_transaction ≡ false }
    ensures ended { conn.new.in_transaction ≡ false }
    ensures looks { Looks (is_ok result) (state S.Store conn.old) (state S.Store conn.new) }
    ensures told { HasCleanDisk (state S.Store conn.new) → TellsVersion (state S.Store conn.old).now result }
{
    match file_version(alloc, conn) {
        Ok(version) => Ok(version),
        Err(fault) => Err(fault_of(fault)),
    }
}

// From a version to the next, in a file whose rows are known to keep the rules.
fn step_of_sound<S: Alter>(
    alloc: Global,
    conn: &mut Connection<S>,
    version: u32,
) -> Result<(), MigrateFault>
    requires outside { conn.old.in_transaction ≡ false }
    requires earlier { IsEarlier version }
    requires held { HasCleanDisk (state S.Store conn.old) → HeldVersion version (state S.Store conn.old).now }
    ensures ended { conn.new.in_transaction ≡ false }
    ensures live { HasCleanDisk (state S.Store conn.new) → IsTrue (state S.Store conn.new).is_open → IsTrue (state S.Store conn.old).is_open }
    ensures shown { HasCleanDisk (state S.Store conn.new)
        → OnOk result (IsTrue (state S.Store conn.old).is_open × IsTrue (state S.Store conn.new).is_open) }
    ensures grown { HasCleanDisk (state S.Store conn.new)
        → OnOk result (WasGrown version (state S.Store conn.old).now (state S.Store conn.new).now) }
    ensures fault { IfErr result SaysNothing }
    ensures err { HasCleanDisk (state S.Store conn.new) → IsTrue (state S.Store conn.new).is_open
        → OnErr result ((state S.Store conn.new).now ≡ (state S.Store conn.old).now) }
    ensures crash { Survives (state S.Store conn.old) (state S.Store conn.new) (MayLeaveStep version (state S.Store conn.old).now) }
{
    match grow(alloc, conn, version) {
        Ok(()) => Ok(()),
        Err(error) => Err(fault_of_error(&error)),
    }
}

// From a version to the next, after the rows were audited.
fn step<S: Alter>(alloc: Global, conn: &mut Connection<S>, version: u32) -> Result<(), MigrateFault>
    requires outside { conn.old.in_transaction ≡ false }
    requires earlier { IsEarlier version }
    requires says { HasCleanDisk (state S.Store conn.old) → MaySay version (state S.Store conn.old).now.trees }
    ensures ended { conn.new.in_transaction ≡ false }
    ensures live { HasCleanDisk (state S.Store conn.new) → IsTrue (state S.Store conn.new).is_open → IsTrue (state S.Store conn.old).is_open }
    ensures shown { HasCleanDisk (state S.Store conn.new)
        → OnOk result (IsTrue (state S.Store conn.old).is_open × IsTrue (state S.Store conn.new).is_open) }
    ensures told { HasCleanDisk (state S.Store conn.new)
        → TellsStep version (state S.Store conn.old).now (state S.Store conn.new) result }
    ensures err { HasCleanDisk (state S.Store conn.new) → IsTrue (state S.Store conn.new).is_open
        → OnErr result ((state S.Store conn.new).now ≡ (state S.Store conn.old).now) }
    ensures crash { Survives (state S.Store conn.old) (state S.Store conn.new) (MayLeaveStep version (state S.Store conn.old).now) }
{
    if let Err(fault) = audit(alloc, conn, version) {
        return Err(fault_of(fault));
    }
    step_of_sound(alloc, conn, version)
}

// From version 2 to the newest.
fn last_step<S: Alter>(alloc: Global, conn: &mut Connection<S>) -> Result<u32, MigrateFault>
    requires outside { conn.old.in_transaction ≡ false }
    requires says { HasCleanDisk (state S.Store conn.old) → MaySay version_with_amounts (state S.Store conn.old).now.trees }
    ensures ended { conn.new.in_transaction ≡ false }
    ensures live { HasCleanDisk (state S.Store conn.new) → IsTrue (state S.Store conn.new).is_open → IsTrue (state S.Store conn.old).is_open }
    ensures shown { HasCleanDisk (state S.Store conn.new)
        → OnOk result (IsTrue (state S.Store conn.old).is_open × IsTrue (state S.Store conn.new).is_open) }
    ensures told { HasCleanDisk (state S.Store conn.new) → TellsUpgrade (state S.Store conn.old).now (state S.Store conn.new) result }
    ensures left { HasCleanDisk (state S.Store conn.new) → IsTrue (state S.Store conn.new).is_open
        → IfErr result (LeavesWithFault (state S.Store conn.old).now (state S.Store conn.new).now) }
    ensures crash { Survives (state S.Store conn.old) (state S.Store conn.new) (MayLeaveUpgraded (state S.Store conn.old).now) }
    ensures reached { HasCleanDisk (state S.Store conn.new) → LeavesShown (state S.Store conn.old)
        → LeavesReached (state S.Store conn.old).now (state S.Store conn.new).may_leave }
{
    step(alloc, conn, VERSION_WITH_AMOUNTS)?;
    Ok(NEWEST_VERSION)
}

// From version 1 to the newest, by way of version 2: its rows are those that were audited, so they aren't audited again.
fn two_steps<S: Alter>(alloc: Global, conn: &mut Connection<S>) -> Result<u32, MigrateFault>
    requires outside { conn.old.in_transaction ≡ false }
    requires says { HasCleanDisk (state S.Store conn.old) → MaySay first_version (state S.Store conn.old).now.trees }
    ensures ended { conn.new.in_transaction ≡ false }
    ensures live { HasCleanDisk (state S.Store conn.new) → IsTrue (state S.Store conn.new).is_open → IsTrue (state S.Store conn.old).is_open }
    ensures shown { HasCleanDisk (state S.Store conn.new)
        → OnOk result (IsTrue (state S.Store conn.old).is_open × IsTrue (state S.Store conn.new).is_open) }
    ensures told { HasCleanDisk (state S.Store conn.new) → TellsUpgrade (state S.Store conn.old).now (state S.Store conn.new) result }
    ensures left { HasCleanDisk (state S.Store conn.new) → IsTrue (state S.Store conn.new).is_open
        → IfErr result (LeavesWithFault (state S.Store conn.old).now (state S.Store conn.new).now) }
    ensures crash { Survives (state S.Store conn.old) (state S.Store conn.new) (MayLeaveUpgraded (state S.Store conn.old).now) }
    ensures reached { HasCleanDisk (state S.Store conn.new) → LeavesShown (state S.Store conn.old)
        → LeavesReached (state S.Store conn.old).now (state S.Store conn.new).may_leave }
{
    step(alloc, conn, FIRST_VERSION)?;
    see_settled(conn);
    step_of_sound(alloc, conn, VERSION_WITH_AMOUNTS)?;
    Ok(NEWEST_VERSION)
}

// From an earlier version, which the office's own row says, to the newest.
fn steps_from<S: Alter>(
    alloc: Global,
    conn: &mut Connection<S>,
    version: u32,
) -> Result<u32, MigrateFault>
    requires outside { conn.old.in_transaction ≡ false }
    requires says { HasCleanDisk (state S.Store conn.old) → IsOfEarlier version (state S.Store conn.old).now.trees }
    ensures ended { conn.new.in_transaction ≡ false }
    ensures live { HasCleanDisk (state S.Store conn.new) → IsTrue (state S.Store conn.new).is_open → IsTrue (state S.Store conn.old).is_open }
    ensures shown { HasCleanDisk (state S.Store conn.new)
        → OnOk result (IsTrue (state S.Store conn.old).is_open × IsTrue (state S.Store conn.new).is_open) }
    ensures told { HasCleanDisk (state S.Store conn.new) → TellsUpgrade (state S.Store conn.old).now (state S.Store conn.new) result }
    ensures left { HasCleanDisk (state S.Store conn.new) → IsTrue (state S.Store conn.new).is_open
        → IfErr result (LeavesWithFault (state S.Store conn.old).now (state S.Store conn.new).now) }
    ensures crash { Survives (state S.Store conn.old) (state S.Store conn.new) (MayLeaveUpgraded (state S.Store conn.old).now) }
    ensures reached { HasCleanDisk (state S.Store conn.new) → LeavesShown (state S.Store conn.old)
        → LeavesReached (state S.Store conn.old).now (state S.Store conn.new).may_leave }
{
    if version < VERSION_WITH_AMOUNTS {
        return two_steps(alloc, conn);
    }
    last_step(alloc, conn)
}

// Version by version to the newest, which it answers.
fn go_on<S: Alter>(alloc: Global, conn: &mut Connection<S>) -> Result<u32, MigrateFault>
    requires { conn.old.in_transaction ≡ false }
    ensures ended { conn.new.in_transaction ≡ false }
    ensures live { HasCleanDisk (state S.Store conn.new) → IsTrue (state S.Store conn.new).is_open → IsTrue (state S.Store conn.old).is_open }
    ensures shown { HasCleanDisk (state S.Store conn.new)
        → OnOk result (IsTrue (state S.Store conn.old).is_open × IsTrue (state S.Store conn.new).is_open) }
    ensures told { HasCleanDisk (state S.Store conn.new) → TellsUpgrade (state S.Store conn.old).now (state S.Store conn.new) result }
    ensures left { HasCleanDisk (state S.Store conn.new) → IsTrue (state S.Store conn.new).is_open
        → IfErr result (LeavesWithFault (state S.Store conn.old).now (state S.Store conn.new).now) }
    ensures crash { Survives (state S.Store conn.old) (state S.Store conn.new) (MayLeaveUpgraded (state S.Store conn.old).now) }
    ensures reached { HasCleanDisk (state S.Store conn.new) → LeavesShown (state S.Store conn.old)
        → LeavesReached (state S.Store conn.old).now (state S.Store conn.new).may_leave }
{
    let found = version(alloc, conn)?;
    if found < NEWEST_VERSION {
        return steps_from(alloc, conn, found);
    }
    Ok(NEWEST_VERSION)
}

/// Brings a file to the newest version of the tables, and answers that: one transaction for each version, whole or not begun, after
/// its rows were audited once. A file of the newest version is left as it is, and its rows aren't audited.
/// `UnknownVersion`: as `version` says; `Damaged`: the rows break this rule of sound tables, and none before it; `Store`: the tables
/// are none of the version that the office's own row says, or the database answered an error other than want of memory; `NoMemory`:
/// want of memory. With a fault the file is as it was found; or, with one of the last two, a file of version 1 may be of version 2 with
/// the same content, where the first step was done and the second one wasn't. A crash during the call leaves what it could leave before,
/// or the file of the next version, or of the newest, with the same content; after it exactly what the connection shows. Where a fault
/// has shut that, a crash leaves the last version that was reached, or the next one.
pub fn upgrade<S: Alter>(alloc: Global, conn: &mut Connection<S>) -> Result<u32, MigrateFault>
    requires { conn.old.in_transaction ≡ false }
    ensures ended { conn.new.in_transaction ≡ false }
    ensures live { HasCleanDisk (state S.Store conn.new) → IsTrue (state S.Store conn.new).is_open → IsTrue (state S.Store conn.old).is_open }
    ensures shown { HasCleanDisk (state S.Store conn.new)
        → OnOk result (IsTrue (state S.Store conn.old).is_open × IsTrue (state S.Store conn.new).is_open) }
    ensures told { HasCleanDisk (state S.Store conn.new) → TellsUpgrade (state S.Store conn.old).now (state S.Store conn.new) result }
    ensures left { HasCleanDisk (state S.Store conn.new) → IsTrue (state S.Store conn.new).is_open
        → IfErr result (LeavesWithFault (state S.Store conn.old).now (state S.Store conn.new).now) }
    ensures crash { Survives (state S.Store conn.old) (state S.Store conn.new) (MayLeaveUpgraded (state S.Store conn.old).now) }
    ensures reached { HasCleanDisk (state S.Store conn.new) → LeavesShown (state S.Store conn.old)
        → LeavesReached (state S.Store conn.old).now (state S.Store conn.new).may_leave }
    ensures settled { CrashLeavesShown (state S.Store conn.new) }
{
    let result = go_on(alloc, conn);
    let _settled = conn.is_autocommit();
    result
}
