//! The rows of a store's file, audited as those of a version.
ghost use Rattle.std.specs.Prelude.{◌≡◌, ◌⊎◌, false, None, IsTrue, IfErr, IfOk, IfSome, is_ok};
ghost use Rattle.sqlite.specs.Held.{state};
ghost use Rattle.sqlite.specs.State.{HasCleanDisk};
ghost use Rattle.typed_sql.specs.Outside.{CrashLeavesShown, Looks};
ghost use Rattle.td_model.specs.Content.{Content};
ghost use Rattle.td_store_check.specs.declared.fault.OpenFault.TheVariants as fault;
ghost use Rattle.td_store_check.specs.Opened.{HoldsAtVersion, IsDamage, TellsAudit, fault_in};

use crate::fault::{OpenFault, open_fault_of};
use crate::judging::fault_of_rows;
use crate::schema::{Tables, tables_of, version_in};
use sqlite::{Connection, Error};
use sqlite_trees::store::Alter;
use std::alloc::Global;
use typed_sql::see_settled;

// What the rows are refused for as those of that version; `Store` where the tables are none of a layout of it. An error is the
// database's own, or want of memory.
fn fault_at<S: Alter>(
    alloc: Global,
    conn: &mut Connection<S>,
    version: u32,
) -> Result<Option<OpenFault>, Error>
    requires { conn.old.in_transaction ≡ false }
    ensures ended { conn.new.in_transaction ≡ false }
    ensures looks { Looks false (state S.Store conn.old) (state S.Store conn.new) }
    ensures shown { HasCleanDisk (state S.Store conn.new) → IfOk result (λ fault. fault ≡ None
        → IsTrue (state S.Store conn.old).is_open × IsTrue (state S.Store conn.new).is_open) }
    ensures told { HasCleanDisk (state S.Store conn.new) → IfOk result (TellsAudit version (state S.Store conn.old).now) }
    ensures kinds { IfOk result (λ told. IfSome told (λ why. (why ≡ fault.Store) ⊎ IsDamage why)) }
{
    match tables_of(alloc, conn)? {
        Tables::Store(layout) if version_in(layout) == version => fault_of_rows(
            alloc, conn, layout,
        ),
        _ => Ok(Some(OpenFault::Store)),
    }
}

/// Audits the rows of a store's file as those of a version of the tables, from the first to the newest. `Damaged`: the rows break
/// this rule of sound tables, and none before it; `Store`: the tables are none of that version, or the database answered an error
/// other than want of memory; `NoMemory`: want of memory. Nothing is changed, and a crash leaves what it could before.
pub fn audit<S: Alter>(
    alloc: Global,
    conn: &mut Connection<S>,
    version: u32,
) -> Result<(), OpenFault>
    requires { conn.old.in_transaction ≡ false }
    ensures ended { conn.new.in_transaction ≡ false }
    ensures looks { Looks (is_ok result) (state S.Store conn.old) (state S.Store conn.new) }
    ensures told { HasCleanDisk (state S.Store conn.new) → TellsAudit version (state S.Store conn.old).now (fault_in result) }
    ensures kinds { IfErr result (λ why. ((why ≡ fault.Store) ⊎ (why ≡ fault.NoMemory)) ⊎ IsDamage why) }
    ensures sound { HasCleanDisk (state S.Store conn.new) → (c : Content) → HoldsAtVersion version c (state S.Store conn.old).now
        → IfErr result (λ why. (why ≡ fault.Store) ⊎ (why ≡ fault.NoMemory)) }
    ensures settled { CrashLeavesShown (state S.Store conn.new) }
{
    let fault = match fault_at(alloc, conn, version) {
        Ok(fault) => fault,
        Err(error) => Some(open_fault_of(&error)),
    };
    see_settled(conn);
    match fault {
        None => Ok(()),
        Some(fault) => Err(fault),
    }
}
