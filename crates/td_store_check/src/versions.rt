//! The version of the tables in a store's file.
ghost use Rattle.std.specs.Prelude.{◌≡◌, false, IsTrue, IfOk, OnOk, is_ok};
ghost use Rattle.sqlite.specs.Held.{state};
ghost use Rattle.sqlite.specs.State.{HasCleanDisk};
ghost use Rattle.typed_sql.specs.Outside.{CrashLeavesShown, Looks};
ghost use Rattle.td_store_check.specs.Opened.{TellsByOffice, TellsFileVersion};

use crate::fault::{OpenFault, open_fault_of};
use crate::office::{fault_of_version, read_office, version_said};
use crate::schema::{Tables, lacks_meta, tables_of, version_in};
use sqlite::{Connection, Error};
use sqlite_trees::store::Alter;
use std::alloc::Global;
use td_store_rows::StoredMeta;
use typed_sql::see_settled;

// The version of tables of that version, where the office's own row says it. `UnknownVersion`: the row isn't there, or says no version
// that is known; `Store`: it says another one.
fn version_by(tables: u32, office: Option<StoredMeta>) -> Result<u32, OpenFault>
    ensures { TellsByOffice tables office result }
{
    match version_said(office) {
        Some(version) if version == tables => Ok(version),
        Some(_) => Err(OpenFault::Store),
        None => Err(OpenFault::UnknownVersion),
    }
}

// The version, or why none is told. An error is the database's own, or want of memory.
fn told_version<S: Alter>(
    alloc: Global,
    conn: &mut Connection<S>,
) -> Result<Result<u32, OpenFault>, Error>
    requires { conn.old.in_transaction ≡ false }
    ensures ended { conn.new.in_transaction ≡ false }
    ensures looks { Looks false (state S.Store conn.old) (state S.Store conn.new) }
    ensures shown { HasCleanDisk (state S.Store conn.new) → IfOk result (λ told. OnOk told
        (IsTrue (state S.Store conn.old).is_open × IsTrue (state S.Store conn.new).is_open)) }
    ensures told { HasCleanDisk (state S.Store conn.new) → IfOk result (TellsFileVersion (state S.Store conn.old).now) }
{
    match tables_of(alloc, conn)? {
        Tables::Store(layout) => Ok(version_by(version_in(layout), read_office(conn)?)),
        Tables::OtherVersion => Ok(Err(fault_of_version(read_office(conn)?))),
        Tables::Unknown => Ok(Err(OpenFault::Store)),
    }
}

/// The version of the tables in a store's file, from the first to the newest, as the office's own row says it. `UnknownVersion`: there
/// is no table `meta`, or that is the first, as a store's of any version, and the row isn't there or says no such version; `Store`: the
/// tables are none of a store, or are of another version than the row says, or the database answered an error other than want of memory;
/// `NoMemory`: want of memory. Nothing is changed, and a crash leaves what it could before.
pub fn file_version<S: Alter>(alloc: Global, conn: &mut Connection<S>) -> Result<u32, OpenFault>
    requires { conn.old.in_transaction ≡ false }
    ensures ended { conn.new.in_transaction ≡ false }
    ensures looks { Looks (is_ok result) (state S.Store conn.old) (state S.Store conn.new) }
    ensures told { HasCleanDisk (state S.Store conn.new) → TellsFileVersion (state S.Store conn.old).now result }
    ensures settled { CrashLeavesShown (state S.Store conn.new) }
{
    if lacks_meta(conn) {
        see_settled(conn);
        return Err(OpenFault::UnknownVersion);
    }
    let told = match told_version(alloc, conn) {
        Ok(told) => told,
        Err(error) => Err(open_fault_of(&error)),
    };
    see_settled(conn);
    told
}
