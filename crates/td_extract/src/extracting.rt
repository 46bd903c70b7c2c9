//! A desk's file of the holders of a range, made in a database without tables.
ghost use Rattle.std.specs.Prelude.{◌≡◌, false, Err, IsTrue, OnErr, OnOk, is_ok};
ghost use Rattle.sqlite.specs.Held.{state};
ghost use Rattle.sqlite.specs.State.{HasCleanDisk, Survives};
ghost use Rattle.typed_sql.specs.Outside.{CrashLeavesShown, Looks};
ghost use Rattle.typed_sql.specs.Reading.{StaysInside};
ghost use Rattle.td_schema.specs.Tables.{IsEmptyOf, no_schema};
ghost use Rattle.td_store_rows.specs.StoreReads.{HasNewestTables, ReadsNewest};
ghost use Rattle.td_extract.specs.Extracted.{Extracts, MakesTables, MayLeaveExtract};

use crate::fault::fault_of_error;
use crate::holders::copy_holders;
use sqlite::{Connection, Error, Transaction};
use sqlite_trees::store::Alter;
use std::alloc::Global;
use td_base::{Country, HolderNo};
use td_desk::Fault;
use td_schema::{NEWEST_LAYOUT, NEWEST_VERSION, is_blank, make_tables};
use td_store_rows::insert_meta;
use typed_sql::{see_open, see_settled};

// Makes the tables of an office of that country, and puts into them the rows of the holders of a range of another file of the
// office's.
fn write_extract<S: Alter, T: Alter>(
    alloc: Global,
    from: &mut Transaction<'_, S>,
    to: &mut Transaction<'_, T>,
    country: Country,
    first: HolderNo,
    last: HolderNo,
) -> Result<(), Error>
    ensures same_source { from.new.conn.ghost_name ≡ from.old.conn.ghost_name }
    ensures same_target { to.new.conn.ghost_name ≡ to.old.conn.ghost_name }
    ensures written { HasCleanDisk (state S.Store from.new.conn.now) → HasCleanDisk (state T.Store to.new.conn.now)
        → OnOk result (Extracts country first last (state S.Store from.old.conn.now) (state T.Store to.old.conn.now) (state T.Store to.new.conn.now)) }
    ensures schema { HasCleanDisk (state S.Store from.new.conn.now) → HasCleanDisk (state T.Store to.new.conn.now)
        → OnOk result (MakesTables country (state S.Store from.old.conn.now) (state T.Store to.old.conn.now) (state T.Store to.new.conn.now)) }
    ensures reads { ReadsNewest (is_ok result) (state S.Store from.old.conn.now) (state S.Store from.new.conn.now) }
    ensures within { StaysInside (is_ok result) (state T.Store to.old.conn.now) (state T.Store to.new.conn.now) }
{
    make_tables(to, NEWEST_LAYOUT)?;
    insert_meta(to, NEWEST_VERSION, country)?;
    copy_holders(alloc, from, to, first.number(), last.number())
}

// The same of a connection to the other file, in a transaction that only reads.
fn write_from<S: Alter, T: Alter>(
    alloc: Global,
    from: &mut Connection<S>,
    to: &mut Transaction<'_, T>,
    country: Country,
    first: HolderNo,
    last: HolderNo,
) -> Result<(), Error>
    requires outside { from.old.in_transaction ≡ false }
    requires tables { HasCleanDisk (state S.Store from.old) → HasNewestTables (state S.Store from.old) }
    ensures ended { from.new.in_transaction ≡ false }
    ensures looks { Looks (is_ok result) (state S.Store from.old) (state S.Store from.new) }
    ensures same_target { to.new.conn.ghost_name ≡ to.old.conn.ghost_name }
    ensures written { HasCleanDisk (state S.Store from.new) → HasCleanDisk (state T.Store to.new.conn.now)
        → OnOk result (Extracts country first last (state S.Store from.old) (state T.Store to.old.conn.now) (state T.Store to.new.conn.now)) }
    ensures schema { HasCleanDisk (state S.Store from.new) → HasCleanDisk (state T.Store to.new.conn.now)
        → OnOk result (MakesTables country (state S.Store from.old) (state T.Store to.old.conn.now) (state T.Store to.new.conn.now)) }
    ensures within { StaysInside (is_ok result) (state T.Store to.old.conn.now) (state T.Store to.new.conn.now) }
{
    see_settled(from);
    let mut tx = from.transaction();
    write_extract(alloc, &mut tx, to, country, first, last)?;
    see_open(&mut tx)?;
    tx.commit()?;
    Ok(())
}

// The same into a database without tables, in one transaction: all of it or, where it answers `Err`, nothing.
fn write_into<S: Alter, T: Alter>(
    alloc: Global,
    from: &mut Connection<S>,
    to: &mut Connection<T>,
    country: Country,
    first: HolderNo,
    last: HolderNo,
) -> Result<(), Error>
    requires reading { from.old.in_transaction ≡ false }
    requires writing { to.old.in_transaction ≡ false }
    requires tables { HasCleanDisk (state S.Store from.old) → HasNewestTables (state S.Store from.old) }
    ensures read { from.new.in_transaction ≡ false }
    ensures ended { to.new.in_transaction ≡ false }
    ensures looks { Looks (is_ok result) (state S.Store from.old) (state S.Store from.new) }
    ensures live { HasCleanDisk (state T.Store to.new) → IsTrue (state T.Store to.new).is_open → IsTrue (state T.Store to.old).is_open }
    ensures shown { HasCleanDisk (state T.Store to.new)
        → OnOk result (IsTrue (state T.Store to.old).is_open × IsTrue (state T.Store to.new).is_open) }
    ensures extracted { HasCleanDisk (state S.Store from.new) → HasCleanDisk (state T.Store to.new)
        → OnOk result (Extracts country first last (state S.Store from.old) (state T.Store to.old) (state T.Store to.new)) }
    ensures schema { HasCleanDisk (state S.Store from.new) → HasCleanDisk (state T.Store to.new)
        → OnOk result (MakesTables country (state S.Store from.old) (state T.Store to.old) (state T.Store to.new)) }
    ensures err { HasCleanDisk (state T.Store to.new) → IsTrue (state T.Store to.new).is_open
        → OnErr result ((state T.Store to.new).now ≡ (state T.Store to.old).now) }
    ensures crash { Survives (state T.Store to.old) (state T.Store to.new)
        (MayLeaveExtract country first last (state S.Store from.old) (state S.Store from.new) (state T.Store to.old)) }
{
    let _settled = to.is_autocommit();
    let mut tx = to.transaction();
    write_from(alloc, from, &mut tx, country, first, last)?;
    see_open(&mut tx)?;
    tx.commit()
}

/// Makes a desk's file of an office of that country, in a database that has no table, of the holders with numbers from `first` to
/// `last` alone, each with all rows of a desk's file of the office's; in one transaction. It has the tables of the newest version,
/// and no others. `Store`: there is a table already, and nothing is read; or one of the databases answered an error other than want
/// of memory, or a row of the first file is none. `NoMemory`: want of memory. With a fault the second database is as it was. The
/// first file is only read. A crash during the call leaves of the second file what it could leave before, or the desk's file of
/// those holders; after it exactly what the connection shows.
pub fn extract<S: Alter, T: Alter>(
    alloc: Global,
    from: &mut Connection<S>,
    to: &mut Connection<T>,
    country: Country,
    first: HolderNo,
    last: HolderNo,
) -> Result<(), Fault>
    requires reading { from.old.in_transaction ≡ false }
    requires writing { to.old.in_transaction ≡ false }
    requires tables { HasCleanDisk (state S.Store from.old) → HasNewestTables (state S.Store from.old) }
    ensures read { from.new.in_transaction ≡ false }
    ensures ended { to.new.in_transaction ≡ false }
    ensures looks { Looks (is_ok result) (state S.Store from.old) (state S.Store from.new) }
    ensures live { HasCleanDisk (state T.Store to.new) → IsTrue (state T.Store to.new).is_open → IsTrue (state T.Store to.old).is_open }
    ensures shown { HasCleanDisk (state T.Store to.new)
        → OnOk result (IsTrue (state T.Store to.old).is_open × IsTrue (state T.Store to.new).is_open) }
    ensures extracted { HasCleanDisk (state S.Store from.new) → HasCleanDisk (state T.Store to.new)
        → OnOk result (Extracts country first last (state S.Store from.old) (state T.Store to.old) (state T.Store to.new)) }
    ensures schema { HasCleanDisk (state S.Store from.new) → HasCleanDisk (state T.Store to.new)
        → OnOk result (MakesTables country (state S.Store from.old) (state T.Store to.old) (state T.Store to.new)) }
    ensures empty { OnOk result (IsEmptyOf no_schema (state T.Store to.old).now) }
    ensures taken { ¬ IsEmptyOf no_schema (state T.Store to.old).now
        → (result ≡ Err Fault.Store) × (from.new ≡ from.old) × (to.new ≡ to.old) }
    ensures err { HasCleanDisk (state T.Store to.new) → IsTrue (state T.Store to.new).is_open
        → OnErr result ((state T.Store to.new).now ≡ (state T.Store to.old).now) }
    ensures crash { Survives (state T.Store to.old) (state T.Store to.new)
        (MayLeaveExtract country first last (state S.Store from.old) (state S.Store from.new) (state T.Store to.old)) }
    ensures read_settled { CrashLeavesShown (state S.Store from.new) }
    ensures settled { CrashLeavesShown (state T.Store to.new) }
{
    if !is_blank(to) {
        see_settled(from);
        see_settled(to);
        return Err(Fault::Store);
    }
    let result = write_into(alloc, from, to, country, first, last);
    see_settled(from);
    see_settled(to);
    match result {
        Ok(()) => Ok(()),
        Err(error) => Err(fault_of_error(&error)),
    }
}
