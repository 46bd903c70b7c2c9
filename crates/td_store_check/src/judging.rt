//! Whether a database is one that a desk was made in, and what it is refused for.
ghost use Rattle.std.specs.Prelude.{◌≡◌, false, Some, None, option_map, IsTrue, IfOk, IfSome, is_ok};
ghost use Rattle.sqlite.specs.Held.{state};
ghost use Rattle.sqlite.specs.State.{HasCleanDisk};
ghost use Rattle.typed_sql.specs.Outside.{Looks};
ghost use Rattle.td_schema.specs.Layouts.{schema_of};
ghost use Rattle.td_store_check.specs.declared.fault.OpenFault.TheVariants as fault;
ghost use Rattle.td_store_check.specs.Opened.{IsDamage, LacksMeta, TellsDatabase, TellsRows, TellsRules, TellsTables};

use crate::fault::{OpenFault, open_fault_of};
use crate::office::{fault_of_version, office_fault, read_office};
use crate::rules::first_broken;
use crate::schema::{Tables, lacks_meta, tables_of, version_in};
use sqlite::{Connection, Error};
use sqlite_trees::store::Alter;
use std::alloc::Global;
use td_base::Country;
use td_schema::{Layout, NEWEST_VERSION};
use td_store_audit::database_keeps;
use td_store_audit_rows::{Readable, readable_tables};
use td_table_model::Rule;
use typed_sql::{see_open, see_settled};

// The first rule that the tables of a store of that layout break, of which these can be read, or none. Their rows are read in one
// transaction. An error is the database's own, or want of memory.
fn broken_rule<S: Alter>(
    alloc: Global,
    conn: &mut Connection<S>,
    layout: Layout,
    readable: Readable,
) -> Result<Option<Rule>, Error>
    requires outside { conn.old.in_transaction ≡ false }
    requires tables { HasCleanDisk (state S.Store conn.old) → (state S.Store conn.old).now.schema ≡ schema_of layout }
    ensures ended { conn.new.in_transaction ≡ false }
    ensures looks { Looks (is_ok result) (state S.Store conn.old) (state S.Store conn.new) }
    ensures told { HasCleanDisk (state S.Store conn.new)
        → IfOk result (TellsRules layout readable (state S.Store conn.old).now.trees) }
{
    see_settled(conn);
    database_keeps(conn);
    let mut tx = conn.transaction();
    let broken = first_broken(alloc, &mut tx, version_in(layout), readable)?;
    // (compiled now, it takes no memory when it is asked again)
    see_open(&mut tx)?;
    tx.commit()?;
    Ok(broken)
}

/// What the rows of the tables of a store of that layout are refused for, of which no one was looked at yet: `Damaged` by the first
/// rule that they break, or none. An error is the database's own, or want of memory.
pub(crate) fn fault_of_rows<S: Alter>(
    alloc: Global,
    conn: &mut Connection<S>,
    layout: Layout,
) -> Result<Option<OpenFault>, Error>
    requires outside { conn.old.in_transaction ≡ false }
    requires tables { HasCleanDisk (state S.Store conn.old) → (state S.Store conn.old).now.schema ≡ schema_of layout }
    ensures ended { conn.new.in_transaction ≡ false }
    ensures looks { Looks (is_ok result) (state S.Store conn.old) (state S.Store conn.new) }
    ensures told { HasCleanDisk (state S.Store conn.new)
        → IfOk result (TellsRows layout (state S.Store conn.old).now.trees) }
    ensures kinds { IfOk result (λ told. IfSome told IsDamage) }
{
    let readable = readable_tables(conn, version_in(layout))?;
    let broken = broken_rule(alloc, conn, layout, readable)?;
    Ok(damage(broken))
}

// What the tables of a store of that layout are refused for, at an office of that country, or none. An error is the database's own,
// or want of memory.
fn fault_in<S: Alter>(
    alloc: Global,
    conn: &mut Connection<S>,
    layout: Layout,
    country: Country,
) -> Result<Option<OpenFault>, Error>
    requires outside { conn.old.in_transaction ≡ false }
    requires tables { HasCleanDisk (state S.Store conn.old) → (state S.Store conn.old).now.schema ≡ schema_of layout }
    ensures ended { conn.new.in_transaction ≡ false }
    ensures looks { Looks (is_ok result) (state S.Store conn.old) (state S.Store conn.new) }
    ensures told { HasCleanDisk (state S.Store conn.new)
        → IfOk result (TellsTables country layout (state S.Store conn.old).now.trees) }
{
    // For its clause: the country is two capital letters.
    let _letters = country.as_bytes();
    let fault = office_fault(read_office(conn)?, country);
    if fault.is_some() {
        return Ok(fault);
    }
    if version_in(layout) != NEWEST_VERSION {
        return Ok(Some(OpenFault::Store));
    }
    fault_of_rows(alloc, conn, layout)
}

// What tables that break this rule are refused for.
fn damage(broken: Option<Rule>) -> Option<OpenFault>
    ensures { result ≡ option_map fault.Damaged broken }
{
    broken.map(OpenFault::Damaged)
}

// What the database is refused for: `Store` where it has other tables than a store's, too, unless they are of another version.
fn fault_of_database<S: Alter>(
    alloc: Global,
    conn: &mut Connection<S>,
    country: Country,
) -> Result<Option<OpenFault>, Error>
    requires { conn.old.in_transaction ≡ false }
    ensures ended { conn.new.in_transaction ≡ false }
    ensures looks { Looks false (state S.Store conn.old) (state S.Store conn.new) }
    ensures shown { HasCleanDisk (state S.Store conn.new) → IfOk result (λ fault. fault ≡ None
        → IsTrue (state S.Store conn.old).is_open × IsTrue (state S.Store conn.new).is_open) }
    ensures told { HasCleanDisk (state S.Store conn.new) → IfOk result (TellsDatabase country (state S.Store conn.old).now) }
{
    match tables_of(alloc, conn)? {
        Tables::Store(layout) => fault_in(alloc, conn, layout, country),
        Tables::OtherVersion => Ok(Some(fault_of_version(read_office(conn)?))),
        Tables::Unknown => Ok(Some(OpenFault::Store)),
    }
}

/// Why no desk of an office of that country can be opened over the database, or `None` where one can. `UnknownVersion`: it has no
/// table `meta`, or that is the first, as a store's of any version, and the office's own row isn't there or says no version that is
/// known; `NeedsMigration`: it says an earlier version than the newest; `OtherCountry`: it says the newest and another country;
/// `Damaged`: the first rule that the tables break; `Store`: its tables are none of a store of that version, or the database answered
/// an error other than want of memory; `NoMemory`: want of memory. Nothing is changed.
pub fn refusal<S: Alter>(
    alloc: Global,
    conn: &mut Connection<S>,
    country: Country,
) -> Option<OpenFault>
    requires { conn.old.in_transaction ≡ false }
    ensures ended { conn.new.in_transaction ≡ false }
    ensures looks { Looks false (state S.Store conn.old) (state S.Store conn.new) }
    ensures shown { HasCleanDisk (state S.Store conn.new) → result ≡ None
        → IsTrue (state S.Store conn.old).is_open × IsTrue (state S.Store conn.new).is_open }
    ensures told { HasCleanDisk (state S.Store conn.new) → TellsDatabase country (state S.Store conn.old).now result }
    ensures absent { LacksMeta (state S.Store conn.old).now.schema
        → (result ≡ Some fault.UnknownVersion) × (conn.new ≡ conn.old) }
{
    if lacks_meta(conn) {
        return Some(OpenFault::UnknownVersion);
    }
    match fault_of_database(alloc, conn, country) {
        Ok(fault) => fault,
        Err(error) => Some(open_fault_of(&error)),
    }
}
