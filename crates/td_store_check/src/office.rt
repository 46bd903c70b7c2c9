//! The office's own row: the version that it says, and what it is refused for.
ghost use Rattle.std.specs.Prelude.{◌≡◌, ◌⊎◌, false, None, pos, IfOk, MatchOption, is_ok};
ghost use Rattle.sqlite.specs.Held.{state};
ghost use Rattle.sqlite.specs.State.{HasCleanDisk};
ghost use Rattle.typed_sql.specs.Outside.{Looks};
ghost use Rattle.td_store_rows.specs.Columns.{MetaIsFirst};
ghost use Rattle.td_store_check.specs.declared.fault.OpenFault.TheVariants as fault;
ghost use Rattle.td_store_check.specs.Opened.{IsKnown, IsKnownNumber, IsOfficeIn, TellsKnown, TellsOffice};

use crate::fault::OpenFault;
use sqlite::{Connection, Error};
use sqlite_trees::store::Alter;
use td_base::Country;
use td_schema::{FIRST_VERSION, NEWEST_VERSION};
use td_store_rows::{StoredMeta, find_meta};
use typed_sql::see_settled;

/// The office's own row, or none: its table has to be the first, whatever others there are. It is read in a transaction. An error is
/// the database's own, or want of memory.
pub(crate) fn read_office<S: Alter>(conn: &mut Connection<S>) -> Result<Option<StoredMeta>, Error>
    requires outside { conn.old.in_transaction ≡ false }
    requires first { HasCleanDisk (state S.Store conn.old) → MetaIsFirst (state S.Store conn.old).now.schema }
    ensures ended { conn.new.in_transaction ≡ false }
    ensures looks { Looks (is_ok result) (state S.Store conn.old) (state S.Store conn.new) }
    ensures found { HasCleanDisk (state S.Store conn.new) → IfOk result (IsOfficeIn (state S.Store conn.old).now.trees) }
{
    see_settled(conn);
    let mut tx = conn.transaction();
    let office = find_meta(&mut tx)?;
    tx.commit()?;
    Ok(office)
}

// The version of the tables that a number is: from the first to the newest. `None`: it is no such version.
fn known_version(number: i64) -> Option<u32>
    ensures { MatchOption result (¬ IsKnownNumber number) (λ version. IsKnown version × (number ≡ pos version)) }
{
    let version = u32::try_from(number).ok()?;
    if version < FIRST_VERSION || version > NEWEST_VERSION {
        return None;
    }
    Some(version)
}

/// The version of the tables that the office's own row says. `None`: there is no such row, or it says no version that is known.
pub(crate) fn version_said(office: Option<StoredMeta>) -> Option<u32>
    ensures { TellsKnown office result }
{
    match office {
        Some(office) => known_version(office.version),
        None => None,
    }
}

/// What the office's own row is refused for, at an office of that country: `UnknownVersion` where there is none, or its version
/// isn't known; `NeedsMigration` where that is an earlier one than the newest; else `OtherCountry` where its country isn't that one.
pub(crate) fn office_fault(office: Option<StoredMeta>, country: Country) -> Option<OpenFault>
    ensures { TellsOffice country office result }
{
    let Some(office) = office else {
        return Some(OpenFault::UnknownVersion);
    };
    let Some(version) = known_version(office.version) else {
        return Some(OpenFault::UnknownVersion);
    };
    if version < NEWEST_VERSION {
        return Some(OpenFault::NeedsMigration(version));
    }
    if office.country != Some(country) {
        return Some(OpenFault::OtherCountry);
    }
    None
}

/// What a database with other tables than a store's is refused for, by the office's own row: `UnknownVersion` where it says no version
/// that is known, else `Store`.
pub(crate) fn fault_of_version(office: Option<StoredMeta>) -> OpenFault
    ensures { (result ≡ fault.Store) ⊎ ((result ≡ fault.UnknownVersion) × TellsKnown office None) }
{
    match version_said(office) {
        Some(_) => OpenFault::Store,
        None => OpenFault::UnknownVersion,
    }
}
