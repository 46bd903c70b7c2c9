//! Whether each row that a statement shows is of its kinds and in range.
ghost use Rattle.std.specs.Prelude.{◌≡◌, ◌↔◌, false, IsTrue, IfOk, OnOk};
ghost use Rattle.sqlite.specs.Given.{IsPlain};
ghost use Rattle.sqlite.specs.Held.{state};
ghost use Rattle.sqlite.specs.Listing.{understood};
ghost use Rattle.sqlite.specs.State.{HasCleanDisk, IsUnchanged, Survives};
ghost use Rattle.typed_sql.specs.Walked.{IsLeftAlone};
ghost use Rattle.td_store_audit_rows.specs.Ids.{ShowsIds};
ghost use Rattle.td_store_audit_rows.specs.Scans.{AreDeclaredColumns, AreKeyColumns, AreStatusColumns, Scans};

use crate::ids::RisingIds;
use sqlite::{Connection, Error, ErrorCode, Row};
use sqlite_trees::store::Alter;
use std::marker::PhantomData;
use td_schema::{
    amount_at, code_at, cover_at, day_at, grn_at, holder_at, lrn_at, mrn_at, office_at,
    optional_day_at, optional_office_at, serial_at, state_at,
};
use td_store_rows::{StoredCode, StoredGuarantee, StoredLine, StoredMovement};
use typed_sql::{Walker, walk};

/// What is read from the columns of a row, where they are its fields.
pub(crate) trait Scanned {
    ghost use Rattle.sqlite_value.specs.Order.{Row};

    /// When columns are its fields.
    ghost AreRead: { Row → Type 0 };

    /// Whether the columns of a row are its fields.
    fn is_read(row: &Row) -> bool
        ensures { IsTrue result ↔ AreRead row.now };
}

// Whether the first two columns after the rowid are a holder's number and a serial.
fn has_key(row: &Row) -> bool
    ensures { IsTrue result ↔ AreKeyColumns row.now }
{
    holder_at(row, 1).is_some() && serial_at(row, 2).is_some()
}

// Whether the columns of a movement's row are what was declared.
fn has_declared(row: &Row) -> bool
    ensures { IsTrue result ↔ AreDeclaredColumns row.now }
{
    mrn_at(row, 3).is_some()
        && lrn_at(row, 4).is_some()
        && office_at(row, 5).is_some()
        && office_at(row, 6).is_some()
        && day_at(row, 7).is_some()
}

// Whether they are the movement's state, its days and the office where it arrived.
fn has_status(row: &Row) -> bool
    ensures { IsTrue result ↔ AreStatusColumns row.now }
{
    state_at(row, 8).is_some()
        && optional_day_at(row, 9).is_some()
        && optional_day_at(row, 10).is_some()
        && optional_office_at(row, 11).is_some()
}

impl Scanned for StoredGuarantee {
    ghost use Rattle.td_store_audit_rows.specs.Scans.{AreGuaranteeColumns};

    ghost AreRead = { AreGuaranteeColumns };

    // A rowid and six columns.
    fn is_read(row: &Row) -> bool {
        has_key(row)
            && grn_at(row, 3).is_some()
            && amount_at(row, 4).is_some()
            && cover_at(row, 5).is_some()
            && optional_day_at(row, 6).is_some()
    }
}

impl Scanned for StoredCode {
    ghost use Rattle.td_store_audit_rows.specs.Scans.{AreCodeColumns};

    ghost AreRead = { AreCodeColumns };

    // A rowid and three columns.
    fn is_read(row: &Row) -> bool {
        has_key(row) && code_at(row, 3).is_some()
    }
}

impl Scanned for StoredMovement {
    ghost use Rattle.td_store_audit_rows.specs.Scans.{AreMovementColumns};

    ghost AreRead = { AreMovementColumns };

    // A rowid and eleven columns.
    fn is_read(row: &Row) -> bool {
        has_key(row) && has_declared(row) && has_status(row)
    }
}

impl Scanned for StoredLine {
    ghost use Rattle.td_store_audit_rows.specs.Scans.{AreLineColumns};

    ghost AreRead = { AreLineColumns };

    // A rowid and five columns.
    fn is_read(row: &Row) -> bool {
        has_key(row)
            && serial_at(row, 3).is_some()
            && serial_at(row, 4).is_some()
            && amount_at(row, 5).is_some()
    }
}

// What was seen of the rows so far: whether their rowids rise, and whether the columns of each were its fields.
#[derive(Drop)]
struct TableScan<T> {
    ids: RisingIds,
    all: bool,
    of: PhantomData<T>,
}

impl<T: Scanned> Walker for TableScan<T> {
    ghost use Rattle.std.specs.Prelude.{◌↔◌, IsTrue};
    ghost use Rattle.std.specs.List.{AllByRecursion};
    ghost use Rattle.td_store_audit_rows.specs.Rising.{TellsRising};

    ghost Knows = { λ rows scan. TellsRising scan.ids.rise scan.ids.last rows × (IsTrue scan.all ↔ AllByRecursion T.AreRead rows) };

    fn see(&mut self, row: &Row) {
        self.ids.see(row);
        self.all = self.all && T::is_read(row);
    }
}

/// Whether the columns that are shown of each row of a table are its fields, where its rowids are integers, no two the same. The
/// text is a SELECT of the rowid and of the columns over the whole table. `DatabaseCorrupt`: the rowids aren't so, or weren't
/// shown rising; any other error is the database's own. It changes nothing, and keeps no row.
pub(crate) fn scan<S: Alter, T: Scanned>(
    conn: &mut Connection<S>,
    text: &str,
) -> Result<bool, Error>
    requires outside { conn.old.in_transaction ≡ false }
    requires plain { HasCleanDisk (state S.Store conn.old) → IsPlain (understood (state S.Store conn.old).now.schema text.now) }
    ensures ended { conn.new.in_transaction ≡ false }
    ensures ids { HasCleanDisk (state S.Store conn.new) → OnOk result (ShowsIds text.now (state S.Store conn.old).now) }
    ensures told { HasCleanDisk (state S.Store conn.new)
        → IfOk result (λ all. Scans T.AreRead text.now (state S.Store conn.old).now all) }
    ensures still { HasCleanDisk (state S.Store conn.new)
        → OnOk result (IsUnchanged (state S.Store conn.old) (state S.Store conn.new)) }
    ensures left { HasCleanDisk (state S.Store conn.new) → IsLeftAlone (state S.Store conn.old) (state S.Store conn.new) }
    ensures survives { Survives (state S.Store conn.old) (state S.Store conn.new) (λ _. ⊥) }
{
    let mut scan = TableScan::<T> {
        ids: RisingIds::none_yet(),
        all: true,
        of: PhantomData,
    };
    walk(conn, text, &mut scan)?;
    if !scan.ids.rise {
        return Err(Error::SqliteFailure(ErrorCode::DatabaseCorrupt));
    }
    Ok(scan.all)
}
