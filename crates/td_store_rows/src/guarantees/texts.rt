//! The statements on the tables of guarantees.
ghost use Rattle.std.specs.Prelude.{◌≡◌};
ghost use Rattle.td_store_rows.specs.GuaranteeTexts.{next_of_holder_text, within_text};

use td_schema::VERSION_WITH_AMOUNTS;

/// A new row. The sixth column is NULL where there is no end day; the last is the amount in use.
pub const INSERT: &str = "INSERT INTO guarantees2 VALUES (?1, ?2, ?3, ?4, ?5, ?6, ?7)";

/// New terms: one that is NULL leaves the one that is there.
pub const SET_TERMS: &str =
    "UPDATE guarantees2 SET reference = COALESCE(?4, reference), cover = COALESCE(?5, cover), ends = COALESCE(?6, ends) WHERE holder = ?1 AND serial = ?2 AND grn = ?3";

/// More in use.
pub const ADD_USED: &str =
    "UPDATE guarantees2 SET used = used + ?3 WHERE holder = ?1 AND serial = ?2";

/// Less in use.
pub const TAKE_USED: &str =
    "UPDATE guarantees2 SET used = used - ?3 WHERE holder = ?1 AND serial = ?2";

/// The row of a holder with a serial and a GRN, with the amount in use.
pub const BY_GRN: &str =
    "SELECT holder, serial, grn, reference, cover, ends, used FROM guarantees2 WHERE holder = ?1 AND serial = ?2 AND grn = ?3";

/// The row of a holder with a serial.
pub const BY_SERIAL: &str =
    "SELECT holder, serial, grn, reference, cover, ends FROM guarantees2 WHERE holder = ?1 AND serial = ?2";

/// The rows of a holder with serials from one on and below another, with the amounts in use.
pub const KEPT_WITHIN: &str =
    "SELECT holder, serial, grn, reference, cover, ends, used FROM guarantees2 WHERE holder = ?1 AND serial >= ?2 AND serial < ?3 ORDER BY holder, serial";

/// The rows of a holder behind a serial, with the amounts in use.
pub const NEXT_KEPT_OF_HOLDER: &str =
    "SELECT holder, serial, grn, reference, cover, ends, used FROM guarantees2 WHERE holder = ?1 AND serial > ?2 ORDER BY holder, serial";

/// The rows of the holders with a number above one, with the amounts in use.
pub const KEPT_OF_HOLDERS_ABOVE: &str =
    "SELECT holder, serial, grn, reference, cover, ends, used FROM guarantees2 WHERE holder > ?1 ORDER BY holder, serial";

/// All rows, with the amounts in use.
pub const KEPT_ALL: &str =
    "SELECT holder, serial, grn, reference, cover, ends, used FROM guarantees2 ORDER BY holder, serial";

/// The rows of a holder with serials from one on and below another, in a file of version 1.
pub const WITHIN1: &str =
    "SELECT holder, serial, grn, reference, cover, ends FROM guarantees1 WHERE holder = ?1 AND serial >= ?2 AND serial < ?3 ORDER BY holder, serial";

/// The same in a file of a later version.
pub const WITHIN2: &str =
    "SELECT holder, serial, grn, reference, cover, ends FROM guarantees2 WHERE holder = ?1 AND serial >= ?2 AND serial < ?3 ORDER BY holder, serial";

/// The rows of a holder behind a serial, in a file of version 1.
pub const NEXT_OF_HOLDER1: &str =
    "SELECT holder, serial, grn, reference, cover, ends FROM guarantees1 WHERE holder = ?1 AND serial > ?2 ORDER BY holder, serial";

/// The same in a file of a later version.
pub const NEXT_OF_HOLDER2: &str =
    "SELECT holder, serial, grn, reference, cover, ends FROM guarantees2 WHERE holder = ?1 AND serial > ?2 ORDER BY holder, serial";

/// All rows of the table of version 1 go.
pub const EMPTY_FIRST: &str = "DELETE FROM guarantees1";

/// The rows of a holder with serials in a range, in a file of that version.
pub fn within(version: u32) -> &'static str
    ensures { result.now ≡ within_text version }
{
    if version < VERSION_WITH_AMOUNTS {
        return WITHIN1;
    }
    WITHIN2
}

/// The rows of a holder behind a serial, in a file of that version.
pub fn next_of_holder(version: u32) -> &'static str
    ensures { result.now ≡ next_of_holder_text version }
{
    if version < VERSION_WITH_AMOUNTS {
        return NEXT_OF_HOLDER1;
    }
    NEXT_OF_HOLDER2
}
