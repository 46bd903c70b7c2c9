//! The statements of the audit: each but that on holders shows all rows of a table.
ghost use Rattle.std.specs.Prelude.{◌≡◌};
ghost use Rattle.td_store_audit_rows.specs.Versions.{guarantees_text, lines_text};

use td_schema::{VERSION_WITH_AMOUNTS, VERSION_WITH_MORE_LINES};

/// The rowids of the office's table and of the holders', rising.
pub const META_IDS: &str = "SELECT rowid FROM meta ORDER BY rowid";

pub const HOLDER_IDS: &str = "SELECT rowid FROM holders ORDER BY rowid";

/// The holders above a number, by their numbers.
pub const HOLDERS_ABOVE: &str =
    "SELECT holder, eori, last_at, grn_count, mrn_count FROM holders WHERE holder > ?1 ORDER BY holder";

/// All rows of the other tables, with their rowids, which rise: of guarantees in a file of version 1, and in a later
/// one; of lines in a file below version 3, and in a later one.
pub const GUARANTEES1: &str =
    "SELECT rowid, holder, serial, grn, reference, cover, ends FROM guarantees1 ORDER BY rowid";

pub const GUARANTEES2: &str =
    "SELECT rowid, holder, serial, grn, reference, cover, ends FROM guarantees2 ORDER BY rowid";

pub const CODES: &str = "SELECT rowid, holder, serial, code FROM codes ORDER BY rowid";

pub const MOVEMENTS: &str =
    "SELECT rowid, holder, serial, mrn, lrn, departure, destination, accepted, state, limit_day, arrival, actual FROM movements ORDER BY rowid";

pub const LINES1: &str =
    "SELECT rowid, holder, serial, no, guarantee, cents FROM lines1 ORDER BY rowid";

pub const LINES3: &str =
    "SELECT rowid, holder, serial, no, guarantee, cents FROM lines3 ORDER BY rowid";

/// All rows of guarantees in a file of that version.
pub fn guarantees_at(version: u32) -> &'static str
    ensures { result.now ≡ guarantees_text version }
{
    if version < VERSION_WITH_AMOUNTS {
        return GUARANTEES1;
    }
    GUARANTEES2
}

/// All rows of lines in a file of that version.
pub fn lines_at(version: u32) -> &'static str
    ensures { result.now ≡ lines_text version }
{
    if version < VERSION_WITH_MORE_LINES {
        return LINES1;
    }
    LINES3
}
