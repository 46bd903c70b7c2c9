//! The statements: each shows the rows of a holder.
ghost use Rattle.std.specs.Prelude.{◌≡◌};
ghost use Rattle.td_store_audit.specs.LineTexts.{lines_behind_text, lines_within_text};

use td_schema::VERSION_WITH_MORE_LINES;

/// The codes of guarantees with serials from one on and below another, by these.
pub const CODES_WITHIN: &str =
    "SELECT holder, serial, code FROM codes WHERE holder = ?1 AND serial >= ?2 AND serial < ?3 ORDER BY holder, serial, code";

/// The codes of guarantees behind a serial, by their serials.
pub const CODES_BEHIND: &str =
    "SELECT holder, serial, code FROM codes WHERE holder = ?1 AND serial > ?2 ORDER BY holder, serial, code";

/// The lines of movements with serials from one on and below another, by these and by their numbers, in a file below version 3.
pub const LINES1_WITHIN: &str =
    "SELECT holder, serial, no, guarantee, cents FROM lines1 WHERE holder = ?1 AND serial >= ?2 AND serial < ?3 ORDER BY holder, serial, no";

/// The same in a file of a later version.
pub const LINES3_WITHIN: &str =
    "SELECT holder, serial, no, guarantee, cents FROM lines3 WHERE holder = ?1 AND serial >= ?2 AND serial < ?3 ORDER BY holder, serial, no";

/// The lines of movements behind a serial, by their serials and by their numbers, in a file below version 3.
pub const LINES1_BEHIND: &str =
    "SELECT holder, serial, no, guarantee, cents FROM lines1 WHERE holder = ?1 AND serial > ?2 ORDER BY holder, serial, no";

/// The same in a file of a later version.
pub const LINES3_BEHIND: &str =
    "SELECT holder, serial, no, guarantee, cents FROM lines3 WHERE holder = ?1 AND serial > ?2 ORDER BY holder, serial, no";

/// The office's own row: its version and its country.
pub const OFFICE: &str = "SELECT version, country FROM meta";

/// The lines of movements in a range of serials, in a file of that version.
pub fn lines_within_at(version: u32) -> &'static str
    ensures { result.now ≡ lines_within_text version }
{
    if version < VERSION_WITH_MORE_LINES {
        return LINES1_WITHIN;
    }
    LINES3_WITHIN
}

/// The lines of movements behind a serial, in a file of that version.
pub fn lines_behind_at(version: u32) -> &'static str
    ensures { result.now ≡ lines_behind_text version }
{
    if version < VERSION_WITH_MORE_LINES {
        return LINES1_BEHIND;
    }
    LINES3_BEHIND
}
