//! The statements on the table of lines.

/// A new row.
pub const INSERT: &str = "INSERT INTO lines3 VALUES (?1, ?2, ?3, ?4, ?5)";

/// The rows of a movement, by their numbers.
pub const OF_MOVEMENT: &str =
    "SELECT holder, serial, no, guarantee, cents FROM lines3 WHERE holder = ?1 AND serial = ?2 ORDER BY holder, serial, no";

/// The rows of a holder's lines on a guarantee, in a file below version 3.
pub const ON_GUARANTEE: &str =
    "SELECT holder, serial, no, guarantee, cents FROM lines1 WHERE holder = ?1 AND guarantee = ?2";

/// All rows, in a file below version 3.
pub const ALL_FIRST: &str = "SELECT holder, serial, no, guarantee, cents FROM lines1";

/// All rows of the table below version 3 go.
pub const EMPTY_FIRST: &str = "DELETE FROM lines1";
