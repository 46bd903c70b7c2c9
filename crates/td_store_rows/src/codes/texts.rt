//! The statements on the table of codes.

/// A new row.
pub const INSERT: &str = "INSERT INTO codes VALUES (?1, ?2, ?3)";

/// The row of a code goes.
pub const DELETE: &str = "DELETE FROM codes WHERE holder = ?1 AND serial = ?2 AND code = ?3";

/// The rows of a guarantee, by their codes.
pub const OF_GUARANTEE: &str =
    "SELECT holder, serial, code FROM codes WHERE holder = ?1 AND serial = ?2 ORDER BY holder, serial, code";
