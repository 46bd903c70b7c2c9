//! The statements on the table of holders.

/// A new row.
pub const INSERT: &str = "INSERT INTO holders VALUES (?1, ?2, ?3, ?4, ?5)";

/// The row of a holder's number, set anew.
pub const SET: &str =
    "UPDATE holders SET eori = ?2, last_at = ?3, grn_count = ?4, mrn_count = ?5 WHERE holder = ?1";

/// The row of a holder's number.
pub const BY_NUMBER: &str =
    "SELECT holder, eori, last_at, grn_count, mrn_count FROM holders WHERE holder = ?1";
