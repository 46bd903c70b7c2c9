//! The statements on the table `meta`.

/// The row.
pub const INSERT: &str = "INSERT INTO meta VALUES (1, ?1, ?2)";

/// The version is set anew.
pub const SET_VERSION: &str = "UPDATE meta SET version = ?1";

/// All rows: there is one at most.
pub const FIND: &str = "SELECT version, country FROM meta";
