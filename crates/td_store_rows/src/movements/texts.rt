//! The statements on the table of movements.

/// A new row. A column that may be NULL is NULL where there is no day or no office.
pub const INSERT: &str =
    "INSERT INTO movements VALUES (?1, ?2, ?3, ?4, ?5, ?6, ?7, ?8, ?9, ?10, ?11)";

/// A new state, and what comes with it: a day or an office that is NULL leaves the one that is there.
pub const SET_STATUS: &str =
    "UPDATE movements SET state = ?4, limit_day = COALESCE(?5, limit_day), arrival = COALESCE(?6, arrival), actual = COALESCE(?7, actual) WHERE holder = ?1 AND serial = ?2 AND mrn = ?3";

/// The row of a holder with a serial and an MRN.
pub const BY_MRN: &str =
    "SELECT holder, serial, mrn, lrn, departure, destination, accepted, state, limit_day, arrival, actual FROM movements WHERE holder = ?1 AND serial = ?2 AND mrn = ?3";

/// The row of a holder with an LRN.
pub const BY_LRN: &str =
    "SELECT holder, serial, mrn, lrn, departure, destination, accepted, state, limit_day, arrival, actual FROM movements WHERE holder = ?1 AND lrn = ?2";

/// The rows of a holder with serials from one on and below another.
pub const WITHIN: &str =
    "SELECT holder, serial, mrn, lrn, departure, destination, accepted, state, limit_day, arrival, actual FROM movements WHERE holder = ?1 AND serial >= ?2 AND serial < ?3 ORDER BY holder, serial";

/// What a list shows of the rows of a holder with serials from one on and below another.
pub const LISTED_WITHIN: &str =
    "SELECT mrn, lrn, state FROM movements WHERE holder = ?1 AND serial >= ?2 AND serial < ?3 ORDER BY holder, serial";

/// The rows of a holder behind a serial.
pub const NEXT_OF_HOLDER: &str =
    "SELECT holder, serial, mrn, lrn, departure, destination, accepted, state, limit_day, arrival, actual FROM movements WHERE holder = ?1 AND serial > ?2 ORDER BY holder, serial";

/// The rows of the holders with a number above one.
pub const OF_HOLDERS_ABOVE: &str =
    "SELECT holder, serial, mrn, lrn, departure, destination, accepted, state, limit_day, arrival, actual FROM movements WHERE holder > ?1 ORDER BY holder, serial";

/// Of all rows what is read of deadlines.
pub const DEADLINES: &str =
    "SELECT holder, mrn, state, limit_day, arrival FROM movements ORDER BY holder, serial";

/// The serials of a holder's movements that count against their guarantees.
pub const COUNTING_SERIALS: &str =
    "SELECT serial FROM movements WHERE holder = ?1 AND state IN ('released', 'enquired', 'arrived', 'discrepant', 'cleared') ORDER BY holder, serial";
