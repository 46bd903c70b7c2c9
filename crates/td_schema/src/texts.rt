//! The texts that make the tables. All are STRICT: a column takes values of its own type alone.

/// The office's own row: the version of the tables and the office's country.
pub const META: &str =
    "CREATE TABLE meta (one INTEGER PRIMARY KEY CHECK (one = 1), version INTEGER NOT NULL, country TEXT NOT NULL) STRICT";

/// The holders: their EORI, the moment of their last accepted change, and how many guarantees and movements they have had.
pub const HOLDERS: &str =
    "CREATE TABLE holders (holder INTEGER PRIMARY KEY CHECK (holder BETWEEN 1 AND 999999), eori TEXT NOT NULL, last_at INTEGER NOT NULL, grn_count INTEGER NOT NULL, mrn_count INTEGER NOT NULL) STRICT";

/// The codes of guarantees.
pub const CODES: &str =
    "CREATE TABLE codes (holder INTEGER NOT NULL REFERENCES holders, serial INTEGER NOT NULL, code TEXT NOT NULL, PRIMARY KEY (holder, serial, code)) STRICT";

/// The movements: where they begin and end, when they were accepted, their state, and what came with it.
pub const MOVEMENTS: &str =
    "CREATE TABLE movements (holder INTEGER NOT NULL REFERENCES holders, serial INTEGER NOT NULL, mrn TEXT NOT NULL UNIQUE, lrn TEXT NOT NULL, departure TEXT NOT NULL, destination TEXT NOT NULL, accepted INTEGER NOT NULL, state TEXT NOT NULL CHECK (state IN ('accepted', 'cancelled', 'released', 'enquired', 'arrived', 'discrepant', 'cleared', 'written-off')), limit_day INTEGER, arrival INTEGER, actual TEXT, PRIMARY KEY (holder, serial), UNIQUE (holder, lrn)) STRICT";

/// The guarantees at version 1: the reference amount in cents, the cover in hundredths, and the day on which it ends.
pub const GUARANTEES: &str =
    "CREATE TABLE guarantees1 (holder INTEGER NOT NULL REFERENCES holders, serial INTEGER NOT NULL, grn TEXT NOT NULL UNIQUE, reference INTEGER NOT NULL CHECK (reference BETWEEN 1 AND 1000000000000000), cover INTEGER NOT NULL CHECK (cover IN (0, 30, 50, 100)), ends INTEGER, PRIMARY KEY (holder, serial)) STRICT";

/// The lines of movements below version 3, up to nine of each: the serial of the guarantee, and the liability in cents.
pub const LINES: &str =
    "CREATE TABLE lines1 (holder INTEGER NOT NULL, serial INTEGER NOT NULL, no INTEGER NOT NULL CHECK (no BETWEEN 1 AND 9), guarantee INTEGER NOT NULL, cents INTEGER NOT NULL CHECK (cents BETWEEN 1 AND 1000000000000), PRIMARY KEY (holder, serial, no), UNIQUE (holder, serial, guarantee), FOREIGN KEY (holder, serial) REFERENCES movements) STRICT";

/// The lines from version 3 on: the same, and up to 99 of a movement.
pub const LINES3: &str =
    "CREATE TABLE lines3 (holder INTEGER NOT NULL, serial INTEGER NOT NULL, no INTEGER NOT NULL CHECK (no BETWEEN 1 AND 99), guarantee INTEGER NOT NULL, cents INTEGER NOT NULL CHECK (cents BETWEEN 1 AND 1000000000000), PRIMARY KEY (holder, serial, no), UNIQUE (holder, serial, guarantee), FOREIGN KEY (holder, serial) REFERENCES movements) STRICT";

/// The guarantees from version 2 on: the same, and the amount in use in cents.
pub const GUARANTEES2: &str =
    "CREATE TABLE guarantees2 (holder INTEGER NOT NULL REFERENCES holders, serial INTEGER NOT NULL, grn TEXT NOT NULL UNIQUE, reference INTEGER NOT NULL CHECK (reference BETWEEN 1 AND 1000000000000000), cover INTEGER NOT NULL CHECK (cover IN (0, 30, 50, 100)), ends INTEGER, used INTEGER NOT NULL CHECK (used BETWEEN 0 AND reference), PRIMARY KEY (holder, serial)) STRICT";
