//! The layouts of a store's file: which tables stand in it, in which order they were made.

/// The first version of the tables.
pub const FIRST_VERSION: u32 = 1;

/// The version from which on the row of a guarantee keeps the amount in use on it.
pub const VERSION_WITH_AMOUNTS: u32 = 2;

/// The version from which on a movement may have more than nine lines.
pub const VERSION_WITH_MORE_LINES: u32 = 3;

/// The newest version of the tables.
pub const NEWEST_VERSION: u32 = VERSION_WITH_MORE_LINES;

/// The layout of a file that is made at the newest version.
pub const NEWEST_LAYOUT: Layout = Layout::Made3;

/// Which tables stand in a store's file, in the order in which they were made. The tables of an earlier version stay in a file
/// that was migrated, without rows.
#[derive(Clone, Copy, Debug, PartialEq, Eq)]
pub enum Layout {
    /// Made at version 1.
    Made1,
    /// Made at version 2.
    Made2,
    /// Made at version 1, and migrated to version 2.
    Grown2,
    /// Made at version 3.
    Made3,
    /// Made at version 2, and migrated to version 3.
    Grown3From2,
    /// Made at version 1, and migrated to version 2 and then to version 3.
    Grown3From1,
}
