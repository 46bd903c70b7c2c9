//! Rows that have patterns of paths, and the row whose pattern a path fits.
//!
//! Paths are compared by their segments, which stand between slashes. A segment of a pattern is a text or a
//! name in braces: the text fits itself, and a name fits any segment that isn't empty.
#![tactic(auto)]

mod laws;
mod parts;
mod table;

pub use laws::rows_are_found_as_by_matchit;
pub use parts::Parts;
pub use table::{Found, PathTable, Row};
