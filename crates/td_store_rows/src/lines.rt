//! The lines of movements in a store: what is read of their table, and what is written into it. Each function runs one
//! statement inside a transaction that the caller commits.
mod finding;
mod stored;
mod texts;
mod writing;

pub use finding::{lines_of, lines_on, older_lines};
pub use stored::StoredLine;
pub use writing::{empty_lines1, insert_line};
