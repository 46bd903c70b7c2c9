//! The holders of a store: what is read of their table, and what is written into it. Each function runs one statement
//! inside a transaction that the caller commits.
mod finding;
mod stored;
mod texts;
mod writing;

pub use finding::find_holder;
pub use writing::{insert_holder, set_holder};
