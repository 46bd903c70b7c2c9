//! The office's own row in a store: the version of the tables and the office's country, read and written. Each function
//! runs one statement inside a transaction that the caller commits.
mod finding;
mod stored;
mod texts;
mod writing;

pub use finding::find_meta;
pub use stored::StoredMeta;
pub use writing::{insert_meta, set_version};
