//! The codes of guarantees in a store: what is read of their table, and what is written into it. Each function runs one
//! statement inside a transaction that the caller commits.
mod finding;
mod stored;
mod texts;
mod writing;

pub use finding::codes_of;
pub use stored::StoredCode;
pub use writing::{delete_code, insert_code};
