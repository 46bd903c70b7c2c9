//! The rows of a journal as its lines: each is exactly the row of a change.
#![tactic(auto)]

mod lines;

pub use lines::{ChangeRow, row_of};
