//! Whether two databases have the same tables and indexes, or the same table first. It knows no desk.
#![tactic(auto)]

mod objects;
mod same;
mod values;

pub use objects::{has_same_first_table, is_same_schema};
