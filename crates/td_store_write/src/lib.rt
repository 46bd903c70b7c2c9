//! A store's file is made, and what a change says is written into its tables: one INSERT a new row, one UPDATE a row
//! that changes, one DELETE a row that goes, and one UPDATE a line by which an amount in use changes; all of them in
//! one transaction, whose commit is the last call of the database.
#![tactic(auto)]

mod amounts;
mod carrying;
mod changes;
mod creating;
mod laws;
mod lists;

pub use carrying::carry_change;
pub use creating::create_tables;
pub use laws::decisions_are_written;
