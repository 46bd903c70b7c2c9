//! Rows under keys: lists whose rows stand in ascending order of a number that each row has, no two alike.
#![tactic(auto)]

mod rows;

pub use rows::{Keyed, find_row, rows_below};
