//! The rows of one holder in memory: what a change does to them, and what is loaded of them.
#![tactic(auto)]

mod amounts;
mod changes;
mod counted_rows;
mod file;
mod guarantee_rows;
mod lookups;
mod movement_rows;
mod serials;

pub use file::HolderFile;
