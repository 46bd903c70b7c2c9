//! Readers and writers that count their calls and know whether the last one failed.
#![tactic(auto)]

mod counted;
mod writing;

pub use counted::Counted;
pub use writing::write_whole;
