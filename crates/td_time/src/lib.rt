//! Days and moments of the desk.
#![tactic(auto)]

mod day;
mod moment;

pub use day::{Day, day_reads_back, days_begin_and_end};
pub use moment::{ClockRange, Moment};
