//! The start of a desk that keeps a journal: its last row is asked again, and a torn one behind it is cut off.
#![tactic(auto)]

mod laws;
mod refused;
mod starting;
mod tail;

pub use laws::{
    journal_is_read, no_row_is_foreign, not_refused_again, start_is_whole, started_twice,
};
pub use refused::{Refused, StartFault};
pub use starting::start_journal;
