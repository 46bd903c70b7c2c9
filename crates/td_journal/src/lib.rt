//! A desk that keeps a journal: the row of each accepted change is written and synced before the change is carried.
#![tactic(auto)]

mod desk;
mod journal;
mod laws;

pub use desk::JournaledDesk;
pub use journal::Journal;
pub use laws::{
    a_batch_is_journaled, a_part_tells_the_same, a_serving_is_journaled, a_stream_is_journaled,
};
