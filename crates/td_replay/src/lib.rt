//! A journal's rows done again at any desk, each at its own moment, with what is said compared with what the rows say.
#![tactic(auto)]

mod following;
mod laws;
mod numbers;
mod reading;
mod replaying;

pub use following::{FollowFault, follow};
pub use laws::{
    changed_reply_is_told, changes_are_read_in_one_way, desk_is_rebuilt, part_differs_nowhere,
};
pub use numbers::{first_fall, first_gap};
pub use reading::{Changes, read_changes};
pub use replaying::{ReplayRun, replay};
