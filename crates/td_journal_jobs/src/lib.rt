//! Jobs on journals: one that is done at a desk which keeps a journal, one that does a journal's rows again, and one that is done once
//! a journal was followed. It knows no file system: a journal's file is handed in, and handed back.
#![tactic(auto)]

mod following;
mod journaling;
mod laws;
mod replaying;

pub use following::Following;
pub use journaling::{Journaled, Journaling};
pub use laws::{
    a_batchs_changes_are_kept, a_servings_changes_are_kept, a_standby_goes_on,
    a_streams_changes_are_kept,
};
pub use replaying::Replaying;
pub use td_journal_start::StartFault;
pub use td_replay::FollowFault;
