//! What the runs share: readers, what a job left and has to leave, and comparisons of what came with what is due.
mod comparing;
pub mod devices;
mod jobs;
pub mod refusals;

pub use comparing::{assert_equal, assert_text};
pub use jobs::{Done, Due, assert_due, words_of};
