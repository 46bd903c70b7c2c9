//! Batches: rows of files, each a command, done one after another at a desk. It hands on the rows, and their reading.
#![tactic(auto)]

mod laws;
mod results;
mod running;

pub use laws::{
    a_batch_done_again_changes_nothing, agreeing_batches_tell_the_same,
    an_answered_declaration_is_answered_again,
};
pub use running::{BatchRun, run_acts, run_declarations};
pub use td_batch_rows::{ActRow, BatchFault, DeclarationRow, read_acts, read_declarations};
