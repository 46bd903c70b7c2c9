//! Laws that tie a desk which keeps a journal, what a crash leaves of it, and the next start.
#![tactic(auto)]

mod doing;
mod laws;

pub use doing::a_command_is_done;
pub use laws::{
    a_crash_between_is_made_good, a_crash_is_made_good, a_run_is_at_rest, a_run_is_whole,
    a_start_is_whole, an_answer_is_at_rest, no_start_is_foreign, rows_are_done,
};
