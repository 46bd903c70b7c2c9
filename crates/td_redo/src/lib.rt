//! The last change of a journal, done again: laws of commands that are asked again at their moment, and the call that redoes
//! a row.
#![tactic(auto)]

mod laws;
mod redoing;

pub use laws::{
    another_grn, body_is_enough, crash_leaves_either, declared_once, done_twice, ends_as_redone,
    grn_is_enough, journal_makes_one_content, not_the_last_but_one, one_ending, redo,
    redone_over_its_beginning, redone_over_its_end, redone_twice, row_is_said_again,
    row_that_is_due_is_carried, row_that_stands_is_told, said_the_second_time, stands_is_told,
    start_after_crash_is_whole, start_is_whole, start_may_begin_again, twice_at_a_desk,
};
pub use redoing::{Redone, redo_row, said_is_told_in};
