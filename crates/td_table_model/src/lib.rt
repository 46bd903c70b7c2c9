//! The six tables of a desk's file, of each version: what content they hold, what is looked up in them, what the
//! statements of each change do to them, and which rules they keep. It knows no SQL.
#![tactic(auto)]

mod laws;
mod rule;

pub use laws::{
    accounts_are_in_tables, amounts_are_use, changes_are_written, content_is_of_tables,
    references_tell_keys, rules_are_kept_each, rules_mean_sound_content, tables_grow,
};
pub use rule::Rule;
