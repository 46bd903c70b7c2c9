//! The rows of one holder, and the verdict on a command over these rows. The model that the verdict is proved
//! to meet is td_model's. What was loaded of an account, and what a desk decides, stands in `specs/`. It hands on
//! what is asked of the desk and what it says: commands, answers and refusals.
#![tactic(auto)]

mod declaring;
mod finding;
mod laws;
mod moving;
mod releasing;
mod rows;
mod serials;
// `verdict` isn't handed on here: a function and a type whose names differ only in case may not stand in one module.
pub mod table;
mod terms;
mod views;

pub use finding::{find_guarantee, find_movement_by_mrn};
pub use laws::{
    fresh_book_says_its_account, keeps_rows_sound, nobody_writes, other_form_names_nothing,
    writes_what_is_accepted, writes_what_the_book_says,
};
pub use rows::{Loaded, Verdict};
pub use td_commands::{
    Answer, Command, Lines, ListedGuarantees, ListedMovement, ListedMovements, Needs, Refusal,
    Said, Stamped, Subject, known, owner,
};
pub use td_model::{Change, HolderRow, NewStatus, NewTerms};
