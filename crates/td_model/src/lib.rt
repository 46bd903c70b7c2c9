//! The model of the desk, to be read aloud: what a holder's account is, what the holder's own book says of it, the table of refusals and
//! answers, the machine of one holder, and what a desk contains and a change makes of it. All of it stands in specs/; beside it there are
//! the types of rows that the model names and the vocabulary doesn't have.
#![tactic(auto)]

mod change;
mod holder_row;

pub use change::{Change, NewStatus, NewTerms};
pub use holder_row::HolderRow;
