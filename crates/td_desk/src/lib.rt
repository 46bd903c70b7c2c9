//! The desk: its content, what it promises to weigh and to carry, the plain desk in memory, and runs of
//! commands.
#![tactic(auto)]

mod decision;
mod desk;
mod fault;
mod laws;
mod plain;
mod running;
mod store;

pub use decision::Decision;
pub use desk::Desk;
pub use fault::Fault;
pub use laws::{
    agreeing_runs_tell_the_same, empty_desk_is_tied, fresh_books_are_tied,
    releases_find_their_guarantees,
};
pub use plain::PlainDesk;
pub use running::{Outcome, do_one, run};
pub use store::Store;
pub use td_acts::{
    Answer, Change, Command, HolderRow, Lines, ListedGuarantees, ListedMovement, ListedMovements,
    Loaded, Needs, NewStatus, NewTerms, Refusal, Said, Stamped, Subject, Verdict, owner,
};
