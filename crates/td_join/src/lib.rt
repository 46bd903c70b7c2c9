//! One desk's file joined to another of the same office's: the rows of all its holders are put beside those of the other's holders,
//! in one transaction, where no holder stands in both.
#![tactic(auto)]

mod both;
mod fault;
mod joining;
mod laws;

pub use fault::JoinFault;
pub use joining::join;
pub use laws::{
    accounts_are_of_either, parts_are_apart, parts_join_to_the_whole, sound_contents_join,
    splits_join_back,
};
