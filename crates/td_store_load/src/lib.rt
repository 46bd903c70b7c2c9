//! What a verdict needs, loaded out of the tables of a store's file: guarantees with their codes and the amounts in use
//! that their rows keep, movements with their lines, and what is asked for of the rows of a command's owner; and what stands
//! next behind a place, whosever it is. Each function runs its statements inside a transaction, or in one of its own, and changes
//! nothing.
#![tactic(auto)]

mod alone;
mod entries;
mod following;
mod lists;
mod movements;
mod needs;
mod releases;

pub use alone::{read_following_guarantee, read_following_movement, read_needs};
pub use following::{following_guarantee, following_movement};
pub use needs::load;
