//! The file in which a desk's records stand: opened by its path on a drive, with a desk over it, to be brought to the newest version of
//! its tables, to have the holders of a range copied out of it, or to have another desk's rows put into it; and closed. And the file of a
//! journal.
#![tactic(auto)]

mod desks;
mod extracts;
mod files;
mod joins;
mod upgrades;

pub use desks::{DeskFault, FileDesk};
pub use files::{Closed, DeskFile, OneFile};
pub use joins::JoinRefusal;
pub use td_store::OpenFault;
