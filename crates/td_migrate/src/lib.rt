//! A store's file brought from an earlier version of its tables to the newest: one transaction for each version, whole or not begun,
//! after the file's rows were audited.
#![tactic(auto)]

mod amounts;
mod fault;
mod filling;
mod growing;
mod lines;
mod serials;
mod upgrading;

pub use fault::MigrateFault;
pub use upgrading::{upgrade, version};
