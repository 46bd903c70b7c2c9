//! The desk over a store's file: it is made in an empty database, or opened where one was made before, loads and writes
//! by transactions, shows the deadlines of its movements and its guarantees one after another, and gives its connection back. It
//! hands on why a database isn't a desk's.
#![tactic(auto)]

mod creating;
mod desk;
mod faults;
mod laws;
mod opening;
mod refused;
mod rows;
mod visits;

pub use desk::SqlDesk;
pub use laws::{
    acknowledged_decisions_are_kept, walks_give_what_is_listed, what_a_crash_leaves_opens,
};
pub use refused::Refused;
pub use rows::{GuaranteeRows, MovementRows};
pub use td_store_check::{OpenFault, Rule, audit, file_version};
pub use td_store_rows::{KeptGuarantee, MovementDeadlines};
pub use typed_sql::Visitor;
