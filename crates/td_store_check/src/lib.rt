//! Whether the database of an open connection is one that a desk was made in: its tables, the version and the country in the office's own
//! row, and the rules of its rows, one after another; and why it isn't.
#![tactic(auto)]

mod auditing;
mod fault;
mod judging;
mod office;
mod rules;
mod schema;
mod versions;

pub use auditing::audit;
pub use fault::{OpenFault, open_fault_of};
pub use judging::refusal;
pub use td_table_model::Rule;
pub use versions::file_version;
