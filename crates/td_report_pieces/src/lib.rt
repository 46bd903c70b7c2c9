//! The text of a report while rows are shown to it: lines are put behind one another and written in pieces, and the end tells why
//! the report isn't whole. It knows no table.
#![tactic(auto)]

mod fault;
mod pieces;

pub use fault::ReportFault;
pub use pieces::{Pieces, Report};
