//! Reports on the rows of a desk's file: the movements that are overdue, and the guarantees with the amounts in use on them. Rows
//! are read one at a time, and the text is written in pieces.
#![tactic(auto)]

mod lines;
mod reports;
mod rows;

pub use reports::{guarantees, overdue};
pub use td_report_pieces::ReportFault;
