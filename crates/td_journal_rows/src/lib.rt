//! Accepted changes as rows of a journal: the request that asks for a command, in one form, which is read back as just that
//! command.
#![tactic(auto)]

mod laws;
mod requests;
mod rows;

pub use laws::{
    changes_are_rows, command_is_typed, days_read_back, request_reads_back, requests_read_back,
    rows_read_back,
};
pub use requests::{RequestText, request_of};
pub use rows::{
    JournalFault, JournalRow, JournalRows, csv_line, first_line, read_row, read_rows,
    row_of_change, write_row,
};
