//! Whether one holder's rows in a store's file keep the rules of sound tables, rule by rule, whatever stands in its tables, which
//! of the rules comes first, and what the database itself keeps of them: each CHECK, UNIQUE and FOREIGN KEY of the schema, read of
//! the rows. Each function that is given a transaction runs inside it and changes nothing.
#![tactic(auto)]

mod amounts;
mod codes;
mod codes_in_place;
mod connection;
mod cover;
mod finding;
mod guarantees;
mod holders;
mod laws;
mod lines;
mod lines_in_place;
mod movements;
mod office;
mod order;
mod tallies;
mod texts;
mod totals;

pub use amounts::is_holder_kept;
pub use codes::has_codes;
pub use connection::database_keeps;
pub use cover::is_holder_covered;
pub use finding::{codes_within, has_code_behind, has_line_behind, lines_within};
pub use guarantees::has_guarantees;
pub use holders::has_identity;
pub use laws::{
    older_files_have_nine_lines, schema_keeps_amounts, schema_keeps_codes, schema_keeps_guarantees,
    schema_keeps_holders, schema_keeps_lines, schema_keeps_movements, schema_keeps_tables,
};
pub use lines::kept_lines;
pub use movements::kept_movements;
pub use office::office_country;
pub use order::{comes_before, first_unread};
pub use tallies::{CountingSerials, HolderTotals};
pub use totals::{Totals, total_on};
