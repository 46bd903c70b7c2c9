//! One statement of SQL on a table: what an INSERT of a row, an UPDATE or a DELETE of one row, a DELETE of all and a
//! SELECT over one table did and showed, a walk along the rows of a SELECT and a visit of them, of which none is kept, and whether
//! the connection still answers.
//! It knows no desk.
#![tactic(auto)]

mod asking;
mod cells;
mod fetching;
mod rows;
mod statements;
mod visiting;
mod walking;

pub use asking::{ask, see_open, see_settled};
pub use cells::{integer_at, is_null_at, number_at, text_at};
pub use fetching::{fetch, fetch_first, fetch_one};
pub use rows::{FromRow, only, read_rows};
pub use statements::{delete, empty, insert, select, update};
pub use visiting::{Visitor, visit};
pub use walking::{Walker, walk};
