//! The rows of a store's file, table by table: what is read of each table and what is written into it. Each function runs one
//! statement inside a transaction that the caller commits, but for the two that visit a whole table, which stand outside one.
//! What the six tables are together, as the tables of a desk, stands in specs/.
#![tactic(auto)]

mod codes;
mod guarantees;
mod holders;
mod lines;
mod meta;
mod movements;
mod places;
mod ranges;

pub use codes::{StoredCode, codes_of, delete_code, insert_code};
pub use guarantees::{
    KeptGuarantee, StoredGuarantee, add_used, empty_guarantees1, find_by_serial, find_kept,
    first_kept_above, guarantees_within, insert_guarantee, kept_within, next_guarantee_of,
    next_kept_of, set_terms, take_used, visit_kept,
};
pub use holders::{find_holder, insert_holder, set_holder};
pub use lines::{StoredLine, empty_lines1, insert_line, lines_of, lines_on, older_lines};
pub use meta::{StoredMeta, find_meta, insert_meta, set_version};
pub use movements::{
    MovementDeadlines, MovementInList, MovementSerial, StoredMovement, counting_serials,
    find_by_lrn, find_by_mrn, first_movement_above, insert_movement, listed_within,
    movements_within, next_movement_of, set_status, visit_deadlines,
};
pub use places::{above_key, place_key, range_key};
pub use ranges::range_end;
