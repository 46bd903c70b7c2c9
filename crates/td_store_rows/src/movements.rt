//! The movements of a store: what is read of their table, and what is written into it. Each function runs one statement
//! inside a transaction that the caller commits; a visit of all of them stands outside one.
mod finding;
mod stored;
mod texts;
mod visiting;
mod writing;

pub use finding::{
    counting_serials, find_by_lrn, find_by_mrn, first_movement_above, listed_within,
    movements_within, next_movement_of,
};
pub use stored::{MovementDeadlines, MovementInList, MovementSerial, StoredMovement};
pub use visiting::visit_deadlines;
pub use writing::{insert_movement, set_status};
