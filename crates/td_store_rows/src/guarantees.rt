//! The guarantees of a store: what is read of their tables, and what is written into them. Each function runs one
//! statement inside a transaction that the caller commits; a visit of all of them stands outside one.
mod finding;
mod stored;
mod texts;
mod visiting;
mod writing;

pub use finding::{
    find_by_serial, find_kept, first_kept_above, guarantees_within, kept_within, next_guarantee_of,
    next_kept_of,
};
pub use stored::{KeptGuarantee, StoredGuarantee};
pub use visiting::visit_kept;
pub use writing::{add_used, empty_guarantees1, insert_guarantee, set_terms, take_used};
