//! The tables of a store of SQLite: which of them stand in a file, their texts, how they are made, and the fields of a desk's
//! rows as their columns.
#![tactic(auto)]

mod columns;
mod layout;
mod making;
mod texts;

pub use columns::{
    amount_at, amount_of, amount_or_null, code_at, cover_at, cover_of, cover_or_null, day_at,
    day_of, day_or_null, eori_at, grn_at, holder_at, holder_key, lrn_at, moment_at, mrn_at,
    number_of, office_at, office_or_null, optional_day_at, optional_office_at, serial_at,
    serial_key, state_at,
};
pub use layout::{
    FIRST_VERSION, Layout, NEWEST_LAYOUT, NEWEST_VERSION, VERSION_WITH_AMOUNTS,
    VERSION_WITH_MORE_LINES,
};
pub use making::{is_blank, make_guarantees2, make_lines3, make_tables};
