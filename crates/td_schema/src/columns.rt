//! The fields of a desk's rows as columns of tables: read from the columns that a statement shows, and given to statements
//! as values.
mod reading;
mod values;

pub use reading::{
    amount_at, code_at, cover_at, day_at, eori_at, grn_at, holder_at, lrn_at, moment_at, mrn_at,
    office_at, optional_day_at, optional_office_at, serial_at, state_at,
};
pub use values::{
    amount_of, amount_or_null, cover_of, cover_or_null, day_of, day_or_null, holder_key, number_of,
    office_or_null, serial_key,
};
