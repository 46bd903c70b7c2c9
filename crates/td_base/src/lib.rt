//! The vocabulary of the desk: holders, references and check digits, and codes. It hands on money, the
//! days and moments, and the readers and writers that are counted.
#![tactic(auto)]

mod access_code;
mod checking;
mod country;
mod eori;
mod grn;
mod holder;
mod laws;
mod lrn;
mod mrn;
mod office;
mod references;

pub use access_code::AccessCode;
pub use checking::{check_digit, letter_values_skip_elevens};
pub use counted_io::{Counted, write_whole};
pub use country::Country;
pub use eori::Eori;
pub use grn::{GREATEST_GRN_SERIAL, Grn, made_grn_reads_back};
pub use holder::{HolderNo, holder_reads_back};
pub use laws::{read_texts_are_printed, texts_read_back};
pub use lrn::Lrn;
pub use mrn::{
    GREATEST_MRN_SERIAL, GREATEST_OLDER_MRN_SERIAL, Mrn, made_mrn_reads_back,
    made_older_mrn_reads_back, owned_mrns_are_made,
};
pub use office::OfficeNo;
pub use references::{RefFault, made_references_differ};
pub use td_money::{Cents, Cover, Reference, cents_read_back};
pub use td_time::{ClockRange, Day, Moment, day_reads_back, days_begin_and_end};
