//! What the audit of a store's file reads of it, whatever stands in its tables: the rowids of each table, the holders one after
//! another, whether each row of the other tables is of its kinds and in range, and whether one holder's rows keep the rules of
//! sound tables. Each function changes nothing.
#![tactic(auto)]

mod holders;
mod ids;
mod in_place;
mod laws;
mod scanning;
mod tables;
mod texts;

pub use holders::{RawHolder, holder_above};
pub use in_place::{
    codes_belong, guarantees_are_in_place, lines_are_in_place, lines_belong, movements_are_in_place,
};
pub use laws::{content_keeps_rules, kept_rules_mean_content};
pub use tables::{Readable, readable_tables};
