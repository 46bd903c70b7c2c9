//! A desk's file of the holders of a range: their rows, and no others, copied out of a desk's file into a database without tables, in
//! one transaction.
#![tactic(auto)]

mod copying;
mod extracting;
mod fault;
mod holders;
mod laws;
mod putting;

pub use extracting::extract;
pub use holders::{copy_holders, next_holder};
pub use laws::{accounts_are_of_the_range, sound_parts_are_sound};
