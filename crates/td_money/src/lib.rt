//! Amounts of money, reference amounts and covers of guarantees.
#![tactic(auto)]

mod money;

pub use money::{Cents, Cover, Reference, cents_read_back};
