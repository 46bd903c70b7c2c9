//! Comprehensive guarantees (Common Transit Convention, Appendix I): their terms, and the amount in use on them,
//! added up.
#![tactic(auto)]

mod codes;
mod guarantee;
mod laws;
mod terms;
mod usage;

pub use codes::{Codes, MOST_CODES};
pub use guarantee::Guarantee;
pub use laws::a_step_changes_the_use;
pub use terms::{ended, fits, guaranteed};
pub use usage::in_use;
