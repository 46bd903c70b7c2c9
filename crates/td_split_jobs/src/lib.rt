//! Files of rows, and requests, split among many desks by holder: laws that many desks are as one.
#![tactic(auto)]

mod laws;
mod request_laws;
mod running;
mod serving;

pub use laws::{batches_hold_as_one, batches_tell_as_one, result_is_gathered, rows_are_gathered};
pub use request_laws::{replies_are_gathered, servings_hold_as_one, servings_tell_as_one};
pub use running::{run_act_share, run_declaration_share};
pub use serving::serve_share;
