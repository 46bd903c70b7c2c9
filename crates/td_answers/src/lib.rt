//! What is said, and why a request can't be read, as bytes.
#![tactic(auto)]

mod answers;
mod json;
mod lists;
mod objects;
mod refusals;

pub use answers::{answer_is_told_in, fault_bytes, fault_is_told_in, reply_bytes, said_body};
pub use refusals::refusal_is_told_in;
