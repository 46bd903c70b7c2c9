//! Bodies of requests as commands, their fields, and why a request can't be read.
#![tactic(auto)]

mod bodies;
mod body_fields;
mod body_lines;
mod fault;

pub use bodies::{
    read_addition, read_amendment, read_arrival, read_control, read_declaration, read_opening,
    read_registration, read_release, read_removal, read_write_off,
};
pub use fault::{Allowed, Field, WebFault, reason_name};
