//! Requests as commands: the desk's paths, and the body that each takes. It hands on why a request can't be read.
#![tactic(auto)]

mod bodies;
mod laws;
mod routes;
mod table;

pub use bodies::{path, read_command, read_command_by};
pub use laws::paths_are_found_as_by_matchit;
// `route` and `Route` are defined in two modules: names that differ only in case may not be of one.
pub use routes::{Routes, route};
pub use table::Route;
pub use td_fields::{Allowed, Field, WebFault, reason_name};
