//! The jobs that are done at any desk: one stream, connections to a port, the rows of a batch, or nothing at all; at one
//! moment or by the machine's clock. It knows no desk's file: the rows of a batch are read from one by its path, and no more.
#![tactic(auto)]

mod checking;
mod job;
mod piping;
mod rows;
mod serving;

pub use checking::Checking;
pub use job::{DeskJob, in_memory};
pub use piping::Piping;
pub use rows::{Rows, RowsFault};
pub use serving::ServingEnd;
