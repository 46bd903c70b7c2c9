//! Files of rows, read whole: each row is a command, or the first bad row is told, and in it the first bad column.
#![tactic(auto)]

mod acts;
mod declarations;
mod fault;
mod reading;
mod rows;

pub use acts::ActRow;
pub use declarations::DeclarationRow;
pub use fault::BatchFault;
pub use reading::{read_acts, read_declarations};
