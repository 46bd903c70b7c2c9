//! What is asked of the desk and what it says: commands and their owners, lines of declarations, what a verdict
//! needs of a holder's rows, answers and refusals.
#![tactic(auto)]

mod command;
mod lines;
mod lists;
mod needs;
mod said;

pub use command::{Command, Stamped, Subject, known, owner};
pub use lines::Lines;
pub use lists::{ListedGuarantees, ListedMovement, ListedMovements};
pub use needs::Needs;
pub use said::{Answer, Refusal, Said};
