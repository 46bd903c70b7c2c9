//! Transit movements: what is kept of them, their states, the moves from state to state, and the days by
//! which something is due.
#![tactic(auto)]

mod line;
mod movement;
mod moves;
mod state;
mod times;

pub use line::{Line, MOST_LINE_CENTS, MOST_LINES, MovementLines};
pub use movement::Movement;
pub use moves::{Move, WrongState, step};
pub use state::{Control, Ground, State, counts, names_differ};
pub use times::{Overdue, is_overdue, may_enquire};
