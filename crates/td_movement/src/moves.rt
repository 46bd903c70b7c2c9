//! The moves of a movement from state to state.
ghost use Rattle.std.specs.Prelude.{◌≡◌, IfErr};
ghost use Rattle.std.specs.Result.{result_ok};
ghost use Rattle.td_movement.specs.States.{state_after};

use crate::state::{Control, Ground, State};
use thiserror::Error;

/// What may happen to a movement that was declared.
#[derive(Clone, Copy, Debug, PartialEq, Eq)]
pub enum Move {
    /// The holder's request to cancel the declaration (IE014).
    Cancel,
    /// Release for transit (IE029).
    Release,
    /// Arrival at an office (IE007).
    Arrive,
    /// The results of control at destination (IE018).
    Judge(Control),
    /// Write-off (IE045).
    WriteOff(Ground),
    /// An enquiry after a movement that has not arrived (IE140).
    Enquire,
}

/// The state of the movement doesn't allow the move.
#[derive(Clone, Copy, Debug, PartialEq, Eq, Error)]
#[error("wrong-state")]
pub struct WrongState {
    /// The state that the movement is in.
    pub state: State,
}

/// The state that a move leads to. `WrongState` where the table of moves has none for it, with the state as it is.
pub fn step(state: State, to: Move) -> Result<State, WrongState>
    ensures ok { result_ok result ≡ state_after state to }
    ensures err { IfErr result (λ wrong. wrong.state ≡ state) }
{
    match (state, to) {
        (State::Accepted, Move::Cancel) => Ok(State::Cancelled),
        (State::Accepted, Move::Release) => Ok(State::Released),
        (State::Released | State::Enquired, Move::Arrive) => Ok(State::Arrived),
        (State::Arrived | State::Discrepant, Move::Judge(Control::A1 | Control::A2)) => {
            Ok(State::Cleared)
        }
        (State::Arrived | State::Discrepant, Move::Judge(Control::B1)) => Ok(State::Discrepant),
        (State::Cleared, Move::WriteOff(Ground::Results)) => Ok(State::WrittenOff),
        (State::Enquired, Move::WriteOff(Ground::Proof)) => Ok(State::WrittenOff),
        (State::Released, Move::Enquire) => Ok(State::Enquired),
        _ => Err(WrongState { state }),
    }
}
