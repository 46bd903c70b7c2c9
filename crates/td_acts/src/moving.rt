//! What moves a movement from state to state.
ghost use Rattle.std.specs.Prelude.{◌≡◌, Some, IfOk, MatchResult};
ghost use Rattle.td_movement.specs.declared.movement.Movement.{Movement};
ghost use Rattle.td_movement.specs.States.{state_after};
ghost use Rattle.td_commands.specs.declared.said.Said.{Said};
ghost use Rattle.td_commands.specs.declared.said.Said.TheVariants.{Refused};
ghost use Rattle.td_model.specs.Account.{movement_by_mrn};
ghost use Rattle.td_acts.specs.Deciding.{IsVerdictAt};
ghost use Rattle.td_model.specs.Table.{is_late, may_be_asked_after, on_movement};

use crate::finding::find_movement_by_mrn;
use crate::rows::{Loaded, Verdict};
use td_base::{Day, HolderNo, Moment, Mrn, OfficeNo};
use td_commands::{Answer, Command, Refusal, Said};
use td_model::{Change, HolderRow, NewStatus};
use td_movement::{Control, Ground, Move, Movement, State, may_enquire, step};

/// A movement that moves, the row of its holder, and the state to which it moves.
#[derive(Clone, Copy)]
pub struct Moving<'a> {
    pub row: HolderRow,
    pub movement: &'a Movement,
    pub state: State,
}

/// The movement that a command moves. A refusal where the holder isn't registered, for that reason; where the
/// moment is before the holder's last change; where the movement isn't there; and where its state doesn't have
/// the move.
pub fn find_moving<'a>(
    loaded: &'a Loaded,
    unregistered: Refusal,
    at: Moment,
    mrn: &Mrn,
    to: Move,
) -> Result<Moving<'a>, Refusal>
    ensures row { IfOk result (λ moving. loaded.now.holder ≡ Some moving.row) }
    ensures found { IfOk result (λ moving.
        movement_by_mrn mrn.now loaded.now.movements.items ≡ Some moving.movement.now) }
    ensures state { IfOk result (λ moving. state_after moving.movement.now.state to ≡ Some moving.state) }
    ensures said { (said_of : Movement → Said) → MatchResult result
        (λ moving. on_movement unregistered loaded.now.holder at
        (movement_by_mrn mrn.now loaded.now.movements.items) to said_of
        ≡ said_of moving.movement.now)
        (λ why. on_movement unregistered loaded.now.holder at
        (movement_by_mrn mrn.now loaded.now.movements.items) to said_of
        ≡ Refused why) }
{
    let row = loaded.holder.ok_or(unregistered)?;
    if at < row.last_at {
        return Err(Refusal::ClockBack);
    }
    let movement = find_movement_by_mrn(&loaded.movements, mrn).ok_or(Refusal::NoMovement)?;
    match step(movement.state, to) {
        Ok(state) => Ok(Moving {
            row,
            movement,
            state,
        }),
        Err(wrong) => Err(Refusal::WrongState { state: wrong.state }),
    }
}

impl Moving<'_> {
    ghost use Rattle.std.specs.Prelude.{◌≡◌};
    ghost use Rattle.td_acts.specs.Deciding.{touched};

    /// The verdict that moves it, by this answer and with this status.
    pub fn verdict(&self, at: Moment, answer: Answer, status: NewStatus) -> Verdict
        ensures said { result.said ≡ Said.Answered answer }
        ensures change { result.change ≡ Change.Moved (touched self.now.row at) status }
    {
        Verdict {
            said: Said::Answered(answer),
            change: Change::Moved(
                HolderRow {
                    last_at: at,
                    ..self.row
                },
                status,
            ),
        }
    }
}

/// The verdict on a holder's request to cancel a declaration (IE014).
pub fn cancel(loaded: &Loaded, at: Moment, holder: HolderNo, mrn: &Mrn) -> Verdict
    ensures { IsVerdictAt loaded.now at (Command.Ie014 holder mrn.now) result }
{
    match find_moving(loaded, Refusal::NoHolder, at, mrn, Move::Cancel) {
        Err(why) => Verdict::refused(why),
        Ok(moving) => {
            let answer = Answer::Ie014 {
                mrn: moving.movement.mrn,
            };
            moving.verdict(at, answer, NewStatus::of(*mrn, moving.state))
        }
    }
}

/// The verdict on an arrival (IE007).
pub fn arrive(loaded: &Loaded, at: Moment, mrn: &Mrn, office: OfficeNo) -> Verdict
    ensures { IsVerdictAt loaded.now at (Command.Ie007 mrn.now office) result }
{
    match find_moving(loaded, Refusal::NoMovement, at, mrn, Move::Arrive) {
        Err(why) => Verdict::refused(why),
        Ok(moving) => {
            let day = Day::of_moment(at);
            let answer = Answer::Ie006 {
                late: is_late(moving.movement.limit, day),
                mrn: moving.movement.mrn,
            };
            let status = NewStatus {
                arrival: Some(day),
                actual: Some(office),
                ..NewStatus::of(*mrn, moving.state)
            };
            moving.verdict(at, answer, status)
        }
    }
}

/// The verdict on the result of a control at destination (IE018).
pub fn judge(loaded: &Loaded, at: Moment, mrn: &Mrn, control: Control) -> Verdict
    ensures { IsVerdictAt loaded.now at (Command.Ie018 mrn.now control) result }
{
    match find_moving(loaded, Refusal::NoMovement, at, mrn, Move::Judge(control)) {
        Err(why) => Verdict::refused(why),
        Ok(moving) => {
            let answer = Answer::Ie018 {
                mrn: moving.movement.mrn,
                state: moving.state,
            };
            moving.verdict(at, answer, NewStatus::of(*mrn, moving.state))
        }
    }
}

/// The verdict on a write-off (IE045).
pub fn write_off(loaded: &Loaded, at: Moment, mrn: &Mrn, ground: Ground) -> Verdict
    ensures { IsVerdictAt loaded.now at (Command.Ie045 mrn.now ground) result }
{
    match find_moving(loaded, Refusal::NoMovement, at, mrn, Move::WriteOff(ground)) {
        Err(why) => Verdict::refused(why),
        Ok(moving) => {
            let answer = Answer::Ie045 {
                mrn: moving.movement.mrn,
            };
            moving.verdict(at, answer, NewStatus::of(*mrn, moving.state))
        }
    }
}

/// The verdict on a request on a movement that has not arrived (IE140).
pub fn enquire(loaded: &Loaded, at: Moment, mrn: &Mrn) -> Verdict
    ensures { IsVerdictAt loaded.now at (Command.Ie140 mrn.now) result }
{
    match find_moving(loaded, Refusal::NoMovement, at, mrn, Move::Enquire) {
        Err(why) => Verdict::refused(why),
        Ok(moving) => {
            if !may_be_asked_after(moving.movement.limit, Day::of_moment(at)) {
                return Verdict::refused(Refusal::TooEarly);
            }
            let answer = Answer::Ie140 {
                mrn: moving.movement.mrn,
            };
            moving.verdict(at, answer, NewStatus::of(*mrn, moving.state))
        }
    }
}

// Whether an arrival on a day is after the limit.
fn is_late(limit: Option<Day>, day: Day) -> bool
    ensures { result ≡ is_late limit day }
{
    match limit {
        None => false,
        Some(limit) => limit < day,
    }
}

// Whether an office may ask on a day after a movement with this limit.
fn may_be_asked_after(limit: Option<Day>, day: Day) -> bool
    ensures { result ≡ may_be_asked_after limit day }
{
    match limit {
        None => false,
        Some(limit) => may_enquire(limit, day),
    }
}
