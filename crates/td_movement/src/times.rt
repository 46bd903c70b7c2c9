//! The days by which a movement has to arrive, to be controlled, and to be asked after.
ghost use Rattle.std.specs.Prelude.{◌≡◌};
ghost use Rattle.td_movement.specs.Status.{enquiry_is_open, overdue};

use crate::state::State;
use td_base::Day;

/// How many days after the limit an enquiry may begin.
const DAYS_TO_ENQUIRY: i64 = 7;

/// How many days after the arrival control is due.
const DAYS_TO_CONTROL: u32 = 6;

/// Whether an office may ask after a movement (IE140) on a day: from the seventh day after the limit on.
pub fn may_enquire(limit: Day, day: Day) -> bool
    ensures { result ≡ enquiry_is_open limit day }
{
    day.number() >= limit.number() + DAYS_TO_ENQUIRY
}

/// What a movement is overdue for.
#[derive(Clone, Copy, Debug, PartialEq, Eq)]
pub enum Overdue {
    /// Arrival, which was due on this day.
    Arrival(Day),
    /// Control at destination, which was due on this day.
    Control(Day),
}

/// What a movement is overdue for on the day of a report, if anything: a released or enquired one for arrival
/// after its limit, an arrived one for control after the sixth day from its arrival.
pub fn is_overdue(
    state: State,
    limit: Option<Day>,
    arrival: Option<Day>,
    report: Day,
) -> Option<Overdue>
    ensures { result ≡ overdue state limit arrival report }
{
    match state {
        State::Released | State::Enquired => {
            let due = limit?;
            if due >= report {
                return None;
            }
            Some(Overdue::Arrival(due))
        }
        State::Arrived => {
            let due = arrival?.plus_days(DAYS_TO_CONTROL)?;
            if due >= report {
                return None;
            }
            Some(Overdue::Control(due))
        }
        _ => None,
    }
}
