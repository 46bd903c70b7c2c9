//! Releases for transit: the limit, and the tests of the movement's lines.
ghost use Rattle.std.specs.Prelude.{◌≡◌, ◌-◌};
ghost use Rattle.td_acts.specs.Deciding.{IsVerdictAt, entry_by_grn};
ghost use Rattle.td_model.specs.Declaring.{cover_refusal, first_uncovered, is_limit};

use crate::finding::find_entry;
use crate::moving::find_moving;
use crate::rows::{Loaded, Verdict};
use td_base::{Cents, Day, Moment, Mrn};
use td_commands::{Answer, Command, Refusal};
use td_guarantee::{Guarantee, ended, fits};
use td_model::NewStatus;
use td_movement::{Line, Move};

/// How many days after its release a movement's limit may be at most.
const MAX_DAYS_TO_LIMIT: i64 = 365;

/// The verdict on a release for transit (IE029) with a limit.
pub fn release(loaded: &Loaded, at: Moment, mrn: &Mrn, limit: Day) -> Verdict
    ensures { IsVerdictAt loaded.now at (Command.Ie029 mrn.now limit) result }
{
    match find_moving(loaded, Refusal::NoMovement, at, mrn, Move::Release) {
        Err(why) => Verdict::refused(why),
        Ok(moving) => {
            let day = Day::of_moment(at);
            if !is_limit(day, limit) {
                return Verdict::refused(Refusal::LimitDate);
            }
            let lines = moving.movement.lines.as_slice();
            if let Some(why) = find_uncovered(day, &loaded.guarantees, lines) {
                return Verdict::refused(why);
            }
            let answer = Answer::Ie029 {
                limit,
                mrn: moving.movement.mrn,
            };
            let status = NewStatus {
                limit: Some(limit),
                ..NewStatus::of(*mrn, moving.state)
            };
            moving.verdict(at, answer, status)
        }
    }
}

// Whether a limit may be set on a day: from the day itself to the 365th day after.
fn is_limit(day: Day, limit: Day) -> bool
    ensures { result ≡ is_limit day limit }
{
    day <= limit && limit.number() <= day.number() + MAX_DAYS_TO_LIMIT
}

// Why a line isn't released on a day: its guarantee's end, and what is free on it.
fn refuse_cover(day: Day, entries: &[(Guarantee, Cents)], line: &Line) -> Option<Refusal>
    ensures { result ≡ cover_refusal day line.now.cents (entry_by_grn line.now.grn entries.now) }
{
    let Some((guarantee, used)) = find_entry(entries, &line.grn) else {
        return Some(Refusal::NoGuarantee);
    };
    if ended(guarantee.ends, day) {
        return Some(Refusal::GuaranteeEnded);
    }
    if fits(guarantee.reference, *used, line.cents) {
        return None;
    }
    Some(Refusal::OverReference {
        free: free_on(guarantee.reference, *used),
        grn: guarantee.grn,
    })
}

// What is left of a reference amount beside the amount in use.
fn free_on(reference: Cents, used: Cents) -> Cents
    ensures { result ≡ reference - used }
{
    Cents::new(reference.get().saturating_sub(used.get())).unwrap_or(reference)
}

// Why the first of the lines that isn't released isn't.
fn find_uncovered(day: Day, entries: &[(Guarantee, Cents)], lines: &[Line]) -> Option<Refusal>
    ensures { result ≡ first_uncovered day (λ grn. entry_by_grn grn entries.now) lines.now }
{
    for line in lines {
        let refusal = refuse_cover(day, entries, line);
        if refusal.is_some() {
            return refusal;
        }
    }
    None
}
