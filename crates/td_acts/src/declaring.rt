//! Declarations: the LRN rule, and the tests of the lines.
ghost use Rattle.std.specs.Prelude.{◌≡◌, Some, IfOk, map, option_map};
ghost use Rattle.td_model.specs.Account.{guarantee_by_grn};
ghost use Rattle.td_base.specs.Days.{day_of_moment};
ghost use Rattle.td_model.specs.Effects.{new_movement};
ghost use Rattle.td_model.specs.Table.{if_lrn_new};
ghost use Rattle.td_model.specs.Declaring.{has_contents, guarantee_refusal, first_refusal};
ghost use Rattle.td_acts.specs.Deciding.{IsVerdictAt};

use crate::finding::{find_entry, find_movement_by_lrn};
use crate::rows::{Loaded, Verdict};
use crate::serials::next_mrn;
use std::alloc::{AllocError, Global};
use td_base::{AccessCode, Cents, Day, HolderNo, Lrn, Moment, Mrn, OfficeNo};
use td_commands::{Answer, Command, Lines, Refusal, Said};
use td_guarantee::{Guarantee, ended};
use td_model::{Change, HolderRow};
use td_movement::{Line, Movement, MovementLines, State};

/// A declaration (IE015) that a holder lodges.
#[derive(Drop)]
pub struct Declaration<'a> {
    pub holder: HolderNo,
    pub lrn: Lrn,
    pub departure: OfficeNo,
    pub destination: OfficeNo,
    pub lines: &'a Lines,
}

/// The verdict on a declaration. `AllocError`: want of memory.
pub fn lodge(
    alloc: Global,
    loaded: &Loaded,
    at: Moment,
    declaration: &Declaration<'_>,
) -> Result<Verdict, AllocError>
    ensures { let d = declaration.now in IfOk result (IsVerdictAt loaded.now at
        (Command.Ie015 d.holder d.lrn d.departure d.destination d.lines.now)) }
{
    let Some(row) = loaded.holder else {
        return Ok(Verdict::refused(Refusal::NoHolder));
    };
    if at < row.last_at {
        return Ok(Verdict::refused(Refusal::ClockBack));
    }
    let lines = declaration.lines.without_codes(alloc)?;
    if let Some(known) = find_movement_by_lrn(&loaded.movements, &declaration.lrn) {
        return Ok(repeat(known, declaration, &lines));
    }
    let country = loaded.country;
    let Some(next) = next_mrn(country, declaration.holder, at, row.mrn_count) else {
        return Ok(Verdict::refused(Refusal::SerialsSpent));
    };
    let refusal = find_refusal(
        Day::of_moment(at),
        &loaded.guarantees,
        declaration.lines.as_slice(),
    );
    if let Some(why) = refusal {
        return Ok(Verdict::refused(why));
    }
    let row = HolderRow {
        last_at: at,
        mrn_count: next.0,
        ..row
    };
    Ok(accept(row, next.1, declaration, lines))
}

// The verdict on a declaration under an LRN that the holder has used already.
fn repeat(known: &Movement, declaration: &Declaration<'_>, lines: &MovementLines) -> Verdict
    ensures said { result.said ≡ if_lrn_new (Some known.now)
        (has_contents declaration.now.departure declaration.now.destination lines.now)
        (Said.Refused Refusal.LrnUsed) }
    ensures change { result.change ≡ Change.Nothing }
{
    let same_offices = known.departure == declaration.departure
        && known.destination == declaration.destination;
    if !same_offices || known.lines.as_slice() != lines.as_slice() {
        return Verdict::refused(Refusal::LrnUsed);
    }
    Verdict {
        said: Said::Answered(Answer::Ie028 {
            lrn: known.lrn,
            mrn: known.mrn,
        }),
        change: Change::Nothing,
    }
}

// The verdict on a declaration that nothing refuses: the holder's row as it is then, and the movement with
// this MRN.
fn accept(row: HolderRow, mrn: Mrn, declaration: &Declaration<'_>, lines: MovementLines) -> Verdict
    ensures said { result.said ≡ Said.Answered (Answer.Ie028 declaration.now.lrn mrn) }
    ensures change { let d = declaration.now in
        result.change ≡ Change.Declared row
        (new_movement mrn d.lrn d.departure d.destination (day_of_moment row.last_at) lines) }
{
    let movement = Movement {
        mrn,
        lrn: declaration.lrn,
        departure: declaration.departure,
        destination: declaration.destination,
        accepted: Day::of_moment(row.last_at),
        state: State::Accepted,
        limit: None,
        arrival: None,
        actual: None,
        lines,
    };
    Verdict {
        said: Said::Answered(Answer::Ie028 {
            lrn: declaration.lrn,
            mrn,
        }),
        change: Change::Declared(row, movement),
    }
}

// Why a line with a code is refused on a day: its guarantee, the code, the guarantee's end.
fn refuse_line(
    day: Day,
    guarantees: &[(Guarantee, Cents)],
    line: &Line,
    code: &AccessCode,
) -> Option<Refusal>
    ensures { result ≡ guarantee_refusal day code.now
        (guarantee_by_grn line.now.grn (map (λ e. e.0) guarantees.now)) }
{
    let Some((guarantee, _)) = find_entry(guarantees, &line.grn) else {
        return Some(Refusal::NoGuarantee);
    };
    if !guarantee.codes.has(code) {
        return Some(Refusal::BadCode);
    }
    if ended(guarantee.ends, day) {
        return Some(Refusal::GuaranteeEnded);
    }
    None
}

// Why the first of the lines that is refused is refused.
fn find_refusal(
    day: Day,
    guarantees: &[(Guarantee, Cents)],
    lines: &[(Line, AccessCode)],
) -> Option<Refusal>
    ensures { result ≡ first_refusal day (map (λ e. e.0) guarantees.now) lines.now }
{
    for (line, code) in lines {
        let refusal = refuse_line(day, guarantees, line, code);
        if refusal.is_some() {
            return refusal;
        }
    }
    None
}
