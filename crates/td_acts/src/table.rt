//! The table of refusals and answers, over the rows of a command's owner: a function for each command.
ghost use Rattle.std.specs.Prelude.{◌≡◌, ℕ, IfOk};
ghost use Rattle.td_acts.specs.Deciding.{IsVerdict, IsVerdictAt};

use crate::declaring::{Declaration, lodge};
use crate::finding::{take_entry, take_movement};
use crate::moving::{arrive, cancel, enquire, judge, write_off};
use crate::releasing::release;
use crate::rows::{Loaded, Verdict};
use crate::serials::next_grn;
use crate::terms::{add_code, amend, remove_code, revoke};
use crate::views::{
    holder_answer, see_guarantee, see_guarantees, see_holder, see_movement, see_movements,
};
use std::alloc::{AllocError, Global};
use std::mem::replace;
use td_base::{AccessCode, Cover, Eori, HolderNo, Moment, Reference};
use td_commands::{Answer, Command, Refusal, Said};
use td_guarantee::{Codes, Guarantee};
use td_model::{Change, HolderRow};

/// The verdict that `decide` gives, for a caller that keeps what was loaded: all of it is copied first. `AllocError`:
/// want of memory.
pub fn verdict(
    alloc: Global,
    loaded: &Loaded,
    at: i64,
    command: &Command,
) -> Result<Verdict, AllocError>
    ensures { IfOk result (IsVerdict loaded.now at command.now) }
{
    let mut copy = loaded.copy(alloc)?;
    decide(alloc, &mut copy, at, command)
}

/// The verdict on a command at a number of seconds since 1970, over what was loaded of its owner's rows.
/// Where that is just what the verdict needs of the owner's account, it is the table's; else it is only
/// some verdict. The movements or the guarantees that a view shows are taken out of what was loaded, and not copied:
/// it is of no use for another verdict. `AllocError`: want of memory.
// Inlined, the verdict is made where the caller keeps it, and not copied there.
#[inline(always)]
pub fn decide(
    alloc: Global,
    loaded: &mut Loaded,
    at: i64,
    command: &Command,
) -> Result<Verdict, AllocError>
    ensures { IfOk result (IsVerdict loaded.old at command.now) }
{
    match Moment::new(at) {
        Ok(at) => decide_at(alloc, loaded, at, command),
        Err(_) => Ok(Verdict::refused(Refusal::ClockRange)),
    }
}

// The verdicts on single commands are left to the compiler: with `inline(never)` on each, a view took a fourteenth more
// instructions, since a verdict that a call returns needs a place of its own and is copied from there.
#[inline(always)]
fn decide_at(
    alloc: Global,
    loaded: &mut Loaded,
    at: Moment,
    command: &Command,
) -> Result<Verdict, AllocError>
    ensures { IfOk result (IsVerdictAt loaded.old at command.now) }
{
    // Those that can't fail share one place for their verdict: each `Ok(..)` of its own would have one, set to zero first.
    let verdict = match command {
        Command::Register { holder, eori } => register(loaded, at, *holder, *eori),
        Command::OpenGuarantee {
            holder,
            reference,
            cover,
            code,
        } => open(alloc, loaded, at, *holder, *reference, *cover, *code),
        Command::Amend {
            grn,
            reference,
            cover,
        } => return amend(alloc, loaded, at, grn, *reference, *cover),
        Command::Revoke { grn } => revoke(loaded, at, grn),
        Command::Ie015 {
            holder,
            lrn,
            departure,
            destination,
            lines,
        } => {
            let declaration = Declaration {
                holder: *holder,
                lrn: *lrn,
                departure: *departure,
                destination: *destination,
                lines,
            };
            return lodge(alloc, loaded, at, &declaration);
        }
        Command::Ie014 { holder, mrn } => cancel(loaded, at, *holder, mrn),
        Command::AddCode { holder, grn, code } => {
            return add_code(alloc, loaded, at, *holder, grn, *code);
        }
        Command::RemoveCode { holder, grn, code } => {
            return remove_code(alloc, loaded, at, *holder, grn, *code);
        }
        Command::Ie029 { mrn, limit } => release(loaded, at, mrn, *limit),
        Command::Ie007 { mrn, office } => arrive(loaded, at, mrn, *office),
        Command::Ie018 {
            mrn,
            result: control,
        } => judge(loaded, at, mrn, *control),
        Command::Ie045 { mrn, ground } => write_off(loaded, at, mrn, *ground),
        Command::Ie140 { mrn } => enquire(loaded, at, mrn),
        Command::SeeHolder { .. } => see_holder(loaded.holder),
        Command::SeeMovement { mrn, .. } => {
            let found = take_movement(&mut loaded.movements, mrn);
            see_movement(loaded.holder, found)
        }
        Command::SeeMovements { .. } => {
            let items = replace(&mut loaded.listed, Vec::new(alloc));
            see_movements(loaded.holder, items)
        }
        Command::SeeGuarantee { grn, .. } => {
            let found = take_entry(&mut loaded.guarantees, grn);
            see_guarantee(loaded.holder, found)
        }
        Command::SeeGuarantees { .. } => {
            let entries = replace(&mut loaded.guarantees, Vec::new(alloc));
            see_guarantees(loaded.holder, entries)
        }
    };
    Ok(verdict)
}

fn register(loaded: &Loaded, at: Moment, holder: HolderNo, eori: Eori) -> Verdict
    ensures { IsVerdictAt loaded.now at (Command.Register holder eori) result }
{
    if loaded.holder.is_some() {
        return Verdict::refused(Refusal::HolderKnown);
    }
    let row = HolderRow {
        holder,
        eori,
        last_at: at,
        grn_count: 0,
        mrn_count: 0,
    };
    Verdict {
        said: Said::Answered(holder_answer(&row)),
        change: Change::Registered(row),
    }
}

fn open(
    alloc: Global,
    loaded: &Loaded,
    at: Moment,
    holder: HolderNo,
    reference: Reference,
    cover: Cover,
    code: AccessCode,
) -> Verdict
    ensures { IsVerdictAt loaded.now at (Command.OpenGuarantee holder reference cover code) result }
{
    let Some(row) = loaded.holder else {
        return Verdict::refused(Refusal::NoHolder);
    };
    if at < row.last_at {
        return Verdict::refused(Refusal::ClockBack);
    }
    let Some((serial, grn)) = next_grn(loaded.country, holder, at, row.grn_count) else {
        return Verdict::refused(Refusal::SerialsSpent);
    };
    let guarantee = Guarantee {
        grn,
        reference: reference.get(),
        cover,
        ends: None,
        codes: Codes::one(alloc, code),
    };
    let row = HolderRow {
        last_at: at,
        grn_count: serial,
        ..row
    };
    Verdict {
        said: Said::Answered(Answer::Opened { grn }),
        change: Change::Opened(row, guarantee),
    }
}
