//! What changes the terms and the access codes of a guarantee.
ghost use Rattle.std.specs.Prelude.{◌≡◌, Some, option_map, IfOk, MatchResult};
ghost use Rattle.td_guarantee.specs.declared.guarantee.Guarantee.{Guarantee};
ghost use Rattle.td_commands.specs.declared.said.Said.{Said};
ghost use Rattle.td_commands.specs.declared.said.Said.TheVariants.{Refused};
ghost use Rattle.td_acts.specs.Deciding.{IsVerdictAt, entry_by_grn, touched};
ghost use Rattle.td_model.specs.Effects.{end_after};
ghost use Rattle.td_model.specs.Table.{on_guarantee};
ghost use Rattle.td_base.specs.Days.{day_of_moment};

use crate::finding::find_entry;
use crate::rows::{Loaded, Verdict};
use std::alloc::{AllocError, Global};
use td_base::{AccessCode, Cents, Cover, Day, Grn, HolderNo, Moment, Reference};
use td_commands::{Answer, Command, Refusal, Said};
use td_guarantee::{Guarantee, MOST_CODES};
use td_model::{Change, HolderRow, NewTerms};

/// How many days after its revocation a guarantee ends.
const DAYS_TO_END: u32 = 16;

/// A guarantee that a command names, the amount in use on it, and the row of its holder at the moment of the
/// command.
#[derive(Clone, Copy)]
struct Named<'a> {
    row: HolderRow,
    guarantee: &'a Guarantee,
    used: Cents,
}

// The guarantee that a command names. A refusal where the holder isn't registered, for that reason; where the
// moment is before the holder's last change; and where the guarantee isn't there.
fn find_named<'a>(
    loaded: &'a Loaded,
    unregistered: Refusal,
    at: Moment,
    grn: &Grn,
) -> Result<Named<'a>, Refusal>
    ensures row { IfOk result (λ named. option_map (λ row. touched row at) loaded.now.holder ≡ Some named.row) }
    ensures entry { IfOk result (λ named.
        entry_by_grn grn.now loaded.now.guarantees.items ≡ Some (named.guarantee.now, named.used)) }
    ensures said { (said_of : Guarantee → Said) → MatchResult result
        (λ named. on_guarantee unregistered loaded.now.holder at
        (option_map (λ e. e.0) (entry_by_grn grn.now loaded.now.guarantees.items)) said_of
        ≡ said_of named.guarantee.now)
        (λ why. on_guarantee unregistered loaded.now.holder at
        (option_map (λ e. e.0) (entry_by_grn grn.now loaded.now.guarantees.items)) said_of
        ≡ Refused why) }
{
    let row = loaded.holder.ok_or(unregistered)?;
    if at < row.last_at {
        return Err(Refusal::ClockBack);
    }
    let (guarantee, used) = find_entry(&loaded.guarantees, grn).ok_or(Refusal::NoGuarantee)?;
    Ok(Named {
        row: HolderRow { last_at: at, ..row },
        guarantee,
        used: *used,
    })
}

/// The verdict on an amendment. `AllocError`: want of memory.
pub fn amend(
    alloc: Global,
    loaded: &Loaded,
    at: Moment,
    grn: &Grn,
    reference: Reference,
    cover: Cover,
) -> Result<Verdict, AllocError>
    ensures { IfOk result (IsVerdictAt loaded.now at (Command.Amend grn.now reference cover)) }
{
    let named = match find_named(loaded, Refusal::NoGuarantee, at, grn) {
        Ok(named) => named,
        Err(why) => return Ok(Verdict::refused(why)),
    };
    let used = named.used;
    if reference.get() < used {
        return Ok(Verdict::refused(Refusal::BelowUse { used }));
    }
    let terms = NewTerms {
        reference: Some(reference.get()),
        cover: Some(cover),
        ..NewTerms::of(*grn)
    };
    let mut guarantee = named.guarantee.copy(alloc)?;
    terms.put_in(&mut guarantee);
    Ok(Verdict {
        said: Said::Answered(Answer::Guarantee(guarantee, used)),
        change: Change::TermsSet(named.row, terms),
    })
}

/// The verdict on a revocation.
pub fn revoke(loaded: &Loaded, at: Moment, grn: &Grn) -> Verdict
    ensures { IsVerdictAt loaded.now at (Command.Revoke grn.now) result }
{
    let named = match find_named(loaded, Refusal::NoGuarantee, at, grn) {
        Ok(named) => named,
        Err(why) => return Verdict::refused(why),
    };
    if named.guarantee.ends.is_some() {
        return Verdict::refused(Refusal::AlreadyEnded);
    }
    let ends = end_after(at);
    let terms = NewTerms {
        ends: Some(ends),
        ..NewTerms::of(*grn)
    };
    Verdict {
        said: Said::Answered(Answer::Revoked {
            ends,
            grn: named.guarantee.grn,
        }),
        change: Change::TermsSet(named.row, terms),
    }
}

// The end of a guarantee that is revoked at a moment. Moments end with 2099, and days a year later.
fn end_after(at: Moment) -> Day
    ensures { result ≡ end_after (day_of_moment at) }
{
    Day::of_moment(at).plus_days(DAYS_TO_END).unwrap()
}

/// The verdict on a code that a guarantee gets. `AllocError`: want of memory.
pub fn add_code(
    alloc: Global,
    loaded: &Loaded,
    at: Moment,
    holder: HolderNo,
    grn: &Grn,
    code: AccessCode,
) -> Result<Verdict, AllocError>
    ensures { IfOk result (IsVerdictAt loaded.now at (Command.AddCode holder grn.now code)) }
{
    let named = match find_named(loaded, Refusal::NoHolder, at, grn) {
        Ok(named) => named,
        Err(why) => return Ok(Verdict::refused(why)),
    };
    if named.guarantee.codes.has(&code) {
        return Ok(Verdict::refused(Refusal::CodeKnown));
    }
    if named.guarantee.codes.len() >= MOST_CODES {
        return Ok(Verdict::refused(Refusal::CodesFull));
    }
    let mut guarantee = named.guarantee.copy(alloc)?;
    guarantee.codes.add(code)?;
    Ok(Verdict {
        said: Said::Answered(Answer::Guarantee(guarantee, named.used)),
        change: Change::CodeAdded(named.row, *grn, code),
    })
}

/// The verdict on a code that a guarantee loses. `AllocError`: want of memory.
pub fn remove_code(
    alloc: Global,
    loaded: &Loaded,
    at: Moment,
    holder: HolderNo,
    grn: &Grn,
    code: AccessCode,
) -> Result<Verdict, AllocError>
    ensures { IfOk result (IsVerdictAt loaded.now at (Command.RemoveCode holder grn.now code)) }
{
    let named = match find_named(loaded, Refusal::NoHolder, at, grn) {
        Ok(named) => named,
        Err(why) => return Ok(Verdict::refused(why)),
    };
    if !named.guarantee.codes.has(&code) {
        return Ok(Verdict::refused(Refusal::NoCode));
    }
    if named.guarantee.codes.len() <= 1 {
        return Ok(Verdict::refused(Refusal::LastCode));
    }
    let mut guarantee = named.guarantee.copy(alloc)?;
    guarantee.codes.remove(&code);
    Ok(Verdict {
        said: Said::Answered(Answer::Guarantee(guarantee, named.used)),
        change: Change::CodeRemoved(named.row, *grn, code),
    })
}
