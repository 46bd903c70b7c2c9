//! What a change does to one holder's rows.
ghost use Rattle.std.specs.Prelude.{◌≡◌, map, IfOk};
ghost use Rattle.td_guarantee.specs.Codes.{with_code, without_code};
ghost use Rattle.td_model.specs.Account.{at_grn};
ghost use Rattle.td_model.specs.Changes.{moved, with_terms};

use std::alloc::{AllocError, Global};
use td_acts::{NewStatus, NewTerms};
use td_base::{AccessCode, Grn};
use td_guarantee::Guarantee;
use td_movement::Movement;

/// Puts the movement that has moved into its new state.
pub(crate) fn put_status(movements: &mut [Movement], status: &NewStatus)
    ensures { movements.new ≡ map (moved status.now) movements.old }
{
    for movement in movements.iter_mut() {
        if movement.mrn == status.mrn {
            status.put_in(movement);
        }
    }
}

/// Puts new terms into the guarantee that they name.
pub(crate) fn put_terms(guarantees: &mut [Guarantee], terms: &NewTerms)
    ensures { guarantees.new ≡ map (at_grn terms.now.grn (with_terms terms.now)) guarantees.old }
{
    for guarantee in guarantees.iter_mut() {
        if guarantee.grn == terms.grn {
            terms.put_in(guarantee);
        }
    }
}

/// Takes a code from the guarantee with a GRN.
pub(crate) fn take_code(guarantees: &mut [Guarantee], grn: &Grn, code: &AccessCode)
    ensures { guarantees.new
        ≡ map (at_grn grn.now (λ g. record g { codes = without_code code.now g.codes })) guarantees.old }
{
    for guarantee in guarantees.iter_mut() {
        if guarantee.grn == *grn {
            guarantee.codes.remove(code);
        }
    }
}

/// The same guarantees in other memory, of which the one with a GRN has a code more. `AllocError`: want of memory.
pub(crate) fn copies_with_code(
    alloc: Global,
    guarantees: &[Guarantee],
    grn: &Grn,
    code: AccessCode,
) -> Result<Vec<Guarantee>, AllocError>
    ensures { IfOk result (λ copies. copies.items
        ≡ map (at_grn grn.now (λ g. record g { codes = with_code code g.codes })) guarantees.now) }
{
    let mut copies = Vec::with_capacity(alloc, guarantees.len())?;
    for guarantee in guarantees {
        let mut copy = guarantee.copy(alloc)?;
        if copy.grn == *grn {
            copy.codes.add(code)?;
        }
        copies.push(copy)?;
    }
    Ok(copies)
}
