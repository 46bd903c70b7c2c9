//! What a verdict needs, looked up among one holder's rows.
ghost use Rattle.std.specs.Prelude.{◌≡◌, map, option_map, option_to_list, filter_map, IfSome, IfOk};
ghost use Rattle.std.specs.List.{AllByRecursion};
ghost use Rattle.td_guarantee.specs.Terms.{without_codes};
ghost use Rattle.td_guarantee.specs.Usage.{used_on};
ghost use Rattle.td_movement.specs.Movements.{without_lines};
ghost use Rattle.td_model.specs.Account.{guarantee_by_grn, movement_by_mrn};
ghost use Rattle.td_model.specs.Sound.{IsCovered};
ghost use Rattle.td_model.specs.Table.{listed};

use crate::counted_rows::CountedRows;
use crate::guarantee_rows::GuaranteeRows;
use std::alloc::{AllocError, Global};
use td_acts::{Lines, ListedMovement};
use td_base::{Cents, Grn, Mrn};
use td_guarantee::Guarantee;
use td_movement::{Line, Movement};

/// A copy of the movement that was found, if there is one. `AllocError`: want of memory.
pub(crate) fn copy_of_found(
    alloc: Global,
    movement: Option<&Movement>,
) -> Result<Vec<Movement>, AllocError>
    ensures { IfOk result (λ copies. copies.items ≡ option_to_list (option_map (λ m. m.now) movement.entry)) }
{
    let Some(movement) = movement else {
        return Ok(Vec::new(alloc));
    };
    let copies = vec![in alloc; movement.copy(alloc)?]?;
    Ok(copies)
}

/// The movement that was found without its lines, if there is one. `AllocError`: want of memory.
pub(crate) fn row_of_found(
    alloc: Global,
    movement: Option<&Movement>,
) -> Result<Vec<Movement>, AllocError>
    ensures { IfOk result (λ rows. rows.items
        ≡ option_to_list (option_map without_lines (option_map (λ m. m.now) movement.entry))) }
{
    let Some(movement) = movement else {
        return Ok(Vec::new(alloc));
    };
    let rows = vec![in alloc; movement.without_lines(alloc)]?;
    Ok(rows)
}

/// The guarantees that lines name, as far as they are there. A declaration doesn't ask for the amounts in use.
/// `AllocError`: want of memory.
pub(crate) fn guarantees_of(
    alloc: Global,
    guarantees: &GuaranteeRows,
    lines: &Lines,
) -> Result<Vec<(Guarantee, Cents)>, AllocError>
    ensures { IfOk result (λ found. map (λ e. e.0) found.items
        ≡ filter_map (λ l. guarantee_by_grn l.0.grn guarantees.now) lines.now) }
{
    let unasked = Cents::new(0).unwrap();
    let mut found = Vec::new(alloc);
    for (line, _) in lines.as_slice() {
        if let Some(guarantee) = guarantees.find_by_grn(&line.grn) {
            found.push((guarantee.copy(alloc)?, unasked))?;
        }
    }
    Ok(found)
}

/// The guarantee with a GRN, if there is one, and the amount in use on it. `AllocError`: want of memory.
pub(crate) fn entries_by_grn(
    alloc: Global,
    guarantees: &GuaranteeRows,
    movements: &CountedRows,
    grn: &Grn,
) -> Result<Vec<(Guarantee, Cents)>, AllocError>
    ensures { AllByRecursion (IsCovered movements.now) guarantees.now
        → IfOk result (λ found. found.items
        ≡ option_to_list (option_map (λ g. (g, used_on g.grn movements.now))
        (guarantee_by_grn grn.now guarantees.now))) }
{
    let mut found = Vec::new(alloc);
    if let Some(guarantee) = guarantees.find_by_grn(grn) {
        let used = used_of(movements, guarantee);
        found.push((guarantee.copy(alloc)?, used))?;
    }
    Ok(found)
}

/// The movement with an MRN, if there is one, and the guarantees that its lines name, as far as they are
/// there, without codes, with the amounts in use on them. `AllocError`: want of memory.
pub(crate) fn release_of(
    alloc: Global,
    guarantees: &GuaranteeRows,
    movements: &CountedRows,
    mrn: &Mrn,
) -> Result<(Vec<Movement>, Vec<(Guarantee, Cents)>), AllocError>
    ensures movement { IfOk result (λ found. found.0.items
        ≡ option_to_list (movement_by_mrn mrn.now movements.now)) }
    ensures entries { AllByRecursion (IsCovered movements.now) guarantees.now
        → IfOk result (λ found. IfSome (movement_by_mrn mrn.now movements.now) (λ m. found.1.items
        ≡ filter_map (λ l. option_map (λ g. (without_codes g, used_on g.grn movements.now))
        (guarantee_by_grn l.grn guarantees.now)) m.lines)) }
{
    let Some(movement) = movements.find_by_mrn(mrn) else {
        return Ok((Vec::new(alloc), Vec::new(alloc)));
    };
    let entries = entries_of(alloc, guarantees, movements, movement.lines.as_slice())?;
    let mut found = Vec::new(alloc);
    found.push(movement.copy(alloc)?)?;
    Ok((found, entries))
}

// The guarantees that lines name, as far as they are there, without codes, and the amounts in use on them.
fn entries_of(
    alloc: Global,
    guarantees: &GuaranteeRows,
    movements: &CountedRows,
    lines: &[Line],
) -> Result<Vec<(Guarantee, Cents)>, AllocError>
    ensures { AllByRecursion (IsCovered movements.now) guarantees.now
        → IfOk result (λ found. found.items
        ≡ filter_map (λ l. option_map (λ g. (without_codes g, used_on g.grn movements.now))
        (guarantee_by_grn l.grn guarantees.now)) lines.now) }
{
    let mut found = Vec::new(alloc);
    for line in lines {
        if let Some(guarantee) = guarantees.find_by_grn(&line.grn) {
            let amount = used_of(movements, guarantee);
            found.push((guarantee.without_codes(alloc), amount))?;
        }
    }
    Ok(found)
}

/// Movements as a list shows them. `AllocError`: want of memory.
pub(crate) fn list_of(
    alloc: Global,
    movements: &[Movement],
) -> Result<Vec<ListedMovement>, AllocError>
    ensures { IfOk result (λ items. items.items ≡ map listed movements.now) }
{
    let items = movements
        .iter()
        .map(|movement| ListedMovement {
            lrn: movement.lrn,
            mrn: movement.mrn,
            state: movement.state,
        })
        .collect(alloc)?;
    Ok(items)
}

/// All guarantees, and the amounts in use on them. `AllocError`: want of memory.
pub(crate) fn all_entries(
    alloc: Global,
    guarantees: &[Guarantee],
    movements: &CountedRows,
) -> Result<Vec<(Guarantee, Cents)>, AllocError>
    ensures { AllByRecursion (IsCovered movements.now) guarantees.now
        → IfOk result (λ entries. entries.items ≡ map (λ g. (g, used_on g.grn movements.now)) guarantees.now) }
{
    let mut entries = Vec::with_capacity(alloc, guarantees.len())?;
    for guarantee in guarantees {
        entries.push((guarantee.copy(alloc)?, used_of(movements, guarantee)))?;
    }
    Ok(entries)
}

// The amount in use on a guarantee that covers it.
fn used_of(movements: &CountedRows, guarantee: &Guarantee) -> Cents
    ensures { IsCovered movements.now guarantee.now → result ≡ used_on guarantee.now.grn movements.now }
{
    movements
        .in_use(&guarantee.grn)
        .unwrap_or(guarantee.reference)
}
