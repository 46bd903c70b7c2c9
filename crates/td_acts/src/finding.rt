//! Movements and guarantees found among others, and taken out.
ghost use Rattle.std.specs.Prelude.{◌≡◌, map, option_map};
ghost use Rattle.std.specs.List.{position};
ghost use Rattle.std.specs.Str.{bytes_eq};
ghost use Rattle.td_model.specs.Account.{guarantee_by_grn, movement_by_mrn, movement_by_lrn};
ghost use Rattle.td_acts.specs.Deciding.{entry_by_grn};

use td_base::{Cents, Grn, Lrn, Mrn};
use td_guarantee::Guarantee;
use td_movement::Movement;

/// The movement with exactly an LRN, if there is one.
pub fn find_movement_by_lrn<'a>(movements: &'a [Movement], lrn: &Lrn) -> Option<&'a Movement>
    ensures { option_map (λ found. found.now) result ≡ movement_by_lrn lrn.now movements.now }
{
    movements
        .iter()
        .find(|movement| movement.lrn.as_bytes() == lrn.as_bytes())
}

/// The movement with exactly an MRN, if there is one.
pub fn find_movement_by_mrn<'a>(movements: &'a [Movement], mrn: &Mrn) -> Option<&'a Movement>
    ensures { option_map (λ found. found.now) result ≡ movement_by_mrn mrn.now movements.now }
{
    movements.iter().find(|movement| movement.mrn == *mrn)
}

/// The guarantee with exactly a GRN, if there is one.
pub fn find_guarantee<'a>(guarantees: &'a [Guarantee], grn: &Grn) -> Option<&'a Guarantee>
    ensures { option_map (λ found. found.now) result ≡ guarantee_by_grn grn.now guarantees.now }
{
    guarantees.iter().find(|guarantee| guarantee.grn == *grn)
}

/// The guarantee with exactly a GRN among those that were loaded, and the amount in use on it, if there is one.
pub fn find_entry<'a>(
    entries: &'a [(Guarantee, Cents)],
    grn: &Grn,
) -> Option<&'a (Guarantee, Cents)>
    ensures entry { option_map (λ found. found.now) result ≡ entry_by_grn grn.now entries.now }
    ensures guarantee { option_map (λ found. found.now.0) result
        ≡ guarantee_by_grn grn.now (map (λ e. e.0) entries.now) }
{
    for entry in entries {
        if entry.0.grn == *grn {
            return Some(entry);
        }
    }
    None
}

/// The movement with exactly an MRN, if there is one, taken out of movements, whose order may change.
pub fn take_movement(movements: &mut Vec<Movement>, mrn: &Mrn) -> Option<Movement>
    ensures { result ≡ movement_by_mrn mrn.now movements.old.items }
{
    let at = place_of_movement(movements, mrn)?;
    Some(movements.swap_remove(at))
}

fn place_of_movement(movements: &[Movement], mrn: &Mrn) -> Option<usize>
    ensures { result ≡ position (λ m. bytes_eq m.mrn mrn.now) movements.now }
{
    movements.iter().position(|movement| movement.mrn == *mrn)
}

/// The guarantee with exactly a GRN, and the amount in use on it, if there is one, taken out of entries, whose order
/// may change.
pub fn take_entry(entries: &mut Vec<(Guarantee, Cents)>, grn: &Grn) -> Option<(Guarantee, Cents)>
    ensures { result ≡ entry_by_grn grn.now entries.old.items }
{
    let at = place_of_entry(entries, grn)?;
    Some(entries.swap_remove(at))
}

fn place_of_entry(entries: &[(Guarantee, Cents)], grn: &Grn) -> Option<usize>
    ensures { result ≡ position (λ e. bytes_eq e.0.grn grn.now) entries.now }
{
    entries.iter().position(|entry| entry.0.grn == *grn)
}
