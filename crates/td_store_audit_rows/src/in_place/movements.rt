//! A holder's movements.
ghost use Rattle.std.specs.Prelude.{◌↔◌, map, IsTrue};
ghost use Rattle.td_movement.specs.Status.{HasDaysOf};
ghost use Rattle.td_model.specs.Sound.{IsMrnOf};
ghost use Rattle.td_store_rows.specs.MovementTable.{movement_row_of};
ghost use Rattle.td_store_audit_rows.specs.InPlace.{AreNextMovements, IsMovementInPlace};

use td_base::{Country, GREATEST_OLDER_MRN_SERIAL, Mrn};
use td_movement::{Movement, State};
use td_store_rows::StoredMovement;

/// Whether these are a holder's movements from the one after the serial `before` on up to `last`, by their serials: none is left
/// out, and each has the MRN of the year of its acceptance, the country, the holder and its serial, in either form, and the days
/// and the office of its state.
pub fn movements_are_in_place(
    country: Country,
    before: u32,
    last: u32,
    rows: &[StoredMovement],
) -> bool
    ensures { IsTrue result ↔ AreNextMovements country before last (map movement_row_of rows.now) }
{
    if before > last || last > GREATEST_OLDER_MRN_SERIAL || rows.len() != (last - before) as usize {
        return false;
    }
    for i in 0..rows.len() {
        if rows[i].serial as usize != before as usize + i + 1 || !is_in_place(country, &rows[i]) {
            return false;
        }
    }
    true
}

// Whether a movement is in its place.
fn is_in_place(country: Country, row: &StoredMovement) -> bool
    ensures { IsTrue result ↔ IsMovementInPlace country (movement_row_of row.now) }
{
    has_mrn(country, row) && has_days(&row.movement)
}

// Whether it has the MRN of the year of its acceptance, the country, its holder and its serial, in either form.
fn has_mrn(country: Country, row: &StoredMovement) -> bool
    ensures { IsTrue result ↔ IsMrnOf country row.now.holder row.now.serial row.now.movement }
{
    let year2 = row.movement.accepted.year2();
    let mrn = Some(row.movement.mrn);
    Mrn::make(year2, country, row.holder, row.serial) == mrn
        || Mrn::make_older(year2, country, row.holder, row.serial) == mrn
}

// Whether it has the days and the office that its state asks for, and no others.
fn has_days(movement: &Movement) -> bool
    ensures { IsTrue result ↔ HasDaysOf movement.now.state movement.now }
{
    let limit = movement.limit.is_some();
    let arrival = movement.arrival.is_some();
    let actual = movement.actual.is_some();
    match movement.state {
        State::Accepted | State::Cancelled => !limit && !arrival && !actual,
        State::Released | State::Enquired => limit && !arrival && !actual,
        State::Arrived | State::Discrepant | State::Cleared => limit && arrival && actual,
        State::WrittenOff => limit && arrival == actual,
    }
}
