//! Whether a holder's lines are in their places: it knows no statement.
ghost use Rattle.std.specs.Prelude.{◌↔◌, ◌≤◌, length, map, IsTrue};
ghost use Rattle.td_store_rows.specs.LineTable.{line_row_of};
ghost use Rattle.td_store_audit.specs.InPlace.{AreLinesInPlaceWithin, AreNumbersApart, AreSerialsWithin, IsByNumber, IsBySerial, IsEndOfRun};
ghost use Rattle.td_store_audit.specs.Found.{serial_of_line};

use td_store_audit_rows::{lines_are_in_place, lines_belong};
use td_store_rows::StoredLine;

/// Whether these are the lines, by the serials of their movements and by their numbers, of the movements with serials from `first`
/// on and below `end`, of a holder who has so many guarantees: none has the serial 0, and the lines of each of those movements
/// are in their places.
pub(crate) fn lines_within_are_in_place(
    guarantees: u32,
    first: u32,
    end: u32,
    rows: &[StoredLine],
) -> bool
    ensures { IsBySerial (map line_row_of rows.now) → IsByNumber (map line_row_of rows.now)
        → AreNumbersApart (map line_row_of rows.now) → AreSerialsWithin first end (map line_row_of rows.now)
        → IsTrue result ↔ AreLinesInPlaceWithin guarantees first end (map line_row_of rows.now) }
{
    if !lines_belong(end, rows) {
        return false;
    }
    let mut start = 0;
    for before in first.saturating_sub(1)..end.saturating_sub(1) {
        let stop = end_of_run(rows, start, before + 1);
        if !lines_are_in_place(guarantees, &rows[start..stop]) {
            return false;
        }
        start = stop;
    }
    true
}

// The place after the rows of a movement, which begin at this place if there are any.
fn end_of_run(rows: &[StoredLine], start: usize, serial: u32) -> usize
    requires { start ≤ length rows.now }
    ensures { IsEndOfRun serial_of_line serial start rows.now result }
{
    for i in start..rows.len() {
        if rows[i].serial != serial {
            return i;
        }
    }
    rows.len()
}
