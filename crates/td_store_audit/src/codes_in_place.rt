//! Whether a holder's codes are in their places: it knows no statement.
ghost use Rattle.std.specs.Prelude.{◌↔◌, ◌≤◌, length, map, IsTrue};
ghost use Rattle.td_store_rows.specs.CodeTable.{code_row_of};
ghost use Rattle.td_store_audit.specs.InPlace.{AreCodesInPlaceWithin, AreSerialsWithin, IsBySerial, IsEndOfRun};
ghost use Rattle.td_store_audit.specs.Found.{serial_of_code};

use td_guarantee::MOST_CODES;
use td_store_audit_rows::codes_belong;
use td_store_rows::StoredCode;

/// Whether these are the codes, by the serials of their guarantees, of the guarantees with serials from `first` on and below
/// `end`: none has the serial 0, and each of those guarantees has 1 to 20.
pub(crate) fn codes_within_are_in_place(first: u32, end: u32, rows: &[StoredCode]) -> bool
    ensures { IsBySerial (map code_row_of rows.now) → AreSerialsWithin first end (map code_row_of rows.now)
        → IsTrue result ↔ AreCodesInPlaceWithin first end (map code_row_of rows.now) }
{
    if !codes_belong(end, rows) {
        return false;
    }
    let mut start = 0;
    for before in first.saturating_sub(1)..end.saturating_sub(1) {
        let stop = end_of_run(rows, start, before + 1);
        if stop == start || stop - start > MOST_CODES {
            return false;
        }
        start = stop;
    }
    true
}

// The place after the rows of a guarantee, which begin at this place if there are any.
fn end_of_run(rows: &[StoredCode], start: usize, serial: u32) -> usize
    requires { start ≤ length rows.now }
    ensures { IsEndOfRun serial_of_code serial start rows.now result }
{
    for i in start..rows.len() {
        if rows[i].serial != serial {
            return i;
        }
    }
    rows.len()
}
