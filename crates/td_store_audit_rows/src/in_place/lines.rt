//! The lines of a movement.
ghost use Rattle.std.specs.Prelude.{◌≡◌, ◌==◌, ◌↔◌, map, IsTrue};
ghost use Rattle.std.specs.List.{list_any};
ghost use Rattle.td_commands.specs.Lines.{IsLineAmount};
ghost use Rattle.td_store_rows.specs.LineTable.{line_row_of};
ghost use Rattle.td_store_audit_rows.specs.InPlace.{AreLinesInPlace};

use td_base::Cents;
use td_movement::{MOST_LINE_CENTS, MOST_LINES};
use td_store_rows::StoredLine;

/// Whether these are the lines of a movement, by their numbers, of a holder who has so many guarantees: they are numbered
/// from 1 to at most 99, each is on one of those guarantees, no two on one, and each has an amount in range.
pub fn lines_are_in_place(guarantees: u32, rows: &[StoredLine]) -> bool
    ensures { IsTrue result ↔ AreLinesInPlace guarantees (map line_row_of rows.now) }
{
    if rows.is_empty() || rows.len() > MOST_LINES {
        return false;
    }
    for i in 0..rows.len() {
        let row = rows[i];
        if row.no as usize != i + 1
            || row.guarantee < 1
            || row.guarantee > guarantees
            || !is_amount(row.cents)
            || is_named(&rows[..i], row.guarantee)
        {
            return false;
        }
    }
    true
}

// Whether an amount may stand in a line.
fn is_amount(cents: Cents) -> bool
    ensures { IsTrue result ↔ IsLineAmount cents }
{
    cents.get() >= 1 && cents.get() <= MOST_LINE_CENTS
}

// Whether one of the rows names the guarantee.
fn is_named(rows: &[StoredLine], guarantee: u32) -> bool
    ensures { result ≡ list_any (λ row. row.guarantee == guarantee) rows.now }
{
    rows.iter().any(|row| row.guarantee == guarantee)
}
