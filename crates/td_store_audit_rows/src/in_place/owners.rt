//! Rows that belong to a holder's guarantees and movements.
ghost use Rattle.std.specs.Prelude.{◌≡◌, ◌↔◌, nat_le, ◌&&◌, map, IsTrue};
ghost use Rattle.std.specs.List.{list_all};
ghost use Rattle.td_store_rows.specs.CodeTable.{code_row_of as row_of_code};
ghost use Rattle.td_store_rows.specs.LineTable.{line_row_of as row_of_line};
ghost use Rattle.td_store_audit_rows.specs.InPlace.{BelongTo};

use td_store_rows::{StoredCode, StoredLine};

/// Whether each of a holder's codes is of one of so many guarantees of the holder.
pub fn codes_belong(guarantees: u32, rows: &[StoredCode]) -> bool
    ensures { IsTrue result ↔ BelongTo guarantees (map row_of_code rows.now) }
{
    are_codes_within(guarantees, rows)
}

/// Whether each of a holder's lines is of one of so many movements of the holder.
pub fn lines_belong(movements: u32, rows: &[StoredLine]) -> bool
    ensures { IsTrue result ↔ BelongTo movements (map row_of_line rows.now) }
{
    are_lines_within(movements, rows)
}

// Whether the codes have serials from 1 to this.
fn are_codes_within(last: u32, rows: &[StoredCode]) -> bool
    ensures { result ≡ list_all (λ row. nat_le 1 row.serial && nat_le row.serial last) rows.now }
{
    rows.iter().all(|row| is_within(last, row.serial))
}

// Whether the lines have serials from 1 to this.
fn are_lines_within(last: u32, rows: &[StoredLine]) -> bool
    ensures { result ≡ list_all (λ row. nat_le 1 row.serial && nat_le row.serial last) rows.now }
{
    rows.iter().all(|row| is_within(last, row.serial))
}

// Whether it is one of the serials from 1 to this.
fn is_within(last: u32, serial: u32) -> bool
    ensures { result ≡ nat_le 1 serial && nat_le serial last }
{
    serial >= 1 && serial <= last
}
