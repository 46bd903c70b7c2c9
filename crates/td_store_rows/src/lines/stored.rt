//! Lines as their rows have them, read from the columns that a statement shows.
use sqlite::Row;
use std::alloc::Global;
use td_base::{Cents, HolderNo};
use td_schema::{amount_at, holder_at, serial_at};
use typed_sql::FromRow;

/// The row of a line: the holder and the serial of its movement, its number in the movement from 1 on, the serial of the
/// holder's guarantee that it is on, and the amount in cents.
#[derive(Clone, Copy, Debug, PartialEq, Eq)]
pub struct StoredLine {
    pub holder: HolderNo,
    pub serial: u32,
    pub no: u32,
    pub guarantee: u32,
    pub cents: Cents,
}

impl FromRow for StoredLine {
    ghost use Rattle.td_table_model.specs.Tables.{Keyed, LineCells};
    ghost use Rattle.td_store_rows.specs.Columns.{line_from};
    ghost use Rattle.td_store_rows.specs.LineTable.{line_row_of};

    ghost Typed = { Keyed LineCells };

    ghost typed = { line_row_of };

    ghost from = { line_from };

    // A row of five columns.
    fn from_row(_alloc: Global, row: &Row) -> Option<Self> {
        Some(StoredLine {
            holder: holder_at(row, 0)?,
            serial: serial_at(row, 1)?,
            no: serial_at(row, 2)?,
            guarantee: serial_at(row, 3)?,
            cents: amount_at(row, 4)?,
        })
    }
}
