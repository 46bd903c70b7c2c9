//! Codes as their rows have them, read from the columns that a statement shows.
use sqlite::Row;
use std::alloc::Global;
use td_base::{AccessCode, HolderNo};
use td_schema::{code_at, holder_at, serial_at};
use typed_sql::FromRow;

/// The row of a code: the holder and the serial of its guarantee, and the code.
#[derive(Clone, Copy, Debug, PartialEq, Eq)]
pub struct StoredCode {
    pub holder: HolderNo,
    pub serial: u32,
    pub code: AccessCode,
}

impl FromRow for StoredCode {
    ghost use Rattle.std.specs.Prelude.{List, ℕ};
    ghost use Rattle.td_table_model.specs.Tables.{Keyed};
    ghost use Rattle.td_store_rows.specs.Columns.{code_from};
    ghost use Rattle.td_store_rows.specs.CodeTable.{code_row_of};

    ghost Typed = { Keyed (List ℕ) };

    ghost typed = { code_row_of };

    ghost from = { code_from };

    // A row of three columns.
    fn from_row(_alloc: Global, row: &Row) -> Option<Self> {
        Some(StoredCode {
            holder: holder_at(row, 0)?,
            serial: serial_at(row, 1)?,
            code: code_at(row, 2)?,
        })
    }
}
