//! Holders as their rows have them, read from the columns that a statement shows.
use sqlite::Row;
use std::alloc::Global;
use td_model::HolderRow;
use td_schema::{eori_at, holder_at, moment_at, serial_at};
use typed_sql::FromRow;

/// The row of a holder.
#[derive(Drop)]
pub(crate) struct StoredHolder {
    pub(crate) row: HolderRow,
}

impl FromRow for StoredHolder {
    ghost use Rattle.td_model.specs.declared.holder_row.HolderRow.{HolderRow};
    ghost use Rattle.td_store_rows.specs.Columns.{holder_from};

    ghost Typed = { HolderRow };

    ghost typed = { λ h. h.row };

    ghost from = { holder_from };

    // A row of five columns.
    fn from_row(_alloc: Global, row: &Row) -> Option<Self> {
        Some(StoredHolder {
            row: HolderRow {
                holder: holder_at(row, 0)?,
                eori: eori_at(row, 1)?,
                last_at: moment_at(row, 2)?,
                grn_count: serial_at(row, 3)?,
                mrn_count: serial_at(row, 4)?,
            },
        })
    }
}
