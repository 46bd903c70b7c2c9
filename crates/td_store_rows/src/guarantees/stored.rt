//! Guarantees as their rows have them, read from the columns that a statement shows.
ghost use Rattle.std.specs.Prelude.{◌≡◌, IfSome};
ghost use Rattle.td_store_rows.specs.Columns.{guarantee_from, kept_from};
ghost use Rattle.td_store_rows.specs.GuaranteeTable.{guarantee_row_of};
ghost use Rattle.td_store_rows.specs.KeptTable.{kept_row_of};

use sqlite::Row;
use std::alloc::Global;
use td_base::{Cents, HolderNo};
use td_guarantee::{Codes, Guarantee};
use td_schema::{amount_at, cover_at, grn_at, holder_at, optional_day_at, serial_at};
use typed_sql::FromRow;

/// The row of a guarantee: its holder, its serial among the holder's, and the guarantee, without codes.
#[derive(Debug, Drop)]
pub struct StoredGuarantee {
    pub holder: HolderNo,
    pub serial: u32,
    pub guarantee: Guarantee,
}

/// The same with the amount in use on the guarantee, in cents.
#[derive(Debug, Drop)]
pub struct KeptGuarantee {
    pub holder: HolderNo,
    pub serial: u32,
    pub guarantee: Guarantee,
    pub used: Cents,
}

// The guarantee in a row, without its codes: `None` where a column can't be that of a guarantee.
fn guarantee_in(alloc: Global, row: &Row) -> Option<Guarantee>
    ensures { IfSome result (λ g. g ≡ (guarantee_from row.now).row) }
{
    Some(Guarantee {
        grn: grn_at(row, 2)?,
        reference: amount_at(row, 3)?,
        cover: cover_at(row, 4)?,
        ends: optional_day_at(row, 5)?,
        codes: Codes::none(alloc),
    })
}

impl FromRow for StoredGuarantee {
    ghost use Rattle.td_guarantee.specs.declared.guarantee.Guarantee.{Guarantee};
    ghost use Rattle.td_table_model.specs.Tables.{Keyed};

    ghost Typed = { Keyed Guarantee };

    ghost typed = { guarantee_row_of };

    ghost from = { guarantee_from };

    /// The guarantee in a row of six columns: `None` where a column can't be that of a guarantee.
    fn from_row(alloc: Global, row: &Row) -> Option<Self> {
        let guarantee = guarantee_in(alloc, row)?;
        Some(StoredGuarantee {
            holder: holder_at(row, 0)?,
            serial: serial_at(row, 1)?,
            guarantee,
        })
    }
}

impl FromRow for KeptGuarantee {
    ghost use Rattle.td_table_model.specs.Tables.{Keyed, Kept};

    ghost Typed = { Keyed Kept };

    ghost typed = { kept_row_of };

    ghost from = { kept_from };

    /// The guarantee in a row of seven columns: `None` where a column can't be that of a guarantee.
    fn from_row(alloc: Global, row: &Row) -> Option<Self> {
        let guarantee = guarantee_in(alloc, row)?;
        Some(KeptGuarantee {
            holder: holder_at(row, 0)?,
            serial: serial_at(row, 1)?,
            guarantee,
            used: amount_at(row, 6)?,
        })
    }
}
