//! Rows of files: what reads a row, and the columns of a record.
ghost use Rattle.std.specs.Prelude.{◌≡◌, ℕ, Bool, Result, IfOk};
ghost use Rattle.csv.specs.Records.{fields_of};
ghost use Rattle.td_batch_rows.specs.Rows.{Fields, field_text};

use csv::ByteRecord;
use std::alloc::{AllocError, Global};

/// A row of a kind of files.
pub(crate) trait FileRow: Sized + Drop {
    /// Whether a record is the header of such a file.
    ghost is_header: { Fields → Bool };

    /// The row that a record is, or the first bad column.
    ghost row_of: { Fields → Result Self ℕ };

    /// Whether a record is the header.
    fn is_header(row: &ByteRecord) -> bool
        ensures { result ≡ is_header (fields_of row.now) };

    /// The row that a record is, or the first bad column. `AllocError`: want of memory.
    fn read(alloc: Global, row: &ByteRecord) -> Result<Result<Self, u32>, AllocError>
        ensures { IfOk result (λ read. read ≡ row_of (fields_of row.now)) };
}

/// The text of a column, counted from 0; of one that isn't there, no bytes.
pub(crate) fn field(row: &ByteRecord, place: usize) -> &[u8]
    ensures { result.now ≡ field_text (fields_of row.now) place }
{
    match row.get(place) {
        Some(text) => text,
        None => &[],
    }
}
