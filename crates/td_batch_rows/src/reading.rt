//! Files of rows, read whole.
ghost use Rattle.std.specs.Prelude.{◌≡◌, ◌∷◌, ◌++◌, [], List, Ok, IfErr, OnOk, IfOk};
ghost use Rattle.csv.specs.Records.{fields_of};
ghost use Rattle.td_batch_rows.specs.Rows.{Fields, file_in, records_in, HasTaken, Tells};
ghost use Rattle.td_batch_rows.specs.Acts.{acts_in};
ghost use Rattle.std.specs.List.{AllByRecursion};
ghost use Rattle.td_batch_rows.specs.Declarations.{IsDeclaration, declarations_in};

use crate::acts::ActRow;
use crate::declarations::DeclarationRow;
use crate::fault::BatchFault;
use crate::rows::FileRow;
use csv::{ByteRecord, ReaderBuilder};
use std::alloc::Global;

/// The acts of offices in a file, in order. It is CSV under the header `message,mrn,value`, and may begin with a byte
/// order mark. The message is IE029, IE007, IE018, IE045 or IE140, and the value is what it says: the day of the limit,
/// the office, the result of the control, the ground of the write-off, and of IE140 nothing. Where one row is bad, no act
/// is read.
pub fn read_acts(alloc: Global, bytes: &[u8]) -> Result<Vec<ActRow>, BatchFault>
    ensures all { IfOk result (λ rows. acts_in bytes.now ≡ Ok rows.items) }
    ensures bad { IfErr result (Tells (acts_in bytes.now)) }
{
    read_file(alloc, bytes)
}

/// The declarations (IE015) of holders in a file, in order. It is CSV under the header
/// `holder,lrn,departure,destination,lines`, and may begin with a byte order mark. A line is `GRN:CODE:AMOUNT`, the amount
/// as in `5000.00`, and lines are joined by `;`. Where one row is bad, no declaration is read.
pub fn read_declarations(alloc: Global, bytes: &[u8]) -> Result<Vec<DeclarationRow>, BatchFault>
    ensures all { IfOk result (λ rows. declarations_in bytes.now ≡ Ok rows.items) }
    ensures bad { IfErr result (Tells (declarations_in bytes.now)) }
    ensures declarations { IfOk result (λ rows. AllByRecursion IsDeclaration rows.items) }
{
    read_file(alloc, bytes)
}

// The rows of a file, all of them, or its first bad row and column.
fn read_file<R: FileRow>(alloc: Global, bytes: &[u8]) -> Result<Vec<R>, BatchFault>
    ensures all { IfOk result (λ rows. file_in R.is_header R.row_of (records_in bytes.now) ≡ Ok rows.items) }
    ensures bad { IfErr result (Tells (file_in R.is_header R.row_of (records_in bytes.now))) }
{
    let records = ReaderBuilder::new()
        .has_headers(false)
        .flexible(true)
        .from_reader(alloc, bytes)
        .into_byte_records();
    let mut rows = Vec::new(alloc);
    let mut headed = false;
    for record in records {
        let Ok(record) = record else {
            return Err(BatchFault::NoMemory);
        };
        take_record(alloc, headed, &mut rows, &record)?;
        headed = true;
    }
    if !headed {
        return Err(BatchFault::BadCsv { row: 1, column: 0 });
    }
    Ok(rows)
}

// One record more of a file whose header was taken or not.
fn take_record<R: FileRow>(
    alloc: Global,
    headed: bool,
    rows: &mut Vec<R>,
    row: &ByteRecord,
) -> Result<(), BatchFault>
    ensures taken { (records : List Fields) → HasTaken R.is_header R.row_of headed records rows.old.items
        → OnOk result (file_in R.is_header R.row_of (records ++ fields_of row.now ∷ []) ≡ Ok rows.new.items) }
    ensures told { (records rest : List Fields) → HasTaken R.is_header R.row_of headed records rows.old.items
        → IfErr result (Tells (file_in R.is_header R.row_of (records ++ fields_of row.now ∷ rest))) }
{
    if !headed {
        return if R::is_header(row) {
            Ok(())
        } else {
            Err(BatchFault::BadCsv { row: 1, column: 0 })
        };
    }
    match R::read(alloc, row)? {
        Ok(more) => {
            if rows.push(more).is_err() {
                return Err(BatchFault::NoMemory);
            }
            Ok(())
        }
        Err(column) => Err(BatchFault::BadCsv {
            row: rows.len() as u64 + 2,
            column,
        }),
    }
}
