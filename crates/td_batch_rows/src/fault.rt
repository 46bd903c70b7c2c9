//! Why a file isn't read.
ghost use Rattle.std.specs.Prelude.{◌≡◌};
ghost use Rattle.td_batch_rows.specs.declared.fault.BatchFault.TheVariants.{NoMemory};

use std::alloc::AllocError;
use thiserror::Error;

/// Why a file of rows isn't read.
#[derive(Clone, Copy, Debug, PartialEq, Eq, Error)]
pub enum BatchFault {
    /// The first bad row, where the header is row 1 and an empty line is no row, and in it the first bad column, from 1.
    /// Column 0 is told of another number of columns, of another header, and of a file with no row at all.
    #[error("bad csv row {row} column {column}")]
    BadCsv { row: u64, column: u32 },
    /// Want of memory.
    #[error("no-memory")]
    NoMemory,
}

impl From<AllocError> for BatchFault {
    ghost from_gives = { λ _ e. e ≡ NoMemory };

    fn from(_error: AllocError) -> BatchFault {
        BatchFault::NoMemory
    }
}
