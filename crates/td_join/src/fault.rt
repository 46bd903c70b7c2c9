//! Why a desk's file isn't joined to another.
ghost use Rattle.std.specs.Prelude.{◌≡◌, ◌≢◌};
ghost use Rattle.td_join.specs.Joining.{TellsOfNoHolder};
ghost use Rattle.td_join.specs.declared.fault.JoinFault.TheVariants as join_fault;

use sqlite::{Error as SqlError, ErrorCode};
use td_base::HolderNo;
use thiserror::Error;

/// Why a desk's file isn't joined to another. Its line is what the program prints.
#[derive(Clone, Copy, Debug, PartialEq, Eq, Error)]
pub enum JoinFault {
    /// A holder of the first file stands in the second, too: this one, and none with a lower number.
    #[error("holder-exists {0}")]
    Stands(HolderNo),
    /// One of the databases answered an error other than want of memory, or a row of a file is none.
    #[error("store")]
    Store,
    /// Want of memory.
    #[error("no-memory")]
    NoMemory,
}

/// The fault that an error of a database is told as: want of memory where it says so, else the store's.
pub(crate) fn fault_of_error(error: &SqlError) -> JoinFault
    ensures memory { error.now ≡ SqlError.SqliteFailure ErrorCode.OutOfMemory → result ≡ join_fault.NoMemory }
    ensures store { error.now ≢ SqlError.SqliteFailure ErrorCode.OutOfMemory → result ≡ join_fault.Store }
    ensures nobody { TellsOfNoHolder result }
{
    match error {
        SqlError::SqliteFailure(ErrorCode::OutOfMemory) => JoinFault::NoMemory,
        _ => JoinFault::Store,
    }
}

impl From<SqlError> for JoinFault {
    ghost from_gives = { λ _ fault. TellsOfNoHolder fault };

    fn from(error: SqlError) -> JoinFault {
        fault_of_error(&error)
    }
}
