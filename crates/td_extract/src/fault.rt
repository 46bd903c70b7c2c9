//! The fault that an error of a database is told as.
ghost use Rattle.std.specs.Prelude.{◌≡◌, ◌≢◌};
ghost use Rattle.td_desk.specs.declared.fault.Fault.TheVariants as fault;

use sqlite::{Error, ErrorCode};
use td_desk::Fault;

/// Want of memory where the error says so, else the store's.
pub(crate) fn fault_of_error(error: &Error) -> Fault
    ensures memory { error.now ≡ Error.SqliteFailure ErrorCode.OutOfMemory → result ≡ fault.NoMemory }
    ensures store { error.now ≢ Error.SqliteFailure ErrorCode.OutOfMemory → result ≡ fault.Store }
{
    match error {
        Error::SqliteFailure(ErrorCode::OutOfMemory) => Fault::NoMemory,
        _ => Fault::Store,
    }
}
