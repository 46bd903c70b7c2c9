//! Why a database isn't taken for a desk's.
ghost use Rattle.std.specs.Prelude.{◌≡◌, ◌≢◌, ◌⊎◌};
ghost use Rattle.td_store_check.specs.declared.fault.OpenFault.TheVariants as fault;

use sqlite::{Error, ErrorCode};
use td_table_model::Rule;
use thiserror::Error;

/// Why a connection isn't taken for a desk.
#[derive(Clone, Copy, Debug, PartialEq, Eq, Error)]
pub enum OpenFault {
    /// The tables are of no version that is known.
    #[error("unknown-version")]
    UnknownVersion,
    /// The tables are of this earlier version, and have to be migrated first.
    #[error("needs-migration {0}")]
    NeedsMigration(u32),
    /// The tables are those of an office of another country.
    #[error("other-country")]
    OtherCountry,
    /// The tables break a rule: this, and none before it.
    #[error("damaged {0}")]
    Damaged(Rule),
    /// The tables are none of a store, or are of another version than the office's own row says; where a desk is to be made, there is
    /// a table already; or the database answered an error other than want of memory.
    #[error("store")]
    Store,
    /// Want of memory.
    #[error("no-memory")]
    NoMemory,
}

/// Why a desk isn't made or opened, by the error that the database answered: `NoMemory` for want of memory, else `Store`.
pub fn open_fault_of(error: &Error) -> OpenFault
    ensures kinds { (result ≡ fault.Store) ⊎ (result ≡ fault.NoMemory) }
    ensures memory { error.now ≡ Error.SqliteFailure ErrorCode.OutOfMemory → result ≡ fault.NoMemory }
    ensures other { error.now ≢ Error.SqliteFailure ErrorCode.OutOfMemory → result ≡ fault.Store }
{
    match error {
        Error::SqliteFailure(ErrorCode::OutOfMemory) => OpenFault::NoMemory,
        _ => OpenFault::Store,
    }
}
