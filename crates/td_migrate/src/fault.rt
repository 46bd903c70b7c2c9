//! Why a file isn't brought to the newest version.
ghost use Rattle.std.specs.Prelude.{◌≡◌, ◌≢◌};
ghost use Rattle.td_migrate.specs.declared.fault.MigrateFault.TheVariants as migrate_fault;
ghost use Rattle.td_migrate.specs.Upgraded.{IsKindOf, SaysNothing};

use sqlite::{Error as SqlError, ErrorCode};
use td_store_check::{OpenFault, Rule};
use thiserror::Error;

/// Why a file isn't brought to the newest version.
#[derive(Clone, Copy, Debug, PartialEq, Eq, Error)]
pub enum MigrateFault {
    /// The tables are of no version that is known.
    #[error("unknown-version")]
    UnknownVersion,
    /// The rows break a rule of sound tables: this, and none before it.
    #[error("damaged {0}")]
    Damaged(Rule),
    /// The tables are none of a store of the version that the office's own row says, or the database answered an error other than want
    /// of memory.
    #[error("store")]
    Store,
    /// Want of memory.
    #[error("no-memory")]
    NoMemory,
}

/// The fault that says what an opening or an audit is refused for; `Store` for what neither a version nor an audit is.
pub(crate) fn fault_of(fault: OpenFault) -> MigrateFault
    ensures { IsKindOf fault result }
{
    match fault {
        OpenFault::UnknownVersion => MigrateFault::UnknownVersion,
        OpenFault::Damaged(rule) => MigrateFault::Damaged(rule),
        OpenFault::NoMemory => MigrateFault::NoMemory,
        OpenFault::NeedsMigration(_) | OpenFault::OtherCountry | OpenFault::Store => {
            MigrateFault::Store
        }
    }
}

/// The fault that an error of the database is told as: want of memory where it says so, else the store's.
pub(crate) fn fault_of_error(error: &SqlError) -> MigrateFault
    ensures memory { error.now ≡ SqlError.SqliteFailure ErrorCode.OutOfMemory → result ≡ migrate_fault.NoMemory }
    ensures store { error.now ≢ SqlError.SqliteFailure ErrorCode.OutOfMemory → result ≡ migrate_fault.Store }
    ensures nothing { SaysNothing result }
{
    match error {
        SqlError::SqliteFailure(ErrorCode::OutOfMemory) => MigrateFault::NoMemory,
        _ => MigrateFault::Store,
    }
}
