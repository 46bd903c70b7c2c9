//! Why a desk with a journal isn't started.
ghost use Rattle.std.specs.Prelude.{◌≡◌};
ghost use Rattle.td_journal_start.specs.Faults.{fault_told};

use td_desk::Fault;
use thiserror::Error;

/// Why there is no start.
#[derive(Clone, Copy, Debug, PartialEq, Eq, Error)]
pub enum StartFault {
    /// The file is no journal: its last whole line isn't exactly the row of a change.
    #[error("journal")]
    BadJournal,
    /// The last row, with this number, isn't of the desk: its command was told something else.
    #[error("foreign-row {row}")]
    ForeignRow { row: u64 },
    /// Want of memory.
    #[error("no-memory")]
    NoMemory,
    /// A call of the file failed, or the desk answered a fault of its store.
    #[error("store")]
    Store,
}

impl From<Fault> for StartFault {
    ghost from_gives = { λ fault e. e ≡ fault_told fault };

    fn from(fault: Fault) -> StartFault {
        match fault {
            Fault::NoMemory => StartFault::NoMemory,
            Fault::Store => StartFault::Store,
        }
    }
}

/// A desk and a journal's file that weren't started, and why.
#[derive(Drop)]
pub struct Refused<D, F> {
    pub why: StartFault,
    pub desk: D,
    pub file: F,
}
