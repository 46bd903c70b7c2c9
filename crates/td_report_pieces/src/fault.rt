//! Why a report wasn't written whole.
ghost use Rattle.std.specs.Prelude.{◌≡◌};
ghost use Rattle.td_report_pieces.specs.declared.fault.ReportFault.TheVariants.{NoMemory};

use std::alloc::AllocError;
use thiserror::Error;

/// Why a report wasn't written whole.
#[derive(Clone, Copy, Debug, PartialEq, Eq, Error)]
pub enum ReportFault {
    /// The writer failed, or took no byte more.
    #[error("write")]
    Write,
    /// The store behind the desk answered an error other than want of memory.
    #[error("store")]
    Store,
    /// Want of memory.
    #[error("no-memory")]
    NoMemory,
}

impl From<AllocError> for ReportFault {
    ghost from_gives = { λ _ e. e ≡ NoMemory };

    fn from(_error: AllocError) -> ReportFault {
        ReportFault::NoMemory
    }
}
