//! Why a desk could not do a command.
ghost use Rattle.std.specs.Prelude.{◌≡◌};
ghost use Rattle.td_desk.specs.declared.fault.Fault.TheVariants.{NoMemory};

use std::alloc::AllocError;
use thiserror::Error;

/// Why a desk could not do a command. While the desk is live the command changed nothing; a change that failed as `Store`
/// may stand when the store is opened again.
#[derive(Clone, Copy, Debug, PartialEq, Eq, Error)]
pub enum Fault {
    /// Want of memory.
    #[error("no-memory")]
    NoMemory,
    /// The store behind the desk answered an error other than want of memory.
    #[error("store")]
    Store,
}

impl From<AllocError> for Fault {
    ghost from_gives = { λ _ e. e ≡ NoMemory };

    fn from(_error: AllocError) -> Fault {
        Fault::NoMemory
    }
}
