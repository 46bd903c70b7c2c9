//! The row of a holder, which begins an account.
use td_base::{Eori, HolderNo, Moment};

/// The row of a registered holder.
#[derive(Clone, Copy, Debug, PartialEq, Eq)]
pub struct HolderRow {
    pub holder: HolderNo,
    pub eori: Eori,
    /// The moment of the holder's last accepted change, registration included.
    pub last_at: Moment,
    /// The last serial of the holder's guarantees.
    pub grn_count: u32,
    /// The last serial of the holder's movements.
    pub mrn_count: u32,
}
