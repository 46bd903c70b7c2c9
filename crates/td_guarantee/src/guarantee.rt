//! Guarantees.
ghost use Rattle.std.specs.Prelude.{◌≡◌, IfOk};
ghost use Rattle.td_guarantee.specs.Terms.{without_codes};

use crate::codes::Codes;
use std::alloc::{AllocError, Global};
use td_base::{Cents, Cover, Day, Grn};

/// A comprehensive guarantee (Common Transit Convention, Appendix I).
#[derive(Debug, Drop)]
pub struct Guarantee {
    pub grn: Grn,
    /// The reference amount, in cents: the amount in use never exceeds it.
    pub reference: Cents,
    /// The percentage of the reference amount that is guaranteed.
    pub cover: Cover,
    /// The day from which on nothing is lodged or released on it.
    pub ends: Option<Day>,
    pub codes: Codes,
}

impl Guarantee {
    /// The same guarantee in other memory. `AllocError`: want of memory.
    pub fn copy(&self, alloc: Global) -> Result<Self, AllocError>
        ensures { IfOk result (λ guarantee. guarantee ≡ self.now) }
    {
        let mut copy = self.without_codes(alloc);
        copy.codes = self.codes.copy(alloc)?;
        Ok(copy)
    }

    /// The same guarantee with no codes. It takes no memory.
    pub fn without_codes(&self, alloc: Global) -> Self
        ensures { result ≡ without_codes self.now }
    {
        Guarantee {
            grn: self.grn,
            reference: self.reference,
            cover: self.cover,
            ends: self.ends,
            codes: Codes::none(alloc),
        }
    }
}
