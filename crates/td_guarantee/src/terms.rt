//! The terms of a guarantee.
ghost use Rattle.std.specs.Prelude.{◌≡◌};
ghost use Rattle.td_base.specs.Money.{share_of};
ghost use Rattle.td_guarantee.specs.Usage.{has_ended, is_within};

use td_base::{Cents, Cover, Day};

/// Whether an amount fits beside what is in use: their sum is at most the reference amount. The share of it
/// that is guaranteed takes no part (Common Transit Convention, Appendix I: use is monitored against the
/// reference amount).
pub fn fits(reference: Cents, used: Cents, cents: Cents) -> bool
    ensures { result ≡ is_within reference used cents }
{
    used.get() + cents.get() <= reference.get()
}

/// The amount that is guaranteed: the cover's share of the reference amount, rounded up to the cent.
pub fn guaranteed(reference: Cents, cover: Cover) -> Cents
    ensures { result ≡ share_of reference cover }
{
    reference.share_up(cover)
}

/// Whether a guarantee has ended on a day: from its end day on nothing is lodged or released on it.
pub fn ended(ends: Option<Day>, day: Day) -> bool
    ensures { result ≡ has_ended day ends }
{
    match ends {
        None => false,
        Some(end) => end <= day,
    }
}
