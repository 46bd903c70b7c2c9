//! Moments.
ghost use Rattle.std.specs.Prelude.{◌≡◌, ℕ, pos};
ghost use Rattle.std.specs.Result.{result_ok};
ghost use Rattle.td_time.specs.Days.{IsMoment, moment_of};

use std::marker::Model;
use thiserror::Error;

/// A moment from 2000-01-01T00:00:00Z to the last second of 2099, in seconds since 1970-01-01T00:00:00Z.
/// Contracts see it as that number.
#[derive(Clone, Copy, Debug, PartialEq, Eq, PartialOrd, Ord)]
pub struct Moment {
    seconds: u32,
}

/// A number of seconds that is out of the range of moments.
#[derive(Clone, Copy, Debug, PartialEq, Eq, Error)]
#[error("the moment is out of range")]
pub struct ClockRange;

impl Model for Moment {
    ghost Value = { ℕ };

    ghost view = { λ m. m.seconds };

    ghost invariant = { λ m. IsMoment m.seconds };

    ghost inverse = { λ n. record { seconds = n } };
}

impl Moment {
    /// The moment of that many seconds since 1970, or `ClockRange` outside 946684800 to 4102444799.
    pub fn new(at: i64) -> Result<Self, ClockRange>
        ensures { result_ok result ≡ moment_of at }
    {
        if at < 946_684_800 || at > 4_102_444_799 {
            return Err(ClockRange);
        }
        Ok(Moment { seconds: at as u32 })
    }

    /// The seconds since 1970.
    pub fn get(self) -> i64
        ensures value { result ≡ pos self }
        ensures range { IsMoment self }
    {
        i64::from(self.seconds)
    }
}
