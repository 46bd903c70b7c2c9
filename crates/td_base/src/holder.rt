//! Numbers of holders.
ghost use Rattle.std.specs.Prelude.{◌≡◌, ℕ, Some, SomeIff};
ghost use Rattle.ascii_text.specs.Digits.{digits_value};
ghost use Rattle.td_base.specs.Codes.{IsHolderNumber, IsHolderText, holder_of, holder_read, holder_text};

use ascii_text::{last_digit, read_digits, write_ascii};
use std::fmt;
use std::marker::Model;

/// The number of a holder, 1 to 999999. Contracts see it as that number. It is printed in six digits.
#[derive(Clone, Copy, Debug, PartialEq, Eq, PartialOrd, Ord)]
pub struct HolderNo {
    number: u32,
}

impl Model for HolderNo {
    ghost Value = { ℕ };

    ghost view = { λ h. h.number };

    ghost invariant = { λ h. IsHolderNumber h.number };

    ghost inverse = { λ n. record { number = n } };
}

impl HolderNo {
    /// The holder of that number: `None` for 0, and above 999999.
    pub fn new(number: u32) -> Option<Self>
        ensures value { result ≡ holder_of number }
        ensures range { SomeIff result (IsHolderNumber number) number }
    {
        if number >= 1 && number <= 999_999 {
            Some(HolderNo { number })
        } else {
            None
        }
    }

    /// The number.
    pub fn number(self) -> u32
        ensures value { result ≡ self }
        ensures range { IsHolderNumber self }
    {
        self.number
    }

    /// The number in six digits.
    pub fn as_bytes(&self) -> [u8; 6]
        ensures { result ≡ holder_text self.now }
    {
        let n = u64::from(self.number);
        [
            last_digit(n / 100_000),
            last_digit(n / 10_000),
            last_digit(n / 1_000),
            last_digit(n / 100),
            last_digit(n / 10),
            last_digit(n),
        ]
    }

    /// Reads exactly six digits that aren't all 0.
    pub fn read(text: &[u8]) -> Option<Self>
        ensures value { result ≡ holder_read text.now }
        ensures form { SomeIff result (IsHolderText text.now) (digits_value text.now) }
    {
        if text.len() != 6 {
            return None;
        }
        HolderNo::new(read_digits(text)? as u32)
    }
}

/// The text that is printed for a holder is read back as that holder.
pub fn holder_reads_back(holder: HolderNo)
    ensures form { IsHolderText (holder_text holder) }
    ensures value { digits_value (holder_text holder) ≡ holder }
{
    let _number = holder.number;
}

impl fmt::Display for HolderNo {
    ghost output = { λ h. Some (holder_text h) };

    fn fmt<W: fmt::Write>(&self, f: &mut fmt::Formatter<W>) -> fmt::Result {
        write_ascii(f, &self.as_bytes())
    }
}
