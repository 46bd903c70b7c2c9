//! Amounts of money, reference amounts and covers.
ghost use Rattle.std.specs.Prelude.{◌≡◌, ℕ, ◌+◌, ◌*◌, ◌<◌, ◌≤◌, ◌↔◌, IsTrue, Some, SomeIff};
ghost use Rattle.td_money.specs.Money.{IsCents, IsReference, IsCover, IsWhole, IsCentsText, is_whole, share_of, cents_of, cents_read, cents_value, cents_text, cover_of, reference_of};

use ascii_text::{is_digits, last_digit, read_digits};
use std::fmt;
use std::marker::Model;

/// The greatest amount, in cents.
const MOST_CENTS: u64 = 1_000_000_000_000_000;

/// An amount of money in cents, 0 to 10^15. Contracts see it as that number. It is printed with a point and two
/// digits, as `1234.56`.
#[derive(Clone, Copy, Debug, PartialEq, Eq, PartialOrd, Ord)]
pub struct Cents {
    cents: u64,
}

impl Model for Cents {
    ghost Value = { ℕ };

    ghost view = { λ a. a.cents };

    ghost invariant = { λ a. IsCents a.cents };

    ghost inverse = { λ n. record { cents = n } };
}

impl Cents {
    /// The amount of that many cents: `None` above 10^15.
    pub fn new(cents: u64) -> Option<Self>
        ensures value { result ≡ cents_of cents }
        ensures range { SomeIff result (IsCents cents) cents }
    {
        if cents <= MOST_CENTS {
            Some(Cents { cents })
        } else {
            None
        }
    }

    /// Reads exactly a whole number with no needless 0 in front, a point and two digits: `0.01` and `1234.56`,
    /// but not `00.01`, `.01`, `1` or `1.0`.
    pub fn read(text: &[u8]) -> Option<Self>
        ensures value { result ≡ cents_read text.now }
        ensures form { SomeIff result (IsCentsText text.now) (cents_value text.now) }
    {
        let point = text.len().checked_sub(3)?;
        // More than 14 digits in front are above the greatest amount.
        if point > 14 || text[point] != b'.' || !is_whole(&text[..point]) {
            return None;
        }
        let whole = read_digits(&text[..point])?;
        let cents = read_digits(&text[point + 1..])?;
        Cents::new(100 * whole + cents)
    }

    /// The cents.
    pub fn get(self) -> u64
        ensures value { result ≡ self }
        ensures range { IsCents self }
    {
        self.cents
    }

    /// The sum of two amounts: `None` above 10^15.
    pub fn plus(self, other: Cents) -> Option<Self>
        ensures value { result ≡ cents_of (self + other) }
        ensures range { SomeIff result (IsCents (self + other)) (self + other) }
    {
        Cents::new(self.cents + other.cents)
    }

    /// The share of the amount that a cover asks for, rounded up to the cent.
    pub fn share_up(self, cover: Cover) -> Self
        ensures value { result ≡ share_of self cover }
        ensures enough { self * cover ≤ 100 * result }
        ensures least { 100 * result < self * cover + 100 }
    {
        Cents {
            cents: (self.cents * cover.get()).div_ceil(100),
        }
    }
}

// Whether it is a whole number with no needless 0 in front.
fn is_whole(text: &[u8]) -> bool
    ensures value { result ≡ is_whole text.now }
    ensures form { IsTrue result ↔ IsWhole text.now }
{
    !text.is_empty() && (text[0] != b'0' || text.len() == 1) && is_digits(text)
}

impl fmt::Display for Cents {
    ghost output = { λ a. Some (cents_text a) };

    fn fmt<W: fmt::Write>(&self, f: &mut fmt::Formatter<W>) -> fmt::Result {
        let whole = self.cents / 100;
        let tens = char::from(last_digit(self.cents / 10));
        let ones = char::from(last_digit(self.cents));
        write!(f, "{whole}.{tens}{ones}")
    }
}

/// The text that is printed for an amount is read back as that amount.
pub fn cents_read_back(amount: Cents)
    ensures form { IsCentsText (cents_text amount) }
    ensures value { cents_value (cents_text amount) ≡ amount }
{
    let _cents = amount.cents;
}

/// The reference amount of a guarantee (Common Transit Convention, Appendix I) in cents, 1 to 10^15.
/// Contracts see it as that number.
#[derive(Clone, Copy, Debug, PartialEq, Eq, PartialOrd, Ord)]
pub struct Reference {
    cents: u64,
}

impl Model for Reference {
    ghost Value = { ℕ };

    ghost view = { λ r. r.cents };

    ghost invariant = { λ r. IsReference r.cents };

    ghost inverse = { λ n. record { cents = n } };
}

impl Reference {
    /// The reference amount of that many cents: `None` for 0, and above 10^15.
    pub fn new(cents: u64) -> Option<Self>
        ensures value { result ≡ reference_of cents }
        ensures range { SomeIff result (IsReference cents) cents }
    {
        if cents >= 1 && cents <= MOST_CENTS {
            Some(Reference { cents })
        } else {
            None
        }
    }

    /// The amount.
    pub fn get(self) -> Cents
        ensures value { result ≡ self }
        ensures range { IsReference self }
    {
        Cents { cents: self.cents }
    }
}

/// The part of the reference amount that a guarantee has to cover, in percent: 100, 50, 30, or 0 under a waiver
/// (Common Transit Convention, Appendix I). Contracts see it as that number.
#[derive(Clone, Copy, Debug, PartialEq, Eq, PartialOrd, Ord)]
pub struct Cover {
    percent: u64,
}

impl Model for Cover {
    ghost Value = { ℕ };

    ghost view = { λ c. c.percent };

    ghost invariant = { λ c. IsCover c.percent };

    ghost inverse = { λ n. record { percent = n } };
}

impl Cover {
    /// The cover of that many percent: `None` unless it is 100, 50, 30 or 0.
    pub fn new(percent: u64) -> Option<Self>
        ensures value { result ≡ cover_of percent }
        ensures range { SomeIff result (IsCover percent) percent }
    {
        match percent {
            100 | 50 | 30 | 0 => Some(Cover { percent }),
            _ => None,
        }
    }

    /// The percent.
    pub fn get(self) -> u64
        ensures value { result ≡ self }
        ensures range { IsCover self }
    {
        self.percent
    }
}
