//! Codes of countries.
ghost use Rattle.std.specs.Prelude.{◌≡◌, ℕ, List, Some, SomeIff};
ghost use Rattle.td_base.specs.Codes.{IsCountry, country_read};

use std::fmt;
use std::marker::Model;

/// A country, by two capital letters. Contracts see it as their codes.
#[derive(Clone, Copy, Debug, PartialEq, Eq, PartialOrd, Ord)]
pub struct Country {
    letters: [u8; 2],
}

impl Model for Country {
    ghost Value = { List ℕ };

    ghost view = { λ c. c.letters };

    ghost invariant = { λ c. IsCountry c.letters };

    ghost inverse = { λ l. record { letters = l } };
}

impl Country {
    /// Reads exactly two capital letters.
    pub fn read(text: &[u8]) -> Option<Self>
        ensures value { result ≡ country_read text.now }
        ensures form { SomeIff result (IsCountry text.now) text.now }
    {
        match text {
            [a, b] if a.is_ascii_uppercase() && b.is_ascii_uppercase() => {
                Some(Country { letters: [*a, *b] })
            }
            _ => None,
        }
    }

    /// The two letters.
    pub fn as_bytes(&self) -> &[u8]
        ensures value { result.now ≡ self.now }
        ensures form { IsCountry self.now }
    {
        &self.letters
    }
}

impl fmt::Display for Country {
    ghost output = { λ c. Some c };

    fn fmt<W: fmt::Write>(&self, f: &mut fmt::Formatter<W>) -> fmt::Result {
        let a = char::from(self.letters[0]);
        let b = char::from(self.letters[1]);
        write!(f, "{a}{b}")
    }
}
