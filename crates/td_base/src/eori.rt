//! Numbers of economic operators.
ghost use Rattle.std.specs.Prelude.{◌≡◌, ◌↔◌, IsTrue, Some, SomeIff};
ghost use Rattle.td_base.specs.Codes.{IsEori, is_eori, eori_read};

use ascii_text::{is_capitals, is_marks, write_ascii};
use std::fmt;
use std::marker::Model;

/// An EORI: two capital letters and 1 to 15 digits or capital letters. Contracts see it as its text.
#[derive(Clone, Copy, Debug, PartialEq, Eq, PartialOrd, Ord)]
pub struct Eori {
    bytes: [u8; 17],
    len: usize,
}

impl Model for Eori {
    ghost use Rattle.std.specs.Prelude.{List, ℕ, take, length, replicate, ◌++◌, ◌-◌};
    ghost use Rattle.td_base.specs.Codes.{IsEori};
    ghost use Rattle.td_base.specs.Kept.{IsKept, kept_back};

    ghost Value = { List ℕ };

    ghost view = { λ e. take e.len e.bytes };

    ghost invariant = { λ e. IsKept IsEori 17 e.bytes e.len };

    ghost inverse = { λ l. record { bytes = l ++ replicate (17 - length l) 0; len = length l } };

    ghost inverse_ok = { λ a h.
        kept_back IsEori 17 (λ bytes len. record { bytes = bytes; len = len }) a.bytes a.len h };
}

impl Eori {
    /// Reads exactly the texts of that form.
    pub fn read(text: &[u8]) -> Option<Self>
        ensures value { result ≡ eori_read text.now }
        ensures form { SomeIff result (IsEori text.now) text.now }
    {
        if !is_eori(text) {
            return None;
        }
        let mut bytes = [0; 17];
        let len = text.len();
        bytes[..len].copy_from_slice(text);
        Some(Eori { bytes, len })
    }

    /// The text.
    pub fn as_bytes(&self) -> &[u8]
        ensures value { result.now ≡ self.now }
        ensures form { IsEori self.now }
    {
        &self.bytes[..self.len]
    }
}

impl fmt::Display for Eori {
    ghost output = { λ e. Some e };

    fn fmt<W: fmt::Write>(&self, f: &mut fmt::Formatter<W>) -> fmt::Result {
        write_ascii(f, self.as_bytes())
    }
}

fn is_eori(text: &[u8]) -> bool
    ensures value { result ≡ is_eori text.now }
    ensures form { IsTrue result ↔ IsEori text.now }
{
    text.len() >= 3 && text.len() <= 17 && is_capitals(&text[..2]) && is_marks(&text[2..])
}
