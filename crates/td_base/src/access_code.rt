//! Access codes.
ghost use Rattle.std.specs.Prelude.{◌≡◌, ℕ, List, Some, SomeIff};
ghost use Rattle.td_base.specs.Codes.{IsAccessCode, code_read};

use ascii_text::{is_marks, write_ascii};
use std::fmt;
use std::marker::Model;

/// The access code of a guarantee: four digits or capital letters. Contracts see it as its text.
#[derive(Clone, Copy, Debug, PartialEq, Eq, PartialOrd, Ord)]
pub struct AccessCode {
    bytes: [u8; 4],
}

impl Model for AccessCode {
    ghost Value = { List ℕ };

    ghost view = { λ a. a.bytes };

    ghost invariant = { λ a. IsAccessCode a.bytes };

    ghost inverse = { λ l. record { bytes = l } };
}

impl AccessCode {
    /// Reads exactly four digits or capital letters.
    pub fn read(text: &[u8]) -> Option<Self>
        ensures value { result ≡ code_read text.now }
        ensures form { SomeIff result (IsAccessCode text.now) text.now }
    {
        if text.len() != 4 || !is_marks(text) {
            return None;
        }
        let mut bytes = [0; 4];
        bytes.copy_from_slice(text);
        Some(AccessCode { bytes })
    }

    /// The four characters.
    pub fn as_bytes(&self) -> &[u8]
        ensures value { result.now ≡ self.now }
        ensures form { IsAccessCode self.now }
    {
        &self.bytes
    }
}

impl fmt::Display for AccessCode {
    ghost output = { λ a. Some a };

    fn fmt<W: fmt::Write>(&self, f: &mut fmt::Formatter<W>) -> fmt::Result {
        write_ascii(f, self.as_bytes())
    }
}
