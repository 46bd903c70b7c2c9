//! Numbers of customs offices.
ghost use Rattle.std.specs.Prelude.{◌≡◌, ℕ, List, ◌↔◌, IsTrue, Some, SomeIff};
ghost use Rattle.td_base.specs.Codes.{IsOfficeNo, is_office_no, office_read};

use ascii_text::{is_capitals, is_marks, write_ascii};
use std::fmt;
use std::marker::Model;

/// The number of a customs office: two capital letters and six digits or capital letters. Contracts see it as
/// its text.
#[derive(Clone, Copy, Debug, PartialEq, Eq, PartialOrd, Ord)]
pub struct OfficeNo {
    bytes: [u8; 8],
}

impl Model for OfficeNo {
    ghost Value = { List ℕ };

    ghost view = { λ o. o.bytes };

    ghost invariant = { λ o. IsOfficeNo o.bytes };

    ghost inverse = { λ l. record { bytes = l } };
}

impl OfficeNo {
    /// Reads exactly the texts of that form.
    pub fn read(text: &[u8]) -> Option<Self>
        ensures value { result ≡ office_read text.now }
        ensures form { SomeIff result (IsOfficeNo text.now) text.now }
    {
        if !is_office_no(text) {
            return None;
        }
        let mut bytes = [0; 8];
        bytes.copy_from_slice(text);
        Some(OfficeNo { bytes })
    }

    /// The eight characters.
    pub fn as_bytes(&self) -> &[u8]
        ensures value { result.now ≡ self.now }
        ensures form { IsOfficeNo self.now }
    {
        &self.bytes
    }
}

fn is_office_no(text: &[u8]) -> bool
    ensures value { result ≡ is_office_no text.now }
    ensures form { IsTrue result ↔ IsOfficeNo text.now }
{
    text.len() == 8 && is_capitals(&text[..2]) && is_marks(&text[2..])
}

impl fmt::Display for OfficeNo {
    ghost output = { λ o. Some o };

    fn fmt<W: fmt::Write>(&self, f: &mut fmt::Formatter<W>) -> fmt::Result {
        write_ascii(f, self.as_bytes())
    }
}
