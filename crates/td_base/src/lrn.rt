//! Local reference numbers.
ghost use Rattle.std.specs.Prelude.{◌≡◌, ◌↔◌, IsTrue, Some, SomeIff, All};
ghost use Rattle.std.specs.List.{list_all};
ghost use Rattle.td_base.specs.Codes.{IsLrn, IsLrnCharacter, is_lrn, is_lrn_character, lrn_read};

use ascii_text::write_ascii;
use std::fmt;
use std::marker::Model;

/// A local reference number (LRN), by which a holder names a declaration: 1 to 22 digits, ASCII letters, `-`,
/// `/` and `.`. Contracts see it as its text.
#[derive(Clone, Copy, Debug, PartialEq, Eq, PartialOrd, Ord)]
pub struct Lrn {
    bytes: [u8; 22],
    len: usize,
}

impl Model for Lrn {
    ghost use Rattle.std.specs.Prelude.{List, ℕ, take, length, replicate, ◌++◌, ◌-◌};
    ghost use Rattle.td_base.specs.Codes.{IsLrn};
    ghost use Rattle.td_base.specs.Kept.{IsKept, kept_back};

    ghost Value = { List ℕ };

    ghost view = { λ r. take r.len r.bytes };

    ghost invariant = { λ r. IsKept IsLrn 22 r.bytes r.len };

    ghost inverse = { λ l. record { bytes = l ++ replicate (22 - length l) 0; len = length l } };

    ghost inverse_ok = { λ a h. kept_back IsLrn 22 (λ bytes len. record { bytes = bytes; len = len }) a.bytes a.len h };
}

impl Lrn {
    /// Reads exactly the texts of that form.
    pub fn read(text: &[u8]) -> Option<Self>
        ensures value { result ≡ lrn_read text.now }
        ensures form { SomeIff result (IsLrn text.now) text.now }
    {
        if !is_lrn(text) {
            return None;
        }
        let mut bytes = [0; 22];
        let len = text.len();
        bytes[..len].copy_from_slice(text);
        Some(Lrn { bytes, len })
    }

    /// The text.
    pub fn as_bytes(&self) -> &[u8]
        ensures value { result.now ≡ self.now }
        ensures form { IsLrn self.now }
    {
        &self.bytes[..self.len]
    }
}

fn is_lrn(text: &[u8]) -> bool
    ensures value { result ≡ is_lrn text.now }
    ensures form { IsTrue result ↔ IsLrn text.now }
{
    text.len() >= 1 && text.len() <= 22 && are_lrn_characters(text)
}

fn are_lrn_characters(text: &[u8]) -> bool
    ensures value { result ≡ list_all is_lrn_character text.now }
    ensures characters { IsTrue result ↔ All IsLrnCharacter text.now }
{
    text.iter().all(|c| is_lrn_character(*c))
}

fn is_lrn_character(c: u8) -> bool
    ensures value { result ≡ is_lrn_character c }
    ensures form { IsTrue result ↔ IsLrnCharacter c }
{
    c.is_ascii_alphanumeric() || c == b'-' || c == b'/' || c == b'.'
}

impl fmt::Display for Lrn {
    ghost output = { λ r. Some r };

    fn fmt<W: fmt::Write>(&self, f: &mut fmt::Formatter<W>) -> fmt::Result {
        write_ascii(f, self.as_bytes())
    }
}
