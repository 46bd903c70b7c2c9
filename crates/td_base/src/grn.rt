//! Guarantee reference numbers.
ghost use Rattle.std.specs.Prelude.{◌≡◌, ℕ, ◌≤◌, List, Some, IfErr, OkIff, SomeIff};
ghost use Rattle.td_base.specs.References.{IsGrn, IsGrnSerial, IsFirstFault, owner_of as owner_in, serial_of as serial_in, grn_read, grn_text};

use crate::country::Country;
use crate::holder::HolderNo;
use crate::references::{RefFault, make_reference, owner_of, read_reference, serial_of};
use ascii_text::write_ascii;
use std::fmt;
use std::marker::Model;

/// The greatest serial of a holder's guarantees: it has six digits in the reference.
pub const GREATEST_GRN_SERIAL: u32 = 999_999;

/// A guarantee reference number (GRN) of NCTS: two digits of a year, two capital letters of a country, 12
/// digits or capital letters and a check digit. Contracts see it as its text.
#[derive(Clone, Copy, Debug, Eq, PartialOrd, Ord)]
pub struct Grn {
    bytes: [u8; 17],
}

impl Model for Grn {
    ghost use Rattle.std.specs.Prelude.{List, ℕ};
    ghost use Rattle.td_base.specs.References.{IsGrn};

    ghost Value = { List ℕ };

    ghost view = { λ r. r.bytes };

    ghost invariant = { λ r. IsGrn r.bytes };

    ghost inverse = { λ l. record { bytes = l } };
}

impl Grn {
    /// Reads exactly the texts of a GRN. The error is `Length` for another length than 17, else `Form` where a
    /// place has a character of another class, else `CheckDigit`.
    pub fn read(text: &[u8]) -> Result<Self, RefFault>
        ensures value { result ≡ grn_read text.now }
        ensures ok { OkIff result (IsGrn text.now) text.now }
        ensures err { IfErr result (IsFirstFault 17 text.now) }
    {
        let bytes = read_reference(text)?;
        Ok(Grn { bytes })
    }

    /// The GRN of that serial of a holder's guarantees, in the two digits of a year: the holder in six
    /// digits, then the serial in six. `None` for a year above 99, and for a serial outside 1 to 999999.
    pub fn make(year2: u8, country: Country, holder: HolderNo, serial: u32) -> Option<Self>
        ensures { SomeIff result ((year2 ≤ 99) × IsGrnSerial serial) (grn_text year2 country holder serial) }
    {
        let bytes = make_reference(year2, country, holder, serial, GREATEST_GRN_SERIAL, &[])?;
        Some(Grn { bytes })
    }

    /// The holder who owns the guarantee, read from the text alone: the first six of the identifier's digits,
    /// where the country is this one and all of the identifier is digits.
    pub fn owner(&self, country: Country) -> Option<HolderNo>
        ensures { result ≡ owner_in country self.now }
    {
        owner_of(&self.bytes, country)
    }

    /// The serial of the owner's guarantee: the other digits of the identifier, where there is an owner.
    pub fn serial(&self, country: Country) -> Option<u32>
        ensures { result ≡ serial_in country self.now }
    {
        serial_of(&self.bytes, country)
    }

    /// The 17 characters.
    pub fn as_bytes(&self) -> &[u8]
        ensures value { result.now ≡ self.now }
        ensures form { IsGrn self.now }
    {
        &self.bytes
    }
}

impl PartialEq for Grn {
    ghost use Rattle.std.proofs.Common.{rules};
    ghost use Rattle.std.specs.Cmp.Rules.{comparing};
    ghost use Rattle.std.specs.Str.{bytes_eq};

    ghost eq = { bytes_eq };

    ghost laws = { Prim.search (comparing, rules) };

    // The check digit and the last of the serial tell most of a holder's references apart.
    fn eq(&self, other: &Grn) -> bool {
        if self.bytes[16] != other.bytes[16] || self.bytes[15] != other.bytes[15] {
            return false;
        }
        self.bytes == other.bytes
    }
}

impl fmt::Display for Grn {
    ghost output = { λ r. Some r };

    fn fmt<W: fmt::Write>(&self, f: &mut fmt::Formatter<W>) -> fmt::Result {
        write_ascii(f, self.as_bytes())
    }
}

/// A GRN that is made is read, and its owner and serial are those that it was made of.
pub fn made_grn_reads_back(year2: u8, country: Country, holder: HolderNo, serial: u32)
    ensures form { IsGrn (grn_text year2 country holder serial) }
    ensures owner { owner_in country (grn_text year2 country holder serial) ≡ Some holder }
    ensures serial { IsGrnSerial serial → serial_in country (grn_text year2 country holder serial) ≡ Some serial }
{
    let _country = country.as_bytes();
    let _holder = holder.number();
}
