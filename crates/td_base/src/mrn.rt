//! Movement reference numbers.
ghost use Rattle.std.specs.Prelude.{◌≡◌, ℕ, ◌≤◌, List, Some, true, false, IfErr, OkIff, SomeIff};
ghost use Rattle.td_base.specs.References.{IsMrn, IsMrnSerial, IsOlderMrnSerial, IsFirstFault, owner_of as owner_in, serial_of as serial_in, mrn_read, mrn_text, older_mrn_text, AreJustMade};

use crate::country::Country;
use crate::holder::HolderNo;
use crate::references::{
    PROCEDURE_LETTER, RefFault, make_reference, owner_of, read_reference, serial_of,
};
use ascii_text::write_ascii;
use std::fmt;
use std::marker::Model;

/// The greatest serial of a movement whose reference has the letter: it has six digits there.
pub const GREATEST_MRN_SERIAL: u32 = 999_999;

/// The greatest serial of a holder's movements that may stand: it has seven digits in a reference of the older form.
pub const GREATEST_OLDER_MRN_SERIAL: u32 = 9_999_999;

/// A movement reference number (MRN) of NCTS: two digits of a year, two capital letters of a country, 13 digits or
/// capital letters and a check digit. Contracts see it as its text.
#[derive(Clone, Copy, Debug, PartialEq, Eq, PartialOrd, Ord)]
pub struct Mrn {
    bytes: [u8; 18],
}

impl Model for Mrn {
    ghost use Rattle.std.specs.Prelude.{List, ℕ};
    ghost use Rattle.td_base.specs.References.{IsMrn};

    ghost Value = { List ℕ };

    ghost view = { λ r. r.bytes };

    ghost invariant = { λ r. IsMrn r.bytes };

    ghost inverse = { λ l. record { bytes = l } };
}

impl Mrn {
    /// Reads exactly the texts of an MRN. The error is `Length` for another length than 18, else `Form` where a
    /// place has a character of another class, else `CheckDigit`.
    pub fn read(text: &[u8]) -> Result<Self, RefFault>
        ensures value { result ≡ mrn_read text.now }
        ensures ok { OkIff result (IsMrn text.now) text.now }
        ensures err { IfErr result (IsFirstFault 18 text.now) }
    {
        let bytes = read_reference(text)?;
        Ok(Mrn { bytes })
    }

    /// The MRN of that serial of a holder's movements, in the two digits of a year: the holder in six digits, the
    /// serial in six, and the letter. `None` for a year above 99, and for a serial outside 1 to 999999.
    pub fn make(year2: u8, country: Country, holder: HolderNo, serial: u32) -> Option<Self>
        ensures { SomeIff result ((year2 ≤ 99) × IsMrnSerial serial) (mrn_text year2 country holder serial) }
    {
        let letter = [PROCEDURE_LETTER];
        let bytes = make_reference(year2, country, holder, serial, GREATEST_MRN_SERIAL, &letter)?;
        Some(Mrn { bytes })
    }

    /// The MRN of that serial as it was made until the letter came: the holder in six digits, then the serial in
    /// seven. `None` for a year above 99, and for a serial outside 1 to 9999999.
    pub fn make_older(year2: u8, country: Country, holder: HolderNo, serial: u32) -> Option<Self>
        ensures { SomeIff result
            ((year2 ≤ 99) × IsOlderMrnSerial serial) (older_mrn_text year2 country holder serial) }
    {
        let bytes = make_reference(
            year2,
            country,
            holder,
            serial,
            GREATEST_OLDER_MRN_SERIAL,
            &[],
        )?;
        Some(Mrn { bytes })
    }

    /// The holder who owns the movement, read from the text alone, in either form: the first six of the identifier's
    /// digits, where the country is this one and all of the identifier but the letter is digits.
    pub fn owner(&self, country: Country) -> Option<HolderNo>
        ensures { result ≡ owner_in country self.now }
    {
        owner_of(&self.bytes, country)
    }

    /// The serial of the owner's movement: the other digits of the identifier, where there is an owner.
    pub fn serial(&self, country: Country) -> Option<u32>
        ensures { result ≡ serial_in country self.now }
    {
        serial_of(&self.bytes, country)
    }

    /// The 18 characters.
    pub fn as_bytes(&self) -> &[u8]
        ensures value { result.now ≡ self.now }
        ensures form { IsMrn self.now }
    {
        &self.bytes
    }
}

impl fmt::Display for Mrn {
    ghost output = { λ r. Some r };

    fn fmt<W: fmt::Write>(&self, f: &mut fmt::Formatter<W>) -> fmt::Result {
        write_ascii(f, self.as_bytes())
    }
}

/// An MRN that is made is read, and its owner and serial are those that it was made of.
pub fn made_mrn_reads_back(year2: u8, country: Country, holder: HolderNo, serial: u32)
    ensures form { IsMrn (mrn_text year2 country holder serial) }
    ensures owner { owner_in country (mrn_text year2 country holder serial) ≡ Some holder }
    ensures serial { IsMrnSerial serial → serial_in country (mrn_text year2 country holder serial) ≡ Some serial }
{
    let _country = country.as_bytes();
    let _holder = holder.number();
}

/// The same of an MRN that is made in the older form.
pub fn made_older_mrn_reads_back(year2: u8, country: Country, holder: HolderNo, serial: u32)
    ensures form { IsMrn (older_mrn_text year2 country holder serial) }
    ensures owner { owner_in country (older_mrn_text year2 country holder serial) ≡ Some holder }
    ensures serial { IsOlderMrnSerial serial
        → serial_in country (older_mrn_text year2 country holder serial) ≡ Some serial }
{
    let _country = country.as_bytes();
    let _holder = holder.number();
}

/// Of all texts, just those that are made are the MRNs that a holder owns: with the letter, and without it.
pub fn owned_mrns_are_made()
    ensures lettered { AreJustMade true GREATEST_MRN_SERIAL mrn_text }
    ensures older { AreJustMade false GREATEST_OLDER_MRN_SERIAL older_mrn_text }
{}
