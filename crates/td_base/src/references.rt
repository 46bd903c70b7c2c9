//! References: what prints, owns and numbers them. The texts of MRN and GRN differ in their length alone: `Grn` and
//! `Mrn` add that, and their greatest serial.
ghost use Rattle.std.specs.Prelude.{◌≡◌, ◌+◌, ◌-◌, ◌≤◌, ◌++◌, length, All, IsTrue, ◌↔◌, SomeIff, IfSome, OkIff, IfErr};
ghost use Rattle.ascii_text.specs.Digits.{fixed_decimal, IsMark};
ghost use Rattle.td_base.specs.Codes.{IsCountry};
ghost use Rattle.td_base.specs.References.{IsReferenceText, IsFirstFault, HasForm, has_form, reference_read, numbers_of as numbers_in, owner_of as owner_in, serial_of as serial_in, reference_text, grn_text, mrn_text, older_mrn_text, IsGrnSerial, IsMrnSerial, IsOlderMrnSerial, TellsApart, NoneHasBothForms, NoGrnIsLettered};

use crate::checking::check_digit;
use crate::country::Country;
use crate::holder::HolderNo;
use ascii_text::{is_capitals, is_digits, is_marks, read_digits, write_digits};
use thiserror::Error;

/// The letter of the procedure: it stands at the thirteenth place of a new MRN's identifier, behind the numbers.
pub const PROCEDURE_LETTER: u8 = b'J';

/// What a text that isn't a reference is refused for: the first of these, in this order.
#[derive(Clone, Copy, Debug, PartialEq, Eq, Error)]
pub enum RefFault {
    /// It hasn't the length of such a reference.
    #[error("wrong length")]
    Length,
    /// A place has a character of another class.
    #[error("wrong form")]
    Form,
    /// The last digit isn't the check digit of all before it.
    #[error("wrong check digit")]
    CheckDigit,
}

/// Reads a reference of `N` characters, or tells the first fault: the length is tested, then each
/// place, then the check digit.
pub fn read_reference<const N: usize>(text: &[u8]) -> Result<[u8; N], RefFault>
    requires { (5 ≤ N) × (N ≤ 41) }
    ensures value { result ≡ reference_read N text.now }
    ensures ok { OkIff result (IsReferenceText N text.now) text.now }
    ensures err { IfErr result (IsFirstFault N text.now) }
{
    if text.len() != N {
        return Err(RefFault::Length);
    }
    if !has_form(text) {
        return Err(RefFault::Form);
    }
    let last = N - 1;
    if check_digit(&text[..last]) != Some(text[last] - b'0') {
        return Err(RefFault::CheckDigit);
    }
    let mut bytes = [0; N];
    bytes.copy_from_slice(text);
    Ok(bytes)
}

fn has_form(text: &[u8]) -> bool
    requires { 5 ≤ length text.now }
    ensures value { result ≡ has_form text.now }
    ensures form { IsTrue result ↔ HasForm text.now }
{
    let last = text.len() - 1;
    is_digits(&text[..2])
        && is_capitals(&text[2..4])
        && is_marks(&text[4..last])
        && is_digits(&text[last..])
}

// The numbers of an identifier: all of it, but for the letter at its thirteenth place.
fn numbers_of(identifier: &[u8]) -> &[u8]
    ensures { result.now ≡ numbers_in identifier.now }
{
    if identifier.get(12) == Some(&PROCEDURE_LETTER) {
        &identifier[..12]
    } else {
        identifier
    }
}

/// The holder in the first six of the identifier's digits, where the country is this one and all its numbers are digits.
pub fn owner_of(text: &[u8], country: Country) -> Option<HolderNo>
    requires { (17 ≤ length text.now) × (length text.now ≤ 18) }
    ensures { result ≡ owner_in country text.now }
{
    let identifier = &text[4..text.len() - 1];
    if &text[2..4] != country.as_bytes() {
        return None;
    }
    if !is_digits(numbers_of(identifier)) {
        return None;
    }
    HolderNo::read(&identifier[..6])
}

/// The serial in the other digits of the identifier, where there is an owner.
pub fn serial_of(text: &[u8], country: Country) -> Option<u32>
    requires { (17 ≤ length text.now) × (length text.now ≤ 18) }
    ensures { result ≡ serial_in country text.now }
{
    owner_of(text, country)?;
    let numbers = numbers_of(&text[4..text.len() - 1]);
    let serial = read_digits(&numbers[6..])?;
    Some(serial as u32)
}

/// A reference of `N` characters: year, country, holder and serial in digits, what stands behind them, and the check
/// digit. `None` for a year above 99, and for a serial of 0 or above the greatest.
pub fn make_reference<const N: usize>(
    year2: u8,
    country: Country,
    holder: HolderNo,
    serial: u32,
    greatest: u32,
    behind: &[u8],
) -> Option<[u8; N]>
    requires { (length behind.now + 11 ≤ N) × (N ≤ 41) × All IsMark behind.now }
    ensures text { SomeIff result
        ((year2 ≤ 99) × ((1 ≤ serial) × (serial ≤ greatest)))
        (reference_text year2 country
        (fixed_decimal 6 holder ++ fixed_decimal (N - 11 - length behind.now) serial ++ behind.now)) }
    ensures form { IfSome result (IsReferenceText N) }
{
    if year2 > 99 || serial < 1 || serial > greatest {
        return None;
    }
    let mut bytes = [0; N];
    write_reference(&mut bytes, year2, country, holder, serial, behind);
    Some(bytes)
}

// Writes a reference of that length.
fn write_reference(
    text: &mut [u8],
    year2: u8,
    country: Country,
    holder: HolderNo,
    serial: u32,
    behind: &[u8],
)
    requires { (length behind.now + 11 ≤ length text.old) × (length text.old ≤ 41) × All IsMark behind.now }
    ensures text { text.new
        ≡ reference_text year2 country
        (fixed_decimal 6 holder ++ fixed_decimal (length text.old - 11 - length behind.now) serial ++ behind.now) }
    ensures country { IsCountry country }
{
    let last = text.len() - 1;
    let digits = last - behind.len();
    write_front(&mut text[..digits], year2, country, holder, serial);
    text[digits..last].copy_from_slice(behind);
    let check = check_digit(&text[..last]).unwrap();
    text[last] = b'0' + check;
}

// All but what stands behind the numbers.
fn write_front(text: &mut [u8], year2: u8, country: Country, holder: HolderNo, serial: u32)
    requires { 10 ≤ length text.old }
    ensures text { text.new
        ≡ fixed_decimal 2 year2 ++ country
        ++ (fixed_decimal 6 holder ++ fixed_decimal (length text.old - 10) serial) }
    ensures country { IsCountry country }
{
    write_digits(&mut text[..2], u64::from(year2));
    text[2..4].copy_from_slice(country.as_bytes());
    write_digits(&mut text[4..10], u64::from(holder.number()));
    write_digits(&mut text[10..], u64::from(serial));
}

/// References that are made for different holders, or of different serials, differ, and so do MRNs of different forms.
/// No GRN has the form with the letter.
pub fn made_references_differ()
    ensures grn { TellsApart grn_text IsGrnSerial }
    ensures mrn { TellsApart mrn_text IsMrnSerial }
    ensures older { TellsApart older_mrn_text IsOlderMrnSerial }
    ensures forms { NoneHasBothForms }
    ensures letter { NoGrnIsLettered }
{}
