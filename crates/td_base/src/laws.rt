//! What holds of all texts that are printed.
ghost use Rattle.ascii_text.specs.Digits.{digits_value};
ghost use Rattle.td_base.specs.Codes.{IsAccessCode, IsLrn, IsOfficeNo, IsCountry, IsHolderText, holder_text, IsEori};
ghost use Rattle.std.specs.Prelude.{◌≡◌};
ghost use Rattle.td_time.specs.Days.{IsDayText, day_text, number_in};
ghost use Rattle.td_money.specs.Money.{IsCentsText, cents_text, cents_value};
ghost use Rattle.td_base.specs.References.{IsGrn, IsMrn};

use crate::access_code::AccessCode;
use crate::country::Country;
use crate::eori::Eori;
use crate::grn::Grn;
use crate::lrn::Lrn;
use crate::mrn::Mrn;
use crate::office::OfficeNo;

/// Each value that is seen as its text is printed as a text that its `read` accepts, and reads as that text.
pub fn texts_read_back(
    country: Country,
    eori: Eori,
    code: AccessCode,
    lrn: Lrn,
    office: OfficeNo,
    grn: Grn,
    mrn: Mrn,
)
    ensures country { IsCountry country }
    ensures eori { IsEori eori }
    ensures code { IsAccessCode code }
    ensures lrn { IsLrn lrn }
    ensures office { IsOfficeNo office }
    ensures grn { IsGrn grn }
    ensures mrn { IsMrn mrn }
{
    let _country = country.as_bytes();
    let _eori = eori.as_bytes();
    let _code = code.as_bytes();
    let _lrn = lrn.as_bytes();
    let _office = office.as_bytes();
    let _grn = grn.as_bytes();
    let _mrn = mrn.as_bytes();
}

/// What is read is printed as it was: a holder, an amount and a day have one text each.
pub fn read_texts_are_printed(text: &[u8])
    ensures holder { IsHolderText text.now → holder_text (digits_value text.now) ≡ text.now }
    ensures cents { IsCentsText text.now → cents_text (cents_value text.now) ≡ text.now }
    ensures day { IsDayText text.now → day_text (number_in text.now) ≡ text.now }
{
    let _text = text.len();
}
