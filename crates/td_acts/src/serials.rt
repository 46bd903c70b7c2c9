//! The next references of a holder.
ghost use Rattle.std.specs.Prelude.{◌≡◌};
ghost use Rattle.td_model.specs.Effects.{next_serial, year2_at};
ghost use Rattle.td_base.specs.References.{grn_text, mrn_text};

use td_base::{Country, Day, Grn, HolderNo, Moment, Mrn};

/// The greatest serial that a new guarantee of a holder is given.
const GREATEST_GRN_GIVEN: u32 = 999_999;

/// The greatest serial that a new movement of a holder is given.
const GREATEST_MRN_GIVEN: u32 = 999_999;

/// The serial after the last one of a holder's guarantees, and the GRN made of it in the year of a moment.
/// `None` where the holder has used up all serials.
pub fn next_grn(country: Country, holder: HolderNo, at: Moment, last: u32) -> Option<(u32, Grn)>
    ensures { result ≡ next_serial GREATEST_GRN_GIVEN last (grn_text (year2_at at) country holder) }
{
    if last >= GREATEST_GRN_GIVEN {
        return None;
    }
    let grn = Grn::make(Day::of_moment(at).year2(), country, holder, last + 1)?;
    Some((last + 1, grn))
}

/// The serial after the last one of a holder's movements, and the MRN made of it in the year of a moment.
/// `None` where the holder has used up all serials.
pub fn next_mrn(country: Country, holder: HolderNo, at: Moment, last: u32) -> Option<(u32, Mrn)>
    ensures { result ≡ next_serial GREATEST_MRN_GIVEN last (mrn_text (year2_at at) country holder) }
{
    if last >= GREATEST_MRN_GIVEN {
        return None;
    }
    let mrn = Mrn::make(Day::of_moment(at).year2(), country, holder, last + 1)?;
    Some((last + 1, mrn))
}
