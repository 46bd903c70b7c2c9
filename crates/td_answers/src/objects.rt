//! The objects that show a movement and a guarantee, as JSON.
#![tactic(auto, unfolding(serde_json::proofs::OnLiterals::serde_json_on_literals))]

ghost use Rattle.std.specs.Fmt.{WritesOnOk};
ghost use Rattle.std.specs.Prelude.{◌≡◌, All, IfSome};
ghost use Rattle.serde_json.specs.Written.{compact_text};
ghost use Rattle.td_base.specs.Codes.{IsAccessCode, IsOfficeNo};
ghost use Rattle.td_base.specs.References.{IsGrn, IsMrn};
ghost use Rattle.td_answers.specs.Objects.{codes_data, free_on, guarantee_body, guarantee_data, line_data, lines_data, movement_body, movement_data};

use crate::json::{Json, ToJson};
use std::fmt;
use td_base::{AccessCode, Cents, Grn, Mrn, OfficeNo};
use td_guarantee::{Codes, Guarantee, guaranteed};
use td_movement::{Line, Movement, MovementLines};

impl ToJson for Line {
    ghost shown = { line_data };

    fn write_json<W: fmt::Write>(&self, f: &mut fmt::Formatter<W>) -> fmt::Result {
        let _form = self.grn.as_bytes();
        write!(
            f,
            r#"{{"cents":{},"grn":"{}"}}"#,
            self.cents.get(),
            self.grn
        )
    }
}

impl ToJson for MovementLines {
    ghost shown = { lines_data };

    fn write_json<W: fmt::Write>(&self, f: &mut fmt::Formatter<W>) -> fmt::Result {
        self.as_slice().write_json(f)
    }
}

impl ToJson for Codes {
    ghost shown = { codes_data };

    fn write_json<W: fmt::Write>(&self, f: &mut fmt::Formatter<W>) -> fmt::Result {
        self.as_slice().write_json(f)
    }
}

impl ToJson for Movement {
    ghost shown = { movement_data };

    fn write_json<W: fmt::Write>(&self, f: &mut fmt::Formatter<W>) -> fmt::Result {
        // nothing in these texts is escaped, so each stands between its quotes as it is
        let _departure = self.departure.as_bytes();
        let _destination = self.destination.as_bytes();
        let _lrn = self.lrn.as_bytes();
        let _mrn = self.mrn.as_bytes();
        write!(
            f,
            r#"{{"accepted":"{}","actual":{},"arrival":{},"departure":"{}","destination":"{}",{}"#,
            self.accepted,
            Json(&self.actual),
            Json(&self.arrival),
            self.departure,
            self.destination,
            format_args!(
                r#""limit":{},"lines":{},"lrn":"{}","mrn":"{}","state":"{}"}}"#,
                Json(&self.limit),
                Json(&self.lines),
                self.lrn,
                self.mrn,
                self.state.name()
            )
        )
    }
}

/// Writes a guarantee, and the amount in use on it.
pub(crate) fn write_guarantee<W: fmt::Write>(
    f: &mut fmt::Formatter<W>,
    guarantee: &Guarantee,
    used: Cents,
) -> fmt::Result
    ensures { WritesOnOk W.write_str_gives f.old result (compact_text (guarantee_data guarantee.now used)) f.new }
{
    let _form = guarantee.grn.as_bytes();
    write!(
        f,
        r#"{{"codes":{},"cover":{},"ends":{},"free":{},"grn":"{}",{}"#,
        Json(&guarantee.codes),
        guarantee.cover.get(),
        Json(&guarantee.ends),
        free_on(guarantee, used),
        guarantee.grn,
        format_args!(
            r#""guaranteed":{},"reference":{},"used":{}}}"#,
            guaranteed(guarantee.reference, guarantee.cover).get(),
            guarantee.reference.get(),
            used.get()
        )
    )
}

// What is left of the reference amount beside what is in use, in cents.
fn free_on(guarantee: &Guarantee, used: Cents) -> u64
    ensures { result ≡ free_on guarantee.now used }
{
    guarantee.reference.get().saturating_sub(used.get())
}

/// The text of a movement: nothing in it is escaped.
pub(crate) fn movement_is_told_in(movement: &Movement)
    ensures { compact_text (movement_data movement.now) ≡ movement_body movement.now }
{
    is_office_number(movement.actual);
    let _departure = movement.departure.as_bytes();
    let _destination = movement.destination.as_bytes();
    have_grns(movement.lines.as_slice());
    let _lrn = movement.lrn.as_bytes();
    let _mrn = movement.mrn.as_bytes();
}

/// The text of a guarantee with the amount in use on it: nothing in it is escaped.
pub(crate) fn guarantee_is_told_in(guarantee: &Guarantee, used: Cents)
    ensures { compact_text (guarantee_data guarantee.now used) ≡ guarantee_body guarantee.now used }
{
    are_access_codes(guarantee.codes.as_slice());
    let _grn = guarantee.grn.as_bytes();
}

/// A GRN has the form of one.
pub(crate) fn is_grn(grn: &Grn)
    ensures { IsGrn grn.now }
{
    let _grn = grn.as_bytes();
}

/// An MRN has the form of one.
pub(crate) fn is_mrn(mrn: &Mrn)
    ensures { IsMrn mrn.now }
{
    let _mrn = mrn.as_bytes();
}

// The office, where there is one, has the form of an office's number.
fn is_office_number(office: Option<OfficeNo>)
    ensures { IfSome office IsOfficeNo }
{
    if let Some(office) = office {
        let _office = office.as_bytes();
    }
}

// The guarantees of lines have the form of GRNs.
fn have_grns(lines: &[Line])
    ensures { All (λ line. IsGrn line.grn) lines.now }
{
    for line in lines {
        let _grn = line.grn.as_bytes();
    }
}

// Access codes have the form of one.
fn are_access_codes(codes: &[AccessCode])
    ensures { All IsAccessCode codes.now }
{
    for code in codes {
        let _code = code.as_bytes();
    }
}
