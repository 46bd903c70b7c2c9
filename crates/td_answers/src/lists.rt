//! The lists of movements and of guarantees, as JSON.
#![tactic(auto, unfolding(serde_json::proofs::OnLiterals::serde_json_on_literals))]

ghost use Rattle.std.specs.Prelude.{◌≡◌, All};
ghost use Rattle.serde_json.specs.Written.{compact_text};
ghost use Rattle.td_answers.specs.Objects.{IsGuaranteeTold, IsMovementTold, guarantees_body, guarantees_data, listed_guarantee_data, listed_movement_data, movements_body, movements_data};

use crate::json::{Json, ToJson};
use crate::objects::{guarantee_is_told_in, is_mrn, write_guarantee};
use std::fmt;
use std::fmt::Display;
use td_base::Cents;
use td_commands::{ListedGuarantees, ListedMovement, ListedMovements};
use td_guarantee::Guarantee;

impl ToJson for ListedMovement {
    ghost shown = { listed_movement_data };

    fn write_json<W: fmt::Write>(&self, f: &mut fmt::Formatter<W>) -> fmt::Result {
        // nothing in these texts is escaped, so each stands between its quotes as it is
        let _lrn = self.lrn.as_bytes();
        let _mrn = self.mrn.as_bytes();
        // a list may have a million of these, and `write!` takes longer than its pieces
        f.write_str(r#"{"lrn":""#)?;
        self.lrn.fmt(f)?;
        f.write_str(r#"","mrn":""#)?;
        self.mrn.fmt(f)?;
        f.write_str(r#"","state":""#)?;
        f.write_str(self.state.name())?;
        f.write_str(r#""}"#)
    }
}

impl ToJson for ListedMovements {
    ghost shown = { movements_data };

    fn write_json<W: fmt::Write>(&self, f: &mut fmt::Formatter<W>) -> fmt::Result {
        write!(f, r#"{{"movements":{}}}"#, Json(&self.as_slice()))
    }
}

impl ToJson for (Guarantee, Cents) {
    ghost shown = { listed_guarantee_data };

    fn write_json<W: fmt::Write>(&self, f: &mut fmt::Formatter<W>) -> fmt::Result {
        let (guarantee, used) = self;
        write_guarantee(f, guarantee, *used)
    }
}

impl ToJson for ListedGuarantees {
    ghost shown = { guarantees_data };

    fn write_json<W: fmt::Write>(&self, f: &mut fmt::Formatter<W>) -> fmt::Result {
        write!(f, r#"{{"guarantees":{}}}"#, Json(&self.as_slice()))
    }
}

/// The text of movements in a list: nothing in it is escaped.
pub(crate) fn movements_are_told_in(movements: &[ListedMovement])
    ensures { compact_text (movements_data movements.now) ≡ movements_body movements.now }
{
    each_movement_is_told_in(movements);
}

/// The text of guarantees in a list: nothing in it is escaped.
pub(crate) fn guarantees_are_told_in(guarantees: &[(Guarantee, Cents)])
    ensures { compact_text (guarantees_data guarantees.now) ≡ guarantees_body guarantees.now }
{
    each_guarantee_is_told_in(guarantees);
}

// The text of each movement in a list.
fn each_movement_is_told_in(movements: &[ListedMovement])
    ensures { All IsMovementTold movements.now }
{
    for movement in movements {
        listed_movement_is_told_in(movement);
    }
}

// The text of a movement in a list.
fn listed_movement_is_told_in(movement: &ListedMovement)
    ensures { IsMovementTold movement.now }
{
    let _lrn = movement.lrn.as_bytes();
    is_mrn(&movement.mrn);
}

// The text of each guarantee in a list.
fn each_guarantee_is_told_in(guarantees: &[(Guarantee, Cents)])
    ensures { All IsGuaranteeTold guarantees.now }
{
    for listed in guarantees {
        let (guarantee, used) = listed;
        guarantee_is_told_in(guarantee, *used);
    }
}
