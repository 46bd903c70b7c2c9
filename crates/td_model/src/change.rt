//! The rows that a change of one holder writes.
ghost use Rattle.std.specs.Prelude.{◌≡◌};

use crate::holder_row::HolderRow;
use td_base::{AccessCode, Cents, Cover, Day, Grn, Mrn, OfficeNo};
use td_guarantee::Guarantee;
use td_movement::{Movement, State};

/// What is said of a movement that has moved: its state, and the days and the office that come with it. Those
/// that don't come with it stay as they are.
#[derive(Clone, Copy, Debug, PartialEq, Eq)]
pub struct NewStatus {
    pub mrn: Mrn,
    pub state: State,
    /// The day by which it has to arrive, where it is released.
    pub limit: Option<Day>,
    /// The day of its arrival, where it arrives.
    pub arrival: Option<Day>,
    /// The office at which it arrives.
    pub actual: Option<OfficeNo>,
}

impl NewStatus {
    ghost use Rattle.td_model.specs.Changes.{new_state, with_status};

    /// A state with which no day and no office come.
    pub fn of(mrn: Mrn, state: State) -> Self
        ensures { result ≡ new_state mrn state }
    {
        NewStatus {
            mrn,
            state,
            limit: None,
            arrival: None,
            actual: None,
        }
    }

    /// Puts it into a movement.
    pub fn put_in(&self, movement: &mut Movement)
        ensures { movement.new ≡ with_status self.now movement.old }
    {
        movement.state = self.state;
        movement.limit = self.limit.or(movement.limit);
        movement.arrival = self.arrival.or(movement.arrival);
        movement.actual = self.actual.or(movement.actual);
    }
}

/// What is said anew of the terms of a guarantee. Those that aren't said stay as they are.
#[derive(Clone, Copy, Debug, PartialEq, Eq)]
pub struct NewTerms {
    pub grn: Grn,
    /// The reference amount, where it is amended.
    pub reference: Option<Cents>,
    /// The cover, where it is amended.
    pub cover: Option<Cover>,
    /// The day from which on nothing is lodged or released on it, where it is revoked.
    pub ends: Option<Day>,
}

impl NewTerms {
    ghost use Rattle.td_model.specs.Changes.{no_terms, with_terms};

    /// Nothing new of a guarantee.
    pub fn of(grn: Grn) -> Self
        ensures { result ≡ no_terms grn }
    {
        NewTerms {
            grn,
            reference: None,
            cover: None,
            ends: None,
        }
    }

    /// Puts them into a guarantee.
    pub fn put_in(&self, guarantee: &mut Guarantee)
        ensures { guarantee.new ≡ with_terms self.now guarantee.old }
    {
        guarantee.reference = self.reference.unwrap_or(guarantee.reference);
        guarantee.cover = self.cover.unwrap_or(guarantee.cover);
        guarantee.ends = self.ends.or(guarantee.ends);
    }
}

/// The rows to write for a verdict: shapes that stand for all commands.
#[derive(Debug, Drop)]
pub enum Change {
    /// None: for refusals, views and repeats.
    Nothing,
    /// A new holder's row.
    Registered(HolderRow),
    /// The holder's row as it is now, and a new guarantee.
    Opened(HolderRow, Guarantee),
    /// The holder's row as it is now, and a new movement.
    Declared(HolderRow, Movement),
    /// The holder's row as it is now, and what is said of a movement that has moved.
    Moved(HolderRow, NewStatus),
    /// The holder's row as it is now, and what is said of the terms of a guarantee.
    TermsSet(HolderRow, NewTerms),
    /// The holder's row as it is now, and a code that a guarantee gets.
    CodeAdded(HolderRow, Grn, AccessCode),
    /// The holder's row as it is now, and a code that a guarantee loses.
    CodeRemoved(HolderRow, Grn, AccessCode),
}

impl Change {
    ghost use Rattle.td_model.specs.Changes.{row_in};

    /// The holder's row in it, if there is something to write.
    pub fn row(&self) -> Option<HolderRow>
        ensures { result ≡ row_in self.now }
    {
        match self {
            Change::Nothing => None,
            Change::Registered(row)
            | Change::Opened(row, _)
            | Change::Declared(row, _)
            | Change::Moved(row, _)
            | Change::TermsSet(row, _)
            | Change::CodeAdded(row, _, _)
            | Change::CodeRemoved(row, _, _) => Some(*row),
        }
    }
}
