//! The lists that views of a holder's movements and guarantees show.
ghost use Rattle.std.specs.Prelude.{◌≡◌};

use std::marker::Model;
use td_base::{Cents, Lrn, Mrn};
use td_guarantee::Guarantee;
use td_movement::State;

/// A movement in a list: its references, and its state.
#[derive(Clone, Copy, Debug, PartialEq, Eq)]
pub struct ListedMovement {
    pub lrn: Lrn,
    pub mrn: Mrn,
    pub state: State,
}

/// Movements in a list, by serial. Contracts see them as the list of them.
#[derive(Debug, Drop)]
pub struct ListedMovements {
    items: Vec<ListedMovement>,
}

impl Model for ListedMovements {
    ghost use Rattle.std.specs.Prelude.{List};
    ghost use Rattle.td_commands.specs.declared.lists.ListedMovement.{ListedMovement};

    ghost Value = { List ListedMovement };

    ghost view = { λ l. l.items.items };
}

impl ListedMovements {
    /// These movements, in order.
    pub fn new(items: Vec<ListedMovement>) -> Self
        ensures { result ≡ items.items }
    {
        ListedMovements { items }
    }

    /// The movements, in order.
    pub fn as_slice(&self) -> &[ListedMovement]
        ensures { result.now ≡ self.now }
    {
        self.items.as_slice()
    }
}

/// Guarantees in a list, each with the amount in use on it, by serial. Contracts see them as the list of
/// them.
#[derive(Debug, Drop)]
pub struct ListedGuarantees {
    items: Vec<(Guarantee, Cents)>,
}

impl Model for ListedGuarantees {
    ghost use Rattle.std.specs.Prelude.{List, ℕ};
    ghost use Rattle.td_guarantee.specs.declared.guarantee.Guarantee.{Guarantee};

    ghost Value = { List (Guarantee × ℕ) };

    ghost view = { λ l. l.items.items };
}

impl ListedGuarantees {
    /// These guarantees, in order.
    pub fn new(items: Vec<(Guarantee, Cents)>) -> Self
        ensures { result ≡ items.items }
    {
        ListedGuarantees { items }
    }

    /// The guarantees and the amounts in use on them, in order.
    pub fn as_slice(&self) -> &[(Guarantee, Cents)]
        ensures { result.now ≡ self.now }
    {
        self.items.as_slice()
    }
}
