//! A holder's movements in memory, and what they have in use on guarantees.
ghost use Rattle.std.specs.Prelude.{◌≡◌, ◌∷◌, ◌++◌, [], map, option_map, OnOk, OnErr, SomeIff};
ghost use Rattle.td_base.specs.Money.{IsCents};
ghost use Rattle.td_guarantee.specs.Usage.{used_on};
ghost use Rattle.td_model.specs.Account.{movement_by_lrn, movement_by_mrn};
ghost use Rattle.td_model.specs.Changes.{moved};

use crate::amounts::Amounts;
use crate::movement_rows::MovementRows;
use std::alloc::{AllocError, Global};
use std::marker::Model;
use td_acts::NewStatus;
use td_base::{Cents, Country, Grn, Lrn, Mrn};
use td_guarantee::in_use;
use td_movement::{Movement, counts};

/// A holder's movements, by serial.
#[derive(Drop)]
pub(crate) struct CountedRows {
    rows: MovementRows,
    amounts: Amounts,
}

impl Model for CountedRows {
    ghost use Rattle.std.specs.Prelude.{List};
    ghost use Rattle.td_movement.specs.declared.movement.Movement.{Movement};
    ghost use Rattle.td_guarantee.specs.Usage.{used_on};
    ghost use Rattle.td_holder_memory.specs.Kept.{AreKept};

    ghost Value = { List Movement };

    ghost view = { λ r. r.rows };

    ghost invariant = { λ r. AreKept (λ grn. used_on grn r.rows) r.amounts };
}

impl CountedRows {
    /// No movements yet, of a holder at a desk of that country.
    pub fn new(alloc: Global, country: Country) -> Self
        ensures { result ≡ [] }
    {
        CountedRows {
            rows: MovementRows::new(alloc, country),
            amounts: Amounts::new(alloc, country),
        }
    }

    /// The movements, in order.
    pub fn as_slice(&self) -> &[Movement]
        ensures { result.now ≡ self.now }
    {
        self.rows.as_slice()
    }

    /// Puts a movement behind the others. `AllocError`: want of memory, and they are as they were.
    pub fn push(&mut self, movement: Movement) -> Result<(), AllocError>
        ensures ok { OnOk result (self.new ≡ self.old ++ movement ∷ []) }
        ensures err { OnErr result (self.new ≡ self.old) }
    {
        if counts(movement.state) {
            self.amounts.forget();
        }
        self.rows.push(movement)
    }

    /// Keeps a place for the amount in use on a guarantee that is opened. `AllocError`: want of memory.
    pub fn open(&mut self, grn: &Grn) -> Result<(), AllocError>
        ensures { self.new ≡ self.old }
    {
        self.amounts.open(grn)
    }

    /// The movement with an LRN, if there is one.
    pub fn find_by_lrn(&self, lrn: &Lrn) -> Option<&Movement>
        ensures { option_map (λ m. m.now) result ≡ movement_by_lrn lrn.now self.now }
    {
        self.rows.find_by_lrn(lrn)
    }

    /// The movement with an MRN, if there is one.
    pub fn find_by_mrn(&self, mrn: &Mrn) -> Option<&Movement>
        ensures { option_map (λ m. m.now) result ≡ movement_by_mrn mrn.now self.now }
    {
        self.rows.find_by_mrn(mrn)
    }

    /// The amount in use on a guarantee. `None` above 10^15 cents.
    pub fn in_use(&self, grn: &Grn) -> Option<Cents>
        ensures { SomeIff result (IsCents (used_on grn.now self.now)) (used_on grn.now self.now) }
    {
        match self.amounts.amount_on(grn) {
            Some(amount) => {
                let _range = amount.get();
                Some(amount)
            }
            None => in_use(self.rows.as_slice(), grn),
        }
    }

    /// Puts the movement that has moved into its new state.
    pub fn put_status(&mut self, status: &NewStatus)
        ensures { self.new ≡ map (moved status.now) self.old }
    {
        let Some(at) = self.rows.only_place_of(&status.mrn) else {
            self.amounts.forget();
            self.rows.put_status(status);
            return;
        };
        self.amounts.take_off(&self.rows.as_slice()[at]);
        self.rows.put_status(status);
        self.amounts.put_on(&self.rows.as_slice()[at]);
    }
}
