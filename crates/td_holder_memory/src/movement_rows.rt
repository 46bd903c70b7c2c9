//! A holder's movements in memory, and where they are found by their references.
ghost use Rattle.std.specs.Prelude.{◌≡◌, ◌≢◌, ◌≤◌, ◌+◌, ◌∷◌, ◌++◌, ◌↔◌, [], Some, None, length, take, map, option_map, All, IsTrue, IfSome, OnOk, OnErr, List, ℕ, if◌then◌else◌};
ghost use Rattle.std.specs.BTreeMap.{get};
ghost use Rattle.std.specs.Option.{option_or};
ghost use Rattle.std.specs.Str.{bytes_eq};
ghost use Rattle.td_model.specs.Account.{movement_by_lrn, movement_by_mrn};
ghost use Rattle.td_model.specs.Changes.{moved};
ghost use Rattle.td_holder_memory.specs.Places.{HaveSerials, IsOnlyPlace, lrn_cmp};

use crate::changes::put_status;
use crate::serials::{is_next, place_of};
use std::alloc::{AllocError, Global};
use std::collections::BTreeMap;
use std::marker::Model;
use td_acts::{NewStatus, find_movement_by_mrn};
use td_base::{Country, Lrn, Mrn};
use td_movement::Movement;

/// A holder's movements, by serial.
#[derive(Drop)]
pub(crate) struct MovementRows {
    country: Country,
    items: Vec<Movement>,
    // The place of the first movement with each LRN, so that a declaration's is found without a walk.
    places: BTreeMap<Lrn, usize>,
    // So many movements, from the first on, stand at the places of their MRNs' serials. In sound rows all do,
    // and none is looked at but the one that is named.
    placed: usize,
}

impl Model for MovementRows {
    ghost use Rattle.std.specs.Prelude.{List};
    ghost use Rattle.td_movement.specs.declared.movement.Movement.{Movement};
    ghost use Rattle.td_holder_memory.specs.Places.{AreIndexed};

    ghost Value = { List Movement };

    ghost view = { λ r. r.items.items };

    ghost invariant = { λ r. AreIndexed r.country r.items.items r.places r.placed };
}

impl MovementRows {
    /// No movements yet, of a holder at a desk of that country.
    pub fn new(alloc: Global, country: Country) -> Self
        ensures { result ≡ [] }
    {
        MovementRows {
            country,
            items: Vec::new(alloc),
            places: BTreeMap::new(alloc),
            placed: 0,
        }
    }

    /// The movements, in order.
    pub fn as_slice(&self) -> &[Movement]
        ensures { result.now ≡ self.now }
    {
        self.items.as_slice()
    }

    /// Puts a movement behind the others. `AllocError`: want of memory, and they are as they were.
    pub fn push(&mut self, movement: Movement) -> Result<(), AllocError>
        ensures ok { OnOk result (self.new ≡ self.old ++ movement ∷ []) }
        ensures err { OnErr result (self.new ≡ self.old) }
    {
        let count = self.items.len();
        let in_place = self.placed == count && is_next(movement.mrn.serial(self.country), count);
        self.items.reserve(1)?;
        put_place(&mut self.places, movement.lrn, count)?;
        self.items.push_reserved(movement);
        if in_place {
            self.placed = self.items.len();
        }
        Ok(())
    }

    /// The movement with an LRN, if there is one.
    pub fn find_by_lrn(&self, lrn: &Lrn) -> Option<&Movement>
        ensures { option_map (λ m. m.now) result ≡ movement_by_lrn lrn.now self.now }
    {
        let at = *self.places.get(lrn)?;
        Some(&self.items[at])
    }

    /// The movement with an MRN, if there is one.
    pub fn find_by_mrn(&self, mrn: &Mrn) -> Option<&Movement>
        ensures { option_map (λ m. m.now) result ≡ movement_by_mrn mrn.now self.now }
    {
        let (placed, others) = self.items.split_at(self.placed);
        match find_by_serial(placed, self.country, mrn) {
            Some(at) => Some(&placed[at]),
            None => find_movement_by_mrn(others, mrn),
        }
    }

    /// The place of the only movement with an MRN, where all stand at the places of their serials.
    pub fn only_place_of(&self, mrn: &Mrn) -> Option<usize>
        ensures { IfSome result (IsOnlyPlace (λ m. m.mrn) mrn.now self.now) }
    {
        if self.placed < self.items.len() {
            return None;
        }
        find_by_serial(&self.items, self.country, mrn)
    }

    /// Puts the movement that has moved into its new state.
    pub fn put_status(&mut self, status: &NewStatus)
        ensures { self.new ≡ map (moved status.now) self.old }
    {
        put_by_serial(&mut self.items, self.placed, self.country, status);
    }
}

// Puts a place for an LRN, if it has none yet. `AllocError`: want of memory, and the places are as they were.
fn put_place(places: &mut BTreeMap<Lrn, usize>, lrn: Lrn, at: usize) -> Result<(), AllocError>
    ensures ok { OnOk result ((k : List ℕ) → get lrn_cmp places.new k
        ≡ option_or (get lrn_cmp places.old k) (if bytes_eq lrn k then Some at else None)) }
    ensures err { OnErr result ((k : List ℕ) → get lrn_cmp places.new k ≡ get lrn_cmp places.old k) }
{
    places.entry(lrn)?.or_insert(at);
    Ok(())
}

// The place of an MRN among movements that stand at the places of their MRNs' serials.
fn find_by_serial(movements: &[Movement], country: Country, mrn: &Mrn) -> Option<usize>
    requires { HaveSerials (λ m. m.mrn) country movements.now }
    ensures some { IfSome result (IsOnlyPlace (λ m. m.mrn) mrn.now movements.now) }
    ensures none { result ≡ None → All (λ m. m.mrn ≢ mrn.now) movements.now }
{
    let at = place_of(mrn.serial(country))?;
    let movement = movements.get(at)?;
    if movement.mrn == *mrn {
        return Some(at);
    }
    None
}

// Puts the movement that has moved into its new state, where so many movements stand at the places of their
// MRNs' serials.
fn put_by_serial(movements: &mut [Movement], placed: usize, country: Country, status: &NewStatus)
    requires within { placed ≤ length movements.old }
    requires serials { HaveSerials (λ m. m.mrn) country (take placed movements.old) }
    ensures { movements.new ≡ map (moved status.now) movements.old }
{
    let (ordered, others) = movements.split_at_mut(placed);
    if let Some(at) = find_by_serial(ordered, country, &status.mrn) {
        status.put_in(&mut ordered[at]);
    }
    put_status(others, status);
}
