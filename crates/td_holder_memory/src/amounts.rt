//! The amounts in use that are kept beside a holder's guarantees, so that none is added up again.
ghost use Rattle.std.specs.Prelude.{◌≡◌, ◌≢◌, ◌+◌, ◌<◌, ◌∷◌, ◌++◌, ℕ, List, [], None, All, IfSome, length, get_or};
ghost use Rattle.td_guarantee.specs.Usage.{cents_on, movement_on};
ghost use Rattle.td_holder_memory.specs.Kept.{AreKept};
ghost use Rattle.td_holder_memory.specs.Places.{HaveSerials, IsOnlyPlace};

use crate::serials::{is_next, place_of};
use std::alloc::{AllocError, Global};
use std::marker::Model;
use td_base::{Cents, Country, Grn};
use td_movement::{Line, Movement, counts};

/// The amount in use on each guarantee of a holder, zero from its opening on. Rows that break the rules of a desk, as
/// a line on a guarantee that was never opened, have it forget all amounts: then they are added up at each use.
#[derive(Drop)]
pub(crate) struct Amounts {
    country: Country,
    // Each guarantee's amount, at the place of the serial in its GRN.
    items: Vec<(Grn, Cents)>,
    // Whether nothing is in use on any other guarantee.
    are_all: bool,
}

impl Model for Amounts {
    ghost use Rattle.td_holder_memory.specs.Kept.{Kept};
    ghost use Rattle.td_holder_memory.specs.Places.{HaveSerials};

    ghost Value = { Kept };

    ghost view = { λ a. record { amounts = a.items.items; are_all = a.are_all } };

    ghost invariant = { λ a. HaveSerials (λ k. k.0) a.country a.items.items };
}

impl Amounts {
    /// Nothing is in use, at a desk of that country.
    pub fn new(alloc: Global, country: Country) -> Self
        ensures { AreKept (λ grn. 0) result }
    {
        Amounts {
            country,
            items: Vec::new(alloc),
            are_all: true,
        }
    }

    /// The amount in use on a guarantee. `None`: it was forgotten.
    pub fn amount_on(&self, grn: &Grn) -> Option<Cents>
        ensures { (used : List ℕ → ℕ) → AreKept used self.now → IfSome result (λ amount. amount ≡ used grn.now) }
    {
        if !self.are_all {
            return None;
        }
        match find_by_serial(&self.items, self.country, grn) {
            Some(at) => Some(self.items[at].1),
            None => Cents::new(0),
        }
    }

    /// Forgets all amounts.
    pub fn forget(&mut self)
        ensures { (used : List ℕ → ℕ) → AreKept used self.new }
    {
        self.are_all = false;
    }

    /// Keeps a place for the amount on a guarantee that is opened. `AllocError`: want of memory.
    pub fn open(&mut self, grn: &Grn) -> Result<(), AllocError>
        ensures { (used : List ℕ → ℕ) → AreKept used self.old → AreKept used self.new }
    {
        if find_by_serial(&self.items, self.country, grn).is_some() {
            return Ok(());
        }
        if !is_next(grn.serial(self.country), self.items.len()) {
            self.are_all = false;
            return Ok(());
        }
        self.items.push((*grn, Cents::new(0).unwrap()))?;
        Ok(())
    }

    /// Takes off what a movement has in use.
    pub fn take_off(&mut self, movement: &Movement)
        ensures { (rest : List ℕ → ℕ) → AreKept (λ grn. rest grn + movement_on grn movement.now) self.old
            → AreKept rest self.new }
    {
        if counts(movement.state) {
            for line in movement.lines.as_slice() {
                self.take_line(line);
            }
        }
    }

    /// Puts on what a movement has in use.
    pub fn put_on(&mut self, movement: &Movement)
        ensures { (rest : List ℕ → ℕ) → AreKept rest self.old
            → AreKept (λ grn. rest grn + movement_on grn movement.now) self.new }
    {
        if counts(movement.state) {
            for line in movement.lines.as_slice() {
                self.put_line(line);
            }
        }
    }

    // Takes off a line's amount. All are forgotten if less is in use, or nothing is kept of its guarantee.
    fn take_line(&mut self, line: &Line)
        ensures { (rest : List ℕ → ℕ) → AreKept (λ grn. rest grn + cents_on grn line.now) self.old
            → AreKept rest self.new }
    {
        let Some(at) = find_by_serial(&self.items, self.country, &line.grn) else {
            self.are_all = false;
            return;
        };
        let (grn, amount) = self.items[at];
        match less(amount, line.cents) {
            Some(left) => self.items[at] = (grn, left),
            None => self.are_all = false,
        }
    }

    // Puts on a line's amount. All are forgotten if the sum is above 10^15 cents, or nothing is kept of its guarantee.
    fn put_line(&mut self, line: &Line)
        ensures { (rest : List ℕ → ℕ) → AreKept rest self.old
            → AreKept (λ grn. rest grn + cents_on grn line.now) self.new }
    {
        let Some(at) = find_by_serial(&self.items, self.country, &line.grn) else {
            self.are_all = false;
            return;
        };
        let (grn, amount) = self.items[at];
        match amount.plus(line.cents) {
            Some(sum) => self.items[at] = (grn, sum),
            None => self.are_all = false,
        }
    }
}

// The place of a GRN among amounts that stand at the places of their GRNs' serials.
fn find_by_serial(amounts: &[(Grn, Cents)], country: Country, grn: &Grn) -> Option<usize>
    requires { HaveSerials (λ k. k.0) country amounts.now }
    ensures some { IfSome result (IsOnlyPlace (λ k. k.0) grn.now amounts.now) }
    ensures none { result ≡ None → All (λ k. k.0 ≢ grn.now) amounts.now }
{
    let at = place_of(grn.serial(country))?;
    let kept = amounts.get(at)?;
    if kept.0 == *grn {
        return Some(at);
    }
    None
}

// An amount without another. `None` if it is less.
fn less(amount: Cents, taken: Cents) -> Option<Cents>
    ensures { IfSome result (λ left. left + taken ≡ amount) }
{
    Cents::new(amount.get().checked_sub(taken.get())?)
}
