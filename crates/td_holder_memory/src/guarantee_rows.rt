//! A holder's guarantees in memory, and where they are found by their references.
ghost use Rattle.std.specs.Prelude.{◌≡◌, ◌≢◌, ◌≤◌, ◌∷◌, ◌++◌, [], None, length, take, map, option_map, All, IfSome, OnOk, OnErr};
ghost use Rattle.td_model.specs.Account.{at_grn, coded, uncoded, guarantee_by_grn};
ghost use Rattle.td_model.specs.Changes.{with_terms};
ghost use Rattle.td_holder_memory.specs.Places.{HaveSerials, IsOnlyPlace};

use crate::changes::{copies_with_code, put_terms, take_code};
use crate::serials::{is_next, place_of};
use std::alloc::{AllocError, Global};
use std::marker::Model;
use td_acts::{NewTerms, find_guarantee};
use td_base::{AccessCode, Country, Grn};
use td_guarantee::Guarantee;

/// A holder's guarantees, by serial.
#[derive(Drop)]
pub(crate) struct GuaranteeRows {
    country: Country,
    items: Vec<Guarantee>,
    // So many guarantees, from the first on, stand at the places of their GRNs' serials. In sound rows all
    // do, and none is looked at but the one that is named.
    placed: usize,
}

impl Model for GuaranteeRows {
    ghost use Rattle.std.specs.Prelude.{List};
    ghost use Rattle.td_guarantee.specs.declared.guarantee.Guarantee.{Guarantee};
    ghost use Rattle.td_holder_memory.specs.Places.{ArePlaced};

    ghost Value = { List Guarantee };

    ghost view = { λ r. r.items.items };

    ghost invariant = { λ r. ArePlaced (λ g. g.grn) r.country r.items.items r.placed };
}

impl GuaranteeRows {
    /// No guarantees yet, of a holder at a desk of that country.
    pub fn new(alloc: Global, country: Country) -> Self
        ensures { result ≡ [] }
    {
        GuaranteeRows {
            country,
            items: Vec::new(alloc),
            placed: 0,
        }
    }

    /// The guarantees, in order.
    pub fn as_slice(&self) -> &[Guarantee]
        ensures { result.now ≡ self.now }
    {
        self.items.as_slice()
    }

    /// Puts a guarantee behind the others. `AllocError`: want of memory, and they are as they were.
    pub fn push(&mut self, guarantee: Guarantee) -> Result<(), AllocError>
        ensures ok { OnOk result (self.new ≡ self.old ++ guarantee ∷ []) }
        ensures err { OnErr result (self.new ≡ self.old) }
    {
        let count = self.items.len();
        let in_place = self.placed == count && is_next(guarantee.grn.serial(self.country), count);
        self.items.push(guarantee)?;
        if in_place {
            self.placed = self.items.len();
        }
        Ok(())
    }

    /// The guarantee with a GRN, if there is one.
    pub fn find_by_grn(&self, grn: &Grn) -> Option<&Guarantee>
        ensures { option_map (λ found. found.now) result ≡ guarantee_by_grn grn.now self.now }
    {
        let (placed, others) = self.items.split_at(self.placed);
        match find_by_serial(placed, self.country, grn) {
            Some(at) => Some(&placed[at]),
            None => find_guarantee(others, grn),
        }
    }

    /// Puts new terms into the guarantee that they name.
    pub fn put_terms(&mut self, terms: &NewTerms)
        ensures { self.new ≡ map (at_grn terms.now.grn (with_terms terms.now)) self.old }
    {
        put_terms_by_serial(&mut self.items, self.placed, self.country, terms);
    }

    /// Puts a code to the guarantee with a GRN. `AllocError`: want of memory, and they are as they were.
    pub fn add_code(&mut self, alloc: Global, grn: &Grn, code: AccessCode) -> Result<(), AllocError>
        ensures ok { OnOk result (self.new ≡ map (at_grn grn.now (coded code)) self.old) }
        ensures err { OnErr result (self.new ≡ self.old) }
    {
        if self.placed == self.items.len() {
            return add_code_by_serial(&mut self.items, self.country, grn, code);
        }
        // Several may have the GRN here, and either all of them get the code or none does.
        self.items = copies_with_code(alloc, &self.items, grn, code)?;
        Ok(())
    }

    /// Takes a code from the guarantee with a GRN.
    pub fn take_code(&mut self, grn: &Grn, code: &AccessCode)
        ensures { self.new ≡ map (at_grn grn.now (uncoded code.now)) self.old }
    {
        take_code_by_serial(&mut self.items, self.placed, self.country, grn, code);
    }
}

// The place of a GRN among guarantees that stand at the places of their GRNs' serials.
fn find_by_serial(guarantees: &[Guarantee], country: Country, grn: &Grn) -> Option<usize>
    requires { HaveSerials (λ g. g.grn) country guarantees.now }
    ensures some { IfSome result (IsOnlyPlace (λ g. g.grn) grn.now guarantees.now) }
    ensures none { result ≡ None → All (λ g. g.grn ≢ grn.now) guarantees.now }
{
    let at = place_of(grn.serial(country))?;
    let guarantee = guarantees.get(at)?;
    if guarantee.grn == *grn {
        return Some(at);
    }
    None
}

// Puts new terms into the guarantee that they name, where so many guarantees stand at the places of their
// GRNs' serials.
fn put_terms_by_serial(
    guarantees: &mut [Guarantee],
    placed: usize,
    country: Country,
    terms: &NewTerms,
)
    requires within { placed ≤ length guarantees.old }
    requires serials { HaveSerials (λ g. g.grn) country (take placed guarantees.old) }
    ensures { guarantees.new ≡ map (at_grn terms.now.grn (with_terms terms.now)) guarantees.old }
{
    let (ordered, others) = guarantees.split_at_mut(placed);
    if let Some(at) = find_by_serial(ordered, country, &terms.grn) {
        terms.put_in(&mut ordered[at]);
    }
    put_terms(others, terms);
}

// Puts a code to the guarantee with a GRN, where all guarantees stand at the places of their GRNs' serials.
fn add_code_by_serial(
    guarantees: &mut [Guarantee],
    country: Country,
    grn: &Grn,
    code: AccessCode,
) -> Result<(), AllocError>
    requires { HaveSerials (λ g. g.grn) country guarantees.old }
    ensures ok { OnOk result (guarantees.new ≡ map (at_grn grn.now (coded code)) guarantees.old) }
    ensures err { OnErr result (guarantees.new ≡ guarantees.old) }
{
    if let Some(at) = find_by_serial(guarantees, country, grn) {
        guarantees[at].codes.add(code)?;
    }
    Ok(())
}

// Takes a code from the guarantee with a GRN, where so many guarantees stand at the places of their GRNs'
// serials.
fn take_code_by_serial(
    guarantees: &mut [Guarantee],
    placed: usize,
    country: Country,
    grn: &Grn,
    code: &AccessCode,
)
    requires within { placed ≤ length guarantees.old }
    requires serials { HaveSerials (λ g. g.grn) country (take placed guarantees.old) }
    ensures { guarantees.new ≡ map (at_grn grn.now (uncoded code.now)) guarantees.old }
{
    let (ordered, others) = guarantees.split_at_mut(placed);
    if let Some(at) = find_by_serial(ordered, country, grn) {
        ordered[at].codes.remove(code);
    }
    take_code(others, grn, code);
}
