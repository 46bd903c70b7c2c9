//! The rows of one holder in memory.
ghost use Rattle.std.specs.Prelude.{◌≡◌, [], Some, IfOk, OnOk, OnErr};
ghost use Rattle.std.specs.List.{AllByRecursion};
ghost use Rattle.td_model.specs.Account.{account_with};
ghost use Rattle.td_model.specs.Changes.{rows_after};
ghost use Rattle.td_acts.specs.Deciding.{IsLoaded};
ghost use Rattle.td_commands.specs.Commands.{need_said};
ghost use Rattle.td_model.specs.Sound.{IsCovered};

use crate::counted_rows::CountedRows;
use crate::guarantee_rows::GuaranteeRows;
use crate::lookups::{
    all_entries, copy_of_found, entries_by_grn, guarantees_of, list_of, release_of, row_of_found,
};
use keyed_rows::Keyed;
use std::alloc::{AllocError, Global};
use std::marker::Model;
use td_acts::{Change, HolderRow, Loaded, Needs};
use td_base::{Country, HolderNo};

/// A registered holder's row, and the holder's own guarantees and movements by serial.
#[derive(Drop)]
pub struct HolderFile {
    row: HolderRow,
    guarantees: GuaranteeRows,
    movements: CountedRows,
}

impl Model for HolderFile {
    ghost use Rattle.td_model.specs.Account.{HolderRows};

    ghost Value = { HolderRows };

    ghost view = { λ f. record { row = f.row; guarantees = f.guarantees; movements = f.movements } };
}

impl Keyed for HolderFile {
    ghost use Rattle.td_model.specs.Account.{holder_key};

    ghost key_of = { holder_key };

    fn key(&self) -> u32 {
        self.row.holder.number()
    }
}

impl HolderFile {
    /// A new holder's file, at a desk of that country.
    pub fn new(alloc: Global, country: Country, row: HolderRow) -> Self
        ensures { result ≡ record { row = row; guarantees = []; movements = [] } }
    {
        HolderFile {
            row,
            guarantees: GuaranteeRows::new(alloc, country),
            movements: CountedRows::new(alloc, country),
        }
    }

    /// The number of the holder.
    pub fn holder(&self) -> HolderNo
        ensures { result ≡ self.now.row.holder }
    {
        self.row.holder
    }

    /// Writes the rows of a change. `AllocError`: want of memory, and nothing is written.
    pub fn write(&mut self, alloc: Global, change: Change) -> Result<(), AllocError>
        ensures ok { OnOk result (self.new ≡ rows_after change self.old) }
        ensures err { OnErr result (self.new ≡ self.old) }
    {
        match change {
            Change::Nothing => {}
            Change::Registered(row) => self.row = row,
            Change::Opened(row, guarantee) => {
                self.movements.open(&guarantee.grn)?;
                self.guarantees.push(guarantee)?;
                self.row = row;
            }
            Change::Declared(row, movement) => {
                self.movements.push(movement)?;
                self.row = row;
            }
            Change::Moved(row, status) => {
                self.movements.put_status(&status);
                self.row = row;
            }
            Change::TermsSet(row, terms) => {
                self.guarantees.put_terms(&terms);
                self.row = row;
            }
            Change::CodeAdded(row, grn, code) => {
                self.guarantees.add_code(alloc, &grn, code)?;
                self.row = row;
            }
            Change::CodeRemoved(row, grn, code) => {
                self.guarantees.take_code(&grn, &code);
                self.row = row;
            }
        }
        Ok(())
    }

    /// What is needed of the rows, and the holder's row. `AllocError`: want of memory.
    pub fn load(
        &self,
        alloc: Global,
        country: Country,
        needs: &Needs<'_>,
    ) -> Result<Loaded, AllocError>
        ensures { AllByRecursion (IsCovered self.now.movements) self.now.guarantees
            → IfOk result (IsLoaded (account_with country (Some self.now)) (need_said needs.now)) }
    {
        let holder = Some(self.row);
        let (movements, guarantees) = match needs {
            Needs::Nothing => (Vec::new(alloc), Vec::new(alloc)),
            Needs::Lodging(lrn, lines) => (
                copy_of_found(alloc, self.movements.find_by_lrn(lrn))?,
                guarantees_of(alloc, &self.guarantees, lines)?,
            ),
            Needs::Movement(mrn) => (
                copy_of_found(alloc, self.movements.find_by_mrn(mrn))?,
                Vec::new(alloc),
            ),
            Needs::Status(mrn) => (
                row_of_found(alloc, self.movements.find_by_mrn(mrn))?,
                Vec::new(alloc),
            ),
            Needs::Release(mrn) => release_of(alloc, &self.guarantees, &self.movements, mrn)?,
            Needs::AllMovements => {
                let listed = list_of(alloc, self.movements.as_slice())?;
                return Ok(Loaded {
                    country,
                    holder,
                    movements: Vec::new(alloc),
                    listed,
                    guarantees: Vec::new(alloc),
                });
            }
            Needs::Guarantee(grn) => (
                Vec::new(alloc),
                entries_by_grn(alloc, &self.guarantees, &self.movements, grn)?,
            ),
            Needs::AllGuarantees => (
                Vec::new(alloc),
                all_entries(alloc, self.guarantees.as_slice(), &self.movements)?,
            ),
        };
        Ok(Loaded {
            country,
            holder,
            movements,
            listed: Vec::new(alloc),
            guarantees,
        })
    }
}
