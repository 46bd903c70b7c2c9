//! The plain desk: its rows stand in memory, and no store is behind it.
ghost use Rattle.std.specs.Prelude.{◌≡◌, ◌≢◌, Some, IfOk, OnOk, OnErr};
ghost use Rattle.td_model.specs.Changes.{row_in, rows_after, rows_or_new};
ghost use Rattle.keyed_rows.specs.Rows.{Rises, Rises-prop, row_at, put_row};
ghost use Rattle.td_model.specs.Account.{holder_key};
ghost use Rattle.td_model.specs.Content.{empty_content, IsSound};

use crate::fault::Fault;
use crate::store::Store;
use keyed_rows::{find_row, rows_below};
use std::alloc::{AllocError, Global};
use td_acts::{Change, HolderRow, Loaded, Needs};
use td_base::{Country, HolderNo};
use td_holder_memory::HolderFile;

/// A desk in memory.
#[derive(Drop)]
pub struct PlainDesk {
    country: Country,
    holders: Vec<HolderFile>,
    ghost order: { Rises holder_key 0 holders.items } by { Rises-prop holder_key 0 holders.items },
}

impl PlainDesk {
    ghost use Rattle.td_desk.specs.Plain.{plain_content};

    /// A desk of that country with no holders. `AllocError`: want of memory.
    pub fn new(alloc: Global, country: Country) -> Result<PlainDesk, AllocError>
        ensures empty { IfOk result (λ desk. plain_content desk ≡ empty_content country) }
        ensures sound { IfOk result (λ desk. IsSound (plain_content desk)) }
    {
        let _letters = country.as_bytes();
        Ok(PlainDesk {
            country,
            holders: Vec::new(alloc),
        })
    }
}

impl Store for PlainDesk {
    ghost use Rattle.td_desk.specs.declared.fault.Fault.TheVariants as fault;
    ghost use Rattle.td_desk.specs.Plain.{plain_content};
    ghost use Rattle.std.proofs.lemmas.Option.{none-some};

    ghost holds = { record {
      content = plain_content;
      is_clean = λ _. Unit {0};
      is_live = λ _. Unit {0};
      has_store = ⊥;
      may_leave = λ _ _. ⊥;
      recovers = λ _. Unit {0};
      weighed = λ _ _ why _. why ≢ Some fault.Store;
      carried = λ _ why _. why ≢ Some fault.Store;
    } };

    ghost carries_nothing = { λ _. none-some fault.Store };

    fn office(&self) -> Country {
        self.country
    }

    fn load(
        &mut self,
        alloc: Global,
        owner: Option<HolderNo>,
        needs: &Needs<'_>,
    ) -> Result<Loaded, Fault> {
        let Some(holder) = owner else {
            return Ok(Loaded::nothing(alloc, self.country));
        };
        match find_row(&self.holders, holder.number()) {
            Some(file) => Ok(file.load(alloc, self.country, needs)?),
            None => Ok(Loaded::nothing(alloc, self.country)),
        }
    }

    fn write(&mut self, alloc: Global, change: Change) -> Result<(), Fault> {
        if let Some(row) = change.row() {
            write_rows(alloc, self.country, &mut self.holders, row, change)?;
        }
        Ok(())
    }
}

// Writes the rows of a change, in which this is the holder's row, into the holder's file, or into a new one in
// its place, at a desk of that country.
fn write_rows(
    alloc: Global,
    country: Country,
    files: &mut Vec<HolderFile>,
    row: HolderRow,
    change: Change,
) -> Result<(), AllocError>
    requires order { Rises holder_key 0 files.old.items }
    requires row { row_in change ≡ Some row }
    ensures ok { OnOk result (files.new.items
        ≡ put_row holder_key (rows_after change
        (rows_or_new row (row_at holder_key row.holder files.old.items))) files.old.items) }
    ensures err { OnErr result (files.new.items ≡ files.old.items) }
    ensures order { Rises holder_key 0 files.new.items }
{
    let at = rows_below(files, row.holder.number());
    if at < files.len() && files[at].holder() == row.holder {
        return files[at].write(alloc, change);
    }
    let mut file = HolderFile::new(alloc, country, row);
    file.write(alloc, change)?;
    files.insert(at, file)?;
    Ok(())
}
