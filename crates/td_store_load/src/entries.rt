//! Guarantees with their codes and the amounts in use on them. `DatabaseCorrupt`: a row is no such row, there are several
//! where there can be one, or one doesn't stand where it was asked for; `OutOfMemory`: want of memory; any other error is the
//! database's own.
ghost use Rattle.std.specs.Prelude.{◌≡◌, filter_map, map, IfOk, is_ok};
ghost use Rattle.sqlite.specs.Held.{state};
ghost use Rattle.sqlite.specs.State.{HasCleanDisk};
ghost use Rattle.td_guarantee.specs.Codes.{AreAscending};
ghost use Rattle.td_model.specs.Account.{entry_in};
ghost use Rattle.td_model.specs.Content.{account_in};
ghost use Rattle.td_store_rows.specs.StoreReads.{ReadsNewest};
ghost use Rattle.td_store_rows.specs.KeptTable.{kept_row_of};
ghost use Rattle.td_store_load.specs.Loaded.{IsOfContent, IsOfTables, code_of};
ghost use Rattle.td_store_load.specs.Needed.{entry_from};

use sqlite::{Error, Transaction};
use sqlite_trees::store::Alter;
use std::alloc::{AllocError, Global};
use td_acts::Lines;
use td_base::{Cents, Country, Grn, HolderNo};
use td_guarantee::{Codes, Guarantee};
use td_store_rows::{KeptGuarantee, StoredCode, codes_of, find_kept};

// The codes in rows, which are given in ascending order. `AllocError`: want of memory.
fn gather_codes(alloc: Global, rows: &[StoredCode]) -> Result<Codes, AllocError>
    ensures gathered { AreAscending (map code_of rows.now) → IfOk result (λ codes. codes ≡ map code_of rows.now) }
{
    let mut codes = Codes::none(alloc);
    'rows: for row in rows {
        codes.add(row.code)?;
    }
    Ok(codes)
}

/// The guarantee in a row with its codes, and the amount in use that the row keeps.
pub fn entry_in_row<S: Alter>(
    alloc: Global,
    tx: &mut Transaction<'_, S>,
    row: &KeptGuarantee,
) -> Result<(Guarantee, Cents), Error>
    ensures same_reference { tx.new.conn.ghost_name ≡ tx.old.conn.ghost_name }
    ensures entry { HasCleanDisk (state S.Store tx.new.conn.now)
        → IfOk result (IsOfTables (λ t. entry_from t (kept_row_of row.now)) (state S.Store tx.old.conn.now)) }
    ensures reads { ReadsNewest (is_ok result) (state S.Store tx.old.conn.now) (state S.Store tx.new.conn.now) }
{
    let codes = codes_of(alloc, tx, row.holder, row.serial)?;
    let mut guarantee = row.guarantee.copy(alloc)?;
    guarantee.codes = gather_codes(alloc, &codes)?;
    Ok((guarantee, row.used))
}

/// The holder's guarantee with a GRN at an office of that country, if there is one, and the amount in use on it.
pub fn load_entry<S: Alter>(
    alloc: Global,
    tx: &mut Transaction<'_, S>,
    country: Country,
    holder: HolderNo,
    grn: &Grn,
) -> Result<Option<(Guarantee, Cents)>, Error>
    ensures same_reference { tx.new.conn.ghost_name ≡ tx.old.conn.ghost_name }
    ensures found { HasCleanDisk (state S.Store tx.new.conn.now)
        → IfOk result (IsOfContent country (λ c. entry_in (account_in holder c) grn.now) (state S.Store tx.old.conn.now)) }
    ensures reads { ReadsNewest (is_ok result) (state S.Store tx.old.conn.now) (state S.Store tx.new.conn.now) }
{
    let serial = grn.serial(country).unwrap_or(0);
    let Some(row) = find_kept(alloc, tx, holder, serial, grn)? else {
        return Ok(None);
    };
    Ok(Some(entry_in_row(alloc, tx, &row)?))
}

/// The guarantees that the lines of a declaration name, as far as they are there, at an office of that country, and the
/// amounts in use on them.
pub fn load_declared_on<S: Alter>(
    alloc: Global,
    tx: &mut Transaction<'_, S>,
    country: Country,
    holder: HolderNo,
    lines: &Lines,
) -> Result<Vec<(Guarantee, Cents)>, Error>
    ensures same_reference { tx.new.conn.ghost_name ≡ tx.old.conn.ghost_name }
    ensures found { HasCleanDisk (state S.Store tx.new.conn.now)
        → IfOk result (λ found. IsOfContent country (λ c. filter_map (λ l. entry_in (account_in holder c) l.0.grn) lines.now)
        (state S.Store tx.old.conn.now) found.items) }
    ensures reads { ReadsNewest (is_ok result) (state S.Store tx.old.conn.now) (state S.Store tx.new.conn.now) }
{
    let mut found = Vec::new(alloc);
    'lines: for (declared, _) in lines.as_slice() {
        if let Some(entry) = load_entry(alloc, tx, country, holder, &declared.grn)? {
            found.push(entry)?;
        }
    }
    Ok(found)
}
