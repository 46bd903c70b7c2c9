//! What a release needs of a movement: the movement with its lines, and the terms of its lines' guarantees, which are read in ranges of
//! serials. `DatabaseCorrupt`: a row is no such row, there are several where there can be one, one doesn't stand where it was asked
//! for, or the guarantee of a line isn't there; `OutOfMemory`: want of memory; any other error is the database's own.
ghost use Rattle.std.specs.Prelude.{◌≡◌, ◌==◌, ◌+◌, ◌-◌, ◌^◌, ◌<◌, ◌≤◌, map, find, IfOk, IfSome, is_ok};
ghost use Rattle.std.specs.Option.{option_map};
ghost use Rattle.sqlite.specs.Held.{state};
ghost use Rattle.sqlite.specs.State.{HasCleanDisk};
ghost use Rattle.td_guarantee.specs.Terms.{without_codes};
ghost use Rattle.td_model.specs.Account.{movement_by_mrn};
ghost use Rattle.td_model.specs.Content.{Content, account_in};
ghost use Rattle.td_table_model.specs.Gathering.{with_lines};
ghost use Rattle.td_store_rows.specs.LineTable.{line_row_of as row_of_line};
ghost use Rattle.td_store_rows.specs.MovementTable.{movement_row_of};
ghost use Rattle.td_store_rows.specs.StoreReads.{ReadsNewest};
ghost use Rattle.td_store_rows.specs.StoreTables.{HoldsContent};
ghost use Rattle.td_store_load.specs.Loaded.{IsOfContent, IsOfTables, line_of};
ghost use Rattle.td_store_load.specs.Needed.{AreKeptIn, AreTermsOf, HasKeptOf};

use sqlite::{Error, ErrorCode, Transaction};
use sqlite_trees::store::Alter;
use std::alloc::Global;
use td_base::{Cents, Country, HolderNo, Mrn};
use td_guarantee::Guarantee;
use td_movement::{Line, Movement, MovementLines};
use td_store_rows::{
    KeptGuarantee, StoredLine, StoredMovement, find_by_mrn, kept_within, lines_of,
};

// Guarantees of lines are read together where each line's serial is at most so far above that of the line before.
const NEAR: u32 = 4;

// So many serials are in a range that is read together, at most.
const AT_ONCE: u32 = 64;

// The serial behind the range to be read: it begins at `first`, and goes on over the serials of rows as long as they stand near each
// other.
fn end_of_run(first: u32, rows: &[StoredLine]) -> u32
    ensures { (first < 2 ^ 32 - 1 → first < result) × (result ≤ first + AT_ONCE) }
{
    let mut last = first;
    'rows: for row in rows {
        let serial = row.guarantee;
        if serial < last || serial - last > NEAR || serial - first >= AT_ONCE {
            break;
        }
        last = serial;
    }
    last.saturating_add(1)
}

// The first of guarantees with a serial.
fn found_in(kept: &[KeptGuarantee], serial: u32) -> Option<&KeptGuarantee>
    ensures { option_map (λ found. found.now) result ≡ find (λ k. k.serial == serial) kept.now }
{
    kept.iter().find(|guarantee| guarantee.serial == serial)
}

// The guarantees that were read last, where the one with a line's serial is among them; otherwise those of the range that begins at
// that serial, for the line's row and those behind it.
fn kept_near<S: Alter>(
    alloc: Global,
    tx: &mut Transaction<'_, S>,
    holder: HolderNo,
    near: Vec<KeptGuarantee>,
    serial: u32,
    rows: &[StoredLine],
) -> Result<Vec<KeptGuarantee>, Error>
    ensures same_reference { tx.new.conn.ghost_name ≡ tx.old.conn.ghost_name }
    ensures kept { HasCleanDisk (state S.Store tx.new.conn.now)
        → IfOk result (λ kept. (c : Content) (holds : HoldsContent c (state S.Store tx.old.conn.now))
        → AreKeptIn holder c holds near.items → AreKeptIn holder c holds kept.items) }
    ensures found { HasCleanDisk (state S.Store tx.new.conn.now) → serial < 2 ^ 32 - 1
        → IfOk result (λ kept. (c : Content) (holds : HoldsContent c (state S.Store tx.old.conn.now))
        → HasKeptOf holder serial c holds kept.items) }
    ensures reads { ReadsNewest (is_ok result) (state S.Store tx.old.conn.now) (state S.Store tx.new.conn.now) }
{
    if found_in(&near, serial).is_some() {
        return Ok(near);
    }
    kept_within(alloc, tx, holder, serial, end_of_run(serial, rows))
}

// The line in a row, on the guarantee that was found for it.
fn line_on_kept(row: &StoredLine, kept: &KeptGuarantee) -> Line
    ensures { result ≡ record { grn = kept.now.guarantee.grn; cents = row.now.cents } }
{
    Line {
        grn: kept.guarantee.grn,
        cents: row.cents,
    }
}

// The terms of the guarantee in a row without codes, and the amount in use that the row keeps.
fn terms_in_row(alloc: Global, kept: &KeptGuarantee) -> (Guarantee, Cents)
    ensures { result ≡ (without_codes kept.now.guarantee, kept.now.used) }
{
    (kept.guarantee.without_codes(alloc), kept.used)
}

// The lines in rows of a holder's movement, in their order, and the terms of each line's guarantee without codes, with the amount in
// use on it.
fn lines_with_terms<S: Alter>(
    alloc: Global,
    tx: &mut Transaction<'_, S>,
    holder: HolderNo,
    rows: &[StoredLine],
) -> Result<(Vec<Line>, Vec<(Guarantee, Cents)>), Error>
    ensures same_reference { tx.new.conn.ghost_name ≡ tx.old.conn.ghost_name }
    ensures lines { HasCleanDisk (state S.Store tx.new.conn.now)
        → IfOk result (λ both. IsOfTables (λ t. map (λ l. line_of holder t (row_of_line l)) rows.now)
        (state S.Store tx.old.conn.now) both.0.items) }
    ensures terms { HasCleanDisk (state S.Store tx.new.conn.now)
        → IfOk result (λ both. AreTermsOf holder (state S.Store tx.old.conn.now) both.0.items both.1.items) }
    ensures reads { ReadsNewest (is_ok result) (state S.Store tx.old.conn.now) (state S.Store tx.new.conn.now) }
{
    let mut lines = Vec::with_capacity(alloc, rows.len())?;
    let mut terms = Vec::with_capacity(alloc, rows.len())?;
    let mut near = Vec::new(alloc);
    'rows: for (at, row) in rows.iter().enumerate() {
        near = kept_near(alloc, tx, holder, near, row.guarantee, &rows[at..])?;
        let Some(kept) = found_in(&near, row.guarantee) else {
            return Err(Error::SqliteFailure(ErrorCode::DatabaseCorrupt));
        };
        lines.push(line_on_kept(row, kept))?;
        terms.push(terms_in_row(alloc, kept))?;
    }
    Ok((lines, terms))
}

// The movement in a row with its lines, by their numbers, and the terms of each line's guarantee.
fn movement_with_terms<S: Alter>(
    alloc: Global,
    tx: &mut Transaction<'_, S>,
    stored: StoredMovement,
) -> Result<(Movement, Vec<(Guarantee, Cents)>), Error>
    ensures same_reference { tx.new.conn.ghost_name ≡ tx.old.conn.ghost_name }
    ensures whole { HasCleanDisk (state S.Store tx.new.conn.now)
        → IfOk result (λ both. IsOfTables (λ t. with_lines t (movement_row_of stored)) (state S.Store tx.old.conn.now) both.0) }
    ensures terms { HasCleanDisk (state S.Store tx.new.conn.now)
        → IfOk result (λ both. AreTermsOf stored.holder (state S.Store tx.old.conn.now) both.0.lines both.1.items) }
    ensures reads { ReadsNewest (is_ok result) (state S.Store tx.old.conn.now) (state S.Store tx.new.conn.now) }
{
    let rows = lines_of(alloc, tx, stored.holder, stored.serial)?;
    let found = lines_with_terms(alloc, tx, stored.holder, &rows)?;
    let (lines, terms) = found;
    let mut movement = stored.movement;
    movement.lines = MovementLines::new(lines);
    Ok((movement, terms))
}

/// The holder's movement with an MRN at an office of that country, if there is one, with its lines, and the terms of each line's
/// guarantee, without codes, with the amount in use on it.
pub fn load_released<S: Alter>(
    alloc: Global,
    tx: &mut Transaction<'_, S>,
    country: Country,
    holder: HolderNo,
    mrn: &Mrn,
) -> Result<Option<(Movement, Vec<(Guarantee, Cents)>)>, Error>
    ensures same_reference { tx.new.conn.ghost_name ≡ tx.old.conn.ghost_name }
    ensures found { HasCleanDisk (state S.Store tx.new.conn.now)
        → IfOk result (λ found. IsOfContent country (λ c. movement_by_mrn mrn.now (account_in holder c).movements)
        (state S.Store tx.old.conn.now) (option_map (λ both. both.0) found)) }
    ensures terms { HasCleanDisk (state S.Store tx.new.conn.now)
        → IfOk result (λ found. IfSome found (λ both. AreTermsOf holder (state S.Store tx.old.conn.now) both.0.lines both.1.items)) }
    ensures reads { ReadsNewest (is_ok result) (state S.Store tx.old.conn.now) (state S.Store tx.new.conn.now) }
{
    let serial = mrn.serial(country).unwrap_or(0);
    let Some(stored) = find_by_mrn(alloc, tx, holder, serial, mrn)? else {
        return Ok(None);
    };
    Ok(Some(movement_with_terms(alloc, tx, stored)?))
}
