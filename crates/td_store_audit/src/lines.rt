//! Whether the lines of movements keep their rule as they stand in a store's file.
ghost use Rattle.std.specs.Prelude.{◌≡◌, ◌↔◌, is_some, IsTrue, IfOk, IfSome, is_ok};
ghost use Rattle.sqlite.specs.Held.{state};
ghost use Rattle.sqlite.specs.State.{HasCleanDisk};
ghost use Rattle.typed_sql.specs.Typed.{AreTyped, typed_rows};
ghost use Rattle.td_store_rows.specs.StoreReads.{IsOfVersion, ReadsVersion};
ghost use Rattle.td_store_audit.specs.InFile.{IsSoWhere};
ghost use Rattle.td_store_rows.specs.Columns.{line_typing};
ghost use Rattle.td_table_model.specs.Gathering.{part};
ghost use Rattle.td_store_audit.specs.Found.{AreLinesWithin};
ghost use Rattle.td_store_audit.specs.Tallies.{AreItsTotals};
ghost use Rattle.td_store_audit.specs.InPlace.{AreNumbersApart};
ghost use Rattle.td_store_audit.specs.Premises.{AreTotalsBelow, HasLinesInPlace, TellsWithin};

use crate::finding::{has_line_behind, lines_within};
use crate::lines_in_place::lines_within_are_in_place;
use crate::tallies::CountingSerials;
use crate::totals::Totals;
use sqlite::{Error, Transaction};
use sqlite_trees::store::Alter;
use std::alloc::Global;
use td_base::HolderNo;
use td_store_rows::{StoredLine, range_end};

// A holder's lines of the movements with serials from `first` on and below `end`, where they are in their places, by a count of the
// holder's guarantees, if no two lines of one movement have one number.
fn kept_lines_within<S: Alter>(
    alloc: Global,
    tx: &mut Transaction<'_, S>,
    version: u32,
    holder: HolderNo,
    guarantees: u32,
    first: u32,
    end: u32,
) -> Result<Option<Vec<StoredLine>>, Error>
    ensures same_reference { tx.new.conn.ghost_name ≡ tx.old.conn.ghost_name }
    ensures told { HasCleanDisk (state S.Store tx.new.conn.now)
        → IfOk result (λ found. TellsWithin version guarantees holder first end (state S.Store tx.old.conn.now) (is_some found)) }
    ensures handed { HasCleanDisk (state S.Store tx.new.conn.now)
        → IfOk result (λ found. IfSome found (λ lines. AreLinesWithin version holder first end (state S.Store tx.old.conn.now) lines.items)) }
    ensures reads { ReadsVersion version (is_ok result) (state S.Store tx.old.conn.now) (state S.Store tx.new.conn.now) }
{
    let lines = lines_within(alloc, tx, version, holder, first, end)?;
    if !lines_within_are_in_place(guarantees, first, end, &lines) {
        return Ok(None);
    }
    Ok(Some(lines))
}

// What the holder's lines of the movements with serials below `end` add up to on each of so many guarantees, of those of the movements
// that count: where those lines are in their places by that count, if no two of one movement have one number.
fn totals_below<S: Alter>(
    alloc: Global,
    tx: &mut Transaction<'_, S>,
    version: u32,
    movements: &CountingSerials,
    guarantees: u32,
    end: u32,
) -> Result<Option<Totals>, Error>
    ensures same_reference { tx.new.conn.ghost_name ≡ tx.old.conn.ghost_name }
    ensures told { HasCleanDisk (state S.Store tx.new.conn.now)
        → IfOk result (λ found. TellsWithin version guarantees movements.now.raw.holder 0 end (state S.Store tx.old.conn.now) (is_some found)) }
    ensures handed { HasCleanDisk (state S.Store tx.new.conn.now)
        → IfOk result (λ found. IfSome found (λ totals. AreTotalsBelow version movements.now end (state S.Store tx.old.conn.now) totals)) }
    ensures reads { ReadsVersion version (is_ok result) (state S.Store tx.old.conn.now) (state S.Store tx.new.conn.now) }
{
    let holder = movements.raw.holder;
    let mut totals = Totals::new(alloc, guarantees)?;
    let mut first = 0;
    'parts: while first < end {
        let next = range_end(first, end);
        let Some(lines) = kept_lines_within(alloc, tx, version, holder, guarantees, first, next)?
        else {
            return Ok(None);
        };
        totals.add(&lines, &movements.serials);
        first = next;
    }
    Ok(Some(totals))
}

/// What a holder's lines in a file of that version add up to on each of the holder's guarantees, of those of the movements that
/// count, where both counts of the holder can be read and the lines are in their places by them, if no two lines of one movement
/// have one number: each is of a movement of the holder's, and each movement has 1 to 99 lines, numbered from 1, each on a
/// guarantee of the holder's, no two on one, with amounts in range. The lines of few movements are read at once. `OutOfMemory`: want
/// of memory; any other error is the database's own.
pub fn kept_lines<S: Alter>(
    alloc: Global,
    tx: &mut Transaction<'_, S>,
    version: u32,
    movements: &CountingSerials,
) -> Result<Option<Totals>, Error>
    ensures same_reference { tx.new.conn.ghost_name ≡ tx.old.conn.ghost_name }
    ensures told { HasCleanDisk (state S.Store tx.new.conn.now)
        → IfOk result (λ found. IsSoWhere (IsOfVersion version) (λ layout. AreTyped (line_typing layout))
        (λ layout trees. AreNumbersApart (part movements.now.raw.holder (typed_rows (line_typing layout) trees))
        → IsTrue (is_some found) ↔ HasLinesInPlace layout trees movements.now.raw) (state S.Store tx.old.conn.now)) }
    ensures handed { HasCleanDisk (state S.Store tx.new.conn.now)
        → IfOk result (λ found. IfSome found (λ totals. IsSoWhere (IsOfVersion version) (λ layout. AreTyped (line_typing layout))
        (λ layout trees. AreNumbersApart (part movements.now.raw.holder (typed_rows (line_typing layout) trees))
        → AreItsTotals layout trees movements.now totals) (state S.Store tx.old.conn.now))) }
    ensures reads { ReadsVersion version (is_ok result) (state S.Store tx.old.conn.now) (state S.Store tx.new.conn.now) }
{
    let Some(guarantees) = movements.raw.grn_count else {
        return Ok(None);
    };
    let Some(count) = movements.raw.mrn_count else {
        return Ok(None);
    };
    let Some(totals) = totals_below(alloc, tx, version, movements, guarantees, count + 1)? else {
        return Ok(None);
    };
    if has_line_behind(alloc, tx, version, movements.raw.holder, count)? {
        return Ok(None);
    }
    Ok(Some(totals))
}
