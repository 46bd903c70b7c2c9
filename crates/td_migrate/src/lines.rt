//! The lines of a file of version 2 put into the table of version 3, holder by holder: few of a holder's are held at once.
ghost use Rattle.std.specs.Prelude.{◌≡◌, map, IfOk, OnOk, is_ok};
ghost use Rattle.sqlite.specs.Held.{state};
ghost use Rattle.sqlite.specs.State.{HasCleanDisk};
ghost use Rattle.typed_sql.specs.Reading.{StaysInside};
ghost use Rattle.td_table_model.specs.Tables.{version_with_amounts};
ghost use Rattle.td_store_rows.specs.LineTable.{line_row_of};
ghost use Rattle.td_store_rows.specs.StoreReads.{IsOfVersion, ReadsIn};
ghost use Rattle.td_migrate.specs.Put.{IsAnyFile, IsGrownFrom};
ghost use Rattle.td_migrate.specs.LinesMoved.{AreOlderLines, BecomesThird, MovesLines, PutsAllLines, PutsLines, PutsLinesWithin};

use crate::serials::end_of;
use sqlite::{Error, Transaction};
use sqlite_trees::store::Alter;
use std::alloc::Global;
use td_base::HolderNo;
use td_schema::{VERSION_WITH_MORE_LINES, make_lines3};
use td_store_audit_rows::holder_above;
use td_store_rows::{StoredLine, empty_lines1, insert_line, range_end, range_key, set_version};
use typed_sql::fetch;

/// The rows of a holder's movements with serials from one on and below another, in the table below version 3.
const OLDER_WITHIN: &str =
    "SELECT holder, serial, no, guarantee, cents FROM lines1 WHERE holder = ?1 AND serial >= ?2 AND serial < ?3";

// A holder's lines of the movements with serials from `first` on and below `end`, in no order, in a file of version 2 that has the
// table of version 3 already. It changes nothing. `DatabaseCorrupt`: a row is no line's; `OutOfMemory`: want of memory; any other
// error is the database's own.
fn older_within<S: Alter>(
    alloc: Global,
    tx: &mut Transaction<'_, S>,
    holder: HolderNo,
    first: u32,
    end: u32,
) -> Result<Vec<StoredLine>, Error>
    ensures same_reference { tx.new.conn.ghost_name ≡ tx.old.conn.ghost_name }
    ensures found { HasCleanDisk (state S.Store tx.new.conn.now)
        → IfOk result (λ found. AreOlderLines holder first end (state S.Store tx.old.conn.now) (map line_row_of found.items)) }
    ensures reads { ReadsIn (IsGrownFrom (IsOfVersion version_with_amounts)) (is_ok result)
        (state S.Store tx.old.conn.now) (state S.Store tx.new.conn.now) }
{
    fetch(alloc, tx, OLDER_WITHIN, &range_key(holder, first, end))
}

// Puts lines into the table of version 3. An error is the database's own.
fn put_lines<S: Alter>(tx: &mut Transaction<'_, S>, lines: &[StoredLine]) -> Result<(), Error>
    ensures same_reference { tx.new.conn.ghost_name ≡ tx.old.conn.ghost_name }
    ensures put { HasCleanDisk (state S.Store tx.new.conn.now) → OnOk result (PutsLines IsAnyFile (λ l trees. map line_row_of lines.now)
        (state S.Store tx.old.conn.now) (state S.Store tx.new.conn.now)) }
    ensures within { StaysInside (is_ok result) (state S.Store tx.old.conn.now) (state S.Store tx.new.conn.now) }
{
    'lines: for line in lines {
        insert_line(tx, line)?;
    }
    Ok(())
}

// Puts a holder's lines of the movements with serials below `end` into the table of version 3.
fn put_below<S: Alter>(
    alloc: Global,
    tx: &mut Transaction<'_, S>,
    holder: HolderNo,
    end: u32,
) -> Result<(), Error>
    ensures same_reference { tx.new.conn.ghost_name ≡ tx.old.conn.ghost_name }
    ensures put { HasCleanDisk (state S.Store tx.new.conn.now)
        → OnOk result (PutsLinesWithin holder end (state S.Store tx.old.conn.now) (state S.Store tx.new.conn.now)) }
    ensures within { StaysInside (is_ok result) (state S.Store tx.old.conn.now) (state S.Store tx.new.conn.now) }
{
    let mut first = 0;
    'parts: while first < end {
        let next = range_end(first, end);
        let lines = older_within(alloc, tx, holder, first, next)?;
        put_lines(tx, &lines)?;
        first = next;
    }
    Ok(())
}

// Puts all lines, in a file whose rows keep the rules, into the table of version 3.
fn put_all<S: Alter>(alloc: Global, tx: &mut Transaction<'_, S>) -> Result<(), Error>
    ensures same_reference { tx.new.conn.ghost_name ≡ tx.old.conn.ghost_name }
    ensures put { HasCleanDisk (state S.Store tx.new.conn.now)
        → OnOk result (PutsAllLines (state S.Store tx.old.conn.now) (state S.Store tx.new.conn.now)) }
    ensures within { StaysInside (is_ok result) (state S.Store tx.old.conn.now) (state S.Store tx.new.conn.now) }
{
    let mut number = 0;
    'holders: while let Some(raw) = holder_above(alloc, tx, number)? {
        let end = end_of(raw.mrn_count)?;
        put_below(alloc, tx, raw.holder, end)?;
        number = raw.holder.number();
    }
    Ok(())
}

// Makes the table of lines of version 3, puts all lines into it, and empties the one that they were in.
fn move_lines<S: Alter>(alloc: Global, tx: &mut Transaction<'_, S>) -> Result<(), Error>
    ensures same_reference { tx.new.conn.ghost_name ≡ tx.old.conn.ghost_name }
    ensures moved { HasCleanDisk (state S.Store tx.new.conn.now)
        → OnOk result (MovesLines (state S.Store tx.old.conn.now) (state S.Store tx.new.conn.now)) }
    ensures within { StaysInside (is_ok result) (state S.Store tx.old.conn.now) (state S.Store tx.new.conn.now) }
{
    make_lines3(tx)?;
    put_all(alloc, tx)?;
    empty_lines1(tx)
}

/// Writes what version 3 has that version 2 has not, in a file whose rows keep the rules: all lines stand in the table of version 3,
/// the table that they were in has no row, and the office's own row says version 3. `DatabaseCorrupt`: a row is no holder's or no
/// line's; `OutOfMemory`: want of memory; any other error is the database's own.
pub(crate) fn write_3<S: Alter>(alloc: Global, tx: &mut Transaction<'_, S>) -> Result<(), Error>
    ensures same_reference { tx.new.conn.ghost_name ≡ tx.old.conn.ghost_name }
    ensures written { HasCleanDisk (state S.Store tx.new.conn.now)
        → OnOk result (BecomesThird (state S.Store tx.old.conn.now) (state S.Store tx.new.conn.now)) }
    ensures within { StaysInside (is_ok result) (state S.Store tx.old.conn.now) (state S.Store tx.new.conn.now) }
{
    move_lines(alloc, tx)?;
    set_version(tx, VERSION_WITH_MORE_LINES)
}
