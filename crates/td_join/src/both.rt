//! The holders of one desk's file who stand in another, too. An error is the database's own.
ghost use Rattle.std.specs.Prelude.{◌≡◌, IfOk, is_ok};
ghost use Rattle.sqlite.specs.Held.{state};
ghost use Rattle.sqlite.specs.State.{HasCleanDisk};
ghost use Rattle.td_store_rows.specs.StoreReads.{ReadsNewest};
ghost use Rattle.td_join.specs.Joining.{IsFirstIn};

use sqlite::{Error, Transaction};
use sqlite_trees::store::Alter;
use std::alloc::Global;
use td_base::HolderNo;
use td_extract::next_holder;
use td_store_rows::find_holder;

/// The least number that a holder may have, and the greatest.
pub(crate) const FIRST_NUMBER: u32 = 1;

pub(crate) const LAST_NUMBER: u32 = 999_999;

/// The holder with the least number of those who stand in both files, if there is one. It changes nothing. `DatabaseCorrupt`: a row
/// that is read is none; `OutOfMemory`: want of memory.
pub(crate) fn first_of_both<S: Alter, T: Alter>(
    alloc: Global,
    from: &mut Transaction<'_, S>,
    to: &mut Transaction<'_, T>,
) -> Result<Option<HolderNo>, Error>
    ensures same_source { from.new.conn.ghost_name ≡ from.old.conn.ghost_name }
    ensures same_target { to.new.conn.ghost_name ≡ to.old.conn.ghost_name }
    ensures found { HasCleanDisk (state S.Store from.new.conn.now) → HasCleanDisk (state T.Store to.new.conn.now)
        → IfOk result (IsFirstIn (state S.Store from.old.conn.now) (state T.Store to.old.conn.now)) }
    ensures reads { ReadsNewest (is_ok result) (state S.Store from.old.conn.now) (state S.Store from.new.conn.now) }
    ensures looks { ReadsNewest (is_ok result) (state T.Store to.old.conn.now) (state T.Store to.new.conn.now) }
{
    let mut number = 0;
    'holders: while let Some(row) = next_holder(alloc, from, number, LAST_NUMBER)? {
        let other = find_holder(alloc, to, row.holder)?;
        if other.is_some() {
            return Ok(Some(row.holder));
        }
        number = row.holder.number();
    }
    Ok(None)
}
