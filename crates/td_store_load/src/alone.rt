//! What is read outside a transaction, in one of its own. It is committed: so the answer shows that the connection is open still. An
//! error is the database's own, or that of what reads.
ghost use Rattle.std.specs.Prelude.{◌≡◌, false, IfOk, is_ok};
ghost use Rattle.std.specs.Option.{option_map};
ghost use Rattle.sqlite.specs.Held.{state};
ghost use Rattle.sqlite.specs.State.{HasCleanDisk};
ghost use Rattle.typed_sql.specs.Outside.{Looks};
ghost use Rattle.td_commands.specs.Commands.{need_said};
ghost use Rattle.td_acts.specs.Deciding.{IsLoaded};
ghost use Rattle.td_model.specs.Content.{Content};
ghost use Rattle.td_acts.specs.Weighing.{kept_for};
ghost use Rattle.td_store_rows.specs.StoreReads.{HasNewestTables};
ghost use Rattle.td_store_rows.specs.StoreTables.{HoldsContent};
ghost use Rattle.td_store_load.specs.Placed.{IsFirstBehind, found_at, guarantees_placed, movements_placed};

use crate::following::{following_guarantee, following_movement};
use crate::needs::load;
use sqlite::{Connection, Error};
use sqlite_trees::store::Alter;
use std::alloc::Global;
use td_acts::{Loaded, Needs};
use td_base::{Cents, Country, HolderNo};
use td_guarantee::Guarantee;
use td_movement::Movement;
use typed_sql::{see_open, see_settled};

/// What a verdict needs of a command's owner, at an office of that country. An error is the database's own, or `load`'s.
pub fn read_needs<S: Alter>(
    alloc: Global,
    conn: &mut Connection<S>,
    country: Country,
    owner: Option<HolderNo>,
    needs: &Needs<'_>,
) -> Result<Loaded, Error>
    requires outside { conn.old.in_transaction ≡ false }
    requires tables { HasCleanDisk (state S.Store conn.old) → HasNewestTables (state S.Store conn.old) }
    ensures ended { conn.new.in_transaction ≡ false }
    ensures looks { Looks (is_ok result) (state S.Store conn.old) (state S.Store conn.new) }
    ensures loaded { HasCleanDisk (state S.Store conn.new)
        → IfOk result (λ loaded. (c : Content) → HoldsContent c (state S.Store conn.old) → c.country ≡ country
        → IsLoaded (kept_for owner c) (need_said needs.now) loaded) }
{
    see_settled(conn);
    let mut tx = conn.transaction();
    let loaded = load(alloc, &mut tx, country, owner, needs)?;
    see_open(&mut tx)?;
    tx.commit()?;
    Ok(loaded)
}

/// The first movement behind the place of a holder's number and a serial, if there is one, with its holder, its serial and its
/// lines. An error is the database's own, or `following_movement`'s.
pub fn read_following_movement<S: Alter>(
    alloc: Global,
    conn: &mut Connection<S>,
    holder: u32,
    serial: u32,
) -> Result<Option<(HolderNo, u32, Movement)>, Error>
    requires outside { conn.old.in_transaction ≡ false }
    requires tables { HasCleanDisk (state S.Store conn.old) → HasNewestTables (state S.Store conn.old) }
    ensures ended { conn.new.in_transaction ≡ false }
    ensures looks { Looks (is_ok result) (state S.Store conn.old) (state S.Store conn.new) }
    ensures found { HasCleanDisk (state S.Store conn.new)
        → IfOk result (λ found. IsFirstBehind movements_placed holder serial (state S.Store conn.old) (option_map found_at found)) }
{
    see_settled(conn);
    let mut tx = conn.transaction();
    let found = following_movement(alloc, &mut tx, holder, serial)?;
    see_open(&mut tx)?;
    tx.commit()?;
    Ok(found)
}

/// The first guarantee behind the place of a holder's number and a serial, if there is one, with its holder, its serial, its codes and
/// the amount in use on it. An error is the database's own, or `following_guarantee`'s.
pub fn read_following_guarantee<S: Alter>(
    alloc: Global,
    conn: &mut Connection<S>,
    holder: u32,
    serial: u32,
) -> Result<Option<(HolderNo, u32, (Guarantee, Cents))>, Error>
    requires outside { conn.old.in_transaction ≡ false }
    requires tables { HasCleanDisk (state S.Store conn.old) → HasNewestTables (state S.Store conn.old) }
    ensures ended { conn.new.in_transaction ≡ false }
    ensures looks { Looks (is_ok result) (state S.Store conn.old) (state S.Store conn.new) }
    ensures found { HasCleanDisk (state S.Store conn.new)
        → IfOk result (λ found. IsFirstBehind guarantees_placed holder serial (state S.Store conn.old) (option_map found_at found)) }
{
    see_settled(conn);
    let mut tx = conn.transaction();
    let found = following_guarantee(alloc, &mut tx, holder, serial)?;
    see_open(&mut tx)?;
    tx.commit()?;
    Ok(found)
}
