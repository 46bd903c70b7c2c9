//! What is looked up in the table of movements. It changes nothing. `DatabaseCorrupt`: a row is no movement's, or there are
//! several where there can be one; `OutOfMemory`: want of memory; any other error is the database's own.
ghost use Rattle.std.specs.Prelude.{◌≡◌, [], ◌∷◌, IfOk, is_ok};
ghost use Rattle.sqlite.specs.Held.{state};
ghost use Rattle.sqlite.specs.State.{HasCleanDisk};
ghost use Rattle.sqlite.specs.Values.{bound};
ghost use Rattle.sqlite_value.specs.declared.value.Value.TheVariants.{Text};
ghost use Rattle.typed_sql.specs.Values.{number_value};
ghost use Rattle.td_store_rows.specs.StoreReads.{ReadsStore};
ghost use Rattle.td_store_rows.specs.MovementTable.{AreBySerial, AreListedBySerial, AreMovements, AreSerialsInOrder, AreSerialsOf, IsFirstMovement, IsTheMovement, has_lrn, has_mrn, counts_for};
ghost use Rattle.td_store_rows.specs.Places.{is_above, is_after, is_within};

use crate::movements::stored::{MovementInList, MovementSerial, StoredMovement};
use crate::movements::texts::{
    BY_LRN, BY_MRN, COUNTING_SERIALS, LISTED_WITHIN, NEXT_OF_HOLDER, OF_HOLDERS_ABOVE, WITHIN,
};
use crate::places::{above_key, place_key, range_key};
use sqlite::{Error, Transaction};
use sqlite_trees::store::Alter;
use sqlite_value::value::ValueRef;
use std::alloc::Global;
use td_base::{HolderNo, Lrn, Mrn};
use td_schema::{holder_key, number_of};

fn lrn_values(holder: HolderNo, lrn: &Lrn) -> [ValueRef<'_>; 2]
    ensures { bound result ≡ number_value holder ∷ Text lrn.now ∷ [] }
{
    [number_of(holder.number()), ValueRef::Text(lrn.as_bytes())]
}

fn mrn_values(holder: HolderNo, serial: u32, mrn: &Mrn) -> [ValueRef<'_>; 3]
    ensures { bound result ≡ number_value holder ∷ number_value serial ∷ Text mrn.now ∷ [] }
{
    [
        number_of(holder.number()),
        number_of(serial),
        ValueRef::Text(mrn.as_bytes()),
    ]
}

/// The holder's movement with a serial and exactly an MRN, if there is one.
pub fn find_by_mrn<S: Alter>(
    alloc: Global,
    tx: &mut Transaction<'_, S>,
    holder: HolderNo,
    serial: u32,
    mrn: &Mrn,
) -> Result<Option<StoredMovement>, Error>
    ensures same_reference { tx.new.conn.ghost_name ≡ tx.old.conn.ghost_name }
    ensures found { HasCleanDisk (state S.Store tx.new.conn.now)
        → IfOk result (IsTheMovement (has_mrn holder serial mrn.now) (state S.Store tx.old.conn.now)) }
    ensures reads { ReadsStore (is_ok result) (state S.Store tx.old.conn.now) (state S.Store tx.new.conn.now) }
{
    typed_sql::fetch_one(alloc, tx, BY_MRN, &mrn_values(holder, serial, mrn))
}

/// The holder's movement with exactly an LRN, if there is one.
pub fn find_by_lrn<S: Alter>(
    alloc: Global,
    tx: &mut Transaction<'_, S>,
    holder: HolderNo,
    lrn: &Lrn,
) -> Result<Option<StoredMovement>, Error>
    ensures same_reference { tx.new.conn.ghost_name ≡ tx.old.conn.ghost_name }
    ensures found { HasCleanDisk (state S.Store tx.new.conn.now)
        → IfOk result (IsTheMovement (has_lrn holder lrn.now) (state S.Store tx.old.conn.now)) }
    ensures reads { ReadsStore (is_ok result) (state S.Store tx.old.conn.now) (state S.Store tx.new.conn.now) }
{
    typed_sql::fetch_one(alloc, tx, BY_LRN, &lrn_values(holder, lrn))
}

/// A holder's movements with serials from `first` on and below `end`, by their serials.
pub fn movements_within<S: Alter>(
    alloc: Global,
    tx: &mut Transaction<'_, S>,
    holder: HolderNo,
    first: u32,
    end: u32,
) -> Result<Vec<StoredMovement>, Error>
    ensures same_reference { tx.new.conn.ghost_name ≡ tx.old.conn.ghost_name }
    ensures found { HasCleanDisk (state S.Store tx.new.conn.now)
        → IfOk result (λ found. AreMovements (is_within holder first end) (state S.Store tx.old.conn.now) found.items) }
    ensures order { HasCleanDisk (state S.Store tx.new.conn.now)
        → IfOk result (λ found. AreBySerial (is_within holder first end) (state S.Store tx.old.conn.now) found.items) }
    ensures reads { ReadsStore (is_ok result) (state S.Store tx.old.conn.now) (state S.Store tx.new.conn.now) }
{
    typed_sql::fetch(alloc, tx, WITHIN, &range_key(holder, first, end))
}

/// What a list shows of a holder's movements with serials from `first` on and below `end`, by their serials. Of a row only the MRN,
/// the LRN and the state are read.
pub fn listed_within<S: Alter>(
    alloc: Global,
    tx: &mut Transaction<'_, S>,
    holder: HolderNo,
    first: u32,
    end: u32,
) -> Result<Vec<MovementInList>, Error>
    ensures same_reference { tx.new.conn.ghost_name ≡ tx.old.conn.ghost_name }
    ensures order { HasCleanDisk (state S.Store tx.new.conn.now)
        → IfOk result (λ found. AreListedBySerial (is_within holder first end) (state S.Store tx.old.conn.now) found.items) }
    ensures reads { ReadsStore (is_ok result) (state S.Store tx.old.conn.now) (state S.Store tx.new.conn.now) }
{
    typed_sql::fetch(alloc, tx, LISTED_WITHIN, &range_key(holder, first, end))
}

/// The movement with the least serial above that one among those of the holder with a number, if there is one: no other row is
/// fetched.
pub fn next_movement_of<S: Alter>(
    alloc: Global,
    tx: &mut Transaction<'_, S>,
    holder: u32,
    serial: u32,
) -> Result<Option<StoredMovement>, Error>
    ensures same_reference { tx.new.conn.ghost_name ≡ tx.old.conn.ghost_name }
    ensures found { HasCleanDisk (state S.Store tx.new.conn.now)
        → IfOk result (IsFirstMovement (is_after holder serial) (state S.Store tx.old.conn.now)) }
    ensures reads { ReadsStore (is_ok result) (state S.Store tx.old.conn.now) (state S.Store tx.new.conn.now) }
{
    typed_sql::fetch_first(alloc, tx, NEXT_OF_HOLDER, &place_key(holder, serial))
}

/// The first movement, by holder and then by serial, among those of the holders above that number, if there is one: no other row is
/// fetched.
pub fn first_movement_above<S: Alter>(
    alloc: Global,
    tx: &mut Transaction<'_, S>,
    holder: u32,
) -> Result<Option<StoredMovement>, Error>
    ensures same_reference { tx.new.conn.ghost_name ≡ tx.old.conn.ghost_name }
    ensures found { HasCleanDisk (state S.Store tx.new.conn.now)
        → IfOk result (IsFirstMovement (is_above holder) (state S.Store tx.old.conn.now)) }
    ensures reads { ReadsStore (is_ok result) (state S.Store tx.old.conn.now) (state S.Store tx.new.conn.now) }
{
    typed_sql::fetch_first(alloc, tx, OF_HOLDERS_ABOVE, &above_key(holder))
}

/// The serials of a holder's movements that count against their guarantees, in ascending order.
pub fn counting_serials<S: Alter>(
    alloc: Global,
    tx: &mut Transaction<'_, S>,
    holder: HolderNo,
) -> Result<Vec<MovementSerial>, Error>
    ensures same_reference { tx.new.conn.ghost_name ≡ tx.old.conn.ghost_name }
    ensures found { HasCleanDisk (state S.Store tx.new.conn.now)
        → IfOk result (λ found. AreSerialsOf (counts_for holder) (state S.Store tx.old.conn.now) found.items) }
    ensures order { HasCleanDisk (state S.Store tx.new.conn.now)
        → IfOk result (λ found. AreSerialsInOrder (state S.Store tx.old.conn.now) found.items) }
    ensures reads { ReadsStore (is_ok result) (state S.Store tx.old.conn.now) (state S.Store tx.new.conn.now) }
{
    typed_sql::fetch(alloc, tx, COUNTING_SERIALS, &holder_key(holder))
}
