//! What is looked up in the tables of guarantees. It changes nothing. `DatabaseCorrupt`: a row is no guarantee's, or
//! there are several where there can be one; `OutOfMemory`: want of memory; any other error is the database's own.
ghost use Rattle.std.specs.Prelude.{◌≡◌, [], ◌∷◌, IfOk, is_ok};
ghost use Rattle.sqlite.specs.Held.{state};
ghost use Rattle.sqlite.specs.State.{HasCleanDisk};
ghost use Rattle.sqlite.specs.Values.{bound};
ghost use Rattle.sqlite_value.specs.declared.value.Value.TheVariants.{Text};
ghost use Rattle.typed_sql.specs.Values.{number_value};
ghost use Rattle.td_store_rows.specs.StoreReads.{ReadsKept, ReadsNewest, ReadsVersion};
ghost use Rattle.td_store_rows.specs.GuaranteeTable.{AreBySerial, AreGuarantees, IsFirstGuarantee, IsTheGuarantee, has_serial};
ghost use Rattle.td_store_rows.specs.KeptTable.{AreKept, AreKeptBySerial, IsFirstKept, IsTheKept, has_kept_grn};
ghost use Rattle.td_store_rows.specs.Places.{is_above, is_after, is_within};

use crate::guarantees::stored::{KeptGuarantee, StoredGuarantee};
use crate::guarantees::texts::{
    BY_GRN, BY_SERIAL, KEPT_OF_HOLDERS_ABOVE, KEPT_WITHIN, NEXT_KEPT_OF_HOLDER, next_of_holder,
    within,
};
use crate::places::{above_key, place_key, range_key};
use sqlite::{Error, Transaction};
use sqlite_trees::store::Alter;
use sqlite_value::value::ValueRef;
use std::alloc::Global;
use td_base::{Grn, HolderNo};
use td_schema::{number_of, serial_key};
use typed_sql::{fetch, fetch_first, fetch_one};

fn grn_values(holder: HolderNo, serial: u32, grn: &Grn) -> [ValueRef<'_>; 3]
    ensures { bound result ≡ number_value holder ∷ number_value serial ∷ Text grn.now ∷ [] }
{
    [
        number_of(holder.number()),
        number_of(serial),
        ValueRef::Text(grn.as_bytes()),
    ]
}

/// The holder's guarantee with a serial and exactly a GRN, if there is one, and the amount in use on it.
pub fn find_kept<S: Alter>(
    alloc: Global,
    tx: &mut Transaction<'_, S>,
    holder: HolderNo,
    serial: u32,
    grn: &Grn,
) -> Result<Option<KeptGuarantee>, Error>
    ensures same_reference { tx.new.conn.ghost_name ≡ tx.old.conn.ghost_name }
    ensures found { HasCleanDisk (state S.Store tx.new.conn.now)
        → IfOk result (IsTheKept (has_kept_grn holder serial grn.now) (state S.Store tx.old.conn.now)) }
    ensures reads { ReadsNewest (is_ok result) (state S.Store tx.old.conn.now) (state S.Store tx.new.conn.now) }
{
    fetch_one(alloc, tx, BY_GRN, &grn_values(holder, serial, grn))
}

/// The holder's guarantee with a serial, if there is one: a movement's line names it by that.
pub fn find_by_serial<S: Alter>(
    alloc: Global,
    tx: &mut Transaction<'_, S>,
    holder: HolderNo,
    serial: u32,
) -> Result<Option<StoredGuarantee>, Error>
    ensures same_reference { tx.new.conn.ghost_name ≡ tx.old.conn.ghost_name }
    ensures found { HasCleanDisk (state S.Store tx.new.conn.now)
        → IfOk result (IsTheGuarantee (has_serial holder serial) (state S.Store tx.old.conn.now)) }
    ensures reads { ReadsNewest (is_ok result) (state S.Store tx.old.conn.now) (state S.Store tx.new.conn.now) }
{
    fetch_one(alloc, tx, BY_SERIAL, &serial_key(holder, serial))
}

/// A holder's guarantees with serials from `first` on and below `end`, by their serials, in a file of that version of the
/// tables.
pub fn guarantees_within<S: Alter>(
    alloc: Global,
    tx: &mut Transaction<'_, S>,
    version: u32,
    holder: HolderNo,
    first: u32,
    end: u32,
) -> Result<Vec<StoredGuarantee>, Error>
    ensures same_reference { tx.new.conn.ghost_name ≡ tx.old.conn.ghost_name }
    ensures found { HasCleanDisk (state S.Store tx.new.conn.now)
        → IfOk result (λ found. AreGuarantees version (is_within holder first end) (state S.Store tx.old.conn.now) found.items) }
    ensures order { HasCleanDisk (state S.Store tx.new.conn.now)
        → IfOk result (λ found. AreBySerial version (is_within holder first end) (state S.Store tx.old.conn.now) found.items) }
    ensures reads { ReadsVersion version (is_ok result) (state S.Store tx.old.conn.now) (state S.Store tx.new.conn.now) }
{
    fetch(alloc, tx, within(version), &range_key(holder, first, end))
}

/// The guarantee with the least serial above that one among those of the holder with a number, if there is one, in a file of
/// that version of the tables: no other row is fetched.
pub fn next_guarantee_of<S: Alter>(
    alloc: Global,
    tx: &mut Transaction<'_, S>,
    version: u32,
    holder: u32,
    serial: u32,
) -> Result<Option<StoredGuarantee>, Error>
    ensures same_reference { tx.new.conn.ghost_name ≡ tx.old.conn.ghost_name }
    ensures found { HasCleanDisk (state S.Store tx.new.conn.now)
        → IfOk result (IsFirstGuarantee version (is_after holder serial) (state S.Store tx.old.conn.now)) }
    ensures reads { ReadsVersion version (is_ok result) (state S.Store tx.old.conn.now) (state S.Store tx.new.conn.now) }
{
    fetch_first(
        alloc,
        tx,
        next_of_holder(version),
        &place_key(holder, serial),
    )
}

/// A holder's guarantees with serials from `first` on and below `end`, by their serials, with the amounts in use on them, in a
/// file that keeps the amounts: one of version 2 or later.
pub fn kept_within<S: Alter>(
    alloc: Global,
    tx: &mut Transaction<'_, S>,
    holder: HolderNo,
    first: u32,
    end: u32,
) -> Result<Vec<KeptGuarantee>, Error>
    ensures same_reference { tx.new.conn.ghost_name ≡ tx.old.conn.ghost_name }
    ensures found { HasCleanDisk (state S.Store tx.new.conn.now)
        → IfOk result (λ found. AreKept (is_within holder first end) (state S.Store tx.old.conn.now) found.items) }
    ensures order { HasCleanDisk (state S.Store tx.new.conn.now)
        → IfOk result (λ found. AreKeptBySerial (is_within holder first end) (state S.Store tx.old.conn.now) found.items) }
    ensures reads { ReadsKept (is_ok result) (state S.Store tx.old.conn.now) (state S.Store tx.new.conn.now) }
{
    fetch(alloc, tx, KEPT_WITHIN, &range_key(holder, first, end))
}

/// The guarantee with the least serial above that one among those of the holder with a number, if there is one, and the amount in use
/// on it, in a file that keeps the amounts: no other row is fetched.
pub fn next_kept_of<S: Alter>(
    alloc: Global,
    tx: &mut Transaction<'_, S>,
    holder: u32,
    serial: u32,
) -> Result<Option<KeptGuarantee>, Error>
    ensures same_reference { tx.new.conn.ghost_name ≡ tx.old.conn.ghost_name }
    ensures found { HasCleanDisk (state S.Store tx.new.conn.now)
        → IfOk result (IsFirstKept (is_after holder serial) (state S.Store tx.old.conn.now)) }
    ensures reads { ReadsKept (is_ok result) (state S.Store tx.old.conn.now) (state S.Store tx.new.conn.now) }
{
    fetch_first(alloc, tx, NEXT_KEPT_OF_HOLDER, &place_key(holder, serial))
}

/// The first guarantee, by holder and then by serial, among those of the holders above that number, if there is one, and the amount in
/// use on it, in a file that keeps the amounts: no other row is fetched.
pub fn first_kept_above<S: Alter>(
    alloc: Global,
    tx: &mut Transaction<'_, S>,
    holder: u32,
) -> Result<Option<KeptGuarantee>, Error>
    ensures same_reference { tx.new.conn.ghost_name ≡ tx.old.conn.ghost_name }
    ensures found { HasCleanDisk (state S.Store tx.new.conn.now)
        → IfOk result (IsFirstKept (is_above holder) (state S.Store tx.old.conn.now)) }
    ensures reads { ReadsKept (is_ok result) (state S.Store tx.old.conn.now) (state S.Store tx.new.conn.now) }
{
    fetch_first(alloc, tx, KEPT_OF_HOLDERS_ABOVE, &above_key(holder))
}
