//! The first rule of sound tables that a store's file breaks: a table is scanned whole first, and then the holders are asked one
//! after another, so that no more than one holder's rows are kept.
ghost use Rattle.std.specs.Prelude.{◌≡◌, ℕ, List, IfOk, OnOk, is_ok};
ghost use Rattle.sqlite.specs.Held.{state};
ghost use Rattle.sqlite.specs.State.{HasCleanDisk};
ghost use Rattle.typed_sql.specs.Reading.{StaysInside};
ghost use Rattle.td_table_model.specs.declared.rule.Rule.TheVariants.{S5};
ghost use Rattle.td_store_rows.specs.StoreReads.{IsOfVersion, KeepsUse, LeavesVersion, ReadsVersion};
ghost use Rattle.td_store_audit_rows.specs.Laws.{AreKept};
ghost use Rattle.td_store_audit_rows.specs.Scans.{TellReadable};
ghost use Rattle.td_store_audit.specs.Broken.{HasOffice, TellsBroken};
ghost use Rattle.td_store_audit.specs.FirstRule.{IsFirstNot};
ghost use Rattle.td_store_audit.specs.HolderRules.{HolderKeeps, IsAskable, IsAskableFrom, IsUseAskable};
ghost use Rattle.td_store_audit.specs.InFile.{IsHolderKeptInFile, IsSoWhere, TellsWhere};
ghost use Rattle.td_store_audit.specs.Tallies.{IsHandedOn, raw_holder_of};

use sqlite::{Error, Transaction};
use sqlite_trees::store::Alter;
use std::alloc::Global;
use td_base::Country;
use td_schema::VERSION_WITH_AMOUNTS;
use td_store_audit::{
    HolderTotals, comes_before, first_unread, has_codes, has_guarantees, has_identity,
    is_holder_covered, is_holder_kept, kept_lines, kept_movements, office_country,
};
use td_store_audit_rows::{RawHolder, Readable, holder_above};
use td_table_model::Rule;

/// The first rule of sound tables that a store's file of that version, 1 to 3, breaks as it stands, or none. It is
/// given which tables can be read row by row, and reads the rows of these, holder by holder. `DatabaseCorrupt`: the
/// holders' numbers are none, or the office's own row is there twice or is no such row; `OutOfMemory`: want of memory;
/// any other error is the database's own. It changes nothing.
pub(crate) fn first_broken<S: Alter>(
    alloc: Global,
    tx: &mut Transaction<'_, S>,
    version: u32,
    readable: Readable,
) -> Result<Option<Rule>, Error>
    ensures same_reference { tx.new.conn.ghost_name ≡ tx.old.conn.ghost_name }
    ensures told { HasCleanDisk (state S.Store tx.new.conn.now)
        → IfOk result (λ broken. IsSoWhere (IsOfVersion version) AreKept
        (λ layout trees. TellReadable layout readable trees → TellsBroken layout trees broken) (state S.Store tx.old.conn.now)) }
    ensures still { HasCleanDisk (state S.Store tx.new.conn.now)
        → OnOk result (LeavesVersion version (state S.Store tx.old.conn.now) (state S.Store tx.new.conn.now)) }
    ensures within { StaysInside (is_ok result) (state S.Store tx.old.conn.now) (state S.Store tx.new.conn.now) }
{
    let Some(country) = office_country(tx)? else {
        return Ok(Some(Rule::S1));
    };
    first_after_office(alloc, tx, version, country, readable)
}

// The first of the rules after S1 that the tables break, or none: the least of the rules whose table can't be read, and of those
// that some holder breaks. The holders are asked one after another, by their numbers.
fn first_after_office<S: Alter>(
    alloc: Global,
    tx: &mut Transaction<'_, S>,
    version: u32,
    country: Country,
    readable: Readable,
) -> Result<Option<Rule>, Error>
    ensures same_reference { tx.new.conn.ghost_name ≡ tx.old.conn.ghost_name }
    ensures told { HasCleanDisk (state S.Store tx.new.conn.now)
        → IfOk result (λ broken. IsSoWhere (IsOfVersion version) (HasOffice country readable)
        (λ layout trees. TellsBroken layout trees broken) (state S.Store tx.old.conn.now)) }
    ensures reads { ReadsVersion version (is_ok result) (state S.Store tx.old.conn.now) (state S.Store tx.new.conn.now) }
{
    let mut least = first_unread(readable);
    let mut number = 0;
    'holders: while let Some(raw) = holder_above(alloc, tx, number)? {
        least = first_of_holder(alloc, tx, version, country, &raw, least)?;
        number = raw.holder.number();
    }
    Ok(least)
}

// The first rule before `end` that a holder breaks, and else `end`: neither it nor a rule behind it is asked.
fn first_of_holder<S: Alter>(
    alloc: Global,
    tx: &mut Transaction<'_, S>,
    version: u32,
    country: Country,
    raw: &RawHolder,
    end: Option<Rule>,
) -> Result<Option<Rule>, Error>
    ensures same_reference { tx.new.conn.ghost_name ≡ tx.old.conn.ghost_name }
    ensures told { HasCleanDisk (state S.Store tx.new.conn.now)
        → IfOk result (λ first. IsSoWhere (IsOfVersion version) (IsAskable end)
        (λ layout trees. IsFirstNot (HolderKeeps layout country trees raw.now) end first) (state S.Store tx.old.conn.now)) }
    ensures reads { ReadsVersion version (is_ok result) (state S.Store tx.old.conn.now) (state S.Store tx.new.conn.now) }
{
    if !comes_before(Rule::S2, end) {
        return Ok(end);
    }
    if !has_identity(raw) {
        return Ok(Some(Rule::S2));
    }
    if !comes_before(Rule::S3, end) {
        return Ok(end);
    }
    if !has_guarantees(alloc, tx, version, country, raw)? {
        return Ok(Some(Rule::S3));
    }
    if !comes_before(Rule::S4, end) {
        return Ok(end);
    }
    if !has_codes(alloc, tx, raw)? {
        return Ok(Some(Rule::S4));
    }
    first_of_movements(alloc, tx, version, country, raw, end)
}

// The same of the rules from S5 on, where the holder keeps those before it.
fn first_of_movements<S: Alter>(
    alloc: Global,
    tx: &mut Transaction<'_, S>,
    version: u32,
    country: Country,
    raw: &RawHolder,
    end: Option<Rule>,
) -> Result<Option<Rule>, Error>
    ensures same_reference { tx.new.conn.ghost_name ≡ tx.old.conn.ghost_name }
    ensures told { HasCleanDisk (state S.Store tx.new.conn.now)
        → IfOk result (λ first. IsSoWhere (IsOfVersion version) (IsAskableFrom S5 end country raw.now)
        (λ layout trees. IsFirstNot (HolderKeeps layout country trees raw.now) end first) (state S.Store tx.old.conn.now)) }
    ensures reads { ReadsVersion version (is_ok result) (state S.Store tx.old.conn.now) (state S.Store tx.new.conn.now) }
{
    if !comes_before(Rule::S5, end) {
        return Ok(end);
    }
    let Some(movements) = kept_movements(alloc, tx, country, raw)? else {
        return Ok(Some(Rule::S5));
    };
    if !comes_before(Rule::S6, end) {
        return Ok(end);
    }
    let Some(totals) = kept_lines(alloc, tx, version, &movements)? else {
        return Ok(Some(Rule::S6));
    };
    let parts = HolderTotals { movements, totals };
    first_of_use(alloc, tx, version, &parts, end)
}

// The same of the rules from S7 on, by what the rules of movements and of lines handed on of the holder. S8 is asked of a file of
// version 1 alone.
fn first_of_use<S: Alter>(
    alloc: Global,
    tx: &mut Transaction<'_, S>,
    version: u32,
    parts: &HolderTotals,
    end: Option<Rule>,
) -> Result<Option<Rule>, Error>
    ensures same_reference { tx.new.conn.ghost_name ≡ tx.old.conn.ghost_name }
    ensures told { HasCleanDisk (state S.Store tx.new.conn.now)
        → IfOk result (λ first. (country : List ℕ) → IsSoWhere (IsOfVersion version) (IsUseAskable country parts.now)
        (λ layout trees. IsFirstNot (HolderKeeps layout country trees (raw_holder_of parts.now)) end first) (state S.Store tx.old.conn.now)) }
    ensures reads { ReadsVersion version (is_ok result) (state S.Store tx.old.conn.now) (state S.Store tx.new.conn.now) }
{
    if !comes_before(Rule::S7, end) {
        return Ok(end);
    }
    if !keeps_amounts(alloc, tx, version, parts)? {
        return Ok(Some(Rule::S7));
    }
    if version >= VERSION_WITH_AMOUNTS {
        // S8 is kept with S7: the table checks that no amount in use is above its reference amount
        return Ok(end);
    }
    if !comes_before(Rule::S8, end) {
        return Ok(end);
    }
    if !is_holder_covered(alloc, tx, version, parts)? {
        return Ok(Some(Rule::S8));
    }
    Ok(end)
}

// Whether the amounts on a holder's guarantees are what is in use on them: a file of version 1 keeps none.
fn keeps_amounts<S: Alter>(
    alloc: Global,
    tx: &mut Transaction<'_, S>,
    version: u32,
    parts: &HolderTotals,
) -> Result<bool, Error>
    ensures same_reference { tx.new.conn.ghost_name ≡ tx.old.conn.ghost_name }
    ensures told { HasCleanDisk (state S.Store tx.new.conn.now)
        → IfOk result (TellsWhere (IsOfVersion version) (λ layout trees. IsHandedOn layout trees parts.now)
        (λ layout trees. KeepsUse layout → IsHolderKeptInFile layout trees (raw_holder_of parts.now)) (state S.Store tx.old.conn.now)) }
    ensures reads { ReadsVersion version (is_ok result) (state S.Store tx.old.conn.now) (state S.Store tx.new.conn.now) }
{
    if version < VERSION_WITH_AMOUNTS {
        return Ok(true);
    }
    is_holder_kept(alloc, tx, parts)
}
