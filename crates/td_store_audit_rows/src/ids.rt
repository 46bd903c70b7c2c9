//! The rowids of the tables: a statement that writes goes by them.
ghost use Rattle.std.specs.Prelude.{◌≡◌, ◌↔◌, ℤ, [], None, false, IfSome, IsTrue, OnOk};
ghost use Rattle.sqlite_value.specs.Order.{column};
ghost use Rattle.sqlite_value.specs.declared.value.Value.TheVariants.{Int};
ghost use Rattle.sqlite.specs.Given.{IsPlain};
ghost use Rattle.sqlite.specs.Held.{state};
ghost use Rattle.sqlite.specs.Listing.{understood};
ghost use Rattle.sqlite.specs.State.{HasCleanDisk, IsUnchanged, Survives};
ghost use Rattle.typed_sql.specs.Walked.{IsLeftAlone};
ghost use Rattle.td_store_audit_rows.specs.Ids.{IsAbove, ShowsIds};
ghost use Rattle.td_store_audit_rows.specs.Rising.{TellsRising};

use sqlite::{Connection, Error, ErrorCode, Row};
use sqlite_trees::store::Alter;
use typed_sql::{Walker, integer_at, walk};

// Whether an integer is above the last one, if there is one.
fn is_above(last: Option<i64>, id: i64) -> bool
    ensures { IsTrue result ↔ IsAbove last id }
{
    match last {
        Some(before) => before < id,
        None => true,
    }
}

// The integer that a row shows first, where it is above the last one.
fn next_id(last: Option<i64>, row: &Row) -> Option<i64>
    ensures some { IfSome result (λ id. (column row.now 0 ≡ Int id) × IsAbove last id) }
    ensures none { result ≡ None → (id : ℤ) → column row.now 0 ≡ Int id → IsAbove last id → ⊥ }
{
    let id = integer_at(row, 0)?;
    if is_above(last, id) { Some(id) } else { None }
}

// Whether all rows so far showed integers that rise, and the last of them.
#[derive(Drop)]
pub(crate) struct RisingIds {
    last: Option<i64>,
    pub(crate) rise: bool,
}

impl RisingIds {
    // Of no row yet.
    pub(crate) fn none_yet() -> RisingIds
        ensures { TellsRising result.rise result.last [] }
    {
        RisingIds {
            last: None,
            rise: true,
        }
    }
}

impl Walker for RisingIds {
    ghost use Rattle.td_store_audit_rows.specs.Rising.{TellsRising};

    ghost Knows = { λ rows ids. TellsRising ids.rise ids.last rows };

    fn see(&mut self, row: &Row) {
        self.last = next_id(self.last, row);
        self.rise = self.rise && self.last.is_some();
    }
}

/// Sees that the rowids of a table are integers, and no two the same. The text is a SELECT of them. `DatabaseCorrupt`: they
/// aren't, or weren't shown rising; any other error is the database's own. It changes nothing, and keeps no row.
pub(crate) fn ids_rise<S: Alter>(conn: &mut Connection<S>, text: &str) -> Result<(), Error>
    requires outside { conn.old.in_transaction ≡ false }
    requires plain { HasCleanDisk (state S.Store conn.old) → IsPlain (understood (state S.Store conn.old).now.schema text.now) }
    ensures ended { conn.new.in_transaction ≡ false }
    ensures ids { HasCleanDisk (state S.Store conn.new) → OnOk result (ShowsIds text.now (state S.Store conn.old).now) }
    ensures still { HasCleanDisk (state S.Store conn.new)
        → OnOk result (IsUnchanged (state S.Store conn.old) (state S.Store conn.new)) }
    ensures left { HasCleanDisk (state S.Store conn.new) → IsLeftAlone (state S.Store conn.old) (state S.Store conn.new) }
    ensures survives { Survives (state S.Store conn.old) (state S.Store conn.new) (λ _. ⊥) }
{
    let mut ids = RisingIds::none_yet();
    walk(conn, text, &mut ids)?;
    if !ids.rise {
        return Err(Error::SqliteFailure(ErrorCode::DatabaseCorrupt));
    }
    Ok(())
}
