//! A visit of the deadlines of all movements, outside a transaction. It changes nothing, and keeps no row.
ghost use Rattle.std.specs.Prelude.{◌≡◌, false, Ok, OnOk};
ghost use Rattle.sqlite.specs.Held.{state};
ghost use Rattle.sqlite.specs.State.{HasCleanDisk, IsUnchanged, Survives};
ghost use Rattle.typed_sql.specs.Visited.{HasSeen, is_whole};
ghost use Rattle.typed_sql.specs.Walked.{IsLeftAlone};
ghost use Rattle.td_store_rows.specs.StoreReads.{IsAny};
ghost use Rattle.td_store_rows.specs.Visited.{IsOfLayout, VisitsDeadlines};

use crate::movements::stored::MovementDeadlines;
use crate::movements::texts::DEADLINES;
use sqlite::{Connection, Error};
use sqlite_trees::store::Alter;
use std::alloc::Global;
use typed_sql::Visitor;

/// Shows a visitor the deadlines of each movement, by holder and then by serial, until it wants no more: `true` where all were shown,
/// `false` where it wanted no more. Of a row only the holder, the MRN, the state, the limit and the arrival are read.
/// `DatabaseCorrupt`: one of these is no movement's; `OutOfMemory`: want of memory; any other error is the database's own. What was
/// shown before an error comes first among the rows.
pub fn visit_deadlines<S: Alter, O, V: Visitor<MovementDeadlines, O>>(
    alloc: Global,
    conn: &mut Connection<S>,
    visitor: &mut V,
    beside: &mut O,
) -> Result<bool, Error>
    requires outside { conn.old.in_transaction ≡ false }
    requires tables { HasCleanDisk (state S.Store conn.old) → IsOfLayout IsAny (state S.Store conn.old) }
    ensures ended { conn.new.in_transaction ≡ false }
    ensures seen { HasSeen V.Visitor.sees (visitor.old, beside.old) (visitor.new, beside.new) }
    ensures visited { HasCleanDisk (state S.Store conn.new) → VisitsDeadlines V.Visitor.sees (state S.Store conn.old)
        (is_whole result) (visitor.old, beside.old) (visitor.new, beside.new) }
    ensures stopped { result ≡ Ok false → V.Visitor.stops visitor.new beside.new }
    ensures still { HasCleanDisk (state S.Store conn.new)
        → OnOk result (IsUnchanged (state S.Store conn.old) (state S.Store conn.new)) }
    ensures left { HasCleanDisk (state S.Store conn.new) → IsLeftAlone (state S.Store conn.old) (state S.Store conn.new) }
    ensures survives { Survives (state S.Store conn.old) (state S.Store conn.new) (λ _. ⊥) }
{
    typed_sql::visit(alloc, conn, DEADLINES, visitor, beside)
}
