//! The deadlines of all movements of a desk over a file, and all its guarantees, shown to a visitor one after another.
ghost use Rattle.std.specs.Prelude.{◌≡◌, false, IsTrue, Ok, is_ok};
ghost use Rattle.sqlite.specs.Held.{state};
ghost use Rattle.sqlite.specs.State.{HasCleanDisk};
ghost use Rattle.typed_sql.specs.Outside.{Looks};
ghost use Rattle.typed_sql.specs.Visited.{HasSeen, is_whole};
ghost use Rattle.td_store_rows.specs.StoreReads.{HasNewestTables};
ghost use Rattle.td_store_rows.specs.Visited.{VisitsDeadlines, VisitsKept};

use crate::desk::SqlDesk;
use crate::faults::told;
use sqlite::{Connection, Error};
use sqlite_trees::store::Alter;
use std::alloc::Global;
use td_desk::Fault;
use td_store_rows::{KeptGuarantee, MovementDeadlines, visit_deadlines, visit_kept};
use typed_sql::{Visitor, ask};

// Shows a visitor the deadlines of each movement of a desk's file, once the connection was seen to answer. An error is the
// database's own, or that of the visit.
fn show_deadlines<S: Alter, O, V: Visitor<MovementDeadlines, O>>(
    alloc: Global,
    conn: &mut Connection<S>,
    visitor: &mut V,
    beside: &mut O,
) -> Result<bool, Error>
    requires outside { conn.old.in_transaction ≡ false }
    requires tables { HasCleanDisk (state S.Store conn.old) → HasNewestTables (state S.Store conn.old) }
    ensures ended { conn.new.in_transaction ≡ false }
    ensures looks { Looks (is_ok result) (state S.Store conn.old) (state S.Store conn.new) }
    ensures seen { HasSeen V.Visitor.sees (visitor.old, beside.old) (visitor.new, beside.new) }
    ensures visited { HasCleanDisk (state S.Store conn.new) → VisitsDeadlines V.Visitor.sees (state S.Store conn.old)
        (is_whole result) (visitor.old, beside.old) (visitor.new, beside.new) }
    ensures stopped { result ≡ Ok false → V.Visitor.stops visitor.new beside.new }
{
    ask(conn)?;
    visit_deadlines(alloc, conn, visitor, beside)
}

// Shows a visitor each guarantee of a desk's file, once the connection was seen to answer. An error is the database's own, or that of
// the visit.
fn show_guarantees<S: Alter, O, V: Visitor<KeptGuarantee, O>>(
    alloc: Global,
    conn: &mut Connection<S>,
    visitor: &mut V,
    beside: &mut O,
) -> Result<bool, Error>
    requires outside { conn.old.in_transaction ≡ false }
    requires tables { HasCleanDisk (state S.Store conn.old) → HasNewestTables (state S.Store conn.old) }
    ensures ended { conn.new.in_transaction ≡ false }
    ensures looks { Looks (is_ok result) (state S.Store conn.old) (state S.Store conn.new) }
    ensures seen { HasSeen V.Visitor.sees (visitor.old, beside.old) (visitor.new, beside.new) }
    ensures visited { HasCleanDisk (state S.Store conn.new) → VisitsKept V.Visitor.sees (state S.Store conn.old)
        (is_whole result) (visitor.old, beside.old) (visitor.new, beside.new) }
    ensures stopped { result ≡ Ok false → V.Visitor.stops visitor.new beside.new }
{
    ask(conn)?;
    visit_kept(alloc, conn, visitor, beside)
}

impl<S: Alter> SqlDesk<S> {
    ghost use Rattle.std.specs.Prelude.{Err, map};
    ghost use Rattle.td_store.specs.Kept.{CountsFaults, content_in, sql_view};
    ghost use Rattle.td_store.specs.Looked.{HasLooked};
    ghost use Rattle.td_store.specs.Visits.{IsVisit, said_of_guarantee, shown_of_movement};
    ghost use Rattle.td_table_model.specs.Listed.{guarantees_listed, movements_listed, without_codes};

    /// Shows a visitor the deadlines of each movement, by holder and then by serial, and what stands beside it, until it wants no more:
    /// `true` where all were shown, `false` where it wanted no more. Of a row only the columns of the holder, the MRN, the state, the
    /// limit and the arrival are read. No row is changed, and none is kept. `NoMemory`: want of memory; `Store`: any other fault of the
    /// store, also one of these columns that is no movement's. What was shown before a fault comes first among the rows.
    pub fn visit_deadlines<O, V: Visitor<MovementDeadlines, O>>(
        &mut self,
        alloc: Global,
        visitor: &mut V,
        beside: &mut O,
    ) -> Result<bool, Fault>
        ensures looked { HasLooked (sql_view S.Store) (is_ok result) self.old self.new }
        ensures counted { CountsFaults (state S.Store self.old) (state S.Store self.new) }
        ensures memory { HasCleanDisk (state S.Store self.new) → result ≡ Err Fault.NoMemory → IsTrue (state S.Store self.new).is_open }
        // also where the disk returned other than what was written
        ensures seen { HasSeen V.Visitor.sees (visitor.old, beside.old) (visitor.new, beside.new) }
        ensures visited { HasCleanDisk (state S.Store self.new) → IsTrue (state S.Store self.old).is_open
            → IsVisit V.Visitor.sees (λ row. row) (map shown_of_movement (movements_listed (content_in (state S.Store self.old).now.trees)))
            (visitor.old, beside.old) result (visitor.new, beside.new) }
        ensures stopped { result ≡ Ok false → V.Visitor.stops visitor.new beside.new }
    {
        let shown = show_deadlines(alloc, &mut self.conn, visitor, beside);
        told(&mut self.conn, shown)
    }

    /// Shows a visitor each guarantee, by holder and then by serial, with the amount in use on it and without its codes, and what
    /// stands beside it, until it wants no more: `true` where all were shown, `false` where it wanted no more. No row is changed, and
    /// none is kept. `NoMemory`: want of memory; `Store`: any other fault of the store. What was shown before a fault comes first
    /// among the rows.
    pub fn visit_guarantees<O, V: Visitor<KeptGuarantee, O>>(
        &mut self,
        alloc: Global,
        visitor: &mut V,
        beside: &mut O,
    ) -> Result<bool, Fault>
        ensures looked { HasLooked (sql_view S.Store) (is_ok result) self.old self.new }
        ensures counted { CountsFaults (state S.Store self.old) (state S.Store self.new) }
        ensures memory { HasCleanDisk (state S.Store self.new) → result ≡ Err Fault.NoMemory → IsTrue (state S.Store self.new).is_open }
        // also where the disk returned other than what was written
        ensures seen { HasSeen V.Visitor.sees (visitor.old, beside.old) (visitor.new, beside.new) }
        ensures visited { HasCleanDisk (state S.Store self.new) → IsTrue (state S.Store self.old).is_open
            → IsVisit V.Visitor.sees said_of_guarantee (map without_codes (guarantees_listed (content_in (state S.Store self.old).now.trees)))
            (visitor.old, beside.old) result (visitor.new, beside.new) }
        ensures stopped { result ≡ Ok false → V.Visitor.stops visitor.new beside.new }
    {
        let shown = show_guarantees(alloc, &mut self.conn, visitor, beside);
        told(&mut self.conn, shown)
    }
}
