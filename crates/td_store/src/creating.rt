//! A desk made in an empty database.
ghost use Rattle.std.specs.Prelude.{◌≡◌, ◌⊎◌, false, IsTrue, IfOk, IfErr, MatchResult};
ghost use Rattle.sqlite.specs.Held.{state};
ghost use Rattle.sqlite.specs.State.{HasCleanDisk, Survives};
ghost use Rattle.td_model.specs.Content.{empty_content};
ghost use Rattle.td_desk.specs.View.{IsSettled};
ghost use Rattle.td_schema.specs.Layouts.{desk_schema};
ghost use Rattle.td_schema.specs.Tables.{IsEmptyOf, no_schema};
ghost use Rattle.td_store_rows.specs.StoreTables.{HoldsContent};
ghost use Rattle.td_store_write.specs.Created.{MayLeaveEmpty};
ghost use Rattle.td_store_check.specs.declared.fault.OpenFault.TheVariants as fault;
ghost use Rattle.typed_sql.specs.Outside.{CrashLeavesShown};
ghost use Rattle.td_store.specs.Kept.{content_in, sql_view};

use crate::desk::SqlDesk;
use crate::refused::Refused;
use sqlite::Connection;
use sqlite_trees::store::Alter;
use td_base::Country;
use td_schema::is_blank;
use td_store_check::{OpenFault, open_fault_of};
use td_store_write::create_tables;
use typed_sql::see_settled;

impl<S: Alter> SqlDesk<S> {
    /// Makes a desk of an office of that country, which has no holders yet, in a database that has no table: the tables of the newest
    /// version, and no others. `Store`: it has a table already, or the database answered an error other than want of memory;
    /// `NoMemory`: want of memory. With an error the connection is handed back, its database as it was. A crash during the call
    /// leaves what it could leave before, or the file of an empty desk; after it exactly what the connection shows.
    pub fn create(mut conn: Connection<S>, country: Country) -> Result<Self, Refused<S>>
        requires { conn.in_transaction ≡ false }
        ensures live { IfOk result (λ desk. HasCleanDisk (state S.Store desk)
            → IsTrue (state S.Store conn).is_open × IsTrue (state S.Store desk).is_open) }
        ensures empty { IfOk result (λ desk. HasCleanDisk (state S.Store desk)
            → content_in (state S.Store desk).now.trees ≡ empty_content country) }
        ensures made { IfOk result (λ desk. HasCleanDisk (state S.Store desk)
            → HoldsContent (empty_content country) (state S.Store desk)) }
        ensures schema { IfOk result (λ desk. HasCleanDisk (state S.Store desk) → (state S.Store desk).now.schema ≡ desk_schema) }
        ensures taken { ¬ IsEmptyOf no_schema (state S.Store conn).now
            → MatchResult result (λ _. ⊥) (λ refused. (refused.fault ≡ OpenFault.Store) × (refused.connection ≡ conn)) }
        ensures fault { IfErr result (λ refused. (refused.fault ≡ OpenFault.Store) ⊎ (refused.fault ≡ OpenFault.NoMemory)) }
        ensures same { IfErr result (λ refused. HasCleanDisk (state S.Store refused.connection)
            → IsTrue (state S.Store refused.connection).is_open → (state S.Store refused.connection).now ≡ (state S.Store conn).now) }
        ensures ended { IfErr result (λ refused. refused.connection.in_transaction ≡ false) }
        ensures crash { MatchResult result (λ desk. Survives (state S.Store conn) (state S.Store desk) (MayLeaveEmpty country (state S.Store conn)))
            (λ refused. Survives (state S.Store conn) (state S.Store refused.connection) (MayLeaveEmpty country (state S.Store conn))) }
        ensures settled { MatchResult result (λ desk. CrashLeavesShown (state S.Store desk))
            (λ refused. CrashLeavesShown (state S.Store refused.connection)) }
        ensures leaves { IfOk result (λ desk. HasCleanDisk (state S.Store desk) → IsSettled (sql_view S.Store) desk) }
    {
        if !is_blank(&conn) {
            see_settled(&conn);
            return Err(Refused {
                fault: OpenFault::Store,
                connection: conn,
            });
        }
        if let Err(error) = create_tables(&mut conn, country) {
            see_settled(&conn);
            return Err(Refused {
                fault: open_fault_of(&error),
                connection: conn,
            });
        }
        see_settled(&conn);
        Ok(SqlDesk::over(conn, country))
    }
}
