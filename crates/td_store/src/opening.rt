//! A desk opened over a database that one was made in before.
ghost use Rattle.std.specs.Prelude.{◌≡◌, ◌⊎◌, ℕ, false, IsTrue, IfOk, IfErr, MatchResult};
ghost use Rattle.sqlite.specs.Held.{state};
ghost use Rattle.sqlite.specs.State.{HasCleanDisk, Survives};
ghost use Rattle.td_model.specs.Content.{Content};
ghost use Rattle.td_desk.specs.View.{IsSettled};
ghost use Rattle.td_table_model.specs.declared.rule.Rule.{Rule};
ghost use Rattle.td_schema.specs.Layouts.{newest_version, schema_of};
ghost use Rattle.td_schema.specs.declared.layout.Layout.{Layout};
ghost use Rattle.td_store_rows.specs.StoreTables.{HasOfficeRow, HoldsContent};
ghost use Rattle.td_store_check.specs.declared.fault.OpenFault.TheVariants as fault;
ghost use Rattle.typed_sql.specs.Outside.{CrashLeavesShown};
ghost use Rattle.td_store.specs.Kept.{content_in, sql_view};
ghost use Rattle.td_store_check.specs.Opened.{AreDamaged, IsOfAnother, IsOfEarlier, IsOfUnknownVersion, IsStoreSchema, LacksMeta};

use crate::desk::SqlDesk;
use crate::refused::Refused;
use sqlite::Connection;
use sqlite_trees::store::Alter;
use std::alloc::Global;
use td_base::Country;
use td_store_check::refusal;
use typed_sql::see_settled;

impl<S: Alter> SqlDesk<S> {
    /// Opens the desk of an office of that country over a database that one was made in before. The first of these that holds is
    /// the refusal. `UnknownVersion`: there is no table `meta`; or it is the first, as a store's of any version, and the office's
    /// own row is missing or its version is none from 1 to the newest. `Store`: the tables are others than a store's.
    /// `NeedsMigration`: the row's version is this earlier one than the newest, whatever its country. `OtherCountry`: its country is
    /// another. `Store`: the tables are those of another version than the row says. `Damaged`: they break this rule, and none before
    /// it. An error of the database on the way is `Store`, want of memory `NoMemory`. With a refusal the connection is handed back, its database as it was; nor does a crash change it,
    /// during the call or after it.
    pub fn open(
        alloc: Global,
        mut conn: Connection<S>,
        country: Country,
    ) -> Result<Self, Refused<S>>
        requires { conn.in_transaction ≡ false }
        ensures live { IfOk result (λ desk. HasCleanDisk (state S.Store desk)
            → IsTrue (state S.Store conn).is_open × IsTrue (state S.Store desk).is_open) }
        ensures opened { IfOk result (λ desk. HasCleanDisk (state S.Store desk)
            → HoldsContent (content_in (state S.Store desk).now.trees) (state S.Store desk)) }
        ensures country { IfOk result (λ desk. HasCleanDisk (state S.Store desk)
            → (content_in (state S.Store desk).now.trees).country ≡ country) }
        ensures version { IfOk result (λ desk. HasCleanDisk (state S.Store desk)
            → HasOfficeRow newest_version country (state S.Store desk).now.trees) }
        ensures same { IfOk result (λ desk. HasCleanDisk (state S.Store desk) → (state S.Store desk).now ≡ (state S.Store conn).now) }
        ensures absent { LacksMeta (state S.Store conn).now.schema
            → MatchResult result (λ _. ⊥) (λ refused. (refused.fault ≡ fault.UnknownVersion) × (refused.connection ≡ conn)) }
        ensures unknown { IfErr result (λ refused. HasCleanDisk (state S.Store refused.connection) → refused.fault ≡ fault.UnknownVersion
            → IsOfUnknownVersion (state S.Store conn).now) }
        ensures earlier { IfErr result (λ refused. HasCleanDisk (state S.Store refused.connection) → (version : ℕ)
            → refused.fault ≡ fault.NeedsMigration version
            → IsStoreSchema (state S.Store conn).now.schema × IsOfEarlier version (state S.Store conn).now.trees) }
        ensures other { IfErr result (λ refused. HasCleanDisk (state S.Store refused.connection) → refused.fault ≡ fault.OtherCountry
            → IsStoreSchema (state S.Store conn).now.schema × IsOfAnother country (state S.Store conn).now.trees) }
        ensures broken { IfErr result (λ refused. HasCleanDisk (state S.Store refused.connection) → (rule : Rule)
            → refused.fault ≡ fault.Damaged rule
            → (layout : Layout) × ((state S.Store conn).now.schema ≡ schema_of layout)
            × AreDamaged country rule layout (state S.Store conn).now.trees) }
        ensures sound { IfErr result (λ refused. HasCleanDisk (state S.Store refused.connection) → IsTrue (state S.Store conn).is_open
            → (c : Content) → HoldsContent c (state S.Store conn) → c.country ≡ country
            → (refused.fault ≡ fault.Store) ⊎ (refused.fault ≡ fault.NoMemory)) }
        ensures handed { IfErr result (λ refused. HasCleanDisk (state S.Store refused.connection)
            → IsTrue (state S.Store refused.connection).is_open → (state S.Store refused.connection).now ≡ (state S.Store conn).now) }
        ensures ended { IfErr result (λ refused. refused.connection.in_transaction ≡ false) }
        ensures crash { MatchResult result (λ desk. Survives (state S.Store conn) (state S.Store desk) (λ _. ⊥))
            (λ refused. Survives (state S.Store conn) (state S.Store refused.connection) (λ _. ⊥)) }
        ensures settled { MatchResult result (λ desk. CrashLeavesShown (state S.Store desk))
            (λ refused. CrashLeavesShown (state S.Store refused.connection)) }
        ensures leaves { IfOk result (λ desk. HasCleanDisk (state S.Store desk) → IsSettled (sql_view S.Store) desk) }
    {
        match refusal(alloc, &mut conn, country) {
            None => {
                see_settled(&conn);
                Ok(SqlDesk::over(conn, country))
            }
            Some(fault) => {
                see_settled(&conn);
                Err(Refused {
                    fault,
                    connection: conn,
                })
            }
        }
    }
}
