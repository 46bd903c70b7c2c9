//! The desk over a store's file.
use crate::faults::{fault_of, told};
use sqlite::Connection;
use sqlite_trees::store::Alter;
use std::alloc::Global;
use std::marker::Model;
use td_acts::{Change, Loaded, Needs};
use td_base::{Cents, Country, HolderNo};
use td_desk::{Fault, Store};
use td_guarantee::Guarantee;
use td_movement::Movement;
use td_store_load::{read_following_guarantee, read_following_movement, read_needs};
use td_store_write::carry_change;
use typed_sql::see_settled;

/// A desk whose rows stand in the tables of a store. It holds the store's connection, outside a transaction, and the country
/// of its office. What contracts see of it is the connection.
#[derive(Drop)]
pub struct SqlDesk<S: Alter> {
    country: Country,
    pub(crate) conn: Connection<S>,
}

impl<S: Alter> Model for SqlDesk<S> {
    ghost use Rattle.std.specs.Prelude.{◌≡◌, false};
    ghost use Rattle.sqlite.specs.Held.{Held, held_code, state};
    ghost use Rattle.td_store.specs.Kept.{IsDeskOf};

    ghost Value = { Held S };

    ghost coded = { held_code S.code };

    ghost view = { λ d. d.conn };

    ghost invariant = { λ d. IsDeskOf d.country (state S.Store d.conn) × (d.conn.in_transaction ≡ false) };
}

impl<S: Alter> SqlDesk<S> {
    ghost use Rattle.std.specs.Prelude.{◌≡◌, false, IfOk, IsTrue, is_ok};
    ghost use Rattle.std.specs.Option.{option_map};
    ghost use Rattle.sqlite.specs.Held.{state};
    ghost use Rattle.sqlite.specs.State.{HasCleanDisk};
    ghost use Rattle.td_store_rows.specs.StoreTables.{HoldsContent};
    ghost use Rattle.td_store_load.specs.Placed.{ComesNext, found_at, guarantees_placed, movements_placed};
    ghost use Rattle.td_desk.specs.View.{IsSettled};
    ghost use Rattle.typed_sql.specs.Outside.{CrashLeavesShown};
    ghost use Rattle.td_store.specs.Kept.{CountsFaults, IsDeskOf, content_in, sql_view};
    ghost use Rattle.td_store.specs.Looked.{HasLooked};

    // The desk over a connection that holds a content of that country.
    pub(crate) fn over(conn: Connection<S>, country: Country) -> Self
        requires desk { IsDeskOf country (state S.Store conn) }
        requires ended { conn.in_transaction ≡ false }
        ensures { result ≡ conn }
    {
        SqlDesk { country, conn }
    }

    /// Sees that a crash leaves the desk's content. It does nothing.
    pub(crate) fn see_settled(&self)
        ensures settled { HasCleanDisk (state S.Store self.now) → IsSettled (sql_view S.Store) self.now }
    {
        see_settled(&self.conn);
    }

    /// The first movement behind the place of a holder's number and a serial, if there is one, with its holder, its serial and its
    /// lines. An `Err` is want of memory or a fault of the store.
    pub(crate) fn following_movement(
        &mut self,
        alloc: Global,
        holder: u32,
        serial: u32,
    ) -> Result<Option<(HolderNo, u32, Movement)>, Fault>
        ensures looked { HasLooked (sql_view S.Store) (is_ok result) self.old self.new }
        ensures counted { CountsFaults (state S.Store self.old) (state S.Store self.new) }
        ensures memory { HasCleanDisk (state S.Store self.new) → result ≡ Err Fault.NoMemory → IsTrue (state S.Store self.new).is_open }
        ensures found { HasCleanDisk (state S.Store self.new) → IsTrue (state S.Store self.old).is_open
            → IfOk result (λ found. ComesNext holder serial (movements_placed (content_in (state S.Store self.old).now.trees))
            (option_map found_at found)) }
    {
        let found = read_following_movement(alloc, &mut self.conn, holder, serial);
        told(&mut self.conn, found)
    }

    /// The first guarantee behind the place of a holder's number and a serial, if there is one, with its holder, its serial, its codes
    /// and the amount in use on it. An `Err` is want of memory or a fault of the store.
    pub(crate) fn following_guarantee(
        &mut self,
        alloc: Global,
        holder: u32,
        serial: u32,
    ) -> Result<Option<(HolderNo, u32, (Guarantee, Cents))>, Fault>
        ensures looked { HasLooked (sql_view S.Store) (is_ok result) self.old self.new }
        ensures counted { CountsFaults (state S.Store self.old) (state S.Store self.new) }
        ensures memory { HasCleanDisk (state S.Store self.new) → result ≡ Err Fault.NoMemory → IsTrue (state S.Store self.new).is_open }
        ensures found { HasCleanDisk (state S.Store self.new) → IsTrue (state S.Store self.old).is_open
            → IfOk result (λ found. ComesNext holder serial (guarantees_placed (content_in (state S.Store self.old).now.trees))
            (option_map found_at found)) }
    {
        let found = read_following_guarantee(alloc, &mut self.conn, holder, serial);
        told(&mut self.conn, found)
    }

    /// Gives the connection back, outside a transaction. No row is changed: as far as the disk is clean and the connection
    /// open, it holds the desk's content, and a crash leaves exactly that.
    pub fn close(self) -> Connection<S>
        ensures same { result ≡ self }
        ensures ended { result.in_transaction ≡ false }
        ensures holds { HasCleanDisk (state S.Store result) → IsTrue (state S.Store result).is_open
            → HoldsContent (content_in (state S.Store result).now.trees) (state S.Store result) }
        ensures settled { CrashLeavesShown (state S.Store result) }
        ensures leaves { HasCleanDisk (state S.Store result) → IsSettled (sql_view S.Store) result }
    {
        let SqlDesk { country: _, conn } = self;
        see_settled(&conn);
        conn
    }
}

impl<S: Alter> Store for SqlDesk<S> {
    ghost use Rattle.sqlite.specs.Held.{state};
    ghost use Rattle.td_store.specs.Kept.{counts_none, sql_view};

    ghost holds = { sql_view S.Store };

    ghost carries_nothing = { λ desk. counts_none (state S.Store desk) };

    fn office(&self) -> Country {
        self.country
    }

    fn load(
        &mut self,
        alloc: Global,
        owner: Option<HolderNo>,
        needs: &Needs<'_>,
    ) -> Result<Loaded, Fault> {
        let loaded = read_needs(alloc, &mut self.conn, self.country, owner, needs);
        told(&mut self.conn, loaded)
    }

    fn write(&mut self, alloc: Global, change: Change) -> Result<(), Fault> {
        if let Err(error) = carry_change(alloc, &mut self.conn, self.country, &change) {
            let fault = fault_of(&mut self.conn, &error);
            see_settled(&self.conn);
            return Err(fault);
        }
        see_settled(&self.conn);
        Ok(())
    }
}
