//! The rows of a desk's file one after another, for whom asks for them: by holder and then by serial, each read by its key.
ghost use Rattle.std.specs.Prelude.{◌≡◌, true, false, None, Some, Ok, Err, IfErr, IfOk, IfSome, IsTrue};
ghost use Rattle.std.specs.Option.{option_map};
ghost use Rattle.sqlite.specs.Held.{state};
ghost use Rattle.sqlite.specs.State.{HasCleanDisk};
ghost use Rattle.td_store_load.specs.Placed.{found_at, is_behind};
ghost use Rattle.td_store.specs.Standing.{guarantee_given, tells_live};
ghost use Rattle.td_store.specs.declared.rows.Place.TheVariants.{After, Ended, Failed};

use crate::desk::SqlDesk;
use sqlite_trees::store::Alter;
use std::alloc::Global;
use td_base::{Cents, HolderNo};
use td_desk::Fault;
use td_guarantee::Guarantee;
use td_movement::Movement;

// Where a walk stands.
#[derive(Clone, Copy)]
enum Place {
    // Behind the row of that holder's number with that serial; (0, 0) is before all.
    After { holder: u32, serial: u32 },
    // Behind all.
    Ended,
    // Where a call failed so.
    Failed(Fault),
}

// Where a walk begins.
const BEFORE_ALL: Place = Place::After {
    holder: 0,
    serial: 0,
};

/// The movements of a desk, one after another. It holds the desk, and may be dropped at any movement.
pub struct MovementRows<'a, S: Alter> {
    desk: &'a mut SqlDesk<S>,
    at: Place,
    ghost live: { IsTrue (tells_live at) → HasCleanDisk (state S.Store desk.now) → IsTrue (state S.Store desk.now).is_open },
}

/// The guarantees of a desk, one after another. It holds the desk, and may be dropped at any guarantee.
pub struct GuaranteeRows<'a, S: Alter> {
    desk: &'a mut SqlDesk<S>,
    at: Place,
    ghost live: { IsTrue (tells_live at) → HasCleanDisk (state S.Store desk.now) → IsTrue (state S.Store desk.now).is_open },
}

// Where a walk stands that found this behind a place, and what it gives. A row that doesn't stand behind that place is a fault of the
// store: so a walk ends whatever the disk returns.
fn step<T: Drop>(
    holder: u32,
    serial: u32,
    found: Result<Option<(HolderNo, u32, T)>, Fault>,
) -> (Place, Result<Option<(HolderNo, T)>, Fault>)
    ensures some { IfOk found (λ o. IfSome o (λ x. is_behind holder serial (found_at x) ≡ true
        → result ≡ (After x.0 x.1, Ok (Some (x.0, x.2))))) }
    ensures other { IfOk found (λ o. IfSome o (λ x. is_behind holder serial (found_at x) ≡ false
        → result ≡ (Failed Fault.Store, Err Fault.Store))) }
    ensures none { found ≡ Ok None → result ≡ (Ended, Ok None) }
    ensures err { IfErr found (λ fault. result ≡ (Failed fault, Err fault)) }
{
    match found {
        Ok(Some((owner, number, row))) => {
            let no = owner.number();
            if no < holder || (no == holder && number <= serial) {
                return (Place::Failed(Fault::Store), Err(Fault::Store));
            }
            let at = Place::After {
                holder: no,
                serial: number,
            };
            (at, Ok(Some((owner, row))))
        }
        Ok(None) => (Place::Ended, Ok(None)),
        Err(fault) => (Place::Failed(fault), Err(fault)),
    }
}

impl<S: Alter> SqlDesk<S> {
    ghost use Rattle.std.specs.Prelude.{IsOk};
    ghost use Rattle.td_table_model.specs.Listed.{guarantees_listed, movements_listed};
    ghost use Rattle.td_store.specs.Kept.{content_in};
    ghost use Rattle.td_store.specs.Pulled.{guarantees_left, movements_left};

    /// The desk's movements, by holder and then by serial. Nothing is read yet, and it is always `Ok`.
    pub fn movement_rows(&mut self) -> Result<MovementRows<'_, S>, Fault>
        ensures ok { IsOk result }
        ensures same_reference { IfOk result (λ rows. rows.desk.ghost_name ≡ self.entry.ghost_name) }
        ensures same { IfOk result (λ rows. rows.desk.now ≡ self.old) }
        ensures left { IfOk result (λ rows. movements_left S.Store rows ≡ movements_listed (content_in (state S.Store self.old).now.trees)) }
    {
        Ok(MovementRows {
            desk: self,
            at: BEFORE_ALL,
        })
    }

    /// The desk's guarantees, by holder and then by serial. Nothing is read yet, and it is always `Ok`.
    pub fn guarantee_rows(&mut self) -> Result<GuaranteeRows<'_, S>, Fault>
        ensures ok { IsOk result }
        ensures same_reference { IfOk result (λ rows. rows.desk.ghost_name ≡ self.entry.ghost_name) }
        ensures same { IfOk result (λ rows. rows.desk.now ≡ self.old) }
        ensures left { IfOk result (λ rows. guarantees_left S.Store rows ≡ guarantees_listed (content_in (state S.Store self.old).now.trees)) }
    {
        Ok(GuaranteeRows {
            desk: self,
            at: BEFORE_ALL,
        })
    }
}

impl<S: Alter> MovementRows<'_, S> {
    ghost use Rattle.std.specs.Prelude.{is_ok};
    ghost use Rattle.td_desk.specs.declared.fault.Fault.{Fault};
    ghost use Rattle.td_store.specs.Kept.{CountsFaults, sql_view};
    ghost use Rattle.td_store.specs.Looked.{HasLooked};
    ghost use Rattle.td_store.specs.Pulled.{Gives, HasEnded, HasFailed, MovesOn, movement_walk, movements_left};

    /// The next movement with its lines, and its holder's number: `None` once all were given, and from then on. An `Err` is want of
    /// memory or a fault of the store: from then on each call answers it again. The desk is as it was.
    pub fn next(&mut self, alloc: Global) -> Result<Option<(HolderNo, Movement)>, Fault>
        ensures same_reference { self.new.desk.ghost_name ≡ self.old.desk.ghost_name }
        ensures looked { HasLooked (sql_view S.Store) (is_ok result) (movement_walk self.old).desk (movement_walk self.new).desk }
        ensures counted { CountsFaults (state S.Store (movement_walk self.old).desk) (state S.Store (movement_walk self.new).desk) }
        ensures memory { HasCleanDisk (state S.Store (movement_walk self.new).desk) → result ≡ Err Fault.NoMemory
            → IsTrue (state S.Store (movement_walk self.new).desk).is_open }

        // What is left, and what ends it.
        ensures gave { HasCleanDisk (state S.Store (movement_walk self.new).desk) → IsTrue (state S.Store (movement_walk self.old).desk).is_open
            → Gives (movements_left S.Store self.old) result (movements_left S.Store self.new) }
        ensures ended { HasEnded (movement_walk self.old) → (result ≡ Ok None) × (movement_walk self.new ≡ movement_walk self.old) }
        ensures ends { result ≡ Ok None → HasEnded (movement_walk self.new) }
        ensures failed { (fault : Fault) → HasFailed fault (movement_walk self.old)
            → (result ≡ Err fault) × (movement_walk self.new ≡ movement_walk self.old) }
        ensures fails { (fault : Fault) → result ≡ Err fault → HasFailed fault (movement_walk self.new) }

        // Whatever the disk returns.
        ensures rises { IfOk result (λ given. IfSome given (λ x. MovesOn (movement_walk self.old).at x.0 (movement_walk self.new).at)) }
    {
        self.desk.see_settled();
        let (holder, serial) = match self.at {
            Place::After { holder, serial } => (holder, serial),
            Place::Ended => return Ok(None),
            Place::Failed(fault) => return Err(fault),
        };
        let found = self.desk.following_movement(alloc, holder, serial);
        let (at, given) = step(holder, serial, found);
        self.at = at;
        given
    }
}

impl<S: Alter> Drop for MovementRows<'_, S> {
    fn drop(self)
        ensures { self.exit.0.now ≡ self.entry.desk.now }
    {
        let MovementRows { desk: _, at: _ } = self;
    }
}

// A guarantee and the amount in use on it, as it is given.
fn as_given(found: Option<(HolderNo, (Guarantee, Cents))>) -> Option<(HolderNo, Guarantee, Cents)>
    ensures { option_map guarantee_given result ≡ found }
{
    let (owner, (guarantee, used)) = found?;
    Some((owner, guarantee, used))
}

impl<S: Alter> GuaranteeRows<'_, S> {
    ghost use Rattle.std.specs.Prelude.{is_ok};
    ghost use Rattle.td_desk.specs.declared.fault.Fault.{Fault};
    ghost use Rattle.td_store.specs.Kept.{CountsFaults, sql_view};
    ghost use Rattle.td_store.specs.Looked.{HasLooked};
    ghost use Rattle.td_store.specs.Pulled.{Gives, HasEnded, HasFailed, MovesOn, guarantee_walk, guarantees_given, guarantees_left};

    /// The next guarantee with its codes, its holder's number, and the amount in use on it, in cents: `None` once all were given, and
    /// from then on. An `Err` is want of memory or a fault of the store: from then on each call answers it again. The desk is as it
    /// was.
    pub fn next(&mut self, alloc: Global) -> Result<Option<(HolderNo, Guarantee, Cents)>, Fault>
        ensures same_reference { self.new.desk.ghost_name ≡ self.old.desk.ghost_name }
        ensures looked { HasLooked (sql_view S.Store) (is_ok result) (guarantee_walk self.old).desk (guarantee_walk self.new).desk }
        ensures counted { CountsFaults (state S.Store (guarantee_walk self.old).desk) (state S.Store (guarantee_walk self.new).desk) }
        ensures memory { HasCleanDisk (state S.Store (guarantee_walk self.new).desk) → result ≡ Err Fault.NoMemory
            → IsTrue (state S.Store (guarantee_walk self.new).desk).is_open }

        // What is left, and what ends it.
        ensures gave { HasCleanDisk (state S.Store (guarantee_walk self.new).desk) → IsTrue (state S.Store (guarantee_walk self.old).desk).is_open
            → Gives (guarantees_left S.Store self.old) (guarantees_given result) (guarantees_left S.Store self.new) }
        ensures ended { HasEnded (guarantee_walk self.old) → (result ≡ Ok None) × (guarantee_walk self.new ≡ guarantee_walk self.old) }
        ensures ends { result ≡ Ok None → HasEnded (guarantee_walk self.new) }
        ensures failed { (fault : Fault) → HasFailed fault (guarantee_walk self.old)
            → (result ≡ Err fault) × (guarantee_walk self.new ≡ guarantee_walk self.old) }
        ensures fails { (fault : Fault) → result ≡ Err fault → HasFailed fault (guarantee_walk self.new) }

        // Whatever the disk returns.
        ensures rises { IfOk result (λ given. IfSome given (λ x. MovesOn (guarantee_walk self.old).at x.0 (guarantee_walk self.new).at)) }
    {
        self.desk.see_settled();
        let (holder, serial) = match self.at {
            Place::After { holder, serial } => (holder, serial),
            Place::Ended => return Ok(None),
            Place::Failed(fault) => return Err(fault),
        };
        let found = self.desk.following_guarantee(alloc, holder, serial);
        let (at, given) = step(holder, serial, found);
        self.at = at;
        Ok(as_given(given?))
    }
}

impl<S: Alter> Drop for GuaranteeRows<'_, S> {
    fn drop(self)
        ensures { self.exit.0.now ≡ self.entry.desk.now }
    {
        let GuaranteeRows { desk: _, at: _ } = self;
    }
}
