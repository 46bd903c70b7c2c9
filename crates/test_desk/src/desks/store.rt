//! A store that a fault may shut, as a store in a file is.
ghost use Rattle.std.specs.Prelude.{◌≡◌, ℕ, IfOk, IsTrue};
ghost use Rattle.td_model.specs.Book.{Book};
ghost use Rattle.td_model.specs.Content.{Content, IsSound};
ghost use Rattle.td_desk.specs.Runs.{IsTied, IsRun};

use std::alloc::{AllocError, Global};
use td_acts::{Change, Loaded, Needs, Stamped};
use td_base::{Country, HolderNo};
use td_desk::{Fault, Outcome, PlainDesk, Store, run};

/// A run over a store that may shut: the run's theorem, at this desk.
pub fn run_stored<S: Store>(
    alloc: Global,
    desk: &mut S,
    list: &[Stamped],
) -> Result<Vec<Outcome>, AllocError>
    ensures private { S.holds.is_clean desk.new → S.holds.is_live desk.old → IsSound (S.holds.content desk.old)
        → (books : ℕ → Book) → IsTied (S.holds.content desk.old) books →
        IfOk result (λ outcomes. (c : Content)
        × IsRun (S.holds.content desk.old).country books list.now outcomes.items c
        × (S.holds.is_live desk.new → S.holds.content desk.new ≡ c)) }
{
    run(alloc, desk, list)
}

/// A store in memory that serves so many calls, and shuts at the next. A crash leaves the rows that it has.
#[derive(Drop)]
pub struct FaultyStore {
    rows: PlainDesk,
    good_calls: u32,
    serving: bool,
}

impl FaultyStore {
    pub fn new(alloc: Global, country: Country, good_calls: u32) -> Result<Self, AllocError> {
        Ok(FaultyStore {
            rows: PlainDesk::new(alloc, country)?,
            good_calls,
            serving: true,
        })
    }

    // Whether this call is served; else the store is shut.
    fn serve(&mut self) -> bool
        ensures same { self.new.rows ≡ self.old.rows }
        ensures open { self.new.serving ≡ result }
        ensures was_open { IsTrue result → IsTrue self.old.serving }
    {
        self.serving = self.serving && self.good_calls > 0;
        if self.serving {
            self.good_calls -= 1;
        }
        self.serving
    }
}

impl Store for FaultyStore {
    ghost use Rattle.std.specs.Prelude.{◌≡◌, ◌⊎◌, IsTrue, false, None, Some, refl};
    ghost use Rattle.std.proofs.Common.{inl};
    ghost use Rattle.td_desk.specs.Plain.{plain_content};
    ghost use Rattle.td_desk.specs.declared.fault.Fault.TheVariants as fault;

    // A call that finds the store shut, or shuts it, and no other call, is the store's fault. A decision that changes nothing asks
    // nothing.
    ghost holds = { record {
      content = λ s. plain_content s.rows;
      is_clean = λ _. Unit {0};
      is_live = λ s. IsTrue s.serving;
      has_store = Unit {0};
      may_leave = λ s x. x ≡ plain_content s.rows;
      recovers = λ _. Unit {0};
      weighed = λ _ _ why new. (why ≡ Some fault.Store → new.serving ≡ false) × (new.serving ≡ false → why ≡ Some fault.Store);
      carried = λ old why new. ((new ≡ old) × (why ≡ None))
          ⊎ ((why ≡ Some fault.Store → new.serving ≡ false) × (new.serving ≡ false → why ≡ Some fault.Store));
    } };

    ghost carries_nothing = { λ _. inl (refl, refl) };

    fn office(&self) -> Country {
        self.rows.office()
    }

    fn load(
        &mut self,
        alloc: Global,
        owner: Option<HolderNo>,
        needs: &Needs<'_>,
    ) -> Result<Loaded, Fault> {
        if !self.serve() {
            return Err(Fault::Store);
        }
        self.rows.load(alloc, owner, needs)
    }

    fn write(&mut self, alloc: Global, change: Change) -> Result<(), Fault> {
        if !self.serve() {
            return Err(Fault::Store);
        }
        self.rows.write(alloc, change)
    }
}
