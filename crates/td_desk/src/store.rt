//! What stands under a desk: rows that are loaded and written. Whatever does this is a desk.
ghost use Rattle.std.specs.Prelude.{◌≡◌, ◌≢◌, ℕ, Some, None, IfOk, OnOk, OnErr};
ghost use Rattle.std.specs.Result.{result_err};
ghost use Rattle.td_desk.specs.declared.fault.Fault.{Fault};
ghost use Rattle.td_acts.specs.Deciding.{IsLoaded};
ghost use Rattle.td_commands.specs.Commands.{need_said};
ghost use Rattle.td_commands.specs.declared.command.Stamped.{Stamped};
ghost use Rattle.td_model.specs.declared.change.Change.TheVariants as changes;
ghost use Rattle.td_model.specs.Content.{content_after, IsSound};
ghost use Rattle.td_acts.specs.declared.rows.Verdict.{Verdict};
ghost use Rattle.td_acts.specs.Weighing.{kept_for, IsDecision};
ghost use Rattle.td_desk.specs.View.{AddsAtMost, DeskView, LeavesOnly};

use crate::decision::Decision;
use crate::desk::Desk;
use crate::fault::Fault;
use std::alloc::Global;
use td_acts::table::decide;
use td_acts::{Change, Command, Loaded, Needs, Said, Verdict, known, owner};
use td_base::{Country, HolderNo};

/// The rows of a desk, in memory or in a file. It knows no command: it loads what a verdict needs, and
/// writes what a decision changes.
pub trait Store {
    /// What is seen of it, as of a desk: `has_store` is that it may answer a fault of its own, `Fault::Store`.
    ghost holds: { DeskView Self };

    /// A decision that changes nothing is carried by leaving it alone.
    ghost carries_nothing: { (store : Self) → holds.carried store None store };

    /// The country of the desk's office.
    fn office(&self) -> Country
        ensures { holds.is_clean self.now → holds.is_live self.now → result ≡ (holds.content self.now).country };

    /// What a verdict needs of the rows of a command's owner: of a registered holder the holder's row and
    /// what is needed beside it, of another number, and where nobody owns the command, nothing. An `Err` is
    /// want of memory or a fault of the store.
    fn load(
        &mut self,
        alloc: Global,
        owner: Option<HolderNo>,
        needs: &Needs<'_>,
    ) -> Result<Loaded, Fault>
        ensures kept { holds.is_clean self.new → holds.is_clean self.old }
        ensures live { holds.is_clean self.new → holds.is_live self.new → holds.is_live self.old }
        ensures shown { holds.is_clean self.new → OnOk result (holds.is_live self.old × holds.is_live self.new) }
        ensures memory { holds.is_clean self.new → result ≡ Err Fault.NoMemory → holds.is_live self.new }
        ensures same { holds.is_clean self.new → holds.is_live self.new → holds.content self.new ≡ holds.content self.old }
        ensures loaded { holds.is_clean self.new → holds.is_live self.old → IsSound (holds.content self.old)
            → IfOk result (IsLoaded (kept_for owner (holds.content self.old)) (need_said needs.now)) }
        ensures crash { holds.is_clean self.new → AddsAtMost holds (λ _. ⊥) self.old self.new }
        ensures settled { holds.is_clean self.new → holds.is_live self.new → LeavesOnly holds self.new (holds.content self.new) }
        ensures store { result ≡ Err Fault.Store → holds.has_store }
        ensures call { (s : Stamped) → holds.weighed self.old s (result_err result) self.new }
        // Where it ended well there may be no memory for the verdict.
        ensures unweighed { OnOk result ((s : Stamped) → holds.weighed self.old s (Some Fault.NoMemory) self.new) };

    /// Writes a change of one holder's rows, which was decided on over the rows as they are, all of it or, where
    /// it answers `Err`, nothing.
    fn write(&mut self, alloc: Global, change: Change) -> Result<(), Fault>
        requires changes { change ≢ changes.Nothing }
        requires decided { holds.is_clean self.old → holds.is_live self.old → IsSound (holds.content self.old)
            → (v : Verdict) × (v.change ≡ change) × IsDecision (holds.content self.old) v }
        ensures kept { holds.is_clean self.new → holds.is_clean self.old }
        ensures live { holds.is_clean self.new → holds.is_live self.new → holds.is_live self.old }
        ensures shown { holds.is_clean self.new → OnOk result (holds.is_live self.old × holds.is_live self.new) }
        ensures memory { holds.is_clean self.new → result ≡ Err Fault.NoMemory → holds.is_live self.new }
        ensures written { holds.is_clean self.new → holds.is_live self.new
            → OnOk result (holds.content self.new ≡ content_after change (holds.content self.old)) }
        ensures err { holds.is_clean self.new → holds.is_live self.new → OnErr result (holds.content self.new ≡ holds.content self.old) }
        ensures crash { holds.is_clean self.new → AddsAtMost holds
            (λ x. holds.is_live self.old × (x ≡ content_after change (holds.content self.old))) self.old self.new }
        ensures settled { holds.is_clean self.new → holds.is_live self.new → LeavesOnly holds self.new (holds.content self.new) }
        ensures store { result ≡ Err Fault.Store → holds.has_store }
        ensures call { holds.carried self.old (result_err result) self.new };
}

impl<S: Store> Desk for S {
    ghost seen = { S.holds };

    // It is one on some command over the rows as they are.
    ghost decided = { λ desk verdict. S.holds.is_clean desk → S.holds.is_live desk → IsSound (S.holds.content desk)
        → IsDecision (S.holds.content desk) verdict };

    fn country(&self) -> Country {
        self.office()
    }

    fn weigh(&mut self, alloc: Global, at: i64, command: &Command) -> Result<Decision, Fault> {
        // For its clause: the parts of the command are in the ranges of their types.
        let _known = known(command);
        let owner = owner(self.office(), command);
        let mut loaded = self.load(alloc, owner, &command.needs())?;
        let verdict = decide(alloc, &mut loaded, at, command)?;
        Ok(Decision::new(verdict))
    }

    fn carry(&mut self, alloc: Global, decision: Decision) -> Result<Said, Fault> {
        let Verdict { said, change } = decision.into_verdict();
        if let Change::Nothing = change {
            return Ok(said);
        }
        self.write(alloc, change)?;
        Ok(said)
    }
}
