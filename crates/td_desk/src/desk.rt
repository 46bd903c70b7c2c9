//! What a desk promises.
ghost use Rattle.std.specs.Prelude.{◌≡◌, ◌≢◌, ℤ, IfOk, OnOk, OnErr, IsOk};
ghost use Rattle.std.specs.Result.{result_err};
ghost use Rattle.td_desk.specs.declared.fault.Fault.{Fault};
ghost use Rattle.td_acts.specs.declared.rows.Verdict.{Verdict};
ghost use Rattle.td_model.specs.declared.change.Change.TheVariants as change;
ghost use Rattle.td_commands.specs.declared.command.Stamped.{Stamped};
ghost use Rattle.td_commands.specs.Commands.{IsProper};
ghost use Rattle.td_model.specs.Content.{IsSound, content_after};
ghost use Rattle.td_acts.specs.Weighing.{IsWeighed, Carries};
ghost use Rattle.td_desk.specs.View.{AddsAtMost, DeskView, LeavesOnly};

use crate::decision::Decision;
use crate::fault::Fault;
use std::alloc::Global;
use td_acts::{Command, Said};
use td_base::Country;

/// The desk of a transit office. What is said of values is said where the state after the call is clean,
/// and, of the content, live.
pub trait Desk {
    /// What is seen of it: its content, whether it is clean and live, whether a store stands behind it, what a crash leaves, and
    /// what its calls do beside.
    ghost seen: { DeskView Self };

    /// The decision is one that it may carry as it is: it was weighed at it, and nothing was done since.
    ghost decided: { Self → Verdict → Type 0 };

    /// The country of its office.
    fn country(&self) -> Country
        ensures { seen.is_clean self.now → seen.is_live self.now → result ≡ (seen.content self.now).country };

    /// Decides on a command that comes at that number of seconds since 1970, and changes nothing. An `Err`
    /// is want of memory, at a desk that is live, or a fault of the store. It adds nothing to what a crash leaves, which is the
    /// content alone while the desk is live.
    fn weigh(&mut self, alloc: Global, at: i64, command: &Command) -> Result<Decision, Fault>
        ensures clean { seen.is_clean self.new → seen.is_clean self.old }
        ensures live { seen.is_clean self.new → seen.is_live self.new → seen.is_live self.old }
        ensures shown { seen.is_clean self.new → OnOk result (seen.is_live self.old × seen.is_live self.new) }
        ensures memory { seen.is_clean self.new → result ≡ Err Fault.NoMemory → seen.is_live self.new }
        ensures same { seen.is_clean self.new → seen.is_live self.new → seen.content self.new ≡ seen.content self.old }
        ensures decision { seen.is_clean self.new → seen.is_live self.old → IsSound (seen.content self.old)
            → IfOk result (IsWeighed (seen.content self.old) at command.now) }
        ensures proper { IsProper command.now }
        ensures crash { seen.is_clean self.new → AddsAtMost seen (λ _. ⊥) self.old self.new }
        ensures settled { seen.is_clean self.new → seen.is_live self.new → LeavesOnly seen self.new (seen.content self.new) }
        ensures store { result ≡ Err Fault.Store → seen.has_store }
        ensures decided { IfOk result (decided self.new) }
        ensures call { seen.weighed self.old (record { at = at; command = command.now }) (result_err result) self.new };

    /// Does what was decided on a command over the content as it is, and answers what is said to it. An
    /// `Err` changes nothing that a live desk shows, and the decision is spent; a decision that changes nothing is never an `Err`, and leaves the
    /// very same desk. To what a crash leaves a change adds at most the content with it; and while the desk is live, that is
    /// its content alone.
    fn carry(&mut self, alloc: Global, decision: Decision) -> Result<Said, Fault>
        requires { decided self.old decision }
        ensures clean { seen.is_clean self.new → seen.is_clean self.old }
        ensures live { seen.is_clean self.new → seen.is_live self.new → seen.is_live self.old }
        ensures shown { seen.is_clean self.new → decision.change ≢ change.Nothing
            → OnOk result (seen.is_live self.old × seen.is_live self.new) }
        ensures stays { seen.is_clean self.new → seen.is_live self.old → OnOk result (seen.is_live self.new) }
        ensures memory { seen.is_clean self.new → result ≡ Err Fault.NoMemory → seen.is_live self.new }
        ensures said { IfOk result (λ said. said ≡ decision.said) }
        ensures carried { seen.is_clean self.new → seen.is_live self.new → IsSound (seen.content self.old) →
            OnOk result ((s : Stamped) → IsProper s.command
            → IsWeighed (seen.content self.old) s.at s.command decision
            → Carries (seen.content self.old) s (seen.content self.new)) }
        ensures err { seen.is_clean self.new → seen.is_live self.new
            → OnErr result (seen.content self.new ≡ seen.content self.old) }
        ensures quiet { decision.change ≡ change.Nothing → IsOk result }
        ensures still { decision.change ≡ change.Nothing → self.new ≡ self.old }
        ensures crash { seen.is_clean self.new → AddsAtMost seen
            (λ x. seen.is_live self.old × (x ≡ content_after decision.change (seen.content self.old))) self.old self.new }
        ensures settled { decision.change ≢ change.Nothing → seen.is_clean self.new → seen.is_live self.new
            → LeavesOnly seen self.new (seen.content self.new) }
        ensures store { result ≡ Err Fault.Store → seen.has_store }
        ensures call { seen.carried self.old (result_err result) self.new };
}
