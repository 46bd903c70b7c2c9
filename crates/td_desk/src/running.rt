//! Runs of commands.
ghost use Rattle.std.specs.Prelude.{◌≡◌, ◌≢◌, ℕ, All, IfOk, List, OnErr};
ghost use Rattle.td_commands.specs.declared.command.Command.TheVariants as command;
ghost use Rattle.td_commands.specs.declared.said.Refusal.TheVariants as refusal;
ghost use Rattle.td_commands.specs.declared.said.Said.TheVariants as said;
ghost use Rattle.td_model.specs.Book.{Book};
ghost use Rattle.td_model.specs.Content.{Content, IsSound};
ghost use Rattle.td_desk.specs.Runs.{IsOutcomeOf, AreOutcomesOf, IsStep, IsTied, IsRun, LeavesAfter, is_failed};
ghost use Rattle.td_desk.specs.View.{IsSettled};

use crate::desk::Desk;
use crate::fault::Fault;
use std::alloc::{AllocError, Global};
use td_acts::{Said, Stamped};

/// How a command ended.
#[derive(Debug, Drop)]
pub enum Outcome {
    /// This was said to it.
    Said(Said),
    /// It failed, and changed nothing that a live desk shows.
    Failed(Fault),
}

/// Does one command: weighs it, and carries the decision. `crash`: what a crash leaves after it. `found`: over sound rows no
/// release for transit is refused because a guarantee of the movement isn't there.
pub fn do_one<D: Desk>(alloc: Global, desk: &mut D, stamped: &Stamped) -> Outcome
    ensures clean { D.seen.is_clean desk.new → D.seen.is_clean desk.old }
    ensures live { D.seen.is_clean desk.new → D.seen.is_live desk.new → D.seen.is_live desk.old }
    ensures performs { D.seen.is_clean desk.new
        → IsStep (D.seen.is_live desk.old) (D.seen.is_live desk.new) (D.seen.content desk.old) stamped.now result
        (D.seen.content desk.new) }
    ensures stays { D.seen.is_clean desk.new → D.seen.is_live desk.old → result ≢ Outcome.Failed Fault.Store
        → D.seen.is_live desk.new }
    ensures memory { D.seen.is_clean desk.new → result ≡ Outcome.Failed Fault.NoMemory → D.seen.is_live desk.new }
    ensures crash { D.seen.is_clean desk.new → LeavesAfter D.seen desk.old stamped.now (is_failed result) desk.new }
    ensures settled { D.seen.is_clean desk.new → IsSettled D.seen desk.new }
    ensures store { result ≡ Outcome.Failed Fault.Store → D.seen.has_store }
    ensures found { D.seen.is_clean desk.new → IsSound (D.seen.content desk.old) → (mrn : List ℕ) (limit : ℕ)
        → stamped.now.command ≡ command.Ie029 mrn limit → result ≢ Outcome.Said (said.Refused refusal.NoGuarantee) }
    ensures calls { IsOutcomeOf D.seen desk.old stamped.now result desk.new }
{
    match desk.weigh(alloc, stamped.at, &stamped.command) {
        Ok(decision) => match desk.carry(alloc, decision) {
            Ok(said) => Outcome::Said(said),
            Err(fault) => Outcome::Failed(fault),
        },
        Err(fault) => Outcome::Failed(fault),
    }
}

/// Does commands in order, and answers the outcome of each. Room for the outcomes is made first:
/// `AllocError` leaves the desk as it was.
///
/// To each holder, what is said is what the holder's own machine says to the holder's part of the list:
/// nothing that other holders do, or that fails, is seen in it. Where a fault shut the desk on the way,
/// this holds of the content up to then.
pub fn run<D: Desk>(
    alloc: Global,
    desk: &mut D,
    list: &[Stamped],
) -> Result<Vec<Outcome>, AllocError>
    ensures err { OnErr result (desk.new ≡ desk.old) }
    ensures clean { D.seen.is_clean desk.new → D.seen.is_clean desk.old }
    ensures live { D.seen.is_clean desk.new → D.seen.is_live desk.new → D.seen.is_live desk.old }
    ensures private { D.seen.is_clean desk.new → D.seen.is_live desk.old → IsSound (D.seen.content desk.old)
        → (books : ℕ → Book) → IsTied (D.seen.content desk.old) books →
        IfOk result (λ outcomes. (c : Content)
        × IsRun (D.seen.content desk.old).country books list.now outcomes.items c
        × (D.seen.is_live desk.new → D.seen.content desk.new ≡ c)) }
    ensures stays { D.seen.is_clean desk.new → D.seen.is_live desk.old
        → IfOk result (λ outcomes. All (λ o. o ≢ Outcome.Failed Fault.Store) outcomes.items
        → D.seen.is_live desk.new) }
    ensures store { IfOk result (λ outcomes. All
        (λ o. o ≡ Outcome.Failed Fault.Store → D.seen.has_store) outcomes.items) }
    ensures calls { IfOk result (λ outcomes. AreOutcomesOf D.seen desk.old list.now outcomes.items desk.new) }
{
    let mut outcomes = Vec::with_capacity(alloc, list.len())?;
    for stamped in list {
        let outcome = do_one(alloc, desk, stamped);
        outcomes.push_reserved(outcome);
    }
    Ok(outcomes)
}
