//! The last row of a journal, redone at a desk.
ghost use Rattle.std.specs.Prelude.{◌≡◌, ◌↔◌, Err, IfOk, IsTrue, OnErr, OnOk, string_bytes};
ghost use Rattle.td_commands.specs.declared.said.Refusal.TheVariants.{WrongState};
ghost use Rattle.td_commands.specs.declared.said.Said.TheVariants.{Refused};
ghost use Rattle.td_commands.specs.Commands.{IsProper};
ghost use Rattle.td_model.specs.Changes.{is_change};
ghost use Rattle.td_answers.specs.Answers.{said_body};
ghost use Rattle.td_model.specs.Content.{IsSound};
ghost use Rattle.td_desk.specs.View.{AddsAtMost, IsSettled};
ghost use Rattle.td_desk.specs.declared.fault.Fault.{Fault};
ghost use Rattle.td_redo.specs.Endings.{IsRedoneAs, IsEndingFor, IsOpenedAgain, IsRedoneBy, IsSecond};
ghost use Rattle.td_redo.specs.Replies.{body_text};

use std::alloc::{AllocError, Global};
use td_answers::{answer_is_told_in, refusal_is_told_in, said_body};
use td_desk::{Answer, Command, Decision, Desk, Fault, Refusal, Said, Stamped};
use td_movement::{Control, State};

/// How the redo of a row ended.
#[derive(Clone, Copy, Debug, PartialEq, Eq)]
pub enum Redone {
    /// The row's command was accepted, and told as in the row: it is done now.
    Carried,
    /// The row stands already: its command was told what is said to a change the second time. Nothing was changed.
    Stands,
    /// The row isn't of this desk's file: its command was told something else. Nothing was changed.
    Foreign,
}

// Whether just this was said.
fn is_refused(said: &Said, refusal: Refusal) -> bool
    ensures { IsTrue result ↔ said.now ≡ Refused refusal }
{
    match said {
        Said::Refused(why) => *why == refusal,
        Said::Answered(_) => false,
    }
}

// Whether the move was refused, as the movement is in this state already.
fn is_in(said: &Said, state: State) -> bool
    ensures { IsTrue result ↔ said.now ≡ Refused (WrongState state) }
{
    is_refused(said, Refusal::WrongState { state })
}

// Whether what is said is what is said to a change the second time. `same`: the reply has the body of the first one.
fn is_second(command: &Command, said: &Said, same: bool) -> bool
    ensures { IsTrue result ↔ IsSecond command.now (IsTrue same) said.now }
{
    match command {
        Command::Register { .. } => is_refused(said, Refusal::HolderKnown),
        Command::OpenGuarantee { .. } => is_opened_again(said, same),
        Command::Revoke { .. } => is_refused(said, Refusal::AlreadyEnded),
        Command::AddCode { .. } => is_refused(said, Refusal::CodeKnown),
        Command::RemoveCode { .. } => is_refused(said, Refusal::NoCode),
        Command::Ie014 { .. } => is_in(said, State::Cancelled),
        Command::Ie029 { .. } => is_in(said, State::Released),
        Command::Ie007 { .. } => is_in(said, State::Arrived),
        Command::Ie018 { result, .. } => match result {
            Control::A1 | Control::A2 => is_in(said, State::Cleared),
            Control::B1 => same,
        },
        Command::Ie045 { .. } => is_in(said, State::WrittenOff),
        Command::Ie140 { .. } => is_in(said, State::Enquired),
        Command::Amend { .. }
        | Command::Ie015 { .. }
        | Command::SeeHolder { .. }
        | Command::SeeMovement { .. }
        | Command::SeeMovements { .. }
        | Command::SeeGuarantee { .. }
        | Command::SeeGuarantees { .. } => same,
    }
}

// The same of an opening.
fn is_opened_again(said: &Said, same: bool) -> bool
    ensures { IsTrue result ↔ IsOpenedAgain (IsTrue same) said.now }
{
    match said {
        Said::Answered(Answer::Opened { .. }) => !same,
        _ => is_refused(said, Refusal::SerialsSpent),
    }
}

/// The body of the reply that tells it is the text that rows show: nothing in it is escaped.
pub fn said_is_told_in(said: &Said)
    ensures { said_body said.now ≡ body_text said.now }
{
    match said {
        Said::Answered(answer) => answer_is_told_in(answer),
        Said::Refused(refusal) => refusal_is_told_in(*refusal),
    }
}

// That body. `AllocError`: want of memory for it.
fn body_of(alloc: Global, said: &Said) -> Result<String, AllocError>
    ensures { IfOk result (λ text. string_bytes text ≡ body_text said.now) }
{
    said_is_told_in(said);
    said_body(alloc, said)
}

// How a redo ends, by the decision on the row's command and the body of the row's reply. `AllocError`: want of memory for
// the body of the reply now.
fn ending_of(
    alloc: Global,
    command: &Command,
    decision: &Decision,
    reply: &[u8],
) -> Result<Redone, AllocError>
    ensures { IfOk result (λ ending. IsEndingFor ending command.now reply.now (is_change decision.now.change)
        decision.now.said) }
{
    let body = body_of(alloc, decision.said())?;
    let same = body.as_bytes() == reply;
    if same && decision.changes() {
        return Ok(Redone::Carried);
    }
    if is_second(command, decision.said(), same) {
        return Ok(Redone::Stands);
    }
    Ok(Redone::Foreign)
}

/// Redoes the last row of a journal at the desk of its file. The row's command is carried, at its moment, where it is an accepted
/// change that is told by `reply`, the body of the reply in the row. Else nothing is changed, and whether the row stands already
/// is told. `NoMemory` is want of memory, also for the body that is compared, and `Store` a fault of the store; neither changes
/// what a live desk shows.
pub fn redo_row<D: Desk>(
    alloc: Global,
    desk: &mut D,
    stamped: &Stamped,
    reply: &[u8],
) -> Result<Redone, Fault>
    ensures clean { D.seen.is_clean desk.new → D.seen.is_clean desk.old }
    ensures live { D.seen.is_clean desk.new → D.seen.is_live desk.new → D.seen.is_live desk.old }
    ensures shown { D.seen.is_clean desk.new → OnOk result (D.seen.is_live desk.old × D.seen.is_live desk.new) }
    ensures ends { D.seen.is_clean desk.new → IsSound (D.seen.content desk.old)
        → IfOk result (λ ending. IsRedoneAs ending stamped.now reply.now (D.seen.content desk.old) (D.seen.content desk.new)) }
    ensures err { D.seen.is_clean desk.new → D.seen.is_live desk.new
        → OnErr result (D.seen.content desk.new ≡ D.seen.content desk.old) }
    ensures store { result ≡ Err Fault.Store → D.seen.has_store }
    ensures memory { D.seen.is_clean desk.new → result ≡ Err Fault.NoMemory → D.seen.is_live desk.new }
    ensures proper { IsProper stamped.now.command }
    ensures crash { D.seen.is_clean desk.new → AddsAtMost D.seen
        (λ x. D.seen.is_live desk.old × (IsSound (D.seen.content desk.old)
        → IsRedoneAs Redone.Carried stamped.now reply.now (D.seen.content desk.old) x)) desk.old desk.new }
    ensures settled { D.seen.is_clean desk.new → IsSettled D.seen desk.new }
    ensures calls { IsRedoneBy D.seen desk.old stamped.now result desk.new }
{
    let decision = desk.weigh(alloc, stamped.at, &stamped.command)?;
    let Ok(ending) = ending_of(alloc, &stamped.command, &decision, reply) else {
        decision.waive();
        return Err(Fault::NoMemory);
    };
    match ending {
        Redone::Carried => {
            let _said = desk.carry(alloc, decision)?;
            Ok(Redone::Carried)
        }
        Redone::Stands | Redone::Foreign => {
            decision.waive();
            Ok(ending)
        }
    }
}
