//! Rows of result files.
ghost use Rattle.std.specs.Prelude.{◌≡◌, IfOk, string_bytes};
ghost use Rattle.td_batch.specs.Results.{act_line, act_result, declaration_result, outcome_text, state_reached};

use std::alloc::{AllocError, Global};
use td_acts::{Answer, Command, Said};
use td_base::Mrn;
use td_movement::State;

// The name of the state that an act reached.
fn state_reached(answer: &Answer) -> &'static str
    ensures { result.now ≡ state_reached answer.now }
{
    match answer {
        Answer::Ie029 { .. } => State::Released.name(),
        Answer::Ie006 { .. } => State::Arrived.name(),
        Answer::Ie018 { state, .. } => state.name(),
        Answer::Ie045 { .. } => State::WrittenOff.name(),
        Answer::Ie140 { .. } => State::Enquired.name(),
        _ => "",
    }
}

fn outcome(said: &Said) -> &'static str
    ensures { result.now ≡ outcome_text said.now }
{
    match said {
        Said::Answered(answer) => state_reached(answer),
        Said::Refused(refusal) => refusal.name(),
    }
}

fn act_line(alloc: Global, message: &str, mrn: Mrn, said: &Said) -> Result<String, AllocError>
    ensures { IfOk result (λ line. string_bytes line ≡ act_line message.now mrn said.now) }
{
    format!(in alloc; "{message},{mrn},{}\n", outcome(said))
}

/// The result row of an act, to which this is said: its message, its MRN and the state reached, or the refusal's name.
pub(crate) fn act_row(alloc: Global, act: &Command, said: &Said) -> Result<String, AllocError>
    ensures { IfOk result (λ row. string_bytes row ≡ act_result act.now said.now) }
{
    match act {
        Command::Ie029 { mrn, .. } => act_line(alloc, "IE029", *mrn, said),
        Command::Ie007 { mrn, .. } => act_line(alloc, "IE007", *mrn, said),
        Command::Ie018 { mrn, .. } => act_line(alloc, "IE018", *mrn, said),
        Command::Ie045 { mrn, .. } => act_line(alloc, "IE045", *mrn, said),
        Command::Ie140 { mrn } => act_line(alloc, "IE140", *mrn, said),
        _ => Ok(String::new(alloc)),
    }
}

/// The result row of a declaration, to which this is said: its holder, its LRN, and `IE028` with the MRN, or the refusal's
/// name.
pub(crate) fn declaration_row(
    alloc: Global,
    declaration: &Command,
    said: &Said,
) -> Result<String, AllocError>
    ensures { IfOk result (λ row. string_bytes row ≡ declaration_result declaration.now said.now) }
{
    match (declaration, said) {
        (Command::Ie015 { holder, lrn, .. }, Said::Answered(Answer::Ie028 { mrn, .. })) => {
            format!(in alloc; "{holder},{lrn},IE028,{mrn}\n")
        }
        (Command::Ie015 { holder, lrn, .. }, Said::Refused(refusal)) => {
            format!(in alloc; "{holder},{lrn},{},\n", refusal.name())
        }
        _ => Ok(String::new(alloc)),
    }
}
