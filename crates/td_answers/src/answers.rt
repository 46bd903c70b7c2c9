//! What the desk says, as JSON.
#![tactic(auto, unfolding(serde_json::proofs::OnLiterals::serde_json_on_literals))]

ghost use Rattle.std.specs.Fmt.{WritesOnOk};
ghost use Rattle.std.specs.Prelude.{◌≡◌, IfOk, IsTrue, string_bytes};
ghost use Rattle.std.specs.List.{list_all};
ghost use Rattle.serde_json.specs.Written.{compact_text};
ghost use Rattle.td_answers.specs.Unescaped.{is_unescaped};
ghost use Rattle.td_base.specs.Days.{day_text};
ghost use Rattle.td_base.specs.Codes.{holder_text};
ghost use Rattle.td_movement.specs.States.{state_name};
ghost use Rattle.td_commands.specs.declared.said.Said.TheVariants.{Answered};
ghost use Rattle.td_answers.specs.Answers.{answer_body, answer_data, fault_body, fault_data, fault_reply, fault_status, fault_text, holder_data, release_data, said_body, said_data, said_reply, said_status, state_data, stops_after};
ghost use Rattle.td_fields.specs.declared.fault.WebFault.TheVariants.{NoMemory};
ghost use Rattle.http_wire.specs.ReplyText.{no_memory_reply};

use crate::json::{Json, ToJson};
use crate::lists::{guarantees_are_told_in, movements_are_told_in};
use crate::objects::{guarantee_is_told_in, is_grn, is_mrn, movement_is_told_in, write_guarantee};
use crate::refusals::refusal_status_of;
use http::StatusCode;
use http_wire::json_reply;
use std::alloc::{AllocError, Global};
use std::fmt;
use td_base::{Day, Eori, HolderNo, Mrn};
use td_commands::{Answer, Said};
use td_fields::{WebFault, reason_name};
use td_movement::State;

impl ToJson for Answer {
    ghost shown = { answer_data };

    fn write_json<W: fmt::Write>(&self, f: &mut fmt::Formatter<W>) -> fmt::Result {
        match self {
            Answer::Holder {
                holder,
                eori,
                guarantees,
                movements,
            } => write_holder(f, *holder, eori, *guarantees, *movements),
            Answer::Opened { grn } => write!(f, r#"{{"grn":{}}}"#, Json(grn)),
            Answer::Revoked { ends, grn } => write!(
                f,
                r#"{{"ends":{},"grn":{}}}"#,
                Json(ends),
                Json(grn)
            ),
            Answer::Ie028 { lrn, mrn } => write!(
                f,
                r#"{{"lrn":{},"message":"IE028","mrn":{}}}"#,
                Json(lrn),
                Json(mrn)
            ),
            Answer::Ie014 { mrn } => write_state(f, "IE014", mrn, State::Cancelled),
            Answer::Ie029 { limit, mrn } => write_release(f, *limit, mrn),
            Answer::Ie006 { late, mrn } => write!(
                f,
                r#"{{"late":{},"message":"IE006","mrn":{}}}"#,
                Json(late),
                Json(mrn)
            ),
            Answer::Ie018 { mrn, state } => write_state(f, "IE018", mrn, *state),
            Answer::Ie045 { mrn } => write_state(f, "IE045", mrn, State::WrittenOff),
            Answer::Ie140 { mrn } => write_state(f, "IE140", mrn, State::Enquired),
            Answer::Movement(movement) => movement.write_json(f),
            Answer::Movements(movements) => movements.write_json(f),
            Answer::Guarantee(guarantee, used) => write_guarantee(f, guarantee, *used),
            Answer::Guarantees(guarantees) => guarantees.write_json(f),
        }
    }
}

// Writes what is told of a holder.
fn write_holder<W: fmt::Write>(
    f: &mut fmt::Formatter<W>,
    holder: HolderNo,
    eori: &Eori,
    guarantees: u32,
    movements: u32,
) -> fmt::Result
    ensures { WritesOnOk W.write_str_gives f.old result
        (compact_text (holder_data eori.now guarantees (holder_text holder) movements)) f.new }
{
    // nothing in these texts is escaped, so each stands between its quotes as it is
    let _form = eori.as_bytes();
    write!(
        f,
        r#"{{"eori":"{eori}","guarantees":{guarantees},"holder":"{holder}","movements":{movements}}}"#
    )
}

// Writes a release, and the day by which the movement has to arrive.
fn write_release<W: fmt::Write>(f: &mut fmt::Formatter<W>, limit: Day, mrn: &Mrn) -> fmt::Result
    ensures { WritesOnOk W.write_str_gives f.old result (compact_text (release_data (day_text limit) mrn.now)) f.new }
{
    let _form = mrn.as_bytes();
    write!(
        f,
        r#"{{"limit":"{limit}","message":"IE029","mrn":"{mrn}","state":"released"}}"#
    )
}

// Writes a message of that name about a movement, and the state in which the movement is then.
fn write_state<W: fmt::Write>(
    f: &mut fmt::Formatter<W>,
    message: &str,
    mrn: &Mrn,
    state: State,
) -> fmt::Result
    requires { IsTrue (list_all is_unescaped message.now) }
    ensures { WritesOnOk W.write_str_gives f.old result
        (compact_text (state_data message.now mrn.now (state_name state))) f.new }
{
    let _form = mrn.as_bytes();
    write!(
        f,
        r#"{{"message":"{message}","mrn":"{mrn}","state":"{}"}}"#,
        state.name()
    )
}

impl ToJson for Said {
    ghost shown = { said_data };

    fn write_json<W: fmt::Write>(&self, f: &mut fmt::Formatter<W>) -> fmt::Result {
        match self {
            Said::Answered(answer) => answer.write_json(f),
            Said::Refused(refusal) => refusal.write_json(f),
        }
    }
}

impl ToJson for WebFault {
    ghost shown = { fault_data };

    fn write_json<W: fmt::Write>(&self, f: &mut fmt::Formatter<W>) -> fmt::Result {
        match self {
            WebFault::BadMrn(reason) | WebFault::BadGrn(reason) => write!(
                f,
                r#"{{"error":"{}","reason":"{}"}}"#,
                self.name(),
                reason_name(reason)
            ),
            WebFault::BadField(field) => write!(
                f,
                r#"{{"error":"{}","field":"{}"}}"#,
                self.name(),
                field.name()
            ),
            _ => write!(f, r#"{{"error":"{}"}}"#, self.name()),
        }
    }
}

/// The bytes for which memory is taken at once for a body, beside what it lists. A longer body takes more as it is written.
const BODY_CAPACITY: usize = 1000;
/// The same for each movement in a list: few take more.
const LISTED_MOVEMENT_CAPACITY: usize = 80;
/// The same for each guarantee in a list, with an access code.
const LISTED_GUARANTEE_CAPACITY: usize = 150;

// The bytes for which memory is taken at once for the body that tells it.
fn capacity_of(said: &Said) -> usize {
    let listed = match said {
        Said::Answered(Answer::Movements(movements)) => {
            let count = movements.as_slice().len();
            count.saturating_mul(LISTED_MOVEMENT_CAPACITY)
        }
        Said::Answered(Answer::Guarantees(guarantees)) => {
            let count = guarantees.as_slice().len();
            count.saturating_mul(LISTED_GUARANTEE_CAPACITY)
        }
        _ => 0,
    };
    listed.saturating_add(BODY_CAPACITY)
}

/// The body that tells it, as JSON, in a text that has that capacity at first.
fn body_of<T: ToJson>(alloc: Global, said: &T, capacity: usize) -> Result<String, AllocError>
    ensures { IfOk result (λ s. string_bytes s ≡ compact_text (T.shown said.now)) }
{
    let mut text = String::with_capacity(alloc, capacity)?;
    write!(text, "{}", Json(said))?;
    Ok(text)
}

fn status_of(said: &Said) -> StatusCode
    ensures { result ≡ said_status said.now }
{
    match said {
        Said::Answered(_) => StatusCode::OK,
        Said::Refused(refusal) => refusal_status_of(refusal),
    }
}

fn fault_status_of(fault: &WebFault) -> StatusCode
    ensures { result ≡ fault_status fault.now }
{
    match fault {
        WebFault::NoRoute => StatusCode::NOT_FOUND,
        WebFault::NoMethod { .. } => StatusCode::METHOD_NOT_ALLOWED,
        WebFault::BadHolder
        | WebFault::BadMrn(_)
        | WebFault::BadGrn(_)
        | WebFault::BadBody
        | WebFault::BadField(_) => StatusCode::BAD_REQUEST,
        WebFault::NoMemory => StatusCode::SERVICE_UNAVAILABLE,
    }
}

/// The whole reply to a command on which the desk says that. `close` tells that the stream stops after it.
/// `AllocError`: want of memory for the reply.
pub fn reply_bytes(alloc: Global, said: &Said, close: bool) -> Result<Vec<u8>, AllocError>
    ensures { IfOk result (λ v. v.items ≡ said_reply said.now close) }
{
    let body = said_body(alloc, said)?;
    json_reply(alloc, status_of(said), None, close, &body)
}

/// The body of that reply, as JSON. `AllocError`: want of memory for it.
pub fn said_body(alloc: Global, said: &Said) -> Result<String, AllocError>
    ensures { IfOk result (λ text. string_bytes text ≡ said_body said.now) }
{
    body_of(alloc, said, capacity_of(said))
}

// Whether the stream stops after the reply.
fn stops_after(fault: &WebFault, close: bool) -> bool
    ensures { result ≡ stops_after fault.now close }
{
    match fault {
        WebFault::NoMemory => true,
        _ => close,
    }
}

/// The whole reply to a request that can't be read. `close` tells that the stream stops after it; where memory is
/// missing it always does, and the reply is the fixed one. `AllocError`: want of memory for the reply.
pub fn fault_bytes(alloc: Global, fault: &WebFault, close: bool) -> Result<Vec<u8>, AllocError>
    ensures told { IfOk result (λ v. v.items ≡ fault_reply fault.now close) }
    ensures no_memory { fault.now ≡ NoMemory → IfOk result (λ v. v.items ≡ no_memory_reply) }
{
    let body = body_of(alloc, fault, BODY_CAPACITY)?;
    let close = stops_after(fault, close);
    json_reply(alloc, fault_status_of(fault), fault.allow(), close, &body)
}

/// The body that tells why a request can't be read is these very bytes.
pub fn fault_is_told_in(fault: WebFault)
    ensures { fault_body fault ≡ fault_text fault }
{}

/// The body of an answer is these very bytes: nothing in it is escaped.
pub fn answer_is_told_in(answer: &Answer)
    ensures { said_body (Answered answer.now) ≡ answer_body answer.now }
{
    match answer {
        Answer::Holder { eori, .. } => {
            let _eori = eori.as_bytes();
        }
        Answer::Opened { grn } => is_grn(grn),
        Answer::Revoked { grn, .. } => is_grn(grn),
        Answer::Ie028 { lrn, mrn } => {
            let _lrn = lrn.as_bytes();
            is_mrn(mrn);
        }
        Answer::Ie014 { mrn } => is_mrn(mrn),
        Answer::Ie029 { mrn, .. } => is_mrn(mrn),
        Answer::Ie006 { mrn, .. } => is_mrn(mrn),
        Answer::Ie018 { mrn, .. } => is_mrn(mrn),
        Answer::Ie045 { mrn } => is_mrn(mrn),
        Answer::Ie140 { mrn } => is_mrn(mrn),
        Answer::Movement(movement) => movement_is_told_in(movement),
        Answer::Movements(movements) => movements_are_told_in(movements.as_slice()),
        Answer::Guarantee(guarantee, used) => guarantee_is_told_in(guarantee, *used),
        Answer::Guarantees(guarantees) => guarantees_are_told_in(guarantees.as_slice()),
    }
}
