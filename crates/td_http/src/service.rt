//! The desk as a service: a request is read, weighed, its reply is built, and only then it is carried.
ghost use Rattle.std.specs.Prelude.{◌≡◌, ◌≢◌, ◌⊎◌, None, Bool, true, not, is_ok, MatchResult, option_map};
ghost use Rattle.td_fields.specs.Faults.{allowed_text};
ghost use Rattle.http_wire.specs.ReplyText.{head_text, is_made, bytes_of};
ghost use Rattle.td_commands.specs.declared.command.Stamped.{Stamped};
ghost use Rattle.td_commands.specs.declared.said.Said.{Said};
ghost use Rattle.td_desk.specs.declared.fault.Fault.TheVariants as fault;
ghost use Rattle.td_desk.specs.declared.running.Outcome.TheVariants as outcome;
ghost use Rattle.td_desk.specs.Runs.{IsOutcomeOf, IsStep, LeavesAfter};
ghost use Rattle.td_desk.specs.View.{IsSettled};
ghost use Rattle.http_wire.specs.Wire.{asked};
ghost use Rattle.td_http.specs.Serving.{fixed_reply, IsCausedBy, IsReplyTo, IsFaultReply, HandledAs};
ghost use Rattle.td_answers.specs.Answers.{said_reply};

use http_wire::{Reply, Request, head_reply};
use std::alloc::Global;
use td_acts::Command;
use td_answers::{fault_bytes, reply_bytes};
use td_desk::{Desk, Fault};
use td_routes::{Allowed, Routes, WebFault, path, read_command_by};

/// A desk that answers HTTP requests.
#[derive(Drop)]
pub struct Service<D: Desk> {
    desk: D,
    routes: Routes,
}

// Weighs a command, builds the bytes of the reply, and carries the decision, in this order: what could not be
// told isn't done.
fn weigh_and_carry<D: Desk>(
    alloc: Global,
    desk: &mut D,
    at: i64,
    command: &Command,
    close: bool,
) -> Result<Vec<u8>, Fault>
    ensures clean { D.seen.is_clean desk.new → D.seen.is_clean desk.old }
    ensures live { D.seen.is_clean desk.new → D.seen.is_live desk.new → D.seen.is_live desk.old }
    ensures answered { D.seen.is_clean desk.new → MatchResult result
        (λ bytes. (words : Said) × (bytes.items ≡ said_reply words close)
        × IsStep (D.seen.is_live desk.old) (D.seen.is_live desk.new) (D.seen.content desk.old)
        (record { at = at; command = command.now }) (outcome.Said words) (D.seen.content desk.new))
        (λ why. IsStep (D.seen.is_live desk.old) (D.seen.is_live desk.new) (D.seen.content desk.old)
        (record { at = at; command = command.now }) (outcome.Failed why) (D.seen.content desk.new)) }
    ensures stays { D.seen.is_clean desk.new → D.seen.is_live desk.old → result ≢ Err fault.Store → D.seen.is_live desk.new }
    ensures crash { D.seen.is_clean desk.new → LeavesAfter D.seen desk.old
        (record { at = at; command = command.now }) (not (is_ok result)) desk.new }
    ensures settled { D.seen.is_clean desk.new → IsSettled D.seen desk.new }
    ensures store { result ≡ Err fault.Store → D.seen.has_store }
    // a failure is the desk's own, or of missing memory for the bytes at a desk that didn't fail
    ensures calls { MatchResult result
        (λ bytes. (words : Said)
        × IsOutcomeOf D.seen desk.old (record { at = at; command = command.now }) (outcome.Said words) desk.new)
        (λ why. IsOutcomeOf D.seen desk.old (record { at = at; command = command.now }) (outcome.Failed why) desk.new
        ⊎ ((why ≡ fault.NoMemory) × D.seen.weighed desk.old (record { at = at; command = command.now }) None desk.new)) }
{
    // no `?`: a decision is large, and `?` would copy it twice more
    let decision = match desk.weigh(alloc, at, command) {
        Ok(decision) => decision,
        Err(fault) => return Err(fault),
    };
    let bytes = match reply_bytes(alloc, decision.said(), close) {
        Ok(bytes) => bytes,
        Err(error) => {
            decision.waive();
            return Err(Fault::from(error));
        }
    };
    let _said = desk.carry(alloc, decision)?;
    Ok(bytes)
}

// The fixed reply to a command that failed.
fn reply_to_fault(fault: Fault) -> Reply
    ensures fixed { (close : Bool) → IsReplyTo (outcome.Failed fault) close result }
    ensures store { result ≡ Reply.Store → fault ≡ Fault.Store }
    ensures reply { result ≡ fixed_reply fault }
{
    match fault {
        Fault::NoMemory => Reply::NoMemory,
        Fault::Store => Reply::Store,
    }
}

// The reply to a command.
fn reply_to_command<D: Desk>(
    alloc: Global,
    desk: &mut D,
    at: i64,
    command: &Command,
    close: bool,
) -> Reply
    ensures clean { D.seen.is_clean desk.new → D.seen.is_clean desk.old }
    ensures live { D.seen.is_clean desk.new → D.seen.is_live desk.new → D.seen.is_live desk.old }
    ensures handled { D.seen.is_clean desk.new
        → HandledAs (D.seen.is_live desk.old) (D.seen.is_live desk.new) (D.seen.content desk.old) at (Ok command.now) close result
        (D.seen.content desk.new) }
    ensures stays { D.seen.is_clean desk.new → D.seen.is_live desk.old → result ≢ Reply.Store → D.seen.is_live desk.new }
    ensures crash { D.seen.is_clean desk.new → LeavesAfter D.seen desk.old
        (record { at = at; command = command.now }) (not (is_made result)) desk.new }
    ensures settled { D.seen.is_clean desk.new → IsSettled D.seen desk.new }
    ensures store { result ≡ Reply.Store → D.seen.has_store }
    ensures calls { IsCausedBy D.seen desk.old (record { at = at; command = command.now }) result desk.new }
{
    match weigh_and_carry(alloc, desk, at, command, close) {
        Ok(bytes) => Reply::Made(bytes),
        Err(fault) => reply_to_fault(fault),
    }
}

// The reply to a request that can't be read: it changes nothing.
fn reply_to_unread(alloc: Global, fault: &WebFault, close: bool) -> Reply
    ensures memory { fault.now ≡ WebFault.NoMemory → result ≡ Reply.NoMemory }
    ensures told { IsFaultReply fault.now close result }
{
    if let WebFault::NoMemory = fault {
        return Reply::NoMemory;
    }
    match fault_bytes(alloc, fault, close) {
        Ok(bytes) => Reply::Made(bytes),
        Err(_) => Reply::NoMemory,
    }
}

impl<D: Desk> Service<D> {
    ghost use Rattle.td_http.specs.Serving.{desk_of, IsHandledBy, IsHeadHandledBy, IsPrivateAlone};

    /// A service of the desk. It takes no memory.
    pub fn new(desk: D) -> Service<D>
        ensures { desk_of result ≡ desk }
    {
        Service {
            desk,
            routes: Routes::new(),
        }
    }

    /// The desk itself.
    pub fn into_desk(self) -> D
        ensures { result ≡ desk_of self }
    {
        self.desk
    }

    /// The reply to a request that comes at that number of seconds since 1970. A fixed reply is of a fault:
    /// a desk that is still live shows nothing changed, and what was answered `Store` may stand when the store is
    /// opened again. A request that can't be read doesn't ask the desk.
    pub fn handle(&mut self, alloc: Global, at: i64, request: &Request) -> Reply
        ensures handled { IsHandledBy D.seen self.old at
            (asked request.now) result self.new }
        ensures alone { IsPrivateAlone D.seen self.old at (asked request.now) result self.new }
    {
        match read_command_by(alloc, &mut self.routes, request) {
            Ok(command) => reply_to_command(alloc, &mut self.desk, at, &command, request.close),
            Err(fault) => reply_to_unread(alloc, &fault, request.close),
        }
    }

    /// The reply to a HEAD request for a target: a head alone, which tells the methods of the path where the
    /// desk has it. The desk stays as it is.
    pub fn head(&mut self, alloc: Global, target: &[u8]) -> Reply
        ensures { IsHeadHandledBy self.old target.now result self.new }
    {
        let Some(path) = path(target) else {
            return reply_to_head(alloc, None);
        };
        match self.routes.methods(alloc, path) {
            Ok(methods) => reply_to_head(alloc, methods),
            Err(_) => Reply::NoMemory,
        }
    }
}

// A head that tells methods.
fn reply_to_head(alloc: Global, methods: Option<Allowed>) -> Reply
    ensures { (result ≡ Reply.NoMemory)
        ⊎ ((is_made result ≡ true) × (bytes_of result ≡ head_text (option_map allowed_text methods))) }
{
    let allow = match methods {
        Some(methods) => Some(methods.text()),
        None => None,
    };
    match head_reply(alloc, allow) {
        Ok(bytes) => Reply::Made(bytes),
        Err(_) => Reply::NoMemory,
    }
}
