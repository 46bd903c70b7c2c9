//! The row of a change, read of its line.
ghost use Rattle.std.specs.Prelude.{◌≡◌, ◌≢◌, IfOk, IfSome, None, Ok, Some, pos};
ghost use Rattle.td_base.specs.Days.{moment_of};
ghost use Rattle.td_commands.specs.Commands.{is_changing};
ghost use Rattle.td_commands.specs.declared.command.Command.{Command};
ghost use Rattle.td_journal_rows.specs.Requests.{ReadsBack};
ghost use Rattle.td_journal_lines.specs.Lines.{HasRequestOf, IsLine, Numbered};
ghost use Rattle.td_journal_lines.specs.Rows.{numbered};
ghost use Rattle.td_journal_rows.specs.Rows.{IsOneLine};
ghost use Rattle.td_routes.specs.Bodies.{command_of};

use http::Method;
use http::method::MethodError;
use http_wire::Request;
use std::alloc::{AllocError, Global};
use td_base::Moment;
use td_commands::{Command, Stamped};
use td_journal_rows::{JournalRow, read_row, row_of_change, write_row};
use td_routes::{WebFault, read_command};

/// A row of a journal: a change, and the body of the reply to it.
#[derive(Debug, Drop)]
pub struct ChangeRow {
    /// 1 for the first row of a journal, and one more for each.
    pub number: u64,
    /// The change, at its moment.
    pub stamped: Stamped,
    /// The body of the reply.
    pub reply: Vec<u8>,
}

/// The row of a change that is exactly this line; `None`: there is no such row, as where the command is a view. `AllocError`: want of
/// memory.
pub fn row_of(alloc: Global, line: &[u8]) -> Result<Option<ChangeRow>, AllocError>
    requires { IsOneLine line.now }
    ensures row { IfOk result (λ found. IfSome found (λ row. IsLine (numbered row) line.now)) }
    ensures none { IfOk result (λ found. found ≡ None → (r : Numbered) → IsLine r line.now → ⊥) }
{
    let Some(row) = read_row(alloc, line)? else {
        return Ok(None);
    };
    let Some(stamped) = change_in(alloc, &row)? else {
        return Ok(None);
    };
    if !changes(&stamped.command) {
        return Ok(None);
    }
    let again = row_of_change(alloc, row.number, row.at, &stamped.command, &row.reply)?;
    let again = write_row(alloc, &again)?;
    if again.as_slice() != line {
        return Ok(None);
    }
    Ok(Some(ChangeRow {
        number: row.number,
        stamped,
        reply: row.reply,
    }))
}

// Whether a command changes something where it is accepted: the others are views.
fn changes(command: &Command) -> bool
    ensures { result ≡ is_changing command.now }
{
    match command {
        Command::Register { .. }
        | Command::OpenGuarantee { .. }
        | Command::Amend { .. }
        | Command::Revoke { .. }
        | Command::Ie015 { .. }
        | Command::Ie014 { .. }
        | Command::AddCode { .. }
        | Command::RemoveCode { .. }
        | Command::Ie029 { .. }
        | Command::Ie007 { .. }
        | Command::Ie018 { .. }
        | Command::Ie045 { .. }
        | Command::Ie140 { .. } => true,
        Command::SeeHolder { .. }
        | Command::SeeMovement { .. }
        | Command::SeeMovements { .. }
        | Command::SeeGuarantee { .. }
        | Command::SeeGuarantees { .. } => false,
    }
}

// The command that a row tells, at its moment; `None`: its moment is out of range, or its request is none that is read as a command.
fn change_in(alloc: Global, row: &JournalRow) -> Result<Option<Stamped>, AllocError>
    ensures moment { IfOk result (λ found. IfSome found (λ s. moment_of s.at ≡ Some row.now.at)) }
    ensures command { IfOk result (λ found. IfSome found (λ s. command_of row.now.method.items row.now.path.items row.now.body.items ≡ Ok s.command)) }
    ensures none { IfOk result (λ found. found ≡ None → moment_of (pos row.now.at) ≡ Some row.now.at
        → (c : Command) → HasRequestOf c row.now → ReadsBack c → ⊥) }
{
    let Some(at) = moment_in(row.at) else {
        return Ok(None);
    };
    match command_in(alloc, row)? {
        Some(command) => Ok(Some(Stamped { at, command })),
        None => Ok(None),
    }
}

// The moment of that many seconds since 1970, where it is in range.
fn moment_in(seconds: u64) -> Option<i64>
    ensures moment { IfSome result (λ at. moment_of at ≡ Some seconds) }
    ensures none { result ≡ None → moment_of (pos seconds) ≡ None }
{
    let at = i64::try_from(seconds).ok()?;
    Moment::new(at).ok()?;
    Some(at)
}

// The command that a row's request is read as, if it is one.
fn command_in(alloc: Global, row: &JournalRow) -> Result<Option<Command>, AllocError>
    ensures command { IfOk result (λ found. IfSome found (λ c. command_of row.now.method.items row.now.path.items row.now.body.items ≡ Ok c)) }
    ensures none { IfOk result (λ found. found ≡ None → (c : Command) → HasRequestOf c row.now → ReadsBack c → ⊥) }
{
    let method = match Method::from_bytes(alloc, &row.method) {
        Ok(method) => method,
        Err(MethodError::Invalid) => return Ok(None),
        Err(MethodError::OutOfMemory) => return Err(AllocError),
    };
    let request = Request {
        method,
        target: Vec::from_slice(alloc, &row.path)?,
        body: Vec::from_slice(alloc, &row.body)?,
        close: false,
    };
    match read_command(alloc, &request) {
        Ok(command) => Ok(Some(command)),
        Err(fault) => unread(&fault),
    }
}

// What a request is read as that couldn't be read, unless memory was missing: no command.
fn unread(fault: &WebFault) -> Result<Option<Command>, AllocError>
    ensures { IfOk result (λ found. (found ≡ None) × (fault.now ≢ WebFault.NoMemory)) }
{
    match fault {
        WebFault::NoMemory => Err(AllocError),
        _ => Ok(None),
    }
}
