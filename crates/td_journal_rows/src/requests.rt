//! Commands as the requests that ask for them.
ghost use Rattle.std.specs.Prelude.{◌≡◌, ◌++◌, IfOk, Ok, OnOk, string_bytes};
ghost use Rattle.td_routes.specs.Bodies.{command_of};
ghost use Rattle.td_journal_rows.specs.Requests.{amendment_text, declaration_text, line_text, lines_text, opening_text, request_body, request_method, request_path};

use crate::laws::request_reads_back;
use std::alloc::{AllocError, Global};
use td_base::{AccessCode, Cover, Lrn, OfficeNo, Reference};
use td_commands::Command;
use td_movement::Line;

/// The request that asks for a command, in one form.
#[derive(Debug, Drop)]
pub struct RequestText {
    /// `PUT`, `POST` or `GET`.
    pub method: &'static str,
    pub path: String,
    /// JSON with no space in it, or nothing.
    pub body: String,
}

/// The request that asks for a command: the members of its body stand in the order of the requests' page. `AllocError`:
/// want of memory.
pub fn request_of(alloc: Global, command: &Command) -> Result<RequestText, AllocError>
    ensures method { IfOk result (λ request. request.method.now ≡ request_method command.now) }
    ensures path { IfOk result (λ request. string_bytes request.path ≡ request_path command.now) }
    ensures body { IfOk result (λ request. string_bytes request.body ≡ request_body command.now) }
    // The desk's own reading of requests reads it as the command.
    ensures back { IfOk result (λ request.
        command_of request.method.now (string_bytes request.path) (string_bytes request.body) ≡ Ok command.now) }
{
    request_reads_back(command);
    Ok(RequestText {
        method: method_of(command),
        path: path_of(alloc, command)?,
        body: body_of(alloc, command)?,
    })
}

fn method_of(command: &Command) -> &'static str
    ensures { result.now ≡ request_method command.now }
{
    match command {
        Command::Register { .. } => "PUT",
        Command::OpenGuarantee { .. }
        | Command::Amend { .. }
        | Command::Revoke { .. }
        | Command::Ie015 { .. }
        | Command::Ie014 { .. }
        | Command::AddCode { .. }
        | Command::RemoveCode { .. }
        | Command::Ie029 { .. }
        | Command::Ie007 { .. }
        | Command::Ie018 { .. }
        | Command::Ie045 { .. }
        | Command::Ie140 { .. } => "POST",
        Command::SeeHolder { .. }
        | Command::SeeMovement { .. }
        | Command::SeeMovements { .. }
        | Command::SeeGuarantee { .. }
        | Command::SeeGuarantees { .. } => "GET",
    }
}

fn path_of(alloc: Global, command: &Command) -> Result<String, AllocError>
    ensures { IfOk result (λ path. string_bytes path ≡ request_path command.now) }
{
    match command {
        Command::Register { holder, .. } => format!(in alloc; "/office/holders/{holder}"),
        Command::OpenGuarantee { holder, .. } => {
            format!(in alloc; "/office/holders/{holder}/guarantees")
        }
        Command::Amend { grn, .. } => format!(in alloc; "/office/guarantees/{grn}/amend"),
        Command::Revoke { grn } => format!(in alloc; "/office/guarantees/{grn}/revoke"),
        Command::Ie015 { holder, .. } | Command::SeeMovements { holder } => {
            format!(in alloc; "/holders/{holder}/movements")
        }
        Command::Ie014 { holder, mrn } => {
            format!(in alloc; "/holders/{holder}/movements/{mrn}/ie014")
        }
        Command::AddCode { holder, grn, .. } => {
            format!(in alloc; "/holders/{holder}/guarantees/{grn}/codes/add")
        }
        Command::RemoveCode { holder, grn, .. } => {
            format!(in alloc; "/holders/{holder}/guarantees/{grn}/codes/remove")
        }
        Command::Ie029 { mrn, .. } => format!(in alloc; "/office/movements/{mrn}/ie029"),
        Command::Ie007 { mrn, .. } => format!(in alloc; "/office/movements/{mrn}/ie007"),
        Command::Ie018 { mrn, .. } => format!(in alloc; "/office/movements/{mrn}/ie018"),
        Command::Ie045 { mrn, .. } => format!(in alloc; "/office/movements/{mrn}/ie045"),
        Command::Ie140 { mrn } => format!(in alloc; "/office/movements/{mrn}/ie140"),
        Command::SeeHolder { holder } => format!(in alloc; "/holders/{holder}"),
        Command::SeeMovement { holder, mrn } => {
            format!(in alloc; "/holders/{holder}/movements/{mrn}")
        }
        Command::SeeGuarantee { holder, grn } => {
            format!(in alloc; "/holders/{holder}/guarantees/{grn}")
        }
        Command::SeeGuarantees { holder } => format!(in alloc; "/holders/{holder}/guarantees"),
    }
}

fn body_of(alloc: Global, command: &Command) -> Result<String, AllocError>
    ensures { IfOk result (λ body. string_bytes body ≡ request_body command.now) }
{
    match command {
        Command::Register { eori, .. } => format!(in alloc; "{{\"eori\":\"{eori}\"}}"),
        Command::OpenGuarantee {
            reference,
            cover,
            code,
            ..
        } => opening_body(alloc, *reference, *cover, code),
        Command::Amend {
            reference,
            cover,
            ..
        } => amendment_body(alloc, *reference, *cover),
        Command::Ie015 {
            lrn,
            departure,
            destination,
            lines,
            ..
        } => {
            let lines = lines_text(alloc, lines.as_slice())?;
            declaration_body(alloc, lrn, departure, destination, &lines)
        }
        Command::AddCode { code, .. } | Command::RemoveCode { code, .. } => {
            format!(in alloc; "{{\"code\":\"{code}\"}}")
        }
        Command::Ie029 { limit, .. } => format!(in alloc; "{{\"limit\":\"{limit}\"}}"),
        Command::Ie007 { office, .. } => format!(in alloc; "{{\"office\":\"{office}\"}}"),
        Command::Ie018 { result, .. } => format!(in alloc; "{{\"result\":\"{}\"}}", result.name()),
        Command::Ie045 { ground, .. } => format!(in alloc; "{{\"ground\":\"{}\"}}", ground.name()),
        _ => Ok(String::new(alloc)),
    }
}

fn opening_body(
    alloc: Global,
    reference: Reference,
    cover: Cover,
    code: &AccessCode,
) -> Result<String, AllocError>
    ensures { IfOk result (λ body. string_bytes body ≡ opening_text reference cover code.now) }
{
    let cents = reference.get().get();
    let percent = cover.get();
    format!(in alloc; "{{\"reference\":{cents},\"cover\":{percent},\"code\":\"{code}\"}}")
}

fn amendment_body(alloc: Global, reference: Reference, cover: Cover) -> Result<String, AllocError>
    ensures { IfOk result (λ body. string_bytes body ≡ amendment_text reference cover) }
{
    let cents = reference.get().get();
    let percent = cover.get();
    format!(in alloc; "{{\"reference\":{cents},\"cover\":{percent}}}")
}

fn declaration_body(
    alloc: Global,
    lrn: &Lrn,
    departure: &OfficeNo,
    destination: &OfficeNo,
    lines: &str,
) -> Result<String, AllocError>
    ensures { IfOk result (λ body. string_bytes body ≡ declaration_text lrn.now departure.now destination.now lines.now) }
{
    format!(in alloc;
        "{{\"lrn\":\"{lrn}\",\"departure\":\"{departure}\",\"destination\":\"{destination}\",\"lines\":{lines}}}"
    )
}

// The lines of a declaration, as an array.
fn lines_text(alloc: Global, lines: &[(Line, AccessCode)]) -> Result<String, AllocError>
    ensures { IfOk result (λ text. string_bytes text ≡ lines_text lines.now) }
{
    let Some((first, others)) = lines.split_first() else {
        return String::from_str(alloc, "[]");
    };
    let mut text = String::new(alloc);
    text.push_str("[")?;
    push_line(&mut text, first)?;
    for line in others {
        text.push_str(",")?;
        push_line(&mut text, line)?;
    }
    text.push_str("]")?;
    Ok(text)
}

// Writes a line behind a text.
fn push_line(text: &mut String, line: &(Line, AccessCode)) -> Result<(), AllocError>
    ensures { OnOk result (string_bytes text.new ≡ string_bytes text.old ++ line_text line.now) }
{
    write!(
        text,
        "{{\"cents\":{},\"code\":\"{}\",\"grn\":\"{}\"}}",
        line.0.cents.get(),
        line.1,
        line.0.grn
    )
}
