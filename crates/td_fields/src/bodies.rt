//! Bodies as commands: each is the JSON text of an object with the command's fields. Unknown keys are ignored, and where
//! it has a key twice, the last stands.
ghost use Rattle.std.specs.Prelude.{◌≡◌, ◌⊎◌, MatchResult, Ok, Err};
ghost use Rattle.serde_json.specs.View.{view};
ghost use Rattle.td_base.specs.Codes.{code_read, office_read};
ghost use Rattle.td_fields.specs.Bodies.{addition_of, amendment_of, arrival_of, control_of, declaration_of, object_of, of_body, opening_of, registration_of, release_of, removal_of, terms_of, text_field, write_off_of};
ghost use Rattle.td_fields.specs.Faults.{OrNoMemory};
ghost use Rattle.td_fields.specs.declared.fault.Field.TheVariants as field;
ghost use Rattle.td_fields.specs.declared.fault.WebFault.TheVariants.{NoMemory};

use crate::body_fields::{
    code_in, cover_in, eori_in, ground_in, limit_in, lrn_in, office_in, reference_in, result_in,
};
use crate::body_lines::lines_in;
use crate::fault::{Field, WebFault};
use serde_json::Value;
use std::alloc::Global;
use td_base::{AccessCode, Cover, Grn, HolderNo, Mrn, OfficeNo, Reference};
use td_commands::Command;

// The object that a body is.
fn read_object(alloc: Global, body: &[u8]) -> Result<Value, WebFault>
    ensures { MatchResult result
        (λ v. object_of body.now ≡ Ok (view v))
        (λ e. (e ≡ NoMemory) ⊎ (object_of body.now ≡ Err e)) }
{
    let value = match Value::from_slice(alloc, body) {
        Ok(value) => value,
        Err(e) => return Err(if e.is_memory() {
            WebFault::NoMemory
        } else {
            WebFault::BadBody
        }),
    };
    if value.is_object() {
        Ok(value)
    } else {
        Err(WebFault::BadBody)
    }
}

/// The registration of a holder that a body asks for, by its `eori`. `holder`: whom it registers. `body`: the
/// request's body as it came, in bytes.
///
/// `BadBody`: the body isn't the JSON text of an object. `BadField(Eori)`: there is no EORI. `NoMemory`: there was no
/// memory to read it.
pub fn read_registration(alloc: Global, holder: HolderNo, body: &[u8]) -> Result<Command, WebFault>
    ensures { OrNoMemory result (of_body body.now (registration_of holder)) }
{
    let body = read_object(alloc, body)?;
    let eori = eori_in(&body).ok_or(WebFault::BadField(Field::Eori))?;
    Ok(Command::Register { holder, eori })
}

/// The opening of a guarantee that a body asks for, by its `reference` (cents), `cover` (percent) and `code`.
/// `holder`: whose guarantee it is to be. `body`: the request's body as it came, in bytes.
///
/// `BadBody`: the body isn't the JSON text of an object. `BadField`: it names the first of these three that is
/// missing or ill-formed. `NoMemory`: there was no memory to read it.
pub fn read_opening(alloc: Global, holder: HolderNo, body: &[u8]) -> Result<Command, WebFault>
    ensures { OrNoMemory result (of_body body.now (opening_of holder)) }
{
    let body = read_object(alloc, body)?;
    read_opening_in(holder, &body)
}

// The same, of the object that the body is.
fn read_opening_in(holder: HolderNo, body: &Value) -> Result<Command, WebFault>
    ensures { result ≡ opening_of holder (view body.now) }
{
    let (reference, cover) = read_terms(body)?;
    let code = read_code(body)?;
    Ok(Command::OpenGuarantee {
        holder,
        reference,
        cover,
        code,
    })
}

/// The amendment of a guarantee that a body asks for, by its `reference` (cents) and `cover` (percent). `grn`: the
/// guarantee. `body`: the request's body as it came, in bytes.
///
/// `BadBody`: the body isn't the JSON text of an object. `BadField`: it names the first of these two that is
/// missing or ill-formed. `NoMemory`: there was no memory to read it.
pub fn read_amendment(alloc: Global, grn: Grn, body: &[u8]) -> Result<Command, WebFault>
    ensures { OrNoMemory result (of_body body.now (amendment_of grn)) }
{
    let body = read_object(alloc, body)?;
    let (reference, cover) = read_terms(&body)?;
    Ok(Command::Amend {
        grn,
        reference,
        cover,
    })
}

/// The declaration that a body is, by its `lrn`, `departure`, `destination` and `lines` (each with an amount in cents).
/// `holder`: who declares. `body`: the request's body as it came, in bytes.
///
/// `BadBody`: the body isn't the JSON text of an object. `BadField`: it names the first of these four that is
/// missing or ill-formed. `NoMemory`: there was no memory to read it.
pub fn read_declaration(alloc: Global, holder: HolderNo, body: &[u8]) -> Result<Command, WebFault>
    ensures { OrNoMemory result (of_body body.now (declaration_of holder)) }
{
    let body = read_object(alloc, body)?;
    read_declaration_in(alloc, holder, &body)
}

// The same, of the object that the body is.
fn read_declaration_in(alloc: Global, holder: HolderNo, body: &Value) -> Result<Command, WebFault>
    ensures { OrNoMemory result (declaration_of holder (view body.now)) }
{
    let lrn = lrn_in(body).ok_or(WebFault::BadField(Field::Lrn))?;
    let departure = read_office(body, Field::Departure)?;
    let destination = read_office(body, Field::Destination)?;
    let lines = lines_in(alloc, body)?.ok_or(WebFault::BadField(Field::Lines))?;
    Ok(Command::Ie015 {
        holder,
        lrn,
        departure,
        destination,
        lines,
    })
}

/// The access code more that a body asks for, by its `code`. `holder`: who asks. `grn`: the guarantee that gets it.
/// `body`: the request's body as it came, in bytes.
///
/// `BadBody`: the body isn't the JSON text of an object. `BadField(Code)`: there is no access code. `NoMemory`: there
/// was no memory to read it.
pub fn read_addition(
    alloc: Global,
    holder: HolderNo,
    grn: Grn,
    body: &[u8],
) -> Result<Command, WebFault>
    ensures { OrNoMemory result (of_body body.now (addition_of holder grn)) }
{
    let body = read_object(alloc, body)?;
    let code = read_code(&body)?;
    Ok(Command::AddCode { holder, grn, code })
}

/// The access code that a body asks to take away, by its `code`. `holder`: who asks. `grn`: the guarantee that has
/// it. `body`: the request's body as it came, in bytes.
///
/// `BadBody`: the body isn't the JSON text of an object. `BadField(Code)`: there is no access code. `NoMemory`: there
/// was no memory to read it.
pub fn read_removal(
    alloc: Global,
    holder: HolderNo,
    grn: Grn,
    body: &[u8],
) -> Result<Command, WebFault>
    ensures { OrNoMemory result (of_body body.now (removal_of holder grn)) }
{
    let body = read_object(alloc, body)?;
    let code = read_code(&body)?;
    Ok(Command::RemoveCode { holder, grn, code })
}

/// The release of a movement that a body is, by its `limit`, the day by which it has to arrive. `mrn`: the movement.
/// `body`: the request's body as it came, in bytes.
///
/// `BadBody`: the body isn't the JSON text of an object. `BadField(Limit)`: there is no day. `NoMemory`: there was no
/// memory to read it.
pub fn read_release(alloc: Global, mrn: Mrn, body: &[u8]) -> Result<Command, WebFault>
    ensures { OrNoMemory result (of_body body.now (release_of mrn)) }
{
    let body = read_object(alloc, body)?;
    let limit = limit_in(&body).ok_or(WebFault::BadField(Field::Limit))?;
    Ok(Command::Ie029 { mrn, limit })
}

/// The arrival of a movement that a body is, by its `office`. `mrn`: the movement. `body`: the request's body as it
/// came, in bytes.
///
/// `BadBody`: the body isn't the JSON text of an object. `BadField(Office)`: there is no office. `NoMemory`: there
/// was no memory to read it.
pub fn read_arrival(alloc: Global, mrn: Mrn, body: &[u8]) -> Result<Command, WebFault>
    ensures { OrNoMemory result (of_body body.now (arrival_of mrn)) }
{
    let body = read_object(alloc, body)?;
    let office = read_office(&body, Field::Office)?;
    Ok(Command::Ie007 { mrn, office })
}

/// The result of a control that a body is, by its `result` (A1, A2 or B1). `mrn`: the movement. `body`: the request's
/// body as it came, in bytes.
///
/// `BadBody`: the body isn't the JSON text of an object. `BadField(Result)`: there is none of these. `NoMemory`:
/// there was no memory to read it.
pub fn read_control(alloc: Global, mrn: Mrn, body: &[u8]) -> Result<Command, WebFault>
    ensures { OrNoMemory result (of_body body.now (control_of mrn)) }
{
    let body = read_object(alloc, body)?;
    let result = result_in(&body).ok_or(WebFault::BadField(Field::Result))?;
    Ok(Command::Ie018 { mrn, result })
}

/// The write-off of a movement that a body is, by its `ground` (`results` or `proof`). `mrn`: the movement. `body`:
/// the request's body as it came, in bytes.
///
/// `BadBody`: the body isn't the JSON text of an object. `BadField(Ground)`: there is neither of these. `NoMemory`:
/// there was no memory to read it.
pub fn read_write_off(alloc: Global, mrn: Mrn, body: &[u8]) -> Result<Command, WebFault>
    ensures { OrNoMemory result (of_body body.now (write_off_of mrn)) }
{
    let body = read_object(alloc, body)?;
    let ground = ground_in(&body).ok_or(WebFault::BadField(Field::Ground))?;
    Ok(Command::Ie045 { mrn, ground })
}

// The terms of a guarantee.
fn read_terms(body: &Value) -> Result<(Reference, Cover), WebFault>
    ensures { result ≡ terms_of (view body.now) }
{
    let reference = reference_in(body).ok_or(WebFault::BadField(Field::Reference))?;
    let cover = cover_in(body).ok_or(WebFault::BadField(Field::Cover))?;
    Ok((reference, cover))
}

fn read_code(body: &Value) -> Result<AccessCode, WebFault>
    ensures { result ≡ text_field field.Code code_read (view body.now) }
{
    code_in(body).ok_or(WebFault::BadField(Field::Code))
}

// The office of a field: an arrival has one, and a declaration two.
fn read_office(body: &Value, field: Field) -> Result<OfficeNo, WebFault>
    ensures { result ≡ text_field field office_read (view body.now) }
{
    office_in(body, field).ok_or(WebFault::BadField(field))
}
