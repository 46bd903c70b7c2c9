//! The lines of a declaration's body.
ghost use Rattle.std.specs.Prelude.{◌≡◌, IfOk, codes, option_and_then, option_map};
ghost use Rattle.serde_json.specs.View.{items_view, view};
ghost use Rattle.std.specs.Result.{result_ok};
ghost use Rattle.td_base.specs.References.{grn_read};
ghost use Rattle.td_fields.specs.BodyFields.{text_at, line_in, lines_at, lines_of_body};
ghost use Rattle.td_fields.specs.Faults.{field_name};
ghost use Rattle.td_fields.specs.declared.fault.Field.TheVariants as field;

use crate::body_fields::{array_in, code_in, number_in, text_in};
use crate::fault::Field;
use serde_json::Value;
use std::alloc::{AllocError, Global};
use td_base::{AccessCode, Cents, Grn};
use td_commands::Lines;
use td_movement::Line;

/// The lines that a body says under `lines`: `None` where they are missing, or anything is wrong inside them.
/// `AllocError`: want of memory.
pub(crate) fn lines_in(alloc: Global, body: &Value) -> Result<Option<Lines>, AllocError>
    ensures { IfOk result (λ lines. lines ≡ lines_at (field_name field.Lines) (view body.now)) }
{
    let Some(objects) = array_in(body, Field::Lines.name()) else {
        return Ok(None);
    };
    match read_lines(alloc, objects)? {
        Some(lines) => Ok(Lines::new(lines)),
        None => Ok(None),
    }
}

// The lines that these objects say, in order, or `None` where one of them says none.
fn read_lines(
    alloc: Global,
    objects: &[Value],
) -> Result<Option<Vec<(Line, AccessCode)>>, AllocError>
    ensures { IfOk result (λ lines. option_map (λ v. v.items) lines ≡ lines_of_body (items_view objects.now)) }
{
    let mut lines = Vec::with_capacity(alloc, objects.len())?;
    for object in objects {
        let Some(line) = line_in(object) else {
            return Ok(None);
        };
        lines.push(line)?;
    }
    Ok(Some(lines))
}

// The line that an object says, and the access code beside it.
fn line_in(object: &Value) -> Option<(Line, AccessCode)>
    ensures { result ≡ line_in (view object.now) }
{
    let cents = Cents::new(number_in(object, "cents")?)?;
    let code = code_in(object)?;
    let grn = grn_in(object)?;
    Some((Line { grn, cents }, code))
}

fn grn_in(object: &Value) -> Option<Grn>
    ensures { result
        ≡ option_and_then (λ text. result_ok (grn_read text)) (text_at (codes "grn") (view object.now)) }
{
    let text = text_in(object, "grn")?;
    Grn::read(text.as_bytes()).ok()
}
