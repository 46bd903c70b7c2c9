//! The fields of a body: each is `None` where it is missing or ill-formed.
ghost use Rattle.std.specs.Prelude.{◌≡◌, option_and_then, option_map};
ghost use Rattle.serde_json.specs.View.{items_view, view};
ghost use Rattle.td_base.specs.Codes.{code_read, lrn_read, office_read, eori_read};
ghost use Rattle.td_base.specs.Days.{day_read};
ghost use Rattle.td_base.specs.Money.{cover_of, reference_of};
ghost use Rattle.td_fields.specs.BodyFields.{array_at, control_read, ground_read, number_at, text_at};
ghost use Rattle.td_fields.specs.Faults.{field_name};
ghost use Rattle.td_fields.specs.declared.fault.Field.TheVariants as field;

use crate::fault::Field;
use serde_json::Value;
use td_base::{AccessCode, Cover, Day, Eori, Lrn, OfficeNo, Reference};
use td_movement::{Control, Ground};

// The text of a key.
pub(crate) fn text_in<'v>(object: &'v Value, key: &str) -> Option<&'v str>
    ensures { option_map (λ s. s.now) result ≡ text_at key.now (view object.now) }
{
    object.get(key).and_then(Value::as_str)
}

// The whole number of a key.
pub(crate) fn number_in(object: &Value, key: &str) -> Option<u64>
    ensures { result ≡ number_at key.now (view object.now) }
{
    object.get(key).and_then(Value::as_u64)
}

// The elements of a key's array.
pub(crate) fn array_in<'v>(object: &'v Value, key: &str) -> Option<&'v Vec<Value>>
    ensures { option_map (λ v. items_view v.now.items) result ≡ array_at key.now (view object.now) }
{
    object.get(key).and_then(Value::as_array)
}

/// The EORI that a body says under `eori`, if it says one.
pub(crate) fn eori_in(body: &Value) -> Option<Eori>
    ensures { result ≡ option_and_then eori_read (text_at (field_name field.Eori) (view body.now)) }
{
    let text = text_in(body, Field::Eori.name())?;
    Eori::read(text.as_bytes())
}

/// The reference amount, in cents, that a body says under `reference`, if it says one.
pub(crate) fn reference_in(body: &Value) -> Option<Reference>
    ensures { result ≡ option_and_then reference_of (number_at (field_name field.Reference) (view body.now)) }
{
    let cents = number_in(body, Field::Reference.name())?;
    Reference::new(cents)
}

/// The cover, in percent, that a body says under `cover`, if it says one.
pub(crate) fn cover_in(body: &Value) -> Option<Cover>
    ensures { result ≡ option_and_then cover_of (number_at (field_name field.Cover) (view body.now)) }
{
    let percent = number_in(body, Field::Cover.name())?;
    Cover::new(percent)
}

/// The access code that a body or a line says under `code`, if it says one.
pub(crate) fn code_in(object: &Value) -> Option<AccessCode>
    ensures { result ≡ option_and_then code_read (text_at (field_name field.Code) (view object.now)) }
{
    let text = text_in(object, Field::Code.name())?;
    AccessCode::read(text.as_bytes())
}

/// The day by which a movement has to arrive, that a body says under `limit`, if it says one.
pub(crate) fn limit_in(body: &Value) -> Option<Day>
    ensures { result ≡ option_and_then day_read (text_at (field_name field.Limit) (view body.now)) }
{
    let text = text_in(body, Field::Limit.name())?;
    Day::read(text.as_bytes())
}

/// The result of a control (A1, A2 or B1) that a body says under `result`, if it says one.
pub(crate) fn result_in(body: &Value) -> Option<Control>
    ensures { result ≡ option_and_then control_read (text_at (field_name field.Result) (view body.now)) }
{
    let text = text_in(body, Field::Result.name())?;
    Control::read(text.as_bytes())
}

/// The ground of a write-off (`results` or `proof`) that a body says under `ground`, if it says one.
pub(crate) fn ground_in(body: &Value) -> Option<Ground>
    ensures { result ≡ option_and_then ground_read (text_at (field_name field.Ground) (view body.now)) }
{
    let text = text_in(body, Field::Ground.name())?;
    Ground::read(text.as_bytes())
}

/// The LRN that a body says under `lrn`, if it says one.
pub(crate) fn lrn_in(body: &Value) -> Option<Lrn>
    ensures { result ≡ option_and_then lrn_read (text_at (field_name field.Lrn) (view body.now)) }
{
    let text = text_in(body, Field::Lrn.name())?;
    Lrn::read(text.as_bytes())
}

/// The office that a body says under this field's key, if it says one.
pub(crate) fn office_in(body: &Value, field: Field) -> Option<OfficeNo>
    ensures { result ≡ option_and_then office_read (text_at (field_name field) (view body.now)) }
{
    let text = text_in(body, field.name())?;
    OfficeNo::read(text.as_bytes())
}
