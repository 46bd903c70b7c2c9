//! Fields read from the columns of a row, counted from 0: `None` where the value is none of the field's. A column that isn't
//! there counts as NULL.
ghost use Rattle.std.specs.Prelude.{◌≡◌, ◌≢◌, None, IfSome};
ghost use Rattle.sqlite_value.specs.Order.{column};
ghost use Rattle.sqlite_value.specs.declared.value.Value.TheVariants.{Text};
ghost use Rattle.td_movement.specs.States.{state_name};
ghost use Rattle.td_movement.specs.declared.state.State.{State};
ghost use Rattle.typed_sql.specs.Values.{number_value, number_or_null, text_or_null};
ghost use Rattle.td_schema.specs.Fields.{amount_in, code_in, cover_in, day_in, eori_in, grn_in, holder_in, lrn_in, moment_in, mrn_in, office_in, optional_in, serial_in};

use sqlite::Row;
use td_base::{AccessCode, Cents, Cover, Day, Eori, Grn, HolderNo, Lrn, Moment, Mrn, OfficeNo};
use td_movement::State;
use typed_sql::{integer_at, is_null_at, number_at, text_at};

/// The number of a holder.
pub fn holder_at(row: &Row, at: usize) -> Option<HolderNo>
    ensures value { result ≡ holder_in (column row.now at) }
    ensures stored { IfSome result (λ holder. column row.now at ≡ number_value holder) }
{
    HolderNo::new(serial_at(row, at)?)
}

/// A serial, or a count of serials.
pub fn serial_at(row: &Row, at: usize) -> Option<u32>
    ensures value { result ≡ serial_in (column row.now at) }
    ensures stored { IfSome result (λ serial. column row.now at ≡ number_value serial) }
{
    u32::try_from(number_at(row, at)?).ok()
}

/// An EORI.
pub fn eori_at(row: &Row, at: usize) -> Option<Eori>
    ensures value { result ≡ eori_in (column row.now at) }
    ensures stored { IfSome result (λ eori. column row.now at ≡ Text eori) }
{
    Eori::read(text_at(row, at)?)
}

/// A GRN.
pub fn grn_at(row: &Row, at: usize) -> Option<Grn>
    ensures value { result ≡ grn_in (column row.now at) }
    ensures stored { IfSome result (λ grn. column row.now at ≡ Text grn) }
{
    Grn::read(text_at(row, at)?).ok()
}

/// An MRN.
pub fn mrn_at(row: &Row, at: usize) -> Option<Mrn>
    ensures value { result ≡ mrn_in (column row.now at) }
    ensures stored { IfSome result (λ mrn. column row.now at ≡ Text mrn) }
{
    Mrn::read(text_at(row, at)?).ok()
}

/// An LRN.
pub fn lrn_at(row: &Row, at: usize) -> Option<Lrn>
    ensures value { result ≡ lrn_in (column row.now at) }
    ensures stored { IfSome result (λ lrn. column row.now at ≡ Text lrn) }
{
    Lrn::read(text_at(row, at)?)
}

/// An access code.
pub fn code_at(row: &Row, at: usize) -> Option<AccessCode>
    ensures value { result ≡ code_in (column row.now at) }
    ensures stored { IfSome result (λ code. column row.now at ≡ Text code) }
{
    AccessCode::read(text_at(row, at)?)
}

/// The number of an office.
pub fn office_at(row: &Row, at: usize) -> Option<OfficeNo>
    ensures value { result ≡ office_in (column row.now at) }
    ensures stored { IfSome result (λ office. column row.now at ≡ Text office) }
{
    OfficeNo::read(text_at(row, at)?)
}

/// The number of an office, or NULL.
pub fn optional_office_at(row: &Row, at: usize) -> Option<Option<OfficeNo>>
    ensures value { result ≡ optional_in office_in (column row.now at) }
    ensures stored { IfSome result (λ office. column row.now at ≡ text_or_null office) }
{
    if is_null_at(row, at) {
        return Some(None);
    }
    Some(Some(office_at(row, at)?))
}

/// The state of a movement, by its name.
pub fn state_at(row: &Row, at: usize) -> Option<State>
    ensures stored { IfSome result (λ state. column row.now at ≡ Text (state_name state)) }
    ensures none { result ≡ None → (state : State) → column row.now at ≢ Text (state_name state) }
{
    State::read(text_at(row, at)?)
}

/// A moment, in seconds since 1970.
pub fn moment_at(row: &Row, at: usize) -> Option<Moment>
    ensures value { result ≡ moment_in (column row.now at) }
    ensures stored { IfSome result (λ moment. column row.now at ≡ number_value moment) }
{
    Moment::new(integer_at(row, at)?).ok()
}

/// A day, by its number.
pub fn day_at(row: &Row, at: usize) -> Option<Day>
    ensures value { result ≡ day_in (column row.now at) }
    ensures stored { IfSome result (λ day. column row.now at ≡ number_value day) }
{
    Day::new(integer_at(row, at)?)
}

/// A day, by its number, or NULL.
pub fn optional_day_at(row: &Row, at: usize) -> Option<Option<Day>>
    ensures value { result ≡ optional_in day_in (column row.now at) }
    ensures stored { IfSome result (λ day. column row.now at ≡ number_or_null day) }
{
    if is_null_at(row, at) {
        return Some(None);
    }
    Some(Some(day_at(row, at)?))
}

/// An amount, in cents.
pub fn amount_at(row: &Row, at: usize) -> Option<Cents>
    ensures value { result ≡ amount_in (column row.now at) }
    ensures stored { IfSome result (λ cents. column row.now at ≡ number_value cents) }
{
    Cents::new(number_at(row, at)?)
}

/// A cover, in percent.
pub fn cover_at(row: &Row, at: usize) -> Option<Cover>
    ensures value { result ≡ cover_in (column row.now at) }
    ensures stored { IfSome result (λ cover. column row.now at ≡ number_value cover) }
{
    Cover::new(number_at(row, at)?)
}
