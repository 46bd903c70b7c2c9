//! Fields as values of statements. Contracts say what each is bound as.
ghost use Rattle.std.specs.Prelude.{◌≡◌, [], ◌∷◌};
ghost use Rattle.sqlite.specs.Values.{bound, bound_value};
ghost use Rattle.sqlite_value.specs.Value.{owned};
ghost use Rattle.typed_sql.specs.Values.{number_value, number_or_null, text_or_null};

use sqlite_value::value::ValueRef;
use td_base::{Cents, Cover, Day, HolderNo, OfficeNo};

/// A number.
pub fn number_of(number: u32) -> ValueRef<'static>
    ensures { bound_value (owned result) ≡ number_value number }
{
    ValueRef::Int(i64::from(number))
}

/// A day, by its number.
pub fn day_of(day: Day) -> ValueRef<'static>
    ensures { bound_value (owned result) ≡ number_value day }
{
    ValueRef::Int(day.number())
}

/// A day, by its number, or NULL.
pub fn day_or_null(day: Option<Day>) -> ValueRef<'static>
    ensures { bound_value (owned result) ≡ number_or_null day }
{
    match day {
        Some(day) => day_of(day),
        None => ValueRef::Null,
    }
}

/// An amount, in cents.
pub fn amount_of(amount: Cents) -> ValueRef<'static>
    ensures { bound_value (owned result) ≡ number_value amount }
{
    ValueRef::Int(amount.get() as i64)
}

/// An amount, in cents, or NULL.
pub fn amount_or_null(amount: Option<Cents>) -> ValueRef<'static>
    ensures { bound_value (owned result) ≡ number_or_null amount }
{
    match amount {
        Some(amount) => amount_of(amount),
        None => ValueRef::Null,
    }
}

/// A cover, in percent.
pub fn cover_of(cover: Cover) -> ValueRef<'static>
    ensures { bound_value (owned result) ≡ number_value cover }
{
    ValueRef::Int(cover.get() as i64)
}

/// A cover, in percent, or NULL.
pub fn cover_or_null(cover: Option<Cover>) -> ValueRef<'static>
    ensures { bound_value (owned result) ≡ number_or_null cover }
{
    match cover {
        Some(cover) => cover_of(cover),
        None => ValueRef::Null,
    }
}

/// The number of an office, or NULL.
pub fn office_or_null(office: &Option<OfficeNo>) -> ValueRef<'_>
    ensures { bound_value (owned result) ≡ text_or_null office.now }
{
    match office {
        Some(office) => ValueRef::Text(office.as_bytes()),
        None => ValueRef::Null,
    }
}

/// What the rows of a holder are asked for by.
pub fn holder_key(holder: HolderNo) -> [ValueRef<'static>; 1]
    ensures { bound result ≡ number_value holder ∷ [] }
{
    [number_of(holder.number())]
}

/// What the rows of a holder's guarantee, or movement, with a serial are asked for by.
pub fn serial_key(holder: HolderNo, serial: u32) -> [ValueRef<'static>; 2]
    ensures { bound result ≡ number_value holder ∷ number_value serial ∷ [] }
{
    [number_of(holder.number()), number_of(serial)]
}
