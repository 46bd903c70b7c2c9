//! Integers, numbers and texts in the columns of a row that is shown.
ghost use Rattle.std.specs.Prelude.{◌≡◌, IfSome, IsTrue};
ghost use Rattle.std.specs.Option.{option_copied};
ghost use Rattle.sqlite_sql.specs.Ops.{is_null};
ghost use Rattle.sqlite_value.specs.Order.{column};
ghost use Rattle.sqlite_value.specs.declared.value.Value.TheVariants.{Int, Null, Text};
ghost use Rattle.typed_sql.specs.Values.{as_integer, as_number, as_text, number_value};

use sqlite::Row;
use sqlite_value::value::ValueRef;

/// The integer in a column, counted from 0: `None` where there is no such column, or it holds something else, as NULL.
pub fn integer_at(row: &Row, at: usize) -> Option<i64>
    ensures value { result ≡ as_integer (column row.now at) }
    ensures stored { IfSome result (λ n. column row.now at ≡ Int n) }
{
    match row.get_ref(at) {
        Ok(ValueRef::Int(n)) => Some(n),
        _ => None,
    }
}

/// The number in a column, counted from 0: `None` where there is no such column, or it holds something else, as NULL or
/// a negative number.
pub fn number_at(row: &Row, at: usize) -> Option<u64>
    ensures value { result ≡ as_number (column row.now at) }
    ensures stored { IfSome result (λ n. column row.now at ≡ number_value n) }
{
    u64::try_from(integer_at(row, at)?).ok()
}

/// The text in a column, counted from 0: `None` where there is no such column, or it holds something else.
pub fn text_at(row: &Row, at: usize) -> Option<&[u8]>
    ensures value { option_copied result ≡ as_text (column row.now at) }
    ensures stored { IfSome result (λ text. column row.now at ≡ Text text.now) }
{
    match row.get_ref(at) {
        Ok(ValueRef::Text(text)) => Some(text),
        _ => None,
    }
}

/// Whether a column, counted from 0, holds NULL, as one that isn't there does.
pub fn is_null_at(row: &Row, at: usize) -> bool
    ensures value { result ≡ is_null (column row.now at) }
    ensures stored { IsTrue result → column row.now at ≡ Null }
{
    // A column that isn't there is NULL in the definition of a row's columns too, so that this is one equation over `column`.
    match row.get_ref(at) {
        Ok(ValueRef::Null) | Err(_) => true,
        Ok(_) => false,
    }
}
