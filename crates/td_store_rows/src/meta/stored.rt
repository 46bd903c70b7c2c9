//! The office's own row, read from the columns that a statement shows.
ghost use Rattle.std.specs.Prelude.{◌≡◌, IfSome, IfOk, map};
ghost use Rattle.std.specs.Option.{option_to_list};
ghost use Rattle.td_store_rows.specs.Columns.{meta_from};
ghost use Rattle.td_store_rows.specs.MetaTable.{stored_of};

use sqlite::{Error, ErrorCode, Row};
use td_base::Country;
use typed_sql::{integer_at, only, text_at};

/// The office's own row: the version of the tables, and the country, `None` where the text in it isn't two capital letters.
#[derive(Clone, Copy, Debug, PartialEq, Eq)]
pub struct StoredMeta {
    pub version: i64,
    pub country: Option<Country>,
}

// What two columns say: `None` where the first is no integer or the second no text.
fn read_meta(row: &Row) -> Option<StoredMeta>
    ensures { IfSome result (λ m. m ≡ stored_of (meta_from row.now)) }
{
    Some(StoredMeta {
        version: integer_at(row, 0)?,
        country: Country::read(text_at(row, 1)?),
    })
}

/// What the one row of two columns says, if there is one. `DatabaseCorrupt`: there are several, or its columns aren't an
/// integer and a text.
pub(crate) fn only_meta(rows: Vec<Row>) -> Result<Option<StoredMeta>, Error>
    ensures { IfOk result (λ one. option_to_list one ≡ map stored_of (map meta_from rows.items)) }
{
    let Some(row) = only(rows)? else {
        return Ok(None);
    };
    match read_meta(&row) {
        Some(meta) => Ok(Some(meta)),
        None => Err(Error::SqliteFailure(ErrorCode::DatabaseCorrupt)),
    }
}
